// A trace's places and the refusals of its sender and of the asker of a range. Every function is total, so that the crates
// above share them.
#![tactic(auto)]

ghost use Rattle.std.specs.Prelude.{◌≡◌, ◌+◌, ltb, length};
ghost use Rattle.trace.specs.Trace.{valid_at, both_at};
ghost use Rattle.trace.specs.Refusals.{wrong_map, array_refusal, pair_refusal, range_refusal, trace_refusal};
ghost use Rattle.trace.specs.Outcomes.{outcome_number};
ghost use Rattle.trace.specs.Lent.{mapped, bytes_of, traced, MapAs, LentAs};

mod refusals;

pub use refusals::{Refusal, first, number, refuse};

// The most readings that a trace may have.
pub const MAX_READINGS: usize = 16777216;

// A trace's readings, and its validity map where one is lent.
#[derive(Clone, Copy)]
pub struct Trace<'a> {
    pub values: &'a [f64],
    pub map: Option<&'a [u8]>,
}

// Two traces, whose places are taken together.
#[derive(Clone, Copy)]
pub struct Pair<'a> {
    pub x: Trace<'a>,
    pub y: Trace<'a>,
}

// Whether place i is valid by a map. A place past the map's end reads as missing.
#[tactic(auto, unfolding(crate::specs::Trace::valid_at))]
pub fn is_valid(map: Option<&[u8]>, i: usize) -> bool
    ensures { result ≡ valid_at (mapped map.entry) (bytes_of map.entry) i }
{
    map.is_none_or(|map| {
        map.get(i / 8)
            .is_some_and(|byte| (byte >> (i % 8)) % 2 == 1)
    })
}

// Whether a map has no bit for some of n places.
#[tactic(auto, unfolding(crate::specs::Refusals::wrong_map))]
pub fn is_too_short(map: Option<&[u8]>, n: usize) -> bool
    ensures { result ≡ wrong_map n (mapped map.entry) (bytes_of map.entry) }
{
    map.is_some_and(|map| map.len() < n.div_ceil(8))
}

// What refuses n readings with a map. By a length and not a `Trace`, here and below: readings may be bytes still.
pub fn check_array(n: usize, map: Option<&[u8]>) -> Result<(), Refusal>
    ensures { outcome_number result ≡ array_refusal n (mapped map.entry) (bytes_of map.entry) }
{
    Refusal::TooManyReadings.when(n > MAX_READINGS)?;
    Refusal::MapTooShort.when(is_too_short(map, n))
}

// What refuses two traces.
pub fn check_pair(
    x_len: usize,
    x_map: Option<&[u8]>,
    y_len: usize,
    y_map: Option<&[u8]>,
) -> Result<(), Refusal>
    ensures { outcome_number result ≡ pair_refusal
        x_len (mapped x_map.entry) (bytes_of x_map.entry) y_len (mapped y_map.entry) (bytes_of y_map.entry) }
{
    Refusal::TooManyReadings.when(x_len > MAX_READINGS || y_len > MAX_READINGS)?;
    Refusal::LengthsDiffer.when(x_len != y_len)?;
    Refusal::MapTooShort.when(is_too_short(x_map, x_len) || is_too_short(y_map, y_len))
}

// start + length > n, of numbers whose sum might not fit.
fn past(n: usize, start: usize, length: usize) -> bool
    ensures { result ≡ ltb n (start + length) }
{
    if start > n {
        return true;
    }
    length > n - start
}

// What refuses a range of n readings with a map. A range comes as C gives it, its start and its length.
pub fn check_range(n: usize, map: Option<&[u8]>, start: usize, len: usize) -> Result<(), Refusal>
    ensures { outcome_number result ≡ range_refusal n (mapped map.entry) (bytes_of map.entry) start len }
{
    check_array(n, map)?;
    Refusal::RangePastTrace.when(past(n, start, len))
}

// A map as C lends it: it is looked at where the flag says so.
pub fn lent_map(has_map: bool, map: &[u8]) -> Option<&[u8]>
    ensures { MapAs has_map map.now result }
{
    if has_map { Some(map) } else { None }
}

impl<'a> Trace<'a> {
    // A trace as C lends it.
    pub fn lent(values: &'a [f64], has_map: bool, map: &'a [u8]) -> Self
        ensures { LentAs values.now has_map map.now (traced result) }
    {
        Trace {
            values,
            map: lent_map(has_map, map),
        }
    }

    pub fn len(self) -> usize
        ensures { result ≡ length (traced self.entry).readings }
    {
        self.values.len()
    }

    // Whether place i is valid.
    pub fn is_valid(self, i: usize) -> bool
        ensures { result ≡ valid_at (traced self.entry).mapped (traced self.entry).map i }
    {
        is_valid(self.map, i)
    }

    pub fn check(self) -> Result<(), Refusal>
        ensures { outcome_number result ≡ trace_refusal (traced self.entry) }
    {
        check_array(self.values.len(), self.map)
    }

    // What refuses a range of it.
    pub fn check_range(self, start: usize, len: usize) -> Result<(), Refusal>
        ensures { outcome_number result ≡ range_refusal (length (traced self.entry).readings)
            (traced self.entry).mapped (traced self.entry).map start len }
    {
        check_range(self.values.len(), self.map, start, len)
    }
}

impl Pair<'_> {
    // Whether both traces have place i.
    #[tactic(auto, unfolding(crate::specs::Trace::both_at))]
    pub fn is_valid(self, i: usize) -> bool
        ensures { result ≡ both_at (traced self.entry.x).mapped (traced self.entry.x).map
            (traced self.entry.y).mapped (traced self.entry.y).map i }
    {
        self.x.is_valid(i) && self.y.is_valid(i)
    }

    pub fn check(self) -> Result<(), Refusal>
        ensures { outcome_number result ≡ pair_refusal
            (length (traced self.entry.x).readings) (traced self.entry.x).mapped (traced self.entry.x).map
            (length (traced self.entry.y).readings) (traced self.entry.y).mapped (traced self.entry.y).map }
    {
        check_pair(
            self.x.values.len(),
            self.x.map,
            self.y.values.len(),
            self.y.map,
        )
    }
}
