// What readings and pairs have in common: they are added up, and stand at places of which some may be missing.
ghost use Rattle.std.specs.Prelude.{◌≡◌, ℕ, ◌+◌, ◌^◌, ◌<◌, Bool, true, List, length, get_or, Float};
ghost use mathlib.Core.List.{zip};
ghost use Rattle.float.specs.Operators.{◌⊕◌, ◌⊘◌, zero64};
ghost use Rattle.trace.specs.Trace.{valid_at, both_at};
ghost use Rattle.trace.specs.Lent.{traced};
ghost use Rattle.moment.specs.Code.Entries.{pair_sum, pair_means};

use trace::{Pair, Trace};

// A reading or a pair. A sum of entries is an entry too, and so is a mean.
pub(crate) trait Entry: Copy {
    ghost none: { Self };

    ghost plus: { Self → Self → Self };

    ghost mean: { Self → Float → Self };

    // The sum of no entries.
    fn none() -> Self
        ensures { result ≡ none };

    fn plus(self, other: Self) -> Self
        ensures { result ≡ plus self other };

    // The mean of entries whose sum this is.
    fn mean(self, weight: f64) -> Self
        ensures { result ≡ mean self weight };
}

impl Entry for f64 {
    ghost none = { zero64 };

    ghost plus = { ◌⊕◌ };

    ghost mean = { ◌⊘◌ };

    fn none() -> f64 {
        0.0
    }

    fn plus(self, other: f64) -> f64 {
        self + other
    }

    fn mean(self, weight: f64) -> f64 {
        self / weight
    }
}

impl Entry for (f64, f64) {
    ghost none = { (zero64, zero64) };

    ghost plus = { pair_sum };

    ghost mean = { pair_means };

    fn none() -> (f64, f64) {
        (0.0, 0.0)
    }

    fn plus(self, other: (f64, f64)) -> (f64, f64) {
        (self.0 + other.0, self.1 + other.1)
    }

    fn mean(self, weight: f64) -> (f64, f64) {
        let inv_weight = 1.0 / weight;
        (self.0 * inv_weight, self.1 * inv_weight)
    }
}

// Entries at places, of which some may be missing. `rolling` has a wider `Places` of its own: a window's are counted, tested for what is
// not finite and refused, and a list or a part of a trace is none.
pub(crate) trait Places: Copy {
    type Entry: Entry;

    ghost entries: { Self → List Self.Entry };

    ghost valid: { Self → ℕ → Bool };

    fn len(self) -> usize
        ensures { result ≡ length (entries self) };

    fn entry(self, i: usize) -> Self::Entry
        requires { i < length (entries self) }
        ensures { result ≡ get_or (entries self) i result };

    fn is_valid(self, i: usize) -> bool
        requires { i < length (entries self) }
        ensures { result ≡ valid self i };
}

// A list, of which nothing is missing.
impl<E: Entry> Places for &[E] {
    type Entry = E;

    ghost entries = { λ l. l.now };

    ghost valid = { λ l i. true };

    fn len(self) -> usize {
        <[E]>::len(self)
    }

    fn entry(self, i: usize) -> E {
        self[i]
    }

    fn is_valid(self, _i: usize) -> bool {
        true
    }
}

impl Places for Trace<'_> {
    type Entry = f64;

    ghost entries = { λ t. (traced t).readings };

    ghost valid = { λ t. valid_at (traced t).mapped (traced t).map };

    fn len(self) -> usize {
        self.values.len()
    }

    fn entry(self, i: usize) -> f64 {
        self.values[i]
    }

    fn is_valid(self, i: usize) -> bool {
        trace::is_valid(self.map, i)
    }
}

// Two traces: where one is longer, its places past the other's end are not looked at.
impl Places for Pair<'_> {
    type Entry = (f64, f64);

    ghost entries = { λ p. zip (traced p.x).readings (traced p.y).readings };

    ghost valid = { λ p. both_at (traced p.x).mapped (traced p.x).map (traced p.y).mapped (traced p.y).map };

    #[tactic(auto, using(crate::proofs::Pairs::zip_min))]
    fn len(self) -> usize {
        self.x.values.len().min(self.y.values.len())
    }

    #[tactic(auto, using(crate::proofs::Pairs::in_x, crate::proofs::Pairs::in_y))]
    fn entry(self, i: usize) -> (f64, f64) {
        (self.x.values[i], self.y.values[i])
    }

    fn is_valid(self, i: usize) -> bool {
        Pair::is_valid(self, i)
    }
}

// A part of a trace with a map, and the place of the trace that it starts at.
#[derive(Clone, Copy)]
pub(crate) struct Part<'a> {
    pub(crate) values: &'a [f64],
    pub(crate) map: &'a [u8],
    pub(crate) start: usize,
    ghost fits: { start + length values.now < 2 ^ 64 },
}

impl Places for Part<'_> {
    type Entry = f64;

    ghost entries = { λ p. p.values.now };

    ghost valid = { λ p i. valid_at true p.map.now (p.start + i) };

    fn len(self) -> usize {
        self.values.len()
    }

    fn entry(self, i: usize) -> f64 {
        self.values[i]
    }

    fn is_valid(self, i: usize) -> bool {
        trace::is_valid(Some(self.map), self.start + i)
    }
}
