// What the five states have in common: how one is made of entries, and of two. Their public `new`, `combine`, `of_pair` and `from_array`
// only hand on to what stands here: they are the source's methods, and no caller outside needs the trait. `weight` is their member, and
// `insert_one`, `inserted`, `merged`, `biased` and `finalize` are formulas of their own in each.
ghost use Rattle.std.specs.Prelude.{◌≡◌, Bool, cond, List, [], ◌∷◌, ◌++◌, Float};
ghost use Rattle.std.specs.Float.Ieee.{eq};
ghost use Rattle.float.specs.Operators.{zero64};
ghost use Rattle.trace.specs.Lent.{traced};
ghost use Rattle.trace.specs.Trace.{valid_from};
ghost use Rattle.moment.specs.Arrays.{answered, range_answer};
ghost use Rattle.moment.specs.Code.States.{Totalled, mean_by, new_by, combined};

use crate::entries::{Entry, Part, Places};
use trace::{Refusal, Trace};

pub(crate) trait State: Copy {
    type Entry: Entry;

    // Whether an empty state is merged into like any other (P3), or gives way to the other.
    const MERGES_EMPTY: bool;

    ghost MERGES_EMPTY: { Bool };

    ghost about: { Float → Self.Entry → List Self.Entry → Self };

    ghost with_entry: { Self → Self.Entry → Self };

    ghost new: { List Self.Entry → Self };

    ghost weight: { Self → Float };

    ghost merge: { Self → Self → Self };

    ghost combine: { Self → Self → Self };

    // A state with a weight and a mean, to which no entry is added yet.
    fn about(w: f64, mean: Self::Entry) -> Self
        ensures { result ≡ about w mean [] };

    // With one entry more about the same mean.
    fn with_entry(self, entry: Self::Entry) -> Self
        ensures { result ≡ with_entry self entry };

    fn weight(self) -> f64
        ensures { result ≡ weight self };

    // `combine` of two states that neither gives way.
    fn merge(self, other: Self) -> Self
        ensures { result ≡ merge self other };

    ghost about_weight: { (w : Float) (mean : Self.Entry) → weight (about w mean []) ≡ w };

    ghost about_more: { (w : Float) (mean : Self.Entry) (xs : List Self.Entry) (x : Self.Entry)
        → about w mean (xs ++ x ∷ []) ≡ with_entry (about w mean xs) x };

    ghost new_is: { (xs : List Self.Entry) → new xs ≡ new_by about Self.Entry.none
        (mean_by Self.Entry.none Self.Entry.plus Self.Entry.mean) xs };

    ghost combine_is: { (s o : Self) → combine s o ≡ combined MERGES_EMPTY weight merge s o };
}

// How many entries there are, and their sum.
#[derive(Clone, Copy)]
struct Total<E> {
    count: usize,
    sum: E,
}

// By place, here and in `about`: of places alone is it known which are valid.
#[tactic(auto, using(crate::proofs::Folds::folding))]
fn valid_total<P: Places>(places: P) -> Total<P::Entry>
    ensures { Totalled P.Entry.none P.Entry.plus (valid_from (P.valid places) 0 (P.entries places))
        result.count result.sum }
{
    let mut count = 0;
    let mut sum = P::Entry::none();
    for i in 0..places.len() {
        if places.is_valid(i) {
            count += 1;
            sum = sum.plus(places.entry(i));
        }
    }
    Total { count, sum }
}

// `from_iter` after its test of the count.
#[tactic(auto, using(crate::proofs::Folds::folding))]
fn about<P: Places, S: State<Entry = P::Entry>>(places: P, weight: f64, mean: P::Entry) -> S
    ensures { result ≡ S.about weight mean (valid_from (P.valid places) 0 (P.entries places)) }
{
    let mut state = S::about(weight, mean);
    for i in 0..places.len() {
        if places.is_valid(i) {
            state = state.with_entry(places.entry(i));
        }
    }
    state
}

// The source's `from_iter`: one state, unchunked, of the entries that are there.
fn from_iter<P: Places, S: State<Entry = P::Entry>>(places: P) -> S
    ensures { result ≡ S.new (valid_from (P.valid places) 0 (P.entries places)) }
{
    let total = valid_total(places);
    if total.count == 0 {
        return S::about(0.0, P::Entry::none());
    }
    // `as`: Rust has no `From` between these two
    let weight = std::num::nearest_u64_to_f64(total.count as u64);
    about(places, weight, total.sum.mean(weight))
}

// The source's `new`.
#[tactic(auto, using(crate::proofs::Folds::all_valid))]
pub(crate) fn new<S: State>(x: &[S::Entry]) -> S
    ensures { result ≡ S.new x.now }
{
    from_iter(x)
}

// `new` of one entry.
pub(crate) fn of_one<S: State>(entry: S::Entry) -> S
    ensures { result ≡ S.new (entry ∷ []) }
{
    let sum = S::Entry::none().plus(entry);
    S::about(1.0, sum.mean(1.0)).with_entry(entry)
}

// The source's `combine`.
pub(crate) fn combine<S: State>(state: S, other: S) -> S
    ensures { result ≡ S.combine state other }
{
    if other.weight() == 0.0 {
        return state;
    }
    if !S::MERGES_EMPTY && state.weight() == 0.0 {
        return other;
    }
    state.merge(other)
}

// The source's `clear_zero_weight_nan` of the state that is made with a weight. The weight is tested before the other members are worked
// out: after them the compiler picks each member without a branch, which is slow. The empty state is handed in, and `State` has no default
// `merge` by this: a method of an `impl` is proved only by what doesn't ask for that `impl`, and the states of pairs clear nothing.
pub(crate) fn cleared<S: Copy, F: FnOnce() -> S>(weight: f64, empty: S, made: F) -> S
    requires { F.pre made }
    ensures { (s : S) → ((r : S) → F.post made r → r ≡ s) → result ≡ cond (eq weight zero64) empty s }
{
    if weight == 0.0 {
        return empty;
    }
    made()
}

// The source's `from_array`: one unchunked state of the valid readings of a range, which is lent as a part that starts in the trace's
// middle.
pub(crate) fn from_array<S: State<Entry = f64>>(
    x: Trace,
    start: usize,
    length: usize,
) -> Result<S, Refusal>
    ensures { answered result ≡ range_answer S.new (traced x.entry) start length }
{
    x.check_range(start, length)?;
    let values = &x.values[start..start + length];
    let Some(map) = x.map else {
        return Ok(new(values));
    };
    Ok(from_iter(Part { values, map, start }))
}
