// What a window moves over: the places of a trace, or of two, and what is inserted of each.
ghost use Rattle.std.specs.Prelude.{◌≡◌, ℕ, ◌<◌, ◌≤◌, true, false, length};
ghost use Rattle.trace.specs.Lent.{traced};
ghost use Rattle.trace.specs.Trace.{valid_at};
ghost use Rattle.trace.specs.Refusals.{trace_refusal};
ghost use Rattle.trace.specs.Outcomes.{outcome_number};
ghost use Rattle.trace.proofs.Accepted.{few_readings};
ghost use Rattle.window.specs.Places.{Places as PlacesOf};
ghost use Rattle.window.specs.Readings.{places_by, nonfinite_at, inserted_at};
ghost use Rattle.rolling.specs.Code.Rows.{ValidPlace, FinitePlace};

use trace::{Refusal, Trace};

// moment's `Places` are a list's, whose entries are all there to be read; these are asked what a place is before anything enters of it.
pub(crate) trait Places: Copy {
    ghost places: { Self → PlacesOf };

    ghost have: { Self → ℕ };

    fn len(self) -> usize
        ensures { result ≡ have self };

    ghost refusal: { Self → ℕ };

    // Why what is given is refused, before any plan is looked at.
    fn check(self) -> Result<(), Refusal>
        ensures { outcome_number result ≡ refusal self };

    fn is_mapped(self) -> bool
        ensures { result ≡ (places self).mapped };

    fn is_valid(self, i: usize) -> bool
        ensures { result ≡ (places self).valid i };

    // Whether place i is valid, but what it holds is not finite.
    fn is_nonfinite(self, i: usize) -> bool
        requires { i < have self }
        ensures { result ≡ (places self).nonfinite i };

    ghost unmapped: { (x : Self) → (places x).mapped ≡ false → (i : ℕ) → (places x).valid i ≡ true };

    ghost few: { (x : Self) → refusal x ≡ 0 → have x ≤ 16777216 };

    ghost missing: { (x : Self) (i : ℕ) → (places x).valid i ≡ false → (places x).nonfinite i ≡ false };
}

pub(crate) trait Series<E>: Places {
    ghost entries: { Self → ℕ → E };

    // What is inserted of place i.
    fn entry(self, i: usize) -> E
        requires { i < Self.have self }
        ensures { result ≡ entries self i };

    // Whether what a valid place holds is not finite: whether it is valid is not asked again.
    fn holds_nonfinite(self, i: usize) -> bool
        requires { ValidPlace (Self.places self) (Self.have self) i }
        ensures { result ≡ (Self.places self).nonfinite i };

    // What a valid place holds, where that is finite: it is what is inserted, and is not tested again.
    fn value(self, i: usize) -> E
        requires { FinitePlace (Self.places self) (Self.have self) i }
        ensures { result ≡ entries self i };
}

impl Places for Trace<'_> {
    ghost places = { λ x. places_by (traced x).mapped (traced x).map (traced x).readings };

    ghost have = { λ x. length (traced x).readings };

    ghost refusal = { λ x. trace_refusal (traced x) };

    fn len(self) -> usize {
        self.values.len()
    }

    fn check(self) -> Result<(), Refusal> {
        Trace::check(self)
    }

    fn is_mapped(self) -> bool {
        self.map.is_some()
    }

    fn is_valid(self, i: usize) -> bool {
        Trace::is_valid(self, i)
    }

    #[tactic(auto, unfolding(window::specs::Readings::nonfinite_at))]
    fn is_nonfinite(self, i: usize) -> bool {
        Trace::is_valid(self, i) && !float::is_finite(self.values[i])
    }

    ghost unmapped = { λ x e i. unfold valid_at in Prim.rw e };

    ghost few = { λ x. few_readings (traced x) };

    ghost missing = { λ x i e. unfold nonfinite_at in Prim.rw e };
}

// Readings, 0.0 for one that is not finite.
impl Series<f64> for Trace<'_> {
    ghost entries = { λ x. inserted_at (traced x).readings };

    #[tactic(auto, unfolding(window::specs::Readings::inserted_at))]
    fn entry(self, i: usize) -> f64 {
        let x = self.values[i];
        if float::is_finite(x) { x } else { 0.0 }
    }

    #[tactic(auto, unfolding(window::specs::Readings::nonfinite_at))]
    fn holds_nonfinite(self, i: usize) -> bool {
        !float::is_finite(self.values[i])
    }

    fn value(self, i: usize) -> f64 {
        self.values[i]
    }
}
