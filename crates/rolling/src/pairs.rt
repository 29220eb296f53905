// Two traces as what a window moves over: their places are taken together, and an entry is a pair of readings.
ghost use Rattle.std.specs.Prelude.{◌≡◌};
ghost use Rattle.trace.specs.Lent.{traced};
ghost use Rattle.trace.specs.Refusals.{paired_refusal};
ghost use Rattle.trace.proofs.Accepted.{few_pairs};
ghost use Rattle.window.specs.Pairs.{finite_pair, pair_places, nonfinite_pair, inserted_pair};
ghost use Rattle.window.proofs.Pairs.{unmapped_both};
ghost use Rattle.rolling.specs.Code.Rows.{both_have};

use crate::series::{Places, Series};
use trace::{Pair, Refusal};

// Whether both members are finite.
fn is_finite(x: f64, y: f64) -> bool
    ensures { result ≡ finite_pair (x, y) }
{
    float::is_finite(x) && float::is_finite(y)
}

impl Places for Pair<'_> {
    ghost places = { λ p. pair_places (traced p.x).mapped (traced p.x).map (traced p.x).readings
        (traced p.y).mapped (traced p.y).map (traced p.y).readings };

    ghost have = { λ p. both_have (traced p.x).readings (traced p.y).readings };

    ghost refusal = { λ p. paired_refusal (traced p.x) (traced p.y) };

    fn len(self) -> usize {
        self.x.values.len().min(self.y.values.len())
    }

    fn check(self) -> Result<(), Refusal> {
        Pair::check(self)
    }

    fn is_mapped(self) -> bool {
        self.x.map.is_some() || self.y.map.is_some()
    }

    fn is_valid(self, i: usize) -> bool {
        Pair::is_valid(self, i)
    }

    #[tactic(auto, unfolding(window::specs::Pairs::nonfinite_pair))]
    fn is_nonfinite(self, i: usize) -> bool {
        Pair::is_valid(self, i) && !is_finite(self.x.values[i], self.y.values[i])
    }

    ghost unmapped = { λ p. unmapped_both _ _ _ _ };

    ghost few = { λ p. few_pairs (traced p.x) (traced p.y) };

    ghost missing = { λ p i e. unfold nonfinite_pair in Prim.rw e };
}

// A pair with a member that is not finite enters as (0.0, 0.0).
impl Series<(f64, f64)> for Pair<'_> {
    ghost entries = { λ p. inserted_pair (traced p.x).readings (traced p.y).readings };

    #[tactic(auto, unfolding(window::specs::Pairs::inserted_pair))]
    fn entry(self, i: usize) -> (f64, f64) {
        let x = self.x.values[i];
        let y = self.y.values[i];
        if is_finite(x, y) { (x, y) } else { (0.0, 0.0) }
    }

    #[tactic(auto, unfolding(window::specs::Pairs::nonfinite_pair))]
    fn holds_nonfinite(self, i: usize) -> bool {
        !is_finite(self.x.values[i], self.y.values[i])
    }

    fn value(self, i: usize) -> (f64, f64) {
        (self.x.values[i], self.y.values[i])
    }
}
