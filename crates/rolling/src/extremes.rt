// Variance with the lowest and highest finite reading: what the stacks of `VarianceMoment` keep. Readings come as they are.
ghost use Rattle.std.proofs.Common.{rules};
ghost use Rattle.std.specs.Prelude.{◌≡◌, true, false, refl, if◌then◌else◌};
ghost use Rattle.std.specs.Float.{inf};
ghost use Rattle.float.specs.Operators.{of_nat64};
ghost use Rattle.float.proofs.Counts.{zero_is};
ghost use Rattle.moment.specs.declared.Figure.TheVariants.{Missing};
ghost use Rattle.moment.proofs.Weights.{raising, var_raises};
ghost use Rattle.window.specs.Extremes.{lower, higher, further};
ghost use Rattle.window.specs.Code.Widening.{inserting, shown};
ghost use Rattle.rolling.specs.Code.Ops.{ops_of};
ghost use Rattle.rolling.specs.Code.Extremes.{variance_extremes, var_weight};
ghost use Rattle.rolling.specs.Code.Layouts.{var_layout};

use crate::memory::InMemory;
use crate::moment_window::WindowState;
use moment::{Figure, VarState};

// A state of readings with the lowest and the highest of those that are finite; where none is, infinities beyond which every reading lies.
#[derive(Clone, Copy)]
pub struct VarExtremes {
    pub var: VarState,
    pub lowest: f64,
    pub highest: f64,
}

// Where there is no finite reading: above every one.
fn no_lowest() -> f64
    ensures { result ≡ inf false }
{
    f64::INFINITY
}

// The same below every one.
fn no_highest() -> f64
    ensures { result ≡ inf true }
{
    f64::NEG_INFINITY
}

// Not std's `min` and `max`: which of two equal numbers stays, and of a NaN, is the definition's.
fn lower_of(x: f64, y: f64) -> f64
    ensures { result ≡ further lower x y }
{
    if y < x { y } else { x }
}

fn higher_of(x: f64, y: f64) -> f64
    ensures { result ≡ further higher x y }
{
    if x < y { y } else { x }
}

// What a row shows of a lowest or highest reading, the sum with 0.0 making a zero of either sign +0.0: nothing where the row is short, or
// where no reading is finite.
pub(crate) fn extreme(x: f64, short: bool) -> Figure
    ensures { result ≡ (if short then Missing else shown x) }
{
    if short {
        return Figure::Missing;
    }
    if float::is_finite(x) {
        return Figure::Present(x + 0.0);
    }
    Figure::Missing
}

impl InMemory for VarExtremes {
    ghost WIDTH = { 5 };

    const WIDTH: usize = 5;

    ghost layout = { var_layout };

    fn store(self, work: &mut [f64], at: usize) {
        work[at] = self.var.weight;
        work[at + 1] = self.var.mean;
        work[at + 2] = self.var.dp;
        work[at + 3] = self.lowest;
        work[at + 4] = self.highest;
    }

    fn load(work: &[f64], at: usize) -> Self {
        VarExtremes {
            var: VarState {
                weight: work[at],
                mean: work[at + 1],
                dp: work[at + 2],
            },
            lowest: work[at + 3],
            highest: work[at + 4],
        }
    }

    ghost wide = { refl };

    ghost some = { Prim.search rules };

    ghost narrow = { Prim.search rules };
}

// By the counts the weights are known: an insert then has nothing to clear, and `combine` need not compare.
impl WindowState for VarExtremes {
    type Entry = f64;

    ghost ops = { ops_of variance_extremes };

    ghost counts = { λ s n. var_weight s ≡ of_nat64 n };

    fn empty() -> Self {
        VarExtremes {
            var: VarState::default(),
            lowest: no_lowest(),
            highest: no_highest(),
        }
    }

    // A reading that is not finite is inserted as 0.0, and is neither lowest nor highest.
    fn insert(self, _n: usize, x: f64) -> Self {
        let var = self.var;
        if float::is_finite(x) {
            return VarExtremes {
                var: var.inserted(x),
                lowest: lower_of(self.lowest, x),
                highest: higher_of(self.highest, x),
            };
        }
        VarExtremes {
            var: var.inserted(0.0),
            lowest: self.lowest,
            highest: self.highest,
        }
    }

    fn combine(self, _n: usize, other: Self, m: usize) -> Self {
        let var = self.var;
        VarExtremes {
            var: if m == 0 { var } else { var.merged(other.var) },
            lowest: lower_of(self.lowest, other.lowest),
            highest: higher_of(self.highest, other.highest),
        }
    }

    ghost starts = { zero_is };

    ghost grows = { raising var_weight variance_extremes.insert (λ s x. var_raises s.var (inserting x)) };
}
