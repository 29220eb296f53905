// Correlation of two traces over moving windows.
ghost use Rattle.std.proofs.Common.{rules};
ghost use Rattle.std.specs.Prelude.{refl};
ghost use Rattle.trace.specs.Outcomes.{outcome_number};
ghost use Rattle.plan.specs.Plan.{planned};
ghost use Rattle.rolling.specs.Calls.{query, lending, Calls};
ghost use Rattle.rolling.specs.Fixed.{CallsFixed};
ghost use Rattle.window.specs.Pairs.{paired};
ghost use Rattle.rolling.specs.Moments.{Correlation, correlation, correlation_finalize};
ghost use Rattle.rolling.specs.Code.Ops.{ops_of};
ghost use Rattle.rolling.specs.Code.Layouts.{pearson_layout};

use crate::figures;
use crate::memory::InMemory;
use crate::moment_window::WindowState;
use crate::row::Finalize;
use moment::{Figure, PearsonState};
use plan::{Fixed, Plan};
use trace::{Pair, Refusal};

impl InMemory for PearsonState {
    ghost WIDTH = { 6 };

    const WIDTH: usize = 6;

    ghost layout = { pearson_layout };

    fn store(self, work: &mut [f64], at: usize) {
        work[at] = self.weight;
        work[at + 1] = self.mean_x;
        work[at + 2] = self.mean_y;
        work[at + 3] = self.dp_xx;
        work[at + 4] = self.dp_xy;
        work[at + 5] = self.dp_yy;
    }

    fn load(work: &[f64], at: usize) -> Self {
        PearsonState {
            weight: work[at],
            mean_x: work[at + 1],
            mean_y: work[at + 2],
            dp_xx: work[at + 3],
            dp_xy: work[at + 4],
            dp_yy: work[at + 5],
        }
    }

    ghost wide = { refl };

    ghost some = { Prim.search rules };

    ghost narrow = { Prim.search rules };
}

impl WindowState for PearsonState {
    type Entry = (f64, f64);

    ghost ops = { ops_of correlation };

    ghost counts = { λ s n. Unit {0} };

    fn empty() -> Self {
        PearsonState::default()
    }

    // A pair is inserted by combining the state with the one that `new` makes of it: `insert_one` would not copy the first.
    fn insert(self, _n: usize, x: (f64, f64)) -> Self {
        PearsonState::combine(self, PearsonState::of_pair(x.0, x.1))
    }

    fn combine(self, _n: usize, other: Self, _m: usize) -> Self {
        PearsonState::combine(self, other)
    }

    ghost starts = { tt };

    ghost grows = { λ s x n h c. tt };
}

#[derive(Clone, Copy)]
pub struct PearsonMoment {}

impl PearsonMoment {
    // Doubles of a place of the window, in both stacks.
    pub const PLACE: usize = PearsonState::WIDTH + <(f64, f64)>::WIDTH;
}

impl Finalize<PearsonState> for PearsonMoment {
    ghost finalize = { λ moment state. correlation_finalize state };

    fn finalize(self, state: PearsonState) -> Figure {
        if state.weight == 0.0 {
            return Figure::Missing;
        }
        Figure::Present(state.finalize())
    }
}

// Rolling correlation over a plan.
pub fn plan_pearson_corr(
    pair: Pair,
    plan: Plan,
    min_periods: usize,
    work: &mut [f64],
    figures: &mut [f64],
    present: &mut [u8],
) -> Result<(), Refusal>
    ensures { Calls (query (planned plan.entry) min_periods Correlation) (paired pair.entry) (lending work figures present)
        (outcome_number result) }
{
    figures::plan(
        PearsonMoment {},
        pair,
        plan,
        min_periods,
        work,
        figures,
        present,
    )
}

// Rolling correlation over fixed windows.
pub fn rolling_pearson_corr(
    pair: Pair,
    windows: Fixed,
    min_periods: usize,
    work: &mut [f64],
    figures: &mut [f64],
    present: &mut [u8],
) -> Result<(), Refusal>
    ensures { CallsFixed windows.center windows.window_size min_periods Correlation (paired pair.entry) (lending work figures present)
        (outcome_number result) }
{
    figures::fixed(
        PearsonMoment {},
        pair,
        windows,
        min_periods,
        work,
        figures,
        present,
    )
}
