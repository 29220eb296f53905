// Covariance of two traces over moving windows.
ghost use Rattle.std.proofs.Common.{rules};
ghost use Rattle.std.specs.Prelude.{refl};
ghost use Rattle.trace.specs.Outcomes.{outcome_number};
ghost use Rattle.moment.specs.Cov.{cov_finalize};
ghost use Rattle.plan.specs.Plan.{planned};
ghost use Rattle.rolling.specs.Calls.{query, lending, Calls};
ghost use Rattle.rolling.specs.Fixed.{CallsFixed};
ghost use Rattle.window.specs.Pairs.{paired};
ghost use Rattle.rolling.specs.Moments.{Covariance, covariance};
ghost use Rattle.rolling.specs.Code.Ops.{ops_of};
ghost use Rattle.rolling.specs.Code.Layouts.{cov_layout};

use crate::figures;
use crate::memory::InMemory;
use crate::moment_window::WindowState;
use crate::row::Finalize;
use moment::{CovState, Figure};
use plan::{Fixed, Plan};
use trace::{Pair, Refusal};

impl InMemory for CovState {
    ghost WIDTH = { 4 };

    const WIDTH: usize = 4;

    ghost layout = { cov_layout };

    fn store(self, work: &mut [f64], at: usize) {
        work[at] = self.weight;
        work[at + 1] = self.mean_x;
        work[at + 2] = self.mean_y;
        work[at + 3] = self.dp_xy;
    }

    fn load(work: &[f64], at: usize) -> Self {
        CovState {
            weight: work[at],
            mean_x: work[at + 1],
            mean_y: work[at + 2],
            dp_xy: work[at + 3],
        }
    }

    ghost wide = { refl };

    ghost some = { Prim.search rules };

    ghost narrow = { Prim.search rules };
}

impl WindowState for CovState {
    type Entry = (f64, f64);

    ghost ops = { ops_of covariance };

    ghost counts = { λ s n. Unit {0} };

    fn empty() -> Self {
        CovState::default()
    }

    // A pair is inserted by combining the state with the one that `new` makes of it: `insert_one` would not copy the first.
    fn insert(self, _n: usize, x: (f64, f64)) -> Self {
        CovState::combine(self, CovState::of_pair(x.0, x.1))
    }

    fn combine(self, _n: usize, other: Self, _m: usize) -> Self {
        CovState::combine(self, other)
    }

    ghost starts = { tt };

    ghost grows = { λ s x n h c. tt };
}

#[derive(Clone, Copy)]
pub struct CovMoment {
    pub ddof: u8,
}

impl CovMoment {
    // Doubles of a place of the window, in both stacks.
    pub const PLACE: usize = CovState::WIDTH + <(f64, f64)>::WIDTH;
}

impl Finalize<CovState> for CovMoment {
    ghost finalize = { λ moment state. cov_finalize state moment.ddof };

    fn finalize(self, state: CovState) -> Figure {
        state.finalize(self.ddof)
    }
}

// Rolling covariance over a plan.
pub fn plan_cov(
    pair: Pair,
    plan: Plan,
    min_periods: usize,
    ddof: u8,
    work: &mut [f64],
    figures: &mut [f64],
    present: &mut [u8],
) -> Result<(), Refusal>
    ensures { Calls (query (planned plan.entry) min_periods (Covariance ddof)) (paired pair.entry) (lending work figures present)
        (outcome_number result) }
{
    figures::plan(
        CovMoment { ddof },
        pair,
        plan,
        min_periods,
        work,
        figures,
        present,
    )
}

// Rolling covariance over fixed windows.
pub fn rolling_cov(
    pair: Pair,
    windows: Fixed,
    min_periods: usize,
    ddof: u8,
    work: &mut [f64],
    figures: &mut [f64],
    present: &mut [u8],
) -> Result<(), Refusal>
    ensures { CallsFixed windows.center windows.window_size min_periods (Covariance ddof) (paired pair.entry) (lending work figures present)
        (outcome_number result) }
{
    figures::fixed(
        CovMoment { ddof },
        pair,
        windows,
        min_periods,
        work,
        figures,
        present,
    )
}
