// Kurtosis over moving windows: 001's `KurtosisMoment`.
ghost use Rattle.std.proofs.Common.{rules};
ghost use Rattle.std.specs.Prelude.{refl};
ghost use Rattle.trace.specs.Outcomes.{outcome_number};
ghost use Rattle.trace.specs.Lent.{traced};
ghost use Rattle.moment.specs.Kurtosis.{kurtosis_finalize};
ghost use Rattle.plan.specs.Plan.{planned};
ghost use Rattle.rolling.specs.Moments.{Kurtosis, kurtosis};
ghost use Rattle.rolling.specs.Calls.{query, lending, Calls};
ghost use Rattle.rolling.specs.Fixed.{CallsFixed};
ghost use Rattle.rolling.specs.Code.Ops.{ops_of};
ghost use Rattle.rolling.specs.Code.Layouts.{kurtosis_layout};

use crate::figures;
use crate::memory::InMemory;
use crate::moment_window::WindowState;
use crate::row::Finalize;
use moment::{Figure, KurtosisState};
use plan::{Fixed, Plan};
use trace::{Refusal, Trace};

impl InMemory for KurtosisState {
    ghost WIDTH = { 5 };

    const WIDTH: usize = 5;

    ghost layout = { kurtosis_layout };

    fn store(self, work: &mut [f64], at: usize) {
        work[at] = self.weight;
        work[at + 1] = self.mean;
        work[at + 2] = self.m2;
        work[at + 3] = self.m3;
        work[at + 4] = self.m4;
    }

    fn load(work: &[f64], at: usize) -> Self {
        KurtosisState {
            weight: work[at],
            mean: work[at + 1],
            m2: work[at + 2],
            m3: work[at + 3],
            m4: work[at + 4],
        }
    }

    ghost wide = { refl };

    ghost some = { Prim.search rules };

    ghost narrow = { Prim.search rules };
}

impl WindowState for KurtosisState {
    type Entry = f64;

    ghost ops = { ops_of kurtosis };

    ghost counts = { λ s n. Unit {0} };

    fn empty() -> Self {
        KurtosisState::default()
    }

    fn insert(self, _n: usize, x: f64) -> Self {
        self.insert_one(x)
    }

    fn combine(self, _n: usize, other: Self, _m: usize) -> Self {
        KurtosisState::combine(self, other)
    }

    ghost starts = { tt };

    ghost grows = { λ s x n h c. tt };
}

#[derive(Clone, Copy)]
pub struct KurtosisMoment {
    pub fisher: bool,
    pub bias: bool,
}

impl KurtosisMoment {
    // Doubles of a place of the window, in both stacks.
    pub const PLACE: usize = KurtosisState::WIDTH + f64::WIDTH;
}

impl Finalize<KurtosisState> for KurtosisMoment {
    ghost finalize = { λ moment state. kurtosis_finalize state moment.fisher moment.bias };

    fn finalize(self, state: KurtosisState) -> Figure {
        state.finalize(self.fisher, self.bias)
    }
}

// Rolling kurtosis over a plan.
pub fn plan_kurtosis(
    x: Trace,
    plan: Plan,
    min_periods: usize,
    fisher: bool,
    bias: bool,
    work: &mut [f64],
    figures: &mut [f64],
    present: &mut [u8],
) -> Result<(), Refusal>
    ensures { Calls (query (planned plan.entry) min_periods (Kurtosis fisher bias)) (traced x.entry) (lending work figures present)
        (outcome_number result) }
{
    let moment = KurtosisMoment { fisher, bias };
    figures::plan(moment, x, plan, min_periods, work, figures, present)
}

// Rolling kurtosis over fixed windows: 004's and 005's `rolling_kurtosis`.
pub fn rolling_kurtosis(
    x: Trace,
    windows: Fixed,
    min_periods: usize,
    fisher: bool,
    bias: bool,
    work: &mut [f64],
    figures: &mut [f64],
    present: &mut [u8],
) -> Result<(), Refusal>
    ensures { CallsFixed windows.center windows.window_size min_periods (Kurtosis fisher bias) (traced x.entry)
        (lending work figures present) (outcome_number result) }
{
    let moment = KurtosisMoment { fisher, bias };
    figures::fixed(moment, x, windows, min_periods, work, figures, present)
}
