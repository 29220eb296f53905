// Weighted rolling variance over fixed windows: 004's `rolling_var` with weights, by 002's `rolling_apply_weights` and
// `compute_var_weights`. The public function takes any lists; what is below it is kept inside the crate. The two lists of a figure stay
// apart, as in `rolling`.
#![tactic(auto)]

ghost use Rattle.std.specs.Prelude.{◌≡◌, length};
ghost use Rattle.trace.specs.Refusals.{trace_refusal};
ghost use Rattle.trace.specs.Outcomes.{outcome_number};
ghost use Rattle.trace.specs.Lent.{traced};
ghost use Rattle.weighted.specs.Weights.{weights_refusal, CallsWeights, lending_column};

use plan::Fixed;
use trace::{Refusal, Trace};

mod rows;
mod sums;

// What refuses a call with so many weights of that sum. `outputs` is the length of the shorter output list.
fn check_weights(
    x: Trace,
    window_size: usize,
    count: usize,
    total: f64,
    outputs: usize,
) -> Result<(), Refusal>
    ensures { outcome_number result ≡ weights_refusal (trace_refusal (traced x.entry)) (traced x.entry).mapped
        (length (traced x.entry).readings) window_size count total outputs }
{
    x.check()?;
    Refusal::WeightsWithMap.when(x.map.is_some())?;
    Refusal::WeightsSumToZero.when(total == 0.0)?;
    Refusal::WeightCount.when(count != window_size)?;
    Refusal::OutputTooShort.when(outputs < x.len())
}

// Weighted rolling variance over fixed windows.
pub fn rolling_var_weights(
    x: Trace,
    windows: Fixed,
    min_periods: usize,
    weights: &[f64],
    figures: &mut [f64],
    present: &mut [u8],
) -> Result<(), Refusal>
    ensures { CallsWeights windows.center windows.window_size min_periods weights (traced x.entry)
        (lending_column figures present) (outcome_number result) }
{
    let total = moment::sum(weights);
    let outputs = figures.len().min(present.len());
    check_weights(x, windows.window_size, weights.len(), total, outputs)?;
    rows::write_rows(
        x.values,
        windows.center,
        min_periods,
        weights,
        total,
        figures,
        present,
    );
    Ok(())
}
