// The states of the moments of a trace, the whole-array drivers and ranges: document 01's 000, for 64-bit floats. A state is
// a struct of floats by value; every operation is rounded once, in the source's order.
#![tactic(auto)]

ghost use Rattle.std.specs.Prelude.{◌≡◌, []};
ghost use Rattle.float.specs.Operators.{zero64};
ghost use Rattle.trace.specs.Lent.{traced};
ghost use Rattle.moment.specs.Skew.{is_zero};
ghost use Rattle.moment.specs.Chunks.{in_chunks};
ghost use Rattle.moment.specs.Arrays.{answered, trace_answer, pair_answer};
ghost use Rattle.moment.specs.Arrays.{var_answer, cov_answer, pearson_answer, skew_answer, kurtosis_answer};

mod chunk;
pub mod cov_state;
mod entries;
pub mod kurtosis_state;
pub mod pearson_state;
pub mod skew_state;
mod states;
mod sums;
pub mod var_state;

use chunk::CHUNK_SIZE;
pub use cov_state::CovState;
pub use kurtosis_state::KurtosisState;
pub use pearson_state::PearsonState;
pub use skew_state::SkewState;
use states::State;
pub use sums::sum;
use trace::{Pair, Refusal, Trace};
pub use var_state::VarState;

// What `finalize` answers: a figure, or that it is missing. Document 01 names the form, an enum that carries a figure, in place of
// Option<f64>.
#[derive(Clone, Copy, Debug, PartialEq)]
pub enum Figure {
    Missing,
    Present(f64),
}

// The source's is_zero: whether m2, already divided by the weight, is negligible beside the mean.
pub fn is_zero(m2: f64, mean: f64) -> bool
    ensures { result ≡ is_zero m2 mean }
{
    m2 <= f64::EPSILON * mean * (f64::EPSILON * mean)
}

// Whole arrays: one state of the valid readings of a trace, or of the pairs that are valid in two.
fn of_trace<S: State<Entry = f64>>(x: Trace) -> Result<S, Refusal>
    ensures { answered result ≡ trace_answer (in_chunks S.new S.combine (S.about zero64 zero64 [])) (traced x.entry) }
{
    x.check()?;
    Ok(chunk::whole(x, &mut [0.0; CHUNK_SIZE]))
}

fn of_pair<S: State<Entry = (f64, f64)>>(pair: Pair) -> Result<S, Refusal>
    ensures { answered result ≡ pair_answer (in_chunks S.new S.combine (S.about zero64 (zero64, zero64) []))
        (traced pair.entry.x) (traced pair.entry.y) }
{
    pair.check()?;
    Ok(chunk::whole(pair, &mut [(0.0, 0.0); CHUNK_SIZE]))
}

// The source's five names: of one generic function callers would have to name the state.
pub fn var(x: Trace) -> Result<VarState, Refusal>
    ensures { answered result ≡ var_answer (traced x.entry) }
{
    of_trace::<VarState>(x)
}

pub fn cov(pair: Pair) -> Result<CovState, Refusal>
    ensures { answered result ≡ cov_answer (traced pair.entry.x) (traced pair.entry.y) }
{
    of_pair::<CovState>(pair)
}

pub fn pearson_corr(pair: Pair) -> Result<PearsonState, Refusal>
    ensures { answered result ≡ pearson_answer (traced pair.entry.x) (traced pair.entry.y) }
{
    of_pair::<PearsonState>(pair)
}

pub fn skew(x: Trace) -> Result<SkewState, Refusal>
    ensures { answered result ≡ skew_answer (traced x.entry) }
{
    of_trace::<SkewState>(x)
}

pub fn kurtosis(x: Trace) -> Result<KurtosisState, Refusal>
    ensures { answered result ≡ kurtosis_answer (traced x.entry) }
{
    of_trace::<KurtosisState>(x)
}
