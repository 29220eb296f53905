// What a host in another language calls: each entry of docs/ABI.md by its name, one call of the crate `moments` with the same contract.
// A crate is a library or a static library, so the entries stand there and their names for C stand here; `rt lib` makes the archive.
#![tactic(auto)]

ghost use Rattle.std.specs.Prelude.{◌≡◌};
ghost use Rattle.root.specs.Root.{root as root_of};
ghost use Rattle.moment.specs.Var.{var_insert, var_combine, var_finalize};
ghost use Rattle.moment.specs.Cov.{cov_insert, cov_combine, cov_finalize};
ghost use Rattle.moment.specs.Pearson.{pearson_insert, pearson_combine, pearson_finalize};
ghost use Rattle.moment.specs.Skew.{skew_insert, skew_combine, skew_finalize};
ghost use Rattle.moment.specs.Kurtosis.{kurtosis_insert, kurtosis_combine, kurtosis_finalize};
ghost use Rattle.moment.specs.Arrays.{var_answer, cov_answer, pearson_answer, skew_answer, kurtosis_answer};
ghost use Rattle.moment.specs.Arrays.{skew_range, kurtosis_range};
ghost use Rattle.moment.specs.Arrays.{var_list, cov_list, pearson_list, skew_list, kurtosis_list};
ghost use Rattle.trace.specs.Trace.{tracing};
ghost use Rattle.window.specs.Pairs.{pairing};
ghost use Rattle.rolling.specs.Moments.{Variance, Skewness, Kurtosis, Covariance, Correlation};
ghost use Rattle.rolling.specs.Calls.{querying, lending, lending_three};
ghost use Rattle.rolling.specs.Fixed.{CallsFixed};
ghost use Rattle.weighted.specs.Weights.{CallsWeights, lending_column};
ghost use Rattle.moments.specs.HostCall.{hosting, decoding, hosting_pair, decoding_pair, CallsBytes};
ghost use Rattle.moments.specs.Results.{StateResult, FigureResult};

use moment::{CovState, KurtosisState, PearsonState, SkewState, VarState};

#[unsafe(no_mangle)]
pub extern "C" fn moments_plan_var(
    trace: &[u8],
    readings: &mut [f64],
    has_map: bool,
    map: &[u8],
    starts: &[u32],
    ends: &[u32],
    min_periods: usize,
    ddof: u8,
    work: &mut [f64],
    figures: &mut [f64],
    present: &mut [u8],
    lowest: &mut [f64],
    lowest_present: &mut [u8],
    highest: &mut [f64],
    highest_present: &mut [u8],
) -> u32
    ensures { CallsBytes (querying starts ends min_periods (Variance ddof)) (hosting trace has_map map)
        (decoding readings)
        (lending_three work figures present lowest lowest_present highest highest_present) result }
{
    moments::moments_plan_var(
        trace,
        readings,
        has_map,
        map,
        starts,
        ends,
        min_periods,
        ddof,
        work,
        figures,
        present,
        lowest,
        lowest_present,
        highest,
        highest_present,
    )
}

#[unsafe(no_mangle)]
pub extern "C" fn moments_plan_skew(
    trace: &[u8],
    readings: &mut [f64],
    has_map: bool,
    map: &[u8],
    starts: &[u32],
    ends: &[u32],
    min_periods: usize,
    bias: bool,
    work: &mut [f64],
    figures: &mut [f64],
    present: &mut [u8],
) -> u32
    ensures { CallsBytes (querying starts ends min_periods (Skewness bias)) (hosting trace has_map map)
        (decoding readings) (lending work figures present) result }
{
    moments::moments_plan_skew(
        trace,
        readings,
        has_map,
        map,
        starts,
        ends,
        min_periods,
        bias,
        work,
        figures,
        present,
    )
}

#[unsafe(no_mangle)]
pub extern "C" fn moments_plan_kurtosis(
    trace: &[u8],
    readings: &mut [f64],
    has_map: bool,
    map: &[u8],
    starts: &[u32],
    ends: &[u32],
    min_periods: usize,
    fisher: bool,
    bias: bool,
    work: &mut [f64],
    figures: &mut [f64],
    present: &mut [u8],
) -> u32
    ensures { CallsBytes (querying starts ends min_periods (Kurtosis fisher bias)) (hosting trace has_map map)
        (decoding readings) (lending work figures present) result }
{
    moments::moments_plan_kurtosis(
        trace,
        readings,
        has_map,
        map,
        starts,
        ends,
        min_periods,
        fisher,
        bias,
        work,
        figures,
        present,
    )
}

#[unsafe(no_mangle)]
pub extern "C" fn moments_plan_cov(
    x: &[u8],
    x_readings: &mut [f64],
    x_has_map: bool,
    x_map: &[u8],
    y: &[u8],
    y_readings: &mut [f64],
    y_has_map: bool,
    y_map: &[u8],
    starts: &[u32],
    ends: &[u32],
    min_periods: usize,
    ddof: u8,
    work: &mut [f64],
    figures: &mut [f64],
    present: &mut [u8],
) -> u32
    ensures { CallsBytes (querying starts ends min_periods (Covariance ddof))
        (hosting_pair x x_has_map x_map y y_has_map y_map) (decoding_pair x_readings y_readings)
        (lending work figures present) result }
{
    moments::moments_plan_cov(
        x,
        x_readings,
        x_has_map,
        x_map,
        y,
        y_readings,
        y_has_map,
        y_map,
        starts,
        ends,
        min_periods,
        ddof,
        work,
        figures,
        present,
    )
}

#[unsafe(no_mangle)]
pub extern "C" fn moments_plan_pearson_corr(
    x: &[u8],
    x_readings: &mut [f64],
    x_has_map: bool,
    x_map: &[u8],
    y: &[u8],
    y_readings: &mut [f64],
    y_has_map: bool,
    y_map: &[u8],
    starts: &[u32],
    ends: &[u32],
    min_periods: usize,
    work: &mut [f64],
    figures: &mut [f64],
    present: &mut [u8],
) -> u32
    ensures { CallsBytes (querying starts ends min_periods Correlation)
        (hosting_pair x x_has_map x_map y y_has_map y_map) (decoding_pair x_readings y_readings)
        (lending work figures present) result }
{
    moments::moments_plan_pearson_corr(
        x,
        x_readings,
        x_has_map,
        x_map,
        y,
        y_readings,
        y_has_map,
        y_map,
        starts,
        ends,
        min_periods,
        work,
        figures,
        present,
    )
}

#[unsafe(no_mangle)]
pub extern "C" fn moments_rolling_var(
    trace: &[f64],
    has_map: bool,
    map: &[u8],
    window_size: usize,
    min_periods: usize,
    center: bool,
    ddof: u8,
    work: &mut [f64],
    figures: &mut [f64],
    present: &mut [u8],
    lowest: &mut [f64],
    lowest_present: &mut [u8],
    highest: &mut [f64],
    highest_present: &mut [u8],
) -> u32
    ensures { CallsFixed center window_size min_periods (Variance ddof) (tracing trace has_map map)
        (lending_three work figures present lowest lowest_present highest highest_present) result }
{
    moments::moments_rolling_var(
        trace,
        has_map,
        map,
        window_size,
        min_periods,
        center,
        ddof,
        work,
        figures,
        present,
        lowest,
        lowest_present,
        highest,
        highest_present,
    )
}

#[unsafe(no_mangle)]
pub extern "C" fn moments_rolling_skew(
    trace: &[f64],
    has_map: bool,
    map: &[u8],
    window_size: usize,
    min_periods: usize,
    center: bool,
    bias: bool,
    work: &mut [f64],
    figures: &mut [f64],
    present: &mut [u8],
) -> u32
    ensures { CallsFixed center window_size min_periods (Skewness bias) (tracing trace has_map map)
        (lending work figures present) result }
{
    moments::moments_rolling_skew(
        trace,
        has_map,
        map,
        window_size,
        min_periods,
        center,
        bias,
        work,
        figures,
        present,
    )
}

#[unsafe(no_mangle)]
pub extern "C" fn moments_rolling_kurtosis(
    trace: &[f64],
    has_map: bool,
    map: &[u8],
    window_size: usize,
    min_periods: usize,
    center: bool,
    fisher: bool,
    bias: bool,
    work: &mut [f64],
    figures: &mut [f64],
    present: &mut [u8],
) -> u32
    ensures { CallsFixed center window_size min_periods (Kurtosis fisher bias) (tracing trace has_map map)
        (lending work figures present) result }
{
    moments::moments_rolling_kurtosis(
        trace,
        has_map,
        map,
        window_size,
        min_periods,
        center,
        fisher,
        bias,
        work,
        figures,
        present,
    )
}

#[unsafe(no_mangle)]
pub extern "C" fn moments_rolling_cov(
    x: &[f64],
    x_has_map: bool,
    x_map: &[u8],
    y: &[f64],
    y_has_map: bool,
    y_map: &[u8],
    window_size: usize,
    min_periods: usize,
    center: bool,
    ddof: u8,
    work: &mut [f64],
    figures: &mut [f64],
    present: &mut [u8],
) -> u32
    ensures { CallsFixed center window_size min_periods (Covariance ddof) (pairing x x_has_map x_map y y_has_map y_map)
        (lending work figures present) result }
{
    moments::moments_rolling_cov(
        x,
        x_has_map,
        x_map,
        y,
        y_has_map,
        y_map,
        window_size,
        min_periods,
        center,
        ddof,
        work,
        figures,
        present,
    )
}

#[unsafe(no_mangle)]
pub extern "C" fn moments_rolling_pearson_corr(
    x: &[f64],
    x_has_map: bool,
    x_map: &[u8],
    y: &[f64],
    y_has_map: bool,
    y_map: &[u8],
    window_size: usize,
    min_periods: usize,
    center: bool,
    work: &mut [f64],
    figures: &mut [f64],
    present: &mut [u8],
) -> u32
    ensures { CallsFixed center window_size min_periods Correlation (pairing x x_has_map x_map y y_has_map y_map)
        (lending work figures present) result }
{
    moments::moments_rolling_pearson_corr(
        x,
        x_has_map,
        x_map,
        y,
        y_has_map,
        y_map,
        window_size,
        min_periods,
        center,
        work,
        figures,
        present,
    )
}

#[unsafe(no_mangle)]
pub extern "C" fn moments_rolling_var_weights(
    trace: &[f64],
    has_map: bool,
    map: &[u8],
    window_size: usize,
    min_periods: usize,
    center: bool,
    weights: &[f64],
    figures: &mut [f64],
    present: &mut [u8],
) -> u32
    ensures { CallsWeights center window_size min_periods weights (tracing trace has_map map)
        (lending_column figures present) result }
{
    moments::moments_rolling_var_weights(
        trace,
        has_map,
        map,
        window_size,
        min_periods,
        center,
        weights,
        figures,
        present,
    )
}

#[unsafe(no_mangle)]
pub extern "C" fn moments_var(trace: &[f64], has_map: bool, map: &[u8], state: &mut [f64; 3]) -> u32
    ensures { StateResult var_list (var_answer (tracing trace has_map map)) state.old result state.new }
{
    moments::moments_var(trace, has_map, map, state)
}

#[unsafe(no_mangle)]
pub extern "C" fn moments_skew(
    trace: &[f64],
    has_map: bool,
    map: &[u8],
    state: &mut [f64; 4],
) -> u32
    ensures { StateResult skew_list (skew_answer (tracing trace has_map map)) state.old result state.new }
{
    moments::moments_skew(trace, has_map, map, state)
}

#[unsafe(no_mangle)]
pub extern "C" fn moments_skew_range(
    trace: &[f64],
    has_map: bool,
    map: &[u8],
    start: usize,
    length: usize,
    state: &mut [f64; 4],
) -> u32
    ensures { StateResult skew_list (skew_range (tracing trace has_map map) start length)
        state.old result state.new }
{
    moments::moments_skew_range(trace, has_map, map, start, length, state)
}

#[unsafe(no_mangle)]
pub extern "C" fn moments_kurtosis(
    trace: &[f64],
    has_map: bool,
    map: &[u8],
    state: &mut [f64; 5],
) -> u32
    ensures { StateResult kurtosis_list (kurtosis_answer (tracing trace has_map map)) state.old result state.new }
{
    moments::moments_kurtosis(trace, has_map, map, state)
}

#[unsafe(no_mangle)]
pub extern "C" fn moments_kurtosis_range(
    trace: &[f64],
    has_map: bool,
    map: &[u8],
    start: usize,
    length: usize,
    state: &mut [f64; 5],
) -> u32
    ensures { StateResult kurtosis_list (kurtosis_range (tracing trace has_map map) start length)
        state.old result state.new }
{
    moments::moments_kurtosis_range(trace, has_map, map, start, length, state)
}

#[unsafe(no_mangle)]
pub extern "C" fn moments_cov(
    x: &[f64],
    x_has_map: bool,
    x_map: &[u8],
    y: &[f64],
    y_has_map: bool,
    y_map: &[u8],
    state: &mut [f64; 4],
) -> u32
    ensures { StateResult cov_list (cov_answer (tracing x x_has_map x_map) (tracing y y_has_map y_map))
        state.old result state.new }
{
    moments::moments_cov(x, x_has_map, x_map, y, y_has_map, y_map, state)
}

#[unsafe(no_mangle)]
pub extern "C" fn moments_pearson_corr(
    x: &[f64],
    x_has_map: bool,
    x_map: &[u8],
    y: &[f64],
    y_has_map: bool,
    y_map: &[u8],
    state: &mut [f64; 6],
) -> u32
    ensures { StateResult pearson_list (pearson_answer (tracing x x_has_map x_map) (tracing y y_has_map y_map))
        state.old result state.new }
{
    moments::moments_pearson_corr(x, x_has_map, x_map, y, y_has_map, y_map, state)
}

#[unsafe(no_mangle)]
pub extern "C" fn moments_var_insert_one(state: VarState, x: f64) -> VarState
    ensures { result ≡ var_insert state x }
{
    moments::moments_var_insert_one(state, x)
}

#[unsafe(no_mangle)]
pub extern "C" fn moments_skew_insert_one(state: SkewState, x: f64) -> SkewState
    ensures { result ≡ skew_insert state x }
{
    moments::moments_skew_insert_one(state, x)
}

#[unsafe(no_mangle)]
pub extern "C" fn moments_kurtosis_insert_one(state: KurtosisState, x: f64) -> KurtosisState
    ensures { result ≡ kurtosis_insert state x }
{
    moments::moments_kurtosis_insert_one(state, x)
}

#[unsafe(no_mangle)]
pub extern "C" fn moments_cov_insert_one(state: CovState, x: f64, y: f64) -> CovState
    ensures { result ≡ cov_insert state x y }
{
    moments::moments_cov_insert_one(state, x, y)
}

#[unsafe(no_mangle)]
pub extern "C" fn moments_pearson_insert_one(state: PearsonState, x: f64, y: f64) -> PearsonState
    ensures { result ≡ pearson_insert state x y }
{
    moments::moments_pearson_insert_one(state, x, y)
}

#[unsafe(no_mangle)]
pub extern "C" fn moments_var_combine(state: VarState, other: VarState) -> VarState
    ensures { result ≡ var_combine state other }
{
    moments::moments_var_combine(state, other)
}

#[unsafe(no_mangle)]
pub extern "C" fn moments_skew_combine(state: SkewState, other: SkewState) -> SkewState
    ensures { result ≡ skew_combine state other }
{
    moments::moments_skew_combine(state, other)
}

#[unsafe(no_mangle)]
pub extern "C" fn moments_kurtosis_combine(
    state: KurtosisState,
    other: KurtosisState,
) -> KurtosisState
    ensures { result ≡ kurtosis_combine state other }
{
    moments::moments_kurtosis_combine(state, other)
}

#[unsafe(no_mangle)]
pub extern "C" fn moments_cov_combine(state: CovState, other: CovState) -> CovState
    ensures { result ≡ cov_combine state other }
{
    moments::moments_cov_combine(state, other)
}

#[unsafe(no_mangle)]
pub extern "C" fn moments_pearson_combine(state: PearsonState, other: PearsonState) -> PearsonState
    ensures { result ≡ pearson_combine state other }
{
    moments::moments_pearson_combine(state, other)
}

#[unsafe(no_mangle)]
pub extern "C" fn moments_var_finalize(state: VarState, ddof: u8, figure: &mut f64) -> u8
    ensures { FigureResult (var_finalize state ddof) result figure.new }
{
    moments::moments_var_finalize(state, ddof, figure)
}

#[unsafe(no_mangle)]
pub extern "C" fn moments_cov_finalize(state: CovState, ddof: u8, figure: &mut f64) -> u8
    ensures { FigureResult (cov_finalize state ddof) result figure.new }
{
    moments::moments_cov_finalize(state, ddof, figure)
}

#[unsafe(no_mangle)]
pub extern "C" fn moments_skew_finalize(state: SkewState, bias: bool, figure: &mut f64) -> u8
    ensures { FigureResult (skew_finalize state bias) result figure.new }
{
    moments::moments_skew_finalize(state, bias, figure)
}

#[unsafe(no_mangle)]
pub extern "C" fn moments_kurtosis_finalize(
    state: KurtosisState,
    fisher: bool,
    bias: bool,
    figure: &mut f64,
) -> u8
    ensures { FigureResult (kurtosis_finalize state fisher bias) result figure.new }
{
    moments::moments_kurtosis_finalize(state, fisher, bias, figure)
}

#[unsafe(no_mangle)]
pub extern "C" fn moments_pearson_finalize(state: PearsonState) -> f64
    ensures { result ≡ pearson_finalize state }
{
    moments::moments_pearson_finalize(state)
}

#[unsafe(no_mangle)]
pub extern "C" fn moments_root(x: f64) -> f64
    ensures { result ≡ root_of x }
{
    moments::moments_root(x)
}
