// The library's face to other languages: each entry of docs/ABI.md, with the whole contract of what stands behind it; the crate
// `moments_c` gives them their names for C. Nothing is required of a caller. A figure that is NaN has the bits 7FF8000000000000; a
// member of a state may be any NaN.
//
// Each entry is a function of its own and its parameters are C's, by docs/ABI.md: a flag beside a map, two lists for a figure, a number
// for a refusal.
#![tactic(auto)]

ghost use Rattle.std.specs.Prelude.{◌≡◌, List, Float};
ghost use Rattle.root.specs.Root.{root as root_of};
ghost use Rattle.moment.specs.Var.{var_insert, var_combine, var_finalize};
ghost use Rattle.moment.specs.Cov.{cov_insert, cov_combine, cov_finalize};
ghost use Rattle.moment.specs.Pearson.{pearson_insert, pearson_combine, pearson_finalize};
ghost use Rattle.moment.specs.Skew.{skew_insert, skew_combine, skew_finalize};
ghost use Rattle.moment.specs.Kurtosis.{kurtosis_insert, kurtosis_combine, kurtosis_finalize};
ghost use Rattle.moment.specs.Arrays.{answered, var_answer, cov_answer, pearson_answer, skew_answer, kurtosis_answer};
ghost use Rattle.moment.specs.Arrays.{skew_range, kurtosis_range};
ghost use Rattle.moment.specs.Arrays.{var_list, cov_list, pearson_list, skew_list, kurtosis_list};
ghost use Rattle.trace.specs.Trace.{tracing};
ghost use Rattle.trace.specs.Lent.{traced, LentAs};
ghost use Rattle.window.specs.Pairs.{pairing};
ghost use Rattle.rolling.specs.Moments.{Variance, Skewness, Kurtosis, Covariance, Correlation};
ghost use Rattle.rolling.specs.Calls.{query, querying, lending, lending_three, Calls};
ghost use Rattle.window.specs.Pairs.{paired};
ghost use Rattle.rolling.specs.Fixed.{CallsFixed};
ghost use Rattle.weighted.specs.Weights.{CallsWeights, lending_column};
ghost use Rattle.plan.specs.Plan.{planned};
ghost use Rattle.trace.specs.Outcomes.{outcome_number};
ghost use Rattle.window.specs.Given.{Readings, Pairs};
ghost use Rattle.moments.specs.Code.Checks.{ChecksBytes, ChecksBytePair};
ghost use Rattle.moments.specs.Code.Hosts.{Lends, LendsPair, Hosts, CallOn, CallOnPair};
ghost use Rattle.moments.specs.HostCall.{hosting, decoding, hosting_pair, decoding_pair, CallsBytes};
ghost use Rattle.moments.specs.Results.{StateResult, FigureResult};

use moment::{CovState, Figure, KurtosisState, PearsonState, SkewState, VarState};
use plan::{Fixed, Plan};
use rolling::{CovMoment, KurtosisMoment, PearsonMoment, SkewMoment, VarianceMoment};
use trace::{Pair, Refusal, Trace, lent_map, number};

// A trace as a host lends it: little-endian bytes, eight a reading, with a map where one is lent.
#[derive(Clone, Copy)]
struct ByteTrace<'a> {
    bytes: &'a [u8],
    map: Option<&'a [u8]>,
}

// Two traces as a host lends them.
#[derive(Clone, Copy)]
struct BytePair<'a> {
    x: ByteTrace<'a>,
    y: ByteTrace<'a>,
}

// What refuses a host call before anything is decoded; else how many readings its trace has. Of what is lent only lengths are known here:
// `outputs`, `place`, `work` would be put in a struct to be taken out again by `plan::check_plan`.
fn check_bytes(
    trace: ByteTrace,
    readings: usize,
    plan: Plan,
    outputs: usize,
    place: usize,
    work: usize,
) -> Result<usize, Refusal>
    ensures { Lends trace.entry (λ h. ChecksBytes h (planned plan.entry) readings outputs place work result) }
{
    Refusal::BytesNotWhole.when(trace.bytes.len() % 8 != 0)?;
    let n = trace.bytes.len() / 8;
    let given = trace::check_array(n, trace.map);
    plan::check_plan(given, plan, n, readings < n, outputs, place, work)?;
    Ok(n)
}

// The same of two traces, which have one length where none is refused: two functions, here and below, since what a pair is checked for and
// how many lists it is decoded into differ. `|` and not `||`: its tests are at hand, and of a branch the proof
// would have each way apart.
fn check_byte_pair(
    pair: BytePair,
    x_readings: usize,
    y_readings: usize,
    plan: Plan,
    outputs: usize,
    place: usize,
    work: usize,
) -> Result<usize, Refusal>
    ensures { LendsPair pair.entry (λ h. ChecksBytePair h (planned plan.entry) x_readings y_readings outputs place work result) }
{
    let BytePair { x, y } = pair;
    Refusal::BytesNotWhole.when((x.bytes.len() % 8 != 0) | (y.bytes.len() % 8 != 0))?;
    let x_len = x.bytes.len() / 8;
    let y_len = y.bytes.len() / 8;
    let given = trace::check_pair(x_len, x.map, y_len, y.map);
    let short = (x_readings < x_len) | (y_readings < y_len);
    plan::check_plan(given, plan, x_len, short, outputs, place, work)?;
    Ok(x_len)
}

// Makes a plan call of a trace that is lent as bytes, which are decoded into `readings` once no number refuses the call. The plan call
// checks once more: one pass without branches.
fn on_bytes<F: FnMut(Trace) -> Result<(), Refusal>>(
    trace: ByteTrace,
    readings: &mut [f64],
    plan: Plan,
    outputs: usize,
    place: usize,
    work: usize,
    call: &mut F,
) -> Result<(), Refusal>
    requires { F.IsAlwaysCallable call.now }
    ensures { Lends trace.entry (λ h. Hosts Readings h (planned plan.entry) outputs place work
        (CallOn h (λ x. F.step call.old x result call.new)) (call.new ≡ call.old) readings.old readings.new (outcome_number result)) }
{
    let n = check_bytes(trace, readings.len(), plan, outputs, place, work)?;
    float::decode(trace.bytes, readings);
    call(Trace {
        values: &readings[..n],
        map: trace.map,
    })
}

// The same of two traces.
fn on_byte_pair<F: FnMut(Pair) -> Result<(), Refusal>>(
    pair: BytePair,
    x_readings: &mut [f64],
    y_readings: &mut [f64],
    plan: Plan,
    outputs: usize,
    place: usize,
    work: usize,
    call: &mut F,
) -> Result<(), Refusal>
    requires { F.IsAlwaysCallable call.now }
    ensures { LendsPair pair.entry (λ h. Hosts Pairs h (planned plan.entry) outputs place work
        (CallOnPair h (λ xy. F.step call.old xy result call.new)) (call.new ≡ call.old)
        (x_readings.old, y_readings.old) (x_readings.new, y_readings.new) (outcome_number result)) }
{
    let n = check_byte_pair(
        pair,
        x_readings.len(),
        y_readings.len(),
        plan,
        outputs,
        place,
        work,
    )?;
    float::decode(pair.x.bytes, x_readings);
    float::decode(pair.y.bytes, y_readings);
    call(Pair {
        x: Trace {
            values: &x_readings[..n],
            map: pair.x.map,
        },
        y: Trace {
            values: &y_readings[..n],
            map: pair.y.map,
        },
    })
}

// Plans: the trace as little-endian bytes; 0, or the number of the first refusal and every list as it was. Each `call` says the plan call's
// clause again: from what is inferred of a closure the entry's own clause was not proved.
pub fn moments_plan_var(
    trace: &[u8],
    readings: &mut [f64],
    has_map: bool,
    map: &[u8],
    starts: &[u32],
    ends: &[u32],
    min_periods: usize,
    ddof: u8,
    work: &mut [f64],
    figures: &mut [f64],
    present: &mut [u8],
    lowest: &mut [f64],
    lowest_present: &mut [u8],
    highest: &mut [f64],
    highest_present: &mut [u8],
) -> u32
    ensures { CallsBytes (querying starts ends min_periods (Variance ddof)) (hosting trace has_map map)
        (decoding readings) (lending_three work figures present lowest lowest_present highest highest_present) result }
{
    let plan = Plan { starts, ends };
    let outputs = VarianceMoment::shortest(
        figures.len(),
        present.len(),
        lowest.len(),
        lowest_present.len(),
        highest.len(),
        highest_present.len(),
    );
    let place = VarianceMoment::PLACE;
    let trace = ByteTrace {
        bytes: trace,
        map: lent_map(has_map, map),
    };
    let room = work.len();
    let mut call = |x: Trace| -> Result<(), Refusal>
        ensures { Calls (query (planned plan.entry) min_periods (Variance ddof)) (traced x.entry)
            (lending_three work figures present lowest lowest_present highest highest_present) (outcome_number result) }
    {
        rolling::plan_var(
            x,
            plan,
            min_periods,
            ddof,
            work,
            figures,
            present,
            lowest,
            lowest_present,
            highest,
            highest_present,
        )
    };
    number(on_bytes(trace, readings, plan, outputs, place, room, &mut call))
}

pub fn moments_plan_skew(
    trace: &[u8],
    readings: &mut [f64],
    has_map: bool,
    map: &[u8],
    starts: &[u32],
    ends: &[u32],
    min_periods: usize,
    bias: bool,
    work: &mut [f64],
    figures: &mut [f64],
    present: &mut [u8],
) -> u32
    ensures { CallsBytes (querying starts ends min_periods (Skewness bias)) (hosting trace has_map map)
        (decoding readings) (lending work figures present) result }
{
    let plan = Plan { starts, ends };
    let outputs = figures.len().min(present.len());
    let place = SkewMoment::PLACE;
    let trace = ByteTrace {
        bytes: trace,
        map: lent_map(has_map, map),
    };
    let room = work.len();
    let mut call = |x: Trace| -> Result<(), Refusal>
        ensures { Calls (query (planned plan.entry) min_periods (Skewness bias)) (traced x.entry) (lending work figures present)
            (outcome_number result) }
    { rolling::plan_skew(x, plan, min_periods, bias, work, figures, present) };
    number(on_bytes(trace, readings, plan, outputs, place, room, &mut call))
}

pub fn moments_plan_kurtosis(
    trace: &[u8],
    readings: &mut [f64],
    has_map: bool,
    map: &[u8],
    starts: &[u32],
    ends: &[u32],
    min_periods: usize,
    fisher: bool,
    bias: bool,
    work: &mut [f64],
    figures: &mut [f64],
    present: &mut [u8],
) -> u32
    ensures { CallsBytes (querying starts ends min_periods (Kurtosis fisher bias)) (hosting trace has_map map)
        (decoding readings) (lending work figures present) result }
{
    let plan = Plan { starts, ends };
    let outputs = figures.len().min(present.len());
    let place = KurtosisMoment::PLACE;
    let trace = ByteTrace {
        bytes: trace,
        map: lent_map(has_map, map),
    };
    let room = work.len();
    let mut call = |x: Trace| -> Result<(), Refusal>
        ensures { Calls (query (planned plan.entry) min_periods (Kurtosis fisher bias)) (traced x.entry) (lending work figures present)
            (outcome_number result) }
    { rolling::plan_kurtosis(x, plan, min_periods, fisher, bias, work, figures, present) };
    number(on_bytes(trace, readings, plan, outputs, place, room, &mut call))
}

pub fn moments_plan_cov(
    x: &[u8],
    x_readings: &mut [f64],
    x_has_map: bool,
    x_map: &[u8],
    y: &[u8],
    y_readings: &mut [f64],
    y_has_map: bool,
    y_map: &[u8],
    starts: &[u32],
    ends: &[u32],
    min_periods: usize,
    ddof: u8,
    work: &mut [f64],
    figures: &mut [f64],
    present: &mut [u8],
) -> u32
    ensures { CallsBytes (querying starts ends min_periods (Covariance ddof))
        (hosting_pair x x_has_map x_map y y_has_map y_map) (decoding_pair x_readings y_readings) (lending work figures present) result }
{
    let plan = Plan { starts, ends };
    let outputs = figures.len().min(present.len());
    let place = CovMoment::PLACE;
    let pair = BytePair {
        x: ByteTrace {
            bytes: x,
            map: lent_map(x_has_map, x_map),
        },
        y: ByteTrace {
            bytes: y,
            map: lent_map(y_has_map, y_map),
        },
    };
    let room = work.len();
    let mut call = |pair: Pair| -> Result<(), Refusal>
        ensures { Calls (query (planned plan.entry) min_periods (Covariance ddof)) (paired pair.entry) (lending work figures present)
            (outcome_number result) }
    { rolling::plan_cov(pair, plan, min_periods, ddof, work, figures, present) };
    number(on_byte_pair(
        pair, x_readings, y_readings, plan, outputs, place, room, &mut call,
    ))
}

pub fn moments_plan_pearson_corr(
    x: &[u8],
    x_readings: &mut [f64],
    x_has_map: bool,
    x_map: &[u8],
    y: &[u8],
    y_readings: &mut [f64],
    y_has_map: bool,
    y_map: &[u8],
    starts: &[u32],
    ends: &[u32],
    min_periods: usize,
    work: &mut [f64],
    figures: &mut [f64],
    present: &mut [u8],
) -> u32
    ensures { CallsBytes (querying starts ends min_periods Correlation)
        (hosting_pair x x_has_map x_map y y_has_map y_map) (decoding_pair x_readings y_readings) (lending work figures present) result }
{
    let plan = Plan { starts, ends };
    let outputs = figures.len().min(present.len());
    let place = PearsonMoment::PLACE;
    let pair = BytePair {
        x: ByteTrace {
            bytes: x,
            map: lent_map(x_has_map, x_map),
        },
        y: ByteTrace {
            bytes: y,
            map: lent_map(y_has_map, y_map),
        },
    };
    let room = work.len();
    let mut call = |pair: Pair| -> Result<(), Refusal>
        ensures { Calls (query (planned plan.entry) min_periods Correlation) (paired pair.entry) (lending work figures present)
            (outcome_number result) }
    { rolling::plan_pearson_corr(pair, plan, min_periods, work, figures, present) };
    number(on_byte_pair(
        pair, x_readings, y_readings, plan, outputs, place, room, &mut call,
    ))
}

// Two traces as C lends them.
fn lent_pair<'a>(
    x: &'a [f64],
    x_has_map: bool,
    x_map: &'a [u8],
    y: &'a [f64],
    y_has_map: bool,
    y_map: &'a [u8],
) -> Pair<'a>
    ensures x_lent { LentAs x.now x_has_map x_map.now (traced result.x) }
    ensures y_lent { LentAs y.now y_has_map y_map.now (traced result.y) }
{
    Pair {
        x: Trace::lent(x, x_has_map, x_map),
        y: Trace::lent(y, y_has_map, y_map),
    }
}

// Fixed windows, the trace as doubles.
pub fn moments_rolling_var(
    trace: &[f64],
    has_map: bool,
    map: &[u8],
    window_size: usize,
    min_periods: usize,
    center: bool,
    ddof: u8,
    work: &mut [f64],
    figures: &mut [f64],
    present: &mut [u8],
    lowest: &mut [f64],
    lowest_present: &mut [u8],
    highest: &mut [f64],
    highest_present: &mut [u8],
) -> u32
    ensures { CallsFixed center window_size min_periods (Variance ddof) (tracing trace has_map map)
        (lending_three work figures present lowest lowest_present highest highest_present) result }
{
    let x = Trace::lent(trace, has_map, map);
    number(rolling::rolling_var(
        x,
        Fixed {
            window_size,
            center,
        },
        min_periods,
        ddof,
        work,
        figures,
        present,
        lowest,
        lowest_present,
        highest,
        highest_present,
    ))
}

pub fn moments_rolling_skew(
    trace: &[f64],
    has_map: bool,
    map: &[u8],
    window_size: usize,
    min_periods: usize,
    center: bool,
    bias: bool,
    work: &mut [f64],
    figures: &mut [f64],
    present: &mut [u8],
) -> u32
    ensures { CallsFixed center window_size min_periods (Skewness bias) (tracing trace has_map map)
        (lending work figures present) result }
{
    let x = Trace::lent(trace, has_map, map);
    number(rolling::rolling_skew(
        x,
        Fixed {
            window_size,
            center,
        },
        min_periods,
        bias,
        work,
        figures,
        present,
    ))
}

pub fn moments_rolling_kurtosis(
    trace: &[f64],
    has_map: bool,
    map: &[u8],
    window_size: usize,
    min_periods: usize,
    center: bool,
    fisher: bool,
    bias: bool,
    work: &mut [f64],
    figures: &mut [f64],
    present: &mut [u8],
) -> u32
    ensures { CallsFixed center window_size min_periods (Kurtosis fisher bias) (tracing trace has_map map)
        (lending work figures present) result }
{
    let x = Trace::lent(trace, has_map, map);
    number(rolling::rolling_kurtosis(
        x,
        Fixed {
            window_size,
            center,
        },
        min_periods,
        fisher,
        bias,
        work,
        figures,
        present,
    ))
}

pub fn moments_rolling_cov(
    x: &[f64],
    x_has_map: bool,
    x_map: &[u8],
    y: &[f64],
    y_has_map: bool,
    y_map: &[u8],
    window_size: usize,
    min_periods: usize,
    center: bool,
    ddof: u8,
    work: &mut [f64],
    figures: &mut [f64],
    present: &mut [u8],
) -> u32
    ensures { CallsFixed center window_size min_periods (Covariance ddof) (pairing x x_has_map x_map y y_has_map y_map)
        (lending work figures present) result }
{
    let pair = lent_pair(x, x_has_map, x_map, y, y_has_map, y_map);
    number(rolling::rolling_cov(
        pair,
        Fixed {
            window_size,
            center,
        },
        min_periods,
        ddof,
        work,
        figures,
        present,
    ))
}

pub fn moments_rolling_pearson_corr(
    x: &[f64],
    x_has_map: bool,
    x_map: &[u8],
    y: &[f64],
    y_has_map: bool,
    y_map: &[u8],
    window_size: usize,
    min_periods: usize,
    center: bool,
    work: &mut [f64],
    figures: &mut [f64],
    present: &mut [u8],
) -> u32
    ensures { CallsFixed center window_size min_periods Correlation (pairing x x_has_map x_map y y_has_map y_map)
        (lending work figures present) result }
{
    let pair = lent_pair(x, x_has_map, x_map, y, y_has_map, y_map);
    number(rolling::rolling_pearson_corr(
        pair,
        Fixed {
            window_size,
            center,
        },
        min_periods,
        work,
        figures,
        present,
    ))
}

pub fn moments_rolling_var_weights(
    trace: &[f64],
    has_map: bool,
    map: &[u8],
    window_size: usize,
    min_periods: usize,
    center: bool,
    weights: &[f64],
    figures: &mut [f64],
    present: &mut [u8],
) -> u32
    ensures { CallsWeights center window_size min_periods weights (tracing trace has_map map)
        (lending_column figures present) result }
{
    let x = Trace::lent(trace, has_map, map);
    number(weighted::rolling_var_weights(
        x,
        Fixed {
            window_size,
            center,
        },
        min_periods,
        weights,
        figures,
        present,
    ))
}

// Whole arrays and ranges: 0 and the state's members, or a refusal's number and the state as it was.
fn store<S: Into<[f64; N]>, const N: usize>(answer: Result<S, Refusal>, state: &mut [f64; N]) -> u32
    ensures { (list : S → List Float) → ((s : S) (members : List Float) → S.converts s members → members ≡ list s)
        → StateResult list (answered answer) state.old result state.new }
{
    match answer {
        Ok(s) => {
            *state = s.into();
            0
        }
        Err(refusal) => u32::from(refusal),
    }
}

pub fn moments_var(trace: &[f64], has_map: bool, map: &[u8], state: &mut [f64; 3]) -> u32
    ensures { StateResult var_list (var_answer (tracing trace has_map map)) state.old result state.new }
{
    store(moment::var(Trace::lent(trace, has_map, map)), state)
}

pub fn moments_skew(trace: &[f64], has_map: bool, map: &[u8], state: &mut [f64; 4]) -> u32
    ensures { StateResult skew_list (skew_answer (tracing trace has_map map)) state.old result state.new }
{
    store(moment::skew(Trace::lent(trace, has_map, map)), state)
}

pub fn moments_skew_range(
    trace: &[f64],
    has_map: bool,
    map: &[u8],
    start: usize,
    length: usize,
    state: &mut [f64; 4],
) -> u32
    ensures { StateResult skew_list (skew_range (tracing trace has_map map) start length)
        state.old result state.new }
{
    let trace = Trace::lent(trace, has_map, map);
    store(SkewState::from_array(trace, start, length), state)
}

pub fn moments_kurtosis(trace: &[f64], has_map: bool, map: &[u8], state: &mut [f64; 5]) -> u32
    ensures { StateResult kurtosis_list (kurtosis_answer (tracing trace has_map map))
        state.old result state.new }
{
    store(moment::kurtosis(Trace::lent(trace, has_map, map)), state)
}

pub fn moments_kurtosis_range(
    trace: &[f64],
    has_map: bool,
    map: &[u8],
    start: usize,
    length: usize,
    state: &mut [f64; 5],
) -> u32
    ensures { StateResult kurtosis_list (kurtosis_range (tracing trace has_map map) start length)
        state.old result state.new }
{
    let trace = Trace::lent(trace, has_map, map);
    store(KurtosisState::from_array(trace, start, length), state)
}

pub fn moments_cov(
    x: &[f64],
    x_has_map: bool,
    x_map: &[u8],
    y: &[f64],
    y_has_map: bool,
    y_map: &[u8],
    state: &mut [f64; 4],
) -> u32
    ensures { StateResult cov_list (cov_answer (tracing x x_has_map x_map) (tracing y y_has_map y_map))
        state.old result state.new }
{
    let pair = lent_pair(x, x_has_map, x_map, y, y_has_map, y_map);
    store(moment::cov(pair), state)
}

pub fn moments_pearson_corr(
    x: &[f64],
    x_has_map: bool,
    x_map: &[u8],
    y: &[f64],
    y_has_map: bool,
    y_map: &[u8],
    state: &mut [f64; 6],
) -> u32
    ensures { StateResult pearson_list (pearson_answer (tracing x x_has_map x_map) (tracing y y_has_map y_map))
        state.old result state.new }
{
    let pair = lent_pair(x, x_has_map, x_map, y, y_has_map, y_map);
    store(moment::pearson_corr(pair), state)
}

// States.
pub fn moments_var_insert_one(state: VarState, x: f64) -> VarState
    ensures { result ≡ var_insert state x }
{
    VarState::insert_one(state, x)
}

pub fn moments_skew_insert_one(state: SkewState, x: f64) -> SkewState
    ensures { result ≡ skew_insert state x }
{
    SkewState::insert_one(state, x)
}

pub fn moments_kurtosis_insert_one(state: KurtosisState, x: f64) -> KurtosisState
    ensures { result ≡ kurtosis_insert state x }
{
    KurtosisState::insert_one(state, x)
}

pub fn moments_cov_insert_one(state: CovState, x: f64, y: f64) -> CovState
    ensures { result ≡ cov_insert state x y }
{
    CovState::insert_one(state, x, y)
}

pub fn moments_pearson_insert_one(state: PearsonState, x: f64, y: f64) -> PearsonState
    ensures { result ≡ pearson_insert state x y }
{
    PearsonState::insert_one(state, x, y)
}

pub fn moments_var_combine(state: VarState, other: VarState) -> VarState
    ensures { result ≡ var_combine state other }
{
    VarState::combine(state, other)
}

pub fn moments_skew_combine(state: SkewState, other: SkewState) -> SkewState
    ensures { result ≡ skew_combine state other }
{
    SkewState::combine(state, other)
}

pub fn moments_kurtosis_combine(state: KurtosisState, other: KurtosisState) -> KurtosisState
    ensures { result ≡ kurtosis_combine state other }
{
    KurtosisState::combine(state, other)
}

pub fn moments_cov_combine(state: CovState, other: CovState) -> CovState
    ensures { result ≡ cov_combine state other }
{
    CovState::combine(state, other)
}

pub fn moments_pearson_combine(state: PearsonState, other: PearsonState) -> PearsonState
    ensures { result ≡ pearson_combine state other }
{
    PearsonState::combine(state, other)
}

// Writes a figure's double and answers its byte.
fn store_figure(answer: Figure, figure: &mut f64) -> u8
    ensures { FigureResult answer result figure.new }
{
    let Figure::Present(v) = answer else {
        *figure = 0.0;
        return 0;
    };
    *figure = float::canonical(v);
    1
}

pub fn moments_var_finalize(state: VarState, ddof: u8, figure: &mut f64) -> u8
    ensures { FigureResult (var_finalize state ddof) result figure.new }
{
    store_figure(VarState::finalize(state, ddof), figure)
}

pub fn moments_cov_finalize(state: CovState, ddof: u8, figure: &mut f64) -> u8
    ensures { FigureResult (cov_finalize state ddof) result figure.new }
{
    store_figure(CovState::finalize(state, ddof), figure)
}

pub fn moments_skew_finalize(state: SkewState, bias: bool, figure: &mut f64) -> u8
    ensures { FigureResult (skew_finalize state bias) result figure.new }
{
    store_figure(SkewState::finalize(state, bias), figure)
}

pub fn moments_kurtosis_finalize(
    state: KurtosisState,
    fisher: bool,
    bias: bool,
    figure: &mut f64,
) -> u8
    ensures { FigureResult (kurtosis_finalize state fisher bias) result figure.new }
{
    store_figure(KurtosisState::finalize(state, fisher, bias), figure)
}

pub fn moments_pearson_finalize(state: PearsonState) -> f64
    ensures { result ≡ pearson_finalize state }
{
    float::canonical(PearsonState::finalize(state))
}

pub fn moments_root(x: f64) -> f64
    ensures { result ≡ root_of x }
{
    float::canonical(root::root(x))
}
