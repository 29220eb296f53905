// Plans and fixed windows: which rows they have, and what refuses a call with them. Every function is total, so that the crates
// above share them: a check knows no list but the plan's, only the lengths of what is lent.
#![tactic(auto)]

ghost use Rattle.std.specs.Prelude.{◌≡◌, ◌*◌, nat_lt};
ghost use Rattle.trace.specs.Outcomes.{outcome_number};
ghost use Rattle.plan.specs.Plan.{planned};
ghost use Rattle.plan.specs.Code.Accepted.{Checks, ChecksFixed, ChecksPlan, ChecksWindows, WidestOf};

use trace::Refusal;

mod bounds;
mod rows;

pub use bounds::{Fixed, Offsets, end_of, next_offsets};
pub use rows::check_row;

// A list of windows: row i's holds places starts[i] up to but not including ends[i].
#[derive(Clone, Copy)]
pub struct Plan<'a> {
    pub starts: &'a [u32],
    pub ends: &'a [u32],
}

impl Plan<'_> {
    // Its widest window over n places, or why the plan itself is refused, whatever else a call is given or lent.
    pub fn widest(self, n: usize) -> Result<usize, Refusal>
        ensures { WidestOf n (planned self.entry) result }
    {
        let rows = self.starts.len();
        Refusal::WrongLists.when((rows != self.ends.len()) | (rows > trace::MAX_READINGS))?;
        rows::scan(n, self)
    }
}

// Whether the work slice is too short for so many places. A quotient is compared, since the product might wrap.
fn is_too_little(work: usize, width: usize, widest: usize) -> bool
    ensures { result ≡ nat_lt work (width * widest) }
{
    width != 0 && work / width < widest
}

// The widest window of a call with a plan over n places, or why it is refused. `given` is what is known of what the call is given; the
// caller does not test it, so that the order of all numbers is one contract. `short` says that a list of readings is too short, `outputs`
// is the length of the shortest output list, and a place needs `width` doubles of the work slice.
pub fn check_plan(
    given: Result<(), Refusal>,
    plan: Plan,
    n: usize,
    short: bool,
    outputs: usize,
    width: usize,
    work: usize,
) -> Result<usize, Refusal>
    ensures { ChecksPlan (outcome_number given) (planned plan.entry) n short outputs width work result }
{
    given?;
    let widest = plan.widest(n)?;
    Refusal::OutputTooShort.when(short | (outputs < plan.starts.len()))?;
    Refusal::WorkTooShort.when(is_too_little(work, width, widest))?;
    Ok(widest)
}

// The same for fixed windows over n places, trailing or centred alike.
pub fn check_fixed(
    given: Result<(), Refusal>,
    windows: Fixed,
    n: usize,
    outputs: usize,
    width: usize,
    work: usize,
) -> Result<usize, Refusal>
    ensures { ChecksWindows (outcome_number given) n windows.window_size outputs width work result }
{
    given?;
    Refusal::OutputTooShort.when(outputs < n)?;
    let widest = windows.widest(n);
    Refusal::WorkTooShort.when(is_too_little(work, width, widest))?;
    Ok(widest)
}

// A call's number, or 0, and its widest window.
#[derive(Clone, Copy)]
pub struct Checked {
    pub number: u32,
    pub widest: usize,
}

// `check_plan` by numbers: of any number of what is given, and with the widest window where the lists that are lent refuse the call too.
pub fn plan_refusal(
    given: u32,
    plan: Plan,
    n: usize,
    short: bool,
    outputs: usize,
    width: usize,
    work: usize,
) -> Checked
    ensures { Checks given (planned plan.entry) n short outputs width work result.number result.widest }
{
    if given != 0 {
        return Checked {
            number: given,
            widest: 0,
        };
    }
    let rows = plan.starts.len();
    match plan.widest(n) {
        Err(refusal) => Checked {
            number: u32::from(refusal),
            widest: 0,
        },
        Ok(widest) => Checked {
            number: trace::first(
                trace::refuse(12, short | (outputs < rows)),
                trace::refuse(13, is_too_little(work, width, widest)),
            ),
            widest,
        },
    }
}

// The same for fixed windows over n places, trailing or centred alike.
pub fn fixed_refusal(
    given: u32,
    windows: Fixed,
    n: usize,
    outputs: usize,
    width: usize,
    work: usize,
) -> Checked
    ensures { ChecksFixed given n windows.window_size outputs width work result.number result.widest }
{
    let widest = windows.window_size.min(n);
    let outputs = trace::refuse(12, outputs < n);
    let work = trace::refuse(13, is_too_little(work, width, widest));
    Checked {
        number: trace::first(trace::first(given, outputs), work),
        widest,
    }
}
