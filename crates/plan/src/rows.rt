// What refuses the rows of a plan. Most plans are accepted: all rows are tested in one pass without a branch on a row, and only a
// plan that fails a test is walked for its number.
ghost use Rattle.std.specs.Prelude.{◌≡◌, length};
ghost use Rattle.trace.specs.Outcomes.{outcome_number};
ghost use Rattle.plan.specs.Plan.{planned};
ghost use Rattle.plan.specs.Refusals.{row_refusal};
ghost use Rattle.plan.specs.Code.Accepted.{ScansRows, Testable, TestsRows, WidthOf};

use crate::{Offsets, Plan};
use trace::Refusal;

// What refuses a row of a plan over n places after the row before.
pub fn check_row(n: usize, before: Offsets, row: Offsets) -> Result<(), Refusal>
    ensures { outcome_number result ≡ row_refusal n before.start before.end row.start row.end }
{
    Refusal::StartAboveEnd.when(row.start > row.end)?;
    Refusal::EndPastTrace.when(row.end > n)?;
    Refusal::BoundsFall.when((row.start < before.start) | (row.end < before.end))
}

// The widest window, or what refuses the first row that is refused, found row by row.
fn first_refusal(n: usize, plan: Plan) -> Result<usize, Refusal>
    requires { length plan.starts.now ≡ length plan.ends.now }
    ensures { ScansRows n (planned plan.entry) result }
{
    let mut widest: usize = 0;
    let mut before = Offsets { start: 0, end: 0 };
    for (&start, &end) in plan.starts.iter().zip(plan.ends) {
        let row = Offsets {
            start: start as usize,
            end: end as usize,
        };
        check_row(n, before, row)?;
        widest = widest.max(row.end - row.start);
        before = row;
    }
    Ok(widest)
}

// A row's width, which wraps where the row ends before it starts.
fn width(start: u32, end: u32) -> u32
    ensures { WidthOf start end result }
{
    end.wrapping_sub(start)
}

// The widest window, where no test of a row fails. The tests are without a branch on a row, so that several rows are tested at once: a row
// is compared with the row before it, and its width kept, which wraps where it ends before it starts. Where no bound falls, the last ones
// are the largest, so one test at the end tells for all rows whether they lie in the trace; and of rows that do, a width that wrapped is
// wider than the trace.
fn test_rows(n: u32, plan: Plan) -> Option<u32>
    requires { Testable n plan.starts.now plan.ends.now }
    ensures { TestsRows n (planned plan.entry) result }
{
    let mut falls = false;
    let mut widest: u32 = 0;
    let mut before_start: u32 = 0;
    let mut before_end: u32 = 0;
    for (&start, &end) in plan.starts.iter().zip(plan.ends) {
        falls |= (start < before_start) | (end < before_end);
        widest = widest.max(width(start, end));
        before_start = start;
        before_end = end;
    }
    let past = (n < before_start) | (n < before_end) | (n < widest);
    if falls | past { None } else { Some(widest) }
}

// The rows of a plan over n places. Bounds are of 32 bits, and so are those of a trace that is not too long.
pub(crate) fn scan(n: usize, plan: Plan) -> Result<usize, Refusal>
    requires { length plan.starts.now ≡ length plan.ends.now }
    ensures { ScansRows n (planned plan.entry) result }
{
    if n > trace::MAX_READINGS {
        return first_refusal(n, plan);
    }
    match test_rows(n as u32, plan) {
        Some(widest) => Ok(widest as usize),
        None => first_refusal(n, plan),
    }
}
