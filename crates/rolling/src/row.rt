// One row: where it is, whether it moves the window, and whether it has enough readings.
ghost use Rattle.std.specs.Prelude.{◌≡◌, ◌+◌, ◌-◌, ◌≤◌, cond, length, nat_le};
ghost use Rattle.plan.specs.Plan.{rows, planned};
ghost use Rattle.moment.specs.declared.Figure.{Figure};
ghost use Rattle.window.specs.Rows.{moves};
ghost use Rattle.window.specs.Extremes.{short_row};
ghost use Rattle.window.specs.Code.Filling.{RowThere, SetsRow};
ghost use Rattle.window.specs.Code.Stacks.{answer_from};
ghost use Rattle.rolling.specs.Code.Rows.{plan_by, listed_rows, fixed_rows, SameMany, RowIn, RowBounds, Ahead, Testable};

use moment::Figure;
use plan::{Fixed, Offsets, Plan};
use window::Window;

// The windows of a call's rows: fixed ones by how many places they reach to the left and to the right of their own, or those of a plan.
#[derive(Clone, Copy)]
pub(crate) enum Windows<'a> {
    Reaching { left: usize, right: usize },
    Listed(Plan<'a>),
}

// The rows of a call and what they are tested for. No window is wider than `widest`.
#[derive(Clone, Copy)]
pub(crate) struct Rows<'a> {
    pub(crate) windows: Windows<'a>,
    pub(crate) min_periods: usize,
    pub(crate) widest: usize,
}

// A row's window as a plan lists it; behind the last row an empty one.
fn listed(plan: Plan, row: usize) -> Offsets
    requires { length plan.starts.now ≡ length plan.ends.now }
    ensures { RowBounds (planned plan.entry) row result }
{
    if plan.starts.len() <= row {
        return Offsets { start: 0, end: 0 };
    }
    Offsets {
        start: plan.starts[row] as usize,
        end: plan.ends[row] as usize,
    }
}

impl<'a> Rows<'a> {
    pub(crate) fn listed(plan: Plan<'a>, min_periods: usize, widest: usize) -> Self
        ensures { result ≡ listed_rows plan.entry min_periods widest }
    {
        Rows {
            windows: Windows::Listed(plan),
            min_periods,
            widest,
        }
    }

    pub(crate) fn fixed(windows: Fixed, min_periods: usize, widest: usize) -> Self
        ensures { result ≡ fixed_rows windows.window_size windows.center min_periods widest }
    {
        Rows {
            windows: Windows::Reaching {
                left: windows.left_window(),
                right: windows.right_window(),
            },
            min_periods,
            widest,
        }
    }

    // How many there are over n places: of fixed windows one a place.
    pub(crate) fn len(self, n: usize) -> usize
        ensures { result ≡ rows (plan_by self.entry n) }
    {
        match self.windows {
            Windows::Reaching { .. } => n,
            Windows::Listed(plan) => plan.starts.len(),
        }
    }

    // The window of the first row, where there is one.
    pub(crate) fn first(self, n: usize) -> Offsets
        requires { SameMany self n }
        ensures { Ahead (plan_by self.entry n) 0 result }
    {
        match self.windows {
            Windows::Reaching { right, .. } => Offsets {
                start: 0,
                end: n.min(right),
            },
            Windows::Listed(plan) => listed(plan, 0),
        }
    }

    // The window of the row behind `row`, whose own is `at`: of fixed windows stepped on from it, of a plan as it is listed.
    pub(crate) fn next(self, n: usize, row: usize, at: Offsets) -> Offsets
        requires { RowIn self n row at }
        ensures { Ahead (plan_by self.entry n) (row + 1) result }
    {
        match self.windows {
            Windows::Reaching { left, .. } => plan::next_offsets(row, at, left, n),
            Windows::Listed(plan) => listed(plan, row + 1),
        }
    }

    // Whether row `row` moves the window. Whether there is a map the places tell, and not the rows. Three tests stay: by one `||` the row
    // is tested before its length, and covariance without a map takes 1.03 to 1.07 times as long. A row's length stays a difference that
    // `start ≤ end` is asked for: one that is 0 where it would be negative lengthens the loop of covariance by 65 instructions, and takes
    // 1.03 times as long.
    pub(crate) fn moves(self, has_map: bool, row: usize, at: Offsets) -> bool
        requires { at.start ≤ at.end }
        ensures { result ≡ moves has_map self.entry.min_periods row at.start at.end }
    {
        if self.min_periods <= at.end - at.start {
            return true;
        }
        if has_map {
            return true;
        }
        row == 0
    }

    // Whether a row without a map is shorter than the minimum: such a row shows no lowest and no highest reading, row 0 too.
    pub(crate) fn is_short(self, has_map: bool, at: Offsets) -> bool
        requires { at.start ≤ at.end }
        ensures { result ≡ short_row has_map self.entry.min_periods at.start at.end }
    {
        !has_map && at.end - at.start < self.min_periods
    }

    // 001's `is_valid` with a map, of a window with so many valid places; 002's test of the row's length without one.
    pub(crate) fn is_valid(self, has_map: bool, valid: usize, at: Offsets) -> bool
        requires { at.start ≤ at.end }
        ensures { result ≡ nat_le self.entry.min_periods (cond has_map valid (at.end - at.start)) }
    {
        if has_map {
            self.min_periods <= valid
        } else {
            self.min_periods <= at.end - at.start
        }
    }

    // 001's `get_moment` and the test of the minimum: a row's answer, of the window after its step and the state of its two parts.
    pub(crate) fn answer<S: Copy, F: Finalize<S>>(
        self,
        moment: F,
        state: S,
        w: Window,
        has_map: bool,
        at: Offsets,
    ) -> Figure
        requires { Testable w at.start at.end }
        ensures { result ≡ answer_from (F.finalize moment) has_map self.entry.min_periods at.start at.end w state }
    {
        if self.is_valid(has_map, w.front + w.back, at) {
            return window::or_nan(moment.finalize(state), w.nonfinite);
        }
        Figure::Missing
    }
}

// What makes a figure of a state: a moment's `finalize` with what it takes beside the state.
pub(crate) trait Finalize<S>: Copy {
    ghost finalize: { Self → S → Figure };

    fn finalize(self, state: S) -> Figure
        ensures { result ≡ finalize self state };
}

// A row's answer. A NaN is written as the one pattern 7FF8000000000000, in a branch of its own: a chosen value costs more here than the
// branch.
pub(crate) fn write(figures: &mut [f64], present: &mut [u8], row: usize, figure: Figure)
    requires { RowThere row (length figures.old) (length present.old) }
    ensures { SetsRow row figure figures present }
{
    let Figure::Present(x) = figure else {
        figures[row] = 0.0;
        present[row] = 0;
        return;
    };
    present[row] = 1;
    if !x.is_nan() {
        figures[row] = x;
        return;
    }
    figures[row] = f64::NAN;
}
