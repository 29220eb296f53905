// The rows of a call that gives one figure.
ghost use Rattle.std.specs.Prelude.{◌≡◌, min, length};
ghost use Rattle.trace.specs.Outcomes.{outcome_number};
ghost use Rattle.plan.specs.Plan.{planned};
ghost use Rattle.window.specs.Code.Stacks.{answer_by, place_width};
ghost use Rattle.rolling.specs.Code.Ops.{stored_by, series_by, CanTotal};
ghost use Rattle.rolling.specs.Code.Rows.{Testable, Driven, CanWork, WorksBlock, GivesFigure, PlanGives, FixedGives};

use crate::memory::InMemory;
use crate::moment_window::{MomentWindow, Standing, WindowState};
use crate::row::{self, Finalize, Rows};
use crate::series::Series;
use moment::Figure;
use plan::{Fixed, Offsets, Plan};
use trace::Refusal;

// A row's answer, of the window after its step. The state of its two parts is put together only where the row has enough readings: by
// `Rows::answer`, which is handed it, a row that is missing by the minimum takes up to twice as long.
fn answer<S: WindowState, F: Finalize<S>>(
    moment: F,
    rows: Rows,
    work: &[f64],
    w: MomentWindow<S>,
    mapped: bool,
    at: Offsets,
) -> Figure
    requires total { CanTotal S.Entry.layout S.layout S.ops S.counts w.window w.agg_back work.now }
    requires row { Testable w.window at.start at.end }
    ensures { result ≡ answer_by (stored_by S.Entry.layout S.layout S.ops) (F.finalize moment) mapped rows.entry.min_periods
        at.start at.end w.window w.agg_back work.now }
{
    if rows.is_valid(mapped, w.window.front + w.window.back, at) {
        return window::or_nan(moment.finalize(w.total(work)), w.window.nonfinite);
    }
    Figure::Missing
}

// The rows from `first` up to `until`, from what stands before the first to what stands behind the last: so rows can be driven from the
// middle of a plan. Each row is a step, an answer, and its two places in the lists. The next row's bounds are told before the row is
// worked, which was measured to be quicker than after it.
fn block<S: WindowState, T: Series<S::Entry>, F: Finalize<S>>(
    moment: F,
    rows: Rows,
    series: T,
    work: &mut [f64],
    figures: &mut [f64],
    present: &mut [u8],
    opening: Standing<S>,
    first: usize,
    until: usize,
) -> Standing<S>
    requires { CanWork (stored_by S.Entry.layout S.layout S.ops) (series_by (T.places series) (T.entries series)) (T.have series) rows
        (min (length figures.old) (length present.old)) first until opening.at opening.w.window opening.w.agg_back work.old }
    ensures { WorksBlock (stored_by S.Entry.layout S.layout S.ops) (F.finalize moment) (series_by (T.places series) (T.entries series))
        (T.have series) rows.entry first until work figures present result.at result.w.window result.w.agg_back }
{
    let n = series.len();
    let mut w = opening.w;
    let mut next = opening.at;
    for row in first..until {
        let at = next;
        next = rows.next(n, row, at);
        w = w.step(work, rows, series, row, at);
        let figure = answer(moment, rows, work, w, series.is_mapped(), at);
        row::write(figures, present, row, figure);
    }
    Standing { w, at: next }
}

// Every row of an accepted plan, or of fixed windows: from a fresh window on.
fn rows<S: WindowState, T: Series<S::Entry>, F: Finalize<S>>(
    moment: F,
    rows: Rows,
    series: T,
    work: &mut [f64],
    figures: &mut [f64],
    present: &mut [u8],
)
    requires { Driven rows (T.have series) (min (length figures.old) (length present.old))
        (place_width (stored_by S.Entry.layout S.layout S.ops)) (length work.old) }
    ensures { GivesFigure (stored_by S.Entry.layout S.layout S.ops) (F.finalize moment) (series_by (T.places series) (T.entries series))
        (T.have series) rows.entry work figures present }
{
    let n = series.len();
    let opening = Standing {
        w: MomentWindow::<S>::new(),
        at: rows.first(n),
    };
    block(
        moment,
        rows,
        series,
        work,
        figures,
        present,
        opening,
        0,
        rows.len(n),
    );
}

// A plan call of one figure: what refuses it, else its rows. Variance and skewness have this frame too, each with its own rows and
// variance with six lists: a trait of both would have these rows for its one method, and its contract no fewer clauses.
pub(crate) fn plan<S: WindowState, T: Series<S::Entry>, F: Finalize<S>>(
    moment: F,
    x: T,
    plan: Plan,
    min_periods: usize,
    work: &mut [f64],
    figures: &mut [f64],
    present: &mut [u8],
) -> Result<(), Refusal>
    ensures { PlanGives (stored_by S.Entry.layout S.layout S.ops) (F.finalize moment) (series_by (T.places x) (T.entries x))
        (T.have x) (T.refusal x) min_periods (planned plan.entry) work figures present (outcome_number result) }
{
    let outputs = figures.len().min(present.len());
    let place = S::WIDTH + S::Entry::WIDTH;
    let widest = plan::check_plan(x.check(), plan, x.len(), false, outputs, place, work.len())?;
    rows(
        moment,
        Rows::listed(plan, min_periods, widest),
        x,
        work,
        figures,
        present,
    );
    Ok(())
}

// The same of a call with fixed windows.
pub(crate) fn fixed<S: WindowState, T: Series<S::Entry>, F: Finalize<S>>(
    moment: F,
    x: T,
    windows: Fixed,
    min_periods: usize,
    work: &mut [f64],
    figures: &mut [f64],
    present: &mut [u8],
) -> Result<(), Refusal>
    ensures { FixedGives (stored_by S.Entry.layout S.layout S.ops) (F.finalize moment) (series_by (T.places x) (T.entries x))
        (T.have x) (T.refusal x) windows.center windows.window_size min_periods work figures present (outcome_number result) }
{
    let outputs = figures.len().min(present.len());
    let place = S::WIDTH + S::Entry::WIDTH;
    let widest = plan::check_fixed(x.check(), windows, x.len(), outputs, place, work.len())?;
    rows(
        moment,
        Rows::fixed(windows, min_periods, widest),
        x,
        work,
        figures,
        present,
    );
    Ok(())
}
