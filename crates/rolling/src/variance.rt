// Variance over moving windows, with the lowest and the highest reading: 001's `VarianceMoment`.
ghost use Rattle.std.specs.Prelude.{◌≡◌, min, length};
ghost use Rattle.trace.specs.Outcomes.{outcome_number};
ghost use Rattle.trace.specs.Trace.{valid_at};
ghost use Rattle.trace.specs.Lent.{traced};
ghost use Rattle.trace.proofs.Accepted.{few_readings};
ghost use Rattle.moment.specs.Var.{var_finalize};
ghost use Rattle.plan.specs.Plan.{planned};
ghost use Rattle.window.specs.Readings.{nonfinite_at, reading_of};
ghost use Rattle.rolling.specs.Moments.{Variance};
ghost use Rattle.rolling.specs.Calls.{query, yields, lending_three, Calls};
ghost use Rattle.rolling.specs.Fixed.{CallsFixed};
ghost use Rattle.rolling.specs.Code.Layouts.{var_stored};
ghost use Rattle.rolling.specs.Code.Rows.{shortest_three, driven_query, raw_of, Leaves, Driven, CanWork, WorksLists};

use crate::extremes::{VarExtremes, extreme};
use crate::memory::InMemory;
use crate::moment_window::{MomentWindow, Standing};
use crate::row::{self, Finalize, Rows};
use crate::series::{Places, Series};
use moment::Figure;
use plan::{Fixed, Plan};
use trace::{Refusal, Trace};

// A trace whose readings enter as they are, so that a flip can tell which are not finite. The trace's own methods are written out: Rattle
// has no way to take an impl over but for one of them.
#[derive(Clone, Copy)]
pub(crate) struct Raw<'a>(pub(crate) Trace<'a>);

impl Places for Raw<'_> {
    ghost places = { λ x. ⟦<Trace<'static> as Places>⟧.places x.0 };

    ghost have = { λ x. ⟦<Trace<'static> as Places>⟧.have x.0 };

    ghost refusal = { λ x. ⟦<Trace<'static> as Places>⟧.refusal x.0 };

    fn len(self) -> usize {
        self.0.len()
    }

    fn check(self) -> Result<(), Refusal> {
        self.0.check()
    }

    fn is_mapped(self) -> bool {
        self.0.is_mapped()
    }

    fn is_valid(self, i: usize) -> bool {
        self.0.is_valid(i)
    }

    fn is_nonfinite(self, i: usize) -> bool {
        self.0.is_nonfinite(i)
    }

    ghost unmapped = { λ x e i. unfold valid_at in Prim.rw e };

    ghost few = { λ x. few_readings (traced x.0) };

    ghost missing = { λ x i e. unfold nonfinite_at in Prim.rw e };
}

impl Series<f64> for Raw<'_> {
    ghost entries = { λ x. reading_of (traced x.0).readings };

    fn entry(self, i: usize) -> f64 {
        self.0.values[i]
    }

    fn holds_nonfinite(self, i: usize) -> bool {
        self.0.holds_nonfinite(i)
    }

    fn value(self, i: usize) -> f64 {
        self.entry(i)
    }
}

#[derive(Clone, Copy)]
pub struct VarianceMoment {
    pub ddof: u8,
}

impl Finalize<VarExtremes> for VarianceMoment {
    ghost finalize = { λ moment state. var_finalize state.var moment.ddof };

    fn finalize(self, state: VarExtremes) -> Figure {
        state.var.finalize(self.ddof)
    }
}

impl VarianceMoment {
    // Doubles of a place of the window, in both stacks.
    pub const PLACE: usize = VarExtremes::WIDTH + f64::WIDTH;

    // The length of the shortest of a call's six lists.
    pub fn shortest(
        figures: usize,
        present: usize,
        lowest: usize,
        lowest_present: usize,
        highest: usize,
        highest_present: usize,
    ) -> usize
        ensures { result ≡ min (min (min (min (min figures present) lowest) lowest_present) highest) highest_present }
    {
        figures
            .min(present)
            .min(lowest)
            .min(lowest_present)
            .min(highest)
            .min(highest_present)
    }

    // The rows from `first` up to `until`, from what stands before the first to what stands behind the last, as in the other moments.
    fn block(
        self,
        rows: Rows,
        x: Trace,
        work: &mut [f64],
        figures: &mut [f64],
        present: &mut [u8],
        lowest: &mut [f64],
        lowest_present: &mut [u8],
        highest: &mut [f64],
        highest_present: &mut [u8],
        opening: Standing<VarExtremes>,
        first: usize,
        until: usize,
    ) -> Standing<VarExtremes>
        requires { CanWork var_stored (raw_of (traced x)) (length (traced x).readings) rows
            (shortest_three figures.old present.old lowest.old lowest_present.old highest.old highest_present.old) first until
            opening.at opening.w.window opening.w.agg_back work.old }
        ensures { WorksLists var_stored (raw_of (traced x.entry)) (length (traced x.entry).readings) rows.entry
            (yields (driven_query rows.entry (length (traced x.entry).readings) (Variance self.ddof)) (traced x.entry)) first until
            (lending_three work figures present lowest lowest_present highest highest_present) result.at result.w.window result.w.agg_back }
    {
        let n = x.len();
        let mapped = x.is_mapped();
        let mut w = opening.w;
        let mut next = opening.at;
        for row in first..until {
            let at = next;
            next = rows.next(n, row, at);
            w = w.step(work, rows, Raw(x), row, at);
            let state = w.total(work);
            let figure = rows.answer(self, state, w.window, mapped, at);
            row::write(figures, present, row, figure);
            let short = rows.is_short(mapped, at);
            row::write(lowest, lowest_present, row, extreme(state.lowest, short));
            row::write(highest, highest_present, row, extreme(state.highest, short));
        }
        Standing { w, at: next }
    }

    // Every row of an accepted plan, or of fixed windows: from a fresh window on.
    fn rows(
        self,
        rows: Rows,
        x: Trace,
        work: &mut [f64],
        figures: &mut [f64],
        present: &mut [u8],
        lowest: &mut [f64],
        lowest_present: &mut [u8],
        highest: &mut [f64],
        highest_present: &mut [u8],
    )
        requires { Driven rows (length (traced x).readings)
            (shortest_three figures.old present.old lowest.old lowest_present.old highest.old highest_present.old) 6 (length work.old) }
        ensures { Leaves (driven_query rows.entry (length (traced x.entry).readings) (Variance self.ddof)) (traced x.entry)
            (lending_three work figures present lowest lowest_present highest highest_present) }
    {
        let n = x.len();
        let opening = Standing {
            w: MomentWindow::<VarExtremes>::new(),
            at: rows.first(n),
        };
        self.block(
            rows,
            x,
            work,
            figures,
            present,
            lowest,
            lowest_present,
            highest,
            highest_present,
            opening,
            0,
            rows.len(n),
        );
    }
}

// Rolling variance over a plan, with the lowest and the highest reading of each window.
pub fn plan_var(
    x: Trace,
    plan: Plan,
    min_periods: usize,
    ddof: u8,
    work: &mut [f64],
    figures: &mut [f64],
    present: &mut [u8],
    lowest: &mut [f64],
    lowest_present: &mut [u8],
    highest: &mut [f64],
    highest_present: &mut [u8],
) -> Result<(), Refusal>
    ensures { Calls (query (planned plan.entry) min_periods (Variance ddof)) (traced x.entry)
        (lending_three work figures present lowest lowest_present highest highest_present) (outcome_number result) }
{
    let outputs = VarianceMoment::shortest(
        figures.len(),
        present.len(),
        lowest.len(),
        lowest_present.len(),
        highest.len(),
        highest_present.len(),
    );
    let place = VarianceMoment::PLACE;
    let widest = plan::check_plan(x.check(), plan, x.len(), false, outputs, place, work.len())?;
    VarianceMoment { ddof }.rows(
        Rows::listed(plan, min_periods, widest),
        x,
        work,
        figures,
        present,
        lowest,
        lowest_present,
        highest,
        highest_present,
    );
    Ok(())
}

// Rolling variance over fixed windows: 004's and 005's `rolling_var`, with the lowest and the highest reading of each window.
pub fn rolling_var(
    x: Trace,
    windows: Fixed,
    min_periods: usize,
    ddof: u8,
    work: &mut [f64],
    figures: &mut [f64],
    present: &mut [u8],
    lowest: &mut [f64],
    lowest_present: &mut [u8],
    highest: &mut [f64],
    highest_present: &mut [u8],
) -> Result<(), Refusal>
    ensures { CallsFixed windows.center windows.window_size min_periods (Variance ddof) (traced x.entry)
        (lending_three work figures present lowest lowest_present highest highest_present) (outcome_number result) }
{
    let outputs = VarianceMoment::shortest(
        figures.len(),
        present.len(),
        lowest.len(),
        lowest_present.len(),
        highest.len(),
        highest_present.len(),
    );
    let place = VarianceMoment::PLACE;
    let widest = plan::check_fixed(x.check(), windows, x.len(), outputs, place, work.len())?;
    VarianceMoment { ddof }.rows(
        Rows::fixed(windows, min_periods, widest),
        x,
        work,
        figures,
        present,
        lowest,
        lowest_present,
        highest,
        highest_present,
    );
    Ok(())
}
