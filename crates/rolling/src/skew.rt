// Skewness over moving windows: 001's `SkewMoment`. Its rows are finalised 32 at a time, so that their roots are taken side by side, and
// rows of one count of readings share a correction.
ghost use Rattle.std.proofs.Common.{rules};
ghost use Rattle.std.specs.Prelude.{◌≡◌, ◌<◌, ◌≤◌, refl, false, min, length, nat_le, slice_index_or, if◌then◌else◌, Option};
ghost use Rattle.std.specs.Float.{nan};
ghost use Rattle.float.specs.Operators.{◌⊗◌, of_nat64};
ghost use Rattle.float.specs.Tables.{table};
ghost use Rattle.float.proofs.Counts.{zero_is};
ghost use Rattle.trace.specs.Outcomes.{outcome_number};
ghost use Rattle.trace.specs.Lent.{traced};
ghost use Rattle.moment.specs.Skew.{skew_insert, skew_correction, skew_finalize};
ghost use Rattle.moment.proofs.Weights.{raising, skew_weight, skew_raises};
ghost use Rattle.plan.specs.Plan.{planned};
ghost use Rattle.window.specs.Given.{Readings, series_of};
ghost use Rattle.window.specs.Code.Stacks.{answer_by, state_by};
ghost use Rattle.rolling.specs.Moments.{Skewness, skewness};
ghost use Rattle.rolling.specs.Calls.{query, lending, Calls};
ghost use Rattle.rolling.specs.Fixed.{CallsFixed};
ghost use Rattle.rolling.specs.Code.Ops.{ops_of};
ghost use Rattle.rolling.specs.Code.Layouts.{skew_layout, skew_stored};
ghost use Rattle.rolling.specs.Code.Rows.{Driven, GivesFigure};
ghost use Rattle.rolling.specs.Code.Slots.{m3_of, least_of, estimate, double_at, pending_of};
ghost use Rattle.rolling.specs.Code.Slots.{CanPend, SlotHolds, slot_set, CanFill, BlockFilled};

use crate::memory::InMemory;
use crate::moment_window::{MomentWindow, Standing, WindowState};
use crate::row::Rows;
use crate::series::Places;
use moment::SkewState;
use plan::{Fixed, Offsets, Plan};
use trace::{Refusal, Trace};

impl InMemory for SkewState {
    ghost WIDTH = { 4 };

    const WIDTH: usize = 4;

    ghost layout = { skew_layout };

    fn store(self, work: &mut [f64], at: usize) {
        work[at] = self.weight;
        work[at + 1] = self.mean;
        work[at + 2] = self.m2;
        work[at + 3] = self.m3;
    }

    fn load(work: &[f64], at: usize) -> Self {
        SkewState {
            weight: work[at],
            mean: work[at + 1],
            m2: work[at + 2],
            m3: work[at + 3],
        }
    }

    ghost wide = { refl };

    ghost some = { Prim.search rules };

    ghost narrow = { Prim.search rules };
}

// By the counts the weights are known: an insert then has nothing to clear, and `combine` need not compare.
impl WindowState for SkewState {
    type Entry = f64;

    ghost ops = { ops_of skewness };

    ghost counts = { λ s n. s.weight ≡ of_nat64 n };

    fn empty() -> Self {
        SkewState::default()
    }

    fn insert(self, _n: usize, x: f64) -> Self {
        self.inserted(x)
    }

    fn combine(self, n: usize, other: Self, m: usize) -> Self {
        if m == 0 {
            return self;
        }
        if n == 0 {
            return other;
        }
        self.merged(other)
    }

    ghost starts = { zero_is };

    ghost grows = { raising skew_weight skew_insert skew_raises };
}

#[derive(Clone, Copy)]
pub struct SkewMoment {
    pub bias: bool,
}

// Counts whose correction is kept.
const KEPT: usize = 256;

// Rows that are finalised together: their roots, taken side by side, hide their time behind one another.
const BLOCK: usize = 32;

// A count of readings and its correction.
#[derive(Clone, Copy)]
struct Correction {
    count: u64,
    factor: f64,
    ghost of_count: { factor ≡ skew_correction (of_nat64 count) },
}

impl Correction {
    // The count 0 and its correction, which is +0.0: so that a list of them is cleared at once.
    fn of_none() -> Self
        ensures { result.count ≡ 0 }
    {
        Correction {
            count: 0,
            factor: 0.0,
        }
    }

    fn of(count: u64) -> Self
        ensures { result.count ≡ count }
    {
        Correction {
            count,
            factor: SkewState::correction(std::num::nearest_u64_to_f64(count)),
        }
    }
}

// Corrections that are kept, each in the place that its count modulo KEPT names. They are lent as a list: a struct of it is made in a place
// of its own and copied, which takes 1.7 times the stack.
type Corrections = [Correction; KEPT];

// The correction for a count of readings. Rows of one count share it: a root and a division less for each.
fn factor(corrections: &mut Corrections, valid: usize) -> f64
    ensures { result ≡ skew_correction (of_nat64 valid) }
{
    let at = valid % KEPT;
    let n = valid as u64;
    let kept = corrections[at];
    if kept.count == n {
        return kept.factor;
    }
    let correction = Correction::of(n);
    corrections[at] = correction;
    correction.factor
}

// What is left of a block's rows to finalise: of each its m2, its m3 and its correction. Roots are taken of `m2s` as a list of its own, so
// that a struct for the other two would leave two lists side by side in place of three.
#[derive(Drop)]
struct Slots {
    m2s: [f64; BLOCK],
    m3s: [f64; BLOCK],
    factors: [f64; BLOCK],
}

// The m3 of a row with this m2: NaN where `is_zero` holds or a reading is not finite.
fn m3_of(state: SkewState, m2: f64, nonfinite: usize) -> f64
    ensures { result ≡ m3_of state m2 nonfinite }
{
    if nonfinite != 0 {
        return float::not_a_number();
    }
    if moment::is_zero(m2, state.mean) {
        return float::not_a_number();
    }
    state.m3 / state.weight
}

impl Slots {
    // Slot k written.
    fn set(&mut self, k: usize, m2: f64, m3: f64, factor: f64)
        requires { k < 32 }
        ensures { self.new ≡ slot_set self.old k m2 m3 factor }
    {
        self.m2s[k] = m2;
        self.m3s[k] = m3;
        self.factors[k] = factor;
    }

    // The doubles that the slots come to, where `figures` holds the roots of their second moments.
    fn estimates(&self, bias: bool, figures: &mut [f64])
        requires { length figures.old ≤ 32 }
        ensures { figures.new ≡ table (λ i. estimate bias (slice_index_or self.now.m2s i nan) (slice_index_or self.now.m3s i nan)
            (slice_index_or self.now.factors i nan) (slice_index_or figures.old i nan)) (length figures.old) }
    {
        // By index: three lists and the figures are read at one place.
        for i in 0..figures.len() {
            let biased = self.m3s[i] / (self.m2s[i] * figures[i]);
            let estimate = if bias {
                biased
            } else {
                self.factors[i] * biased
            };
            figures[i] = float::canonical(estimate);
        }
    }

    // The figures of as many rows: the roots of their slots, then what each comes to.
    fn finish(&self, bias: bool, figures: &mut [f64])
        requires { length figures.old ≤ 32 }
        ensures { figures.new ≡ table (double_at bias self.now) (length figures.old) }
    {
        root::roots(&self.m2s[..figures.len()], figures);
        self.estimates(bias, figures);
    }
}

impl SkewMoment {
    // Doubles of a place of the window, in both stacks.
    pub const PLACE: usize = SkewState::WIDTH + f64::WIDTH;

    // Whether a state of so many readings has a figure.
    fn has_figure(self, valid: usize) -> bool
        ensures { result ≡ nat_le (least_of self.bias) valid }
    {
        let least: usize = if self.bias { 1 } else { 3 };
        least <= valid
    }

    // The state that a row is to be finalised with, of the window after its step, by the tests of `is_valid` and `finalize`.
    fn pending(
        self,
        rows: Rows,
        work: &[f64],
        w: MomentWindow<SkewState>,
        mapped: bool,
        at: Offsets,
    ) -> Option<SkewState>
        requires { CanPend w.window w.agg_back work.now at }
        ensures { result ≡ pending_of self.bias mapped rows.entry.min_periods at w.window
            (state_by skew_stored w.window w.agg_back work.now) }
    {
        let valid = w.window.front + w.window.back;
        if rows.is_valid(mapped, valid, at) && self.has_figure(valid) {
            return Some(w.total(work));
        }
        None
    }

    // What an unbiased estimate from so many readings is multiplied by.
    fn correction(self, corrections: &mut Corrections, valid: usize) -> f64
        ensures { self.bias ≡ false → result ≡ skew_correction (of_nat64 valid) }
    {
        if self.bias {
            return 0.0;
        }
        factor(corrections, valid)
    }

    // The row's byte, and in slot k what is left of it to finalise, of the window after its step. A missing row's slot comes to zero.
    fn prepare(
        self,
        rows: Rows,
        work: &[f64],
        w: MomentWindow<SkewState>,
        mapped: bool,
        at: Offsets,
        corrections: &mut Corrections,
        slots: &mut Slots,
        k: usize,
    ) -> u8
        requires can_pend { CanPend w.window w.agg_back work.now at }
        requires slot_in { k < 32 }
        ensures { SlotHolds self.bias (answer_by skew_stored (λ z. skew_finalize z self.bias) mapped rows.entry.min_periods at.start at.end
            w.window w.agg_back work.now) k result slots.old slots.new }
    {
        let Some(state) = self.pending(rows, work, w, mapped, at) else {
            slots.set(k, 1.0, 0.0, 0.0);
            return 0;
        };
        let factor = self.correction(corrections, w.window.front + w.window.back);
        let m2 = state.m2 / state.weight;
        slots.set(k, m2, m3_of(state, m2, w.window.nonfinite), factor);
        1
    }

    // The rows of a block, from `first` up to `until`, from what stands before the first; what stands behind them, with their bytes and
    // slots written. The next row's bounds are told before the row is worked, as in the other moments.
    fn block(
        self,
        rows: Rows,
        x: Trace,
        work: &mut [f64],
        present: &mut [u8],
        opening: Standing<SkewState>,
        first: usize,
        until: usize,
        corrections: &mut Corrections,
        slots: &mut Slots,
    ) -> Standing<SkewState>
        requires { CanFill (traced x) rows (length present.old) first until opening.at opening.w.window opening.w.agg_back work.old }
        ensures { BlockFilled self.bias (traced x.entry) rows.entry first until work.old present.old
            result.at result.w.window result.w.agg_back work.new present.new slots.new }
    {
        let mut w = opening.w;
        let mut next = opening.at;
        for row in first..until {
            let at = next;
            next = rows.next(x.values.len(), row, at);
            w = w.step(work, rows, x, row, at);
            present[row] = self.prepare(
                rows,
                work,
                w,
                x.is_mapped(),
                at,
                corrections,
                slots,
                row - first,
            );
        }
        Standing { w, at: next }
    }

    // Every row of an accepted plan, or of fixed windows.
    fn rows(self, rows: Rows, x: Trace, work: &mut [f64], figures: &mut [f64], present: &mut [u8])
        requires { Driven rows (length (traced x).readings) (min (length figures.old) (length present.old)) 5 (length work.old) }
        ensures { GivesFigure skew_stored (λ z. skew_finalize z self.bias) (series_of Readings (traced x.entry))
            (length (traced x.entry).readings) rows.entry work figures present }
    {
        let n = x.values.len();
        let many = rows.len(n);
        let mut standing = Standing {
            w: MomentWindow::<SkewState>::new(),
            at: rows.first(n),
        };
        // Every place opens with the count 0.
        let mut corrections = [Correction::of_none(); KEPT];
        let mut slots = Slots {
            m2s: [0.0; BLOCK],
            m3s: [0.0; BLOCK],
            factors: [0.0; BLOCK],
        };
        for first in (0..many).step_by(BLOCK) {
            let until = plan::end_of(BLOCK, many, first);
            standing = self.block(
                rows,
                x,
                work,
                present,
                standing,
                first,
                until,
                &mut corrections,
                &mut slots,
            );
            slots.finish(self.bias, &mut figures[first..until]);
        }
    }
}

// Rolling skewness over a plan.
pub fn plan_skew(
    x: Trace,
    plan: Plan,
    min_periods: usize,
    bias: bool,
    work: &mut [f64],
    figures: &mut [f64],
    present: &mut [u8],
) -> Result<(), Refusal>
    ensures { Calls (query (planned plan.entry) min_periods (Skewness bias)) (traced x.entry) (lending work figures present)
        (outcome_number result) }
{
    let widest = plan::check_plan(
        x.check(),
        plan,
        x.len(),
        false,
        figures.len().min(present.len()),
        SkewMoment::PLACE,
        work.len(),
    )?;
    let rows = Rows::listed(plan, min_periods, widest);
    SkewMoment { bias }.rows(rows, x, work, figures, present);
    Ok(())
}

// Rolling skewness over fixed windows: 004's and 005's `rolling_skew`.
pub fn rolling_skew(
    x: Trace,
    windows: Fixed,
    min_periods: usize,
    bias: bool,
    work: &mut [f64],
    figures: &mut [f64],
    present: &mut [u8],
) -> Result<(), Refusal>
    ensures { CallsFixed windows.center windows.window_size min_periods (Skewness bias) (traced x.entry) (lending work figures present)
        (outcome_number result) }
{
    let widest = plan::check_fixed(
        x.check(),
        windows,
        x.len(),
        figures.len().min(present.len()),
        SkewMoment::PLACE,
        work.len(),
    )?;
    let rows = Rows::fixed(windows, min_periods, widest);
    SkewMoment { bias }.rows(rows, x, work, figures, present);
    Ok(())
}
