// The rows of a weighted call: which of them are missing, then their figures. No work slice is lent, so that the divided weights have no
// place: rows are worked in blocks of 32, whose sums stand on the stack, and a weight is divided once for a block in place of once for a
// row.
ghost use Rattle.std.specs.Prelude.{◌≡◌, ◌≤◌, length};
ghost use Rattle.weighted.specs.Weights.{variance_of};
ghost use Rattle.moment.specs.Figure.{double_of};
ghost use Rattle.window.specs.Code.Filling.{Upto};
ghost use Rattle.weighted.specs.Code.Rows.{validity_at, answer_of, Finishable, Finishes, BlockLent, WritesBlock};
ghost use Rattle.weighted.specs.Code.Rows.{AcceptedWeights, WritesWeights};

use crate::sums::{BLOCK, Block, BlockSums};
use plan::{Fixed, Offsets};

// The last step of 002's `compute_var_weights`, of its three sums. A zero total is no missing figure, and a figure below zero stays.
#[tactic(auto, unfolding(crate::specs::Weights::variance_of))]
fn variance(wssq: f64, wsum: f64, wtot: f64) -> f64
    ensures { result ≡ variance_of (record { wssq = wssq; wsum = wsum; wtot = wtot }) }
{
    if wtot == 0.0 {
        return 0.0;
    }
    let mean = wsum / wtot;
    wssq / wtot - mean * mean
}

// Which rows have a window that is no shorter than the minimum, as their bytes; named as 006's. A row's window is held and stepped on.
fn create_validity(n: usize, left: usize, right: usize, min_periods: usize, present: &mut [u8])
    requires { n ≤ length present.old }
    ensures { Upto (validity_at n left right min_periods) present.old present.new n }
{
    let mut at = Offsets {
        start: 0,
        end: n.min(right),
    };
    // By index: a row's number steps its window on.
    for row in 0..n {
        present[row] = u8::from(min_periods <= at.end - at.start);
        at = plan::next_offsets(row, at, left, n);
    }
}

// A row's double, by its byte: a row that is missing has +0.0.
fn double(present: u8, variance: f64) -> f64
    ensures { result ≡ double_of (answer_of present variance) }
{
    if present == 0 {
        return 0.0;
    }
    float::canonical(variance)
}

// The doubles of the rows that have these bytes, of their sums.
fn finish(sums: BlockSums, present: &[u8], figures: &mut [f64])
    requires { Finishable present.now (length figures.old) }
    ensures { Finishes sums.entry present figures }
{
    for (r, figure) in figures.iter_mut().enumerate() {
        let variance = variance(sums.wssq[r], sums.wsum[r], sums.wtot[r]);
        *figure = double(present[r], variance);
    }
}

// The rows of a block, which have these bytes.
fn write_block(block: Block, present: &[u8], figures: &mut [f64])
    requires { BlockLent block present.now figures.old }
    ensures { WritesBlock block.entry present figures }
{
    let mut wssq = [0.0; BLOCK];
    let mut wsum = [0.0; BLOCK];
    let mut wtot = [0.0; BLOCK];
    let mut sums = BlockSums {
        wssq: &mut wssq,
        wsum: &mut wsum,
        wtot: &mut wtot,
    };
    sums.weigh_all(block);
    finish(sums, present, figures);
}

// Every row of an accepted call.
pub(crate) fn write_rows(
    values: &[f64],
    center: bool,
    min_periods: usize,
    weights: &[f64],
    total: f64,
    figures: &mut [f64],
    present: &mut [u8],
)
    requires { AcceptedWeights (length values.now) weights.now total (length figures.old) (length present.old) }
    ensures { WritesWeights values center min_periods weights figures present }
{
    let windows = Fixed {
        window_size: weights.len(),
        center,
    };
    let right = windows.right_window();
    let left = weights.len() - right;
    create_validity(values.len(), left, right, min_periods, present);
    // By number, not by `chunks_mut`: the lists may be longer than the trace, and a block's rows are cut from both.
    for k in 0..values.len().div_ceil(BLOCK) {
        let first = k * BLOCK;
        let until = plan::end_of(BLOCK, values.len(), first);
        let block = Block {
            values,
            weights,
            total,
            left,
            first,
            until,
        };
        write_block(block, &present[first..until], &mut figures[first..until]);
    }
}
