// The three sums of 002's `compute_var_weights`, for a block of rows at once. Each weight is divided once for the block and then added to
// the sums of all its rows: a row meets the weights in their order, as in 002's fold over its own window.
ghost use Rattle.std.specs.Prelude.{◌≡◌, ◌+◌, ◌≤◌, length};
ghost use Rattle.weighted.specs.Code.Blocks.{BlockRows};

// The most rows of a block.
pub(crate) const BLOCK: usize = 32;

// A block of rows: those from `first` up to `until`, whose windows start `left` places before their own in a trace of these readings, with
// the weights and their sum.
#[derive(Clone, Copy)]
pub(crate) struct Block<'a> {
    pub values: &'a [f64],
    pub weights: &'a [f64],
    pub total: f64,
    pub left: usize,
    pub first: usize,
    pub until: usize,
    ghost rows: { BlockRows (length values.now) (length weights.now) left first until },
}

// The sums of the rows of a block.
// Three arrays stay, each of its own: with one of structs a call takes 1.3 to 1.6 times as long, with the arrays in one struct 1.1 times.
#[derive(Drop)]
pub(crate) struct BlockSums<'a> {
    pub wssq: &'a mut [f64; BLOCK],
    pub wsum: &'a mut [f64; BLOCK],
    pub wtot: &'a mut [f64; BLOCK],
    ghost long: { (length wssq.now ≡ 32) × (length wsum.now ≡ 32) × (length wtot.now ≡ 32) },
}

impl Block<'_> {
    ghost use Rattle.weighted.specs.Code.Sums.{FirstRow, LastRow};

    // The first of its rows whose window has a place for weight j.
    // Here and in `last_row` a branch stays: by `saturating_sub` alone a weight waits for both bounds, and a call takes 1.1 times as long.
    fn first_row(self, j: usize) -> usize
        ensures { FirstRow self.entry.first self.entry.left j result }
    {
        if self.left <= j {
            return self.first;
        }
        self.first.max(self.left - j)
    }

    // The end of its rows whose window has a place for weight j: n + left - j where that is less, by differences alone.
    fn last_row(self, j: usize) -> usize
        ensures { LastRow self.entry.until (length self.entry.values.now) self.entry.left j result }
    {
        if j <= self.left {
            return self.until;
        }
        self.until
            .min(self.values.len().saturating_sub(j - self.left))
    }
}

impl BlockSums<'_> {
    ghost use Rattle.weighted.specs.Code.Sums.{lists_of, Added, Weighable, Weighs};

    // A weight's terms in the sums of the rows from `row` on, whose readings at the weight's place are `values`.
    fn add(&mut self, row: usize, w: f64, values: &[f64])
        requires { row + length values.now ≤ 32 }
        ensures { Added w values.now row (lists_of self.old) (lists_of self.new) }
    {
        for (r, &v) in values.iter().enumerate() {
            self.wssq[row + r] += v * v * w;
            self.wsum[row + r] += v * w;
            self.wtot[row + r] += w;
        }
    }

    // Weight j, divided once for all rows of a block, in the sums of those that have a place for it: of row k that is place k + j - left.
    fn weigh(&mut self, block: Block, j: usize)
        requires { Weighable block j self.old }
        ensures { Weighs block.entry (j + 1) self.new }
    {
        let w = block.weights[j] / block.total;
        let from = block.first_row(j);
        let to = block.last_row(j);
        if from < to {
            let values = &block.values[from + j - block.left..to + j - block.left];
            self.add(from - block.first, w, values);
        }
    }

    // Every weight, by its place: the rows that it counts for hang on that.
    pub(crate) fn weigh_all(&mut self, block: Block)
        requires { Weighs block 0 self.old }
        ensures { Weighs block.entry (length block.entry.weights.now) self.new }
    {
        for j in 0..block.weights.len() {
            self.weigh(block, j);
        }
    }
}
