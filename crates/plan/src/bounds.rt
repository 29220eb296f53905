// The rows of fixed windows: 006's `det_offsets` and `det_offsets_center`, by how far a window reaches to each side of its own place, and
// a row's window from the one before.
ghost use Rattle.std.specs.Prelude.{◌≡◌, ◌+◌, ◌-◌, ◌≤◌, min};
ghost use Rattle.plan.specs.Bounds.{offsets_at, next_offsets};
ghost use Rattle.plan.specs.Code.Reaching.{right_of, StepsTo};

// The window of a row: places start up to but not including end.
#[derive(Clone, Copy)]
pub struct Offsets {
    pub start: usize,
    pub end: usize,
}

// Fixed windows of one size, trailing or centred.
#[derive(Clone, Copy)]
pub struct Fixed {
    pub window_size: usize,
    pub center: bool,
}

// Where the fixed window of a row ends, `right` places from the row's own on, within the n places; or a block of so many rows.
pub fn end_of(right: usize, n: usize, row: usize) -> usize
    ensures { result ≡ min n (row + right) }
{
    n.min(row.saturating_add(right))
}

impl Fixed {
    // How many places from its own on a window reaches; 006's `right_window`.
    #[tactic(auto, unfolding(crate::specs::Code::Reaching::right_of))]
    pub fn right_window(self) -> usize
        ensures { (result ≡ right_of self.center self.window_size) × (result ≤ self.window_size) }
    {
        if self.center {
            self.window_size.div_ceil(2)
        } else {
            self.window_size.min(1)
        }
    }

    // How many places before its own a window starts.
    pub fn left_window(self) -> usize
        ensures { result ≡ self.window_size - right_of self.center self.window_size }
    {
        self.window_size - self.right_window()
    }

    // The window of row i of a call over `len` places: 006's `det_offsets` or `det_offsets_center`. Past the last row there is no place:
    // the window is empty, at the end.
    pub fn det_offsets(self, i: usize, len: usize) -> Offsets
        ensures { (result.start ≡ (offsets_at self.center self.window_size len i).0)
            × (result.end ≡ (offsets_at self.center self.window_size len i).1) }
    {
        if len <= i {
            return Offsets {
                start: len,
                end: len,
            };
        }
        Offsets {
            start: i.saturating_sub(self.left_window()),
            end: end_of(self.right_window(), len, i),
        }
    }

    // The widest window of a call over n places, whatever the call is given or lent.
    pub fn widest(self, n: usize) -> usize
        ensures { result ≡ min self.window_size n }
    {
        self.window_size.min(n)
    }
}

// The window of the row behind row i, from row i's own, where windows start `left` places before their own and there are `len` places. A
// start of 2^64 - 1, which no row has, wraps where it moves: a test of it would cost every row.
// Two returns stay: with an `if` for the start alone windows of a trace with a map take 1.03 times as long.
pub fn next_offsets(i: usize, at: Offsets, left: usize, len: usize) -> Offsets
    ensures { StepsTo (next_offsets i (at.start, at.end) left len) result.start result.end }
{
    let end = if at.end < len { at.end + 1 } else { at.end };
    if i < left {
        return Offsets {
            start: at.start,
            end,
        };
    }
    Offsets {
        start: at.start.wrapping_add(1),
        end,
    }
}
