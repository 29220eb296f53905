// 001's `MomentWindow`, over any state, any kind of entry and any series of them. The two stacks lie in the work slice, states of the
// front stack from its beginning, entries of the back stack from `base` on. Contracts say what a state and its entries are by the members
// of their traits: a name for it would be a member more in each `impl`, and a law that it is this.
ghost use Rattle.std.specs.Prelude.{◌≡◌, ℕ, ◌+◌, ◌*◌, ◌^◌, ◌<◌, ◌≤◌, length};
ghost use Rattle.window.specs.Code.Stacks.{Flippable, Flipped, Appendable, Appended as AppendedTo, empty_at, top_of, state_by};
ghost use Rattle.window.specs.Code.Stacks.{Trimmable, Trimmed, Extendable, Extended, Movable, Updated, Stepped};
ghost use Rattle.rolling.specs.Code.Ops.{Ops, stored_by, series_by, CanInsert, CanMerge, CanTotal, CanPush, Pushed};

use crate::leaving;
use crate::memory::InMemory;
use crate::row::Rows;
use crate::series::Series;
use plan::Offsets;
use window::Window;

// A state that a window keeps of its entries. Counts of entries are told for the states that need no test by them; the others let them be.
pub(crate) trait WindowState: InMemory {
    type Entry: InMemory;

    ghost ops: { Ops Self Self.Entry };

    // That a state counts so many entries, as far as its operations need it.
    ghost counts: { Self → ℕ → Type 0 };

    fn empty() -> Self
        ensures { result ≡ ops.empty };

    // The state with an entry more than the n that it has.
    fn insert(self, n: usize, x: Self::Entry) -> Self
        requires { CanInsert counts self n }
        ensures { result ≡ ops.insert self x };

    // The state of n entries with another of m.
    fn combine(self, n: usize, other: Self, m: usize) -> Self
        requires { CanMerge counts self n other m }
        ensures { result ≡ ops.combine self other };

    ghost starts: { counts ops.empty 0 };

    ghost grows: { (s : Self) (x : Self.Entry) (n : ℕ) → n < 2 ^ 53 → counts s n → counts (ops.insert s x) (n + 1) };
}

// A window with the state of its back part.
#[derive(Clone, Copy)]
pub(crate) struct MomentWindow<S> {
    pub(crate) window: Window,
    pub(crate) agg_back: S,
}

// What stands before a row: the window, and the row's bounds.
#[derive(Clone, Copy)]
pub(crate) struct Standing<S> {
    pub(crate) w: MomentWindow<S>,
    pub(crate) at: Offsets,
}

// The back stack grown: how many entries stand in it, how many in the window are not finite, and its state.
#[derive(Clone, Copy)]
pub(crate) struct Appended<S> {
    pub(crate) back: usize,
    pub(crate) nonfinite: usize,
    pub(crate) agg_back: S,
}

impl<S: WindowState> Appended<S> {
    // An entry more at the end of the back stack.
    fn push(self, back: &mut [f64], x: S::Entry, bad: usize) -> Self
        requires { CanPush S.Entry.layout.width S.counts self.back self.nonfinite self.agg_back bad (length back.old) }
        ensures { Pushed S.Entry.layout S.ops self.back self.nonfinite self.agg_back back.old x bad
            result.back result.nonfinite result.agg_back back.new }
    {
        x.store(back, S::Entry::WIDTH * self.back);
        Appended {
            back: self.back + 1,
            nonfinite: self.nonfinite + bad,
            agg_back: self.agg_back.insert(self.back, x),
        }
    }

    // The entries of the valid places from a up to b, each pushed.
    fn append<T: Series<S::Entry>>(self, back: &mut [f64], series: T, a: usize, b: usize) -> Self
        requires appendable { Appendable (stored_by S.Entry.layout S.layout S.ops) (series_by (T.places series) (T.entries series))
            a b (T.have series) self.back self.nonfinite back.old }
        requires counted { S.counts self.agg_back self.back }
        ensures { AppendedTo (stored_by S.Entry.layout S.layout S.ops) (series_by (T.places series) (T.entries series))
            back.old self.back self.nonfinite self.agg_back a b back.new result.back result.nonfinite result.agg_back }
    {
        let mut appended = self;
        for i in a..b {
            if series.is_valid(i) {
                // What a place holds is tested once: by an entry that tests again what is known, or is chosen where a branch is rarely
                // taken, covariance over fixed windows takes 1.04 times as long.
                appended = if series.holds_nonfinite(i) {
                    appended.push(back, series.entry(i), 1)
                } else {
                    appended.push(back, series.value(i), 0)
                };
            }
        }
        appended
    }
}

impl<S: WindowState> MomentWindow<S> {
    // An empty window that starts at place 0.
    pub(crate) fn new() -> Self
        ensures window { result.window ≡ empty_at 0 }
        ensures agg_back { result.agg_back ≡ S.ops.empty }
    {
        MomentWindow {
            window: Window::empty_at(0),
            agg_back: S::empty(),
        }
    }

    // The n entries of the back stack become the front stack, the last of them at its bottom.
    fn flip(work: &mut [f64], base: usize, n: usize)
        requires { Flippable (stored_by S.Entry.layout S.layout S.ops) base n work.old }
        ensures { Flipped (stored_by S.Entry.layout S.layout S.ops) base n work.old work.new }
    {
        let mut agg = S::empty();
        for k in 0..n {
            let x = S::Entry::load(work, base + S::Entry::WIDTH * (n - 1 - k));
            agg = agg.insert(k, x);
            agg.store(work, S::WIDTH * k);
        }
    }

    // The state on the top of the front stack's n, or the empty one.
    fn last(work: &[f64], n: usize) -> S
        requires { S.layout.width * n ≤ length work.now }
        ensures { result ≡ top_of (stored_by S.Entry.layout S.layout S.ops) work.now n }
    {
        if n == 0 {
            return S::empty();
        }
        S::load(work, S::WIDTH * (n - 1))
    }

    // The window without the places below `start`.
    fn trim<T: Series<S::Entry>>(
        self,
        work: &mut [f64],
        base: usize,
        series: T,
        start: usize,
    ) -> Self
        requires { Trimmable (stored_by S.Entry.layout S.layout S.ops) (series_by (T.places series) (T.entries series))
            base start (T.have series) self.window self.agg_back work.old }
        ensures { Trimmed (stored_by S.Entry.layout S.layout S.ops) (series_by (T.places series) (T.entries series))
            base start self.window work.old result.window result.agg_back work.new }
    {
        let leaving = leaving::tally_below(series, self.window, start);
        let trim = leaving::trimmed(self.window, start, leaving);
        if trim.flips {
            Self::flip(work, base, self.window.back);
        }
        let window = trim.window;
        MomentWindow {
            window,
            agg_back: if window.back == 0 {
                S::empty()
            } else {
                self.agg_back
            },
        }
    }

    // The window with the places from its end up to `end`. The back stack is the part of the work slice that begins after the
    // front stack.
    fn extend<T: Series<S::Entry>>(
        self,
        work: &mut [f64],
        base: usize,
        widest: usize,
        series: T,
        end: usize,
    ) -> Self
        requires { Extendable (stored_by S.Entry.layout S.layout S.ops) (series_by (T.places series) (T.entries series))
            base widest end (T.have series) self.window self.agg_back work.old }
        ensures { Extended (stored_by S.Entry.layout S.layout S.ops) (series_by (T.places series) (T.entries series))
            base widest end self.window work.old result.window result.agg_back work.new }
    {
        let window = self.window;
        let stack = Appended {
            back: window.back,
            nonfinite: window.nonfinite,
            agg_back: self.agg_back,
        };
        let appended = stack.append(&mut work[base..], series, window.end, end);
        MomentWindow {
            window: window.extended(end, appended.back, appended.nonfinite),
            agg_back: appended.agg_back,
        }
    }

    // 001's `update`: the window moved to the row from `start` up to `end`. No window is wider than `widest`.
    fn update<T: Series<S::Entry>>(
        self,
        work: &mut [f64],
        widest: usize,
        series: T,
        start: usize,
        end: usize,
    ) -> Self
        requires { Movable (stored_by S.Entry.layout S.layout S.ops) (series_by (T.places series) (T.entries series))
            start end (T.have series) widest self.window self.agg_back work.old }
        ensures { Updated (stored_by S.Entry.layout S.layout S.ops) (series_by (T.places series) (T.entries series))
            widest start end self.window work.old result.window result.agg_back work.new }
    {
        let base = S::WIDTH * widest;
        let trimmed = self.trim(work, base, series, start);
        trimmed.extend(work, base, widest, series, end)
    }

    // The window after a row's part in it: a row is one step, so that two plans can be driven in turn.
    pub(crate) fn step<T: Series<S::Entry>>(
        self,
        work: &mut [f64],
        rows: Rows,
        series: T,
        row: usize,
        at: Offsets,
    ) -> Self
        requires { Movable (stored_by S.Entry.layout S.layout S.ops) (series_by (T.places series) (T.entries series))
            at.start at.end (T.have series) rows.widest self.window self.agg_back work.old }
        ensures { Stepped (stored_by S.Entry.layout S.layout S.ops) (series_by (T.places series) (T.entries series))
            rows.entry.widest rows.entry.min_periods row at.start at.end self.window work.old result.window result.agg_back work.new }
    {
        if rows.moves(series.is_mapped(), row, at) {
            return self.update(work, rows.widest, series, at.start, at.end);
        }
        self
    }

    // 001's `get_moment` before it finalises: the back state combined with the front state.
    pub(crate) fn total(self, work: &[f64]) -> S
        requires { CanTotal S.Entry.layout S.layout S.ops S.counts self.window self.agg_back work.now }
        ensures { result ≡ state_by (stored_by S.Entry.layout S.layout S.ops) self.window self.agg_back work.now }
    {
        let top = Self::last(work, self.window.front);
        self.agg_back
            .combine(self.window.back, top, self.window.front)
    }
}
