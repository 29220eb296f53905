// Windows that move over a series: the theory of two stacks in a work slice, over any moment and any kind of entry (specs/ and
// proofs/), and the leaves that every moment shares. Every function is total, so that the crates above share them.
#![tactic(auto)]

ghost use Rattle.std.specs.Prelude.{◌≡◌};
ghost use Rattle.window.specs.Window.{or_nan};
ghost use Rattle.window.specs.Code.Stacks.{empty_at, grown};

use moment::Figure;

// The split account (start, end, split), with how many entries stand in each stack and how many in the window are not finite.
#[derive(Clone, Copy)]
pub struct Window {
    pub start: usize,
    pub end: usize,
    pub split: usize,
    pub front: usize,
    pub back: usize,
    pub nonfinite: usize,
}

impl Window {
    // An empty window that starts at a place; fresh at 0.
    pub fn empty_at(start: usize) -> Window
        ensures { result ≡ empty_at start }
    {
        Window {
            start,
            end: start,
            split: start,
            front: 0,
            back: 0,
            nonfinite: 0,
        }
    }

    // The window that ends later, with so many entries in its back stack, and so many in it that are not finite.
    pub fn extended(self, end: usize, back: usize, nonfinite: usize) -> Window
        ensures { result ≡ grown self end back nonfinite }
    {
        Window {
            end,
            back,
            nonfinite,
            ..self
        }
    }
}

// NaN for a present figure where the window holds what is not finite.
pub fn or_nan(figure: Figure, nonfinite: usize) -> Figure
    ensures { result ≡ or_nan nonfinite figure }
{
    if nonfinite == 0 {
        return figure;
    }
    let Figure::Present(_) = figure else {
        return Figure::Missing;
    };
    Figure::Present(f64::NAN)
}
