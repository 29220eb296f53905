// The places that leave a window, tallied, and the window without them: what every moment shares of it.
ghost use Rattle.std.specs.Prelude.{◌≡◌, ◌<◌, ◌≤◌, length};
ghost use Rattle.window.specs.Places.{valid_count};
ghost use Rattle.window.specs.Code.Stacks.{Tallied, TallyFits, TrimsBy};
ghost use Rattle.rolling.specs.Code.Rows.{Range, LeavingRange, Below, TalliesBelow};

use crate::series::Places;
use window::Window;

// A window without the places that leave, and whether the back stack goes to the front stack first.
#[derive(Clone, Copy)]
pub struct Trim {
    pub window: Window,
    pub flips: bool,
}

// How many places are valid, and how many of those hold a reading that is not finite.
#[derive(Clone, Copy)]
pub struct Tally {
    pub valid: usize,
    pub nonfinite: usize,
}

// The tally of the places from a up to b.
// By place, here and in what is below: a window moves over places, of which some are missing.
#[inline(always)]
fn tally_range<P: Places>(places: P, a: usize, b: usize) -> Tally
    requires { Range a b (P.have places) }
    ensures { Tallied (P.places places) a b result.valid result.nonfinite }
{
    let mut tally = Tally {
        valid: 0,
        nonfinite: 0,
    };
    for i in a..b {
        tally.valid += places.is_valid(i) as usize;
        tally.nonfinite += places.is_nonfinite(i) as usize;
    }
    tally
}

// How many places from a up to b are valid: no entry is looked at.
#[inline(always)]
fn count_valid<P: Places>(places: P, a: usize, b: usize) -> usize
    requires { a ≤ b }
    ensures { result ≡ valid_count (P.places places) a b }
{
    let mut valid: usize = 0;
    for i in a..b {
        valid += places.is_valid(i) as usize;
    }
    valid
}

// The tally of places that leave a window with so many entries that are not finite. Without any, no entry is looked at; without a map,
// nothing is.
#[inline(always)]
fn tally_leaving<P: Places>(places: P, a: usize, b: usize, nonfinite: usize) -> Tally
    requires { LeavingRange (P.places places) a b (P.have places) nonfinite }
    ensures { Tallied (P.places places) a b result.valid result.nonfinite }
{
    if nonfinite != 0 {
        return tally_range(places, a, b);
    }
    let valid = if places.is_mapped() {
        count_valid(places, a, b)
    } else {
        b - a
    };
    Tally {
        valid,
        nonfinite: 0,
    }
}

// The tally of the places below `start` that leave w. Nothing is counted of a window that ends there or before: it starts anew.
// The tallies are inlined by name: both rows of pairs call them, and a call would pass the window's state through memory at every row.
#[inline(always)]
pub(crate) fn tally_below<P: Places>(places: P, w: Window, start: usize) -> Tally
    requires { Below (P.places places) start (P.have places) w }
    ensures { TalliesBelow (P.places places) w start result.valid result.nonfinite }
{
    if w.end <= start {
        return Tally {
            valid: 0,
            nonfinite: 0,
        };
    }
    tally_leaving(places, w.start, start, w.nonfinite)
}

// The window w without the places below `start`, by their tally, and whether the back stack goes to the front.
pub(crate) fn trimmed(w: Window, start: usize, leaving: Tally) -> Trim
    requires { TallyFits w start leaving.valid leaving.nonfinite }
    ensures { TrimsBy w start leaving.valid leaving.nonfinite result.window result.flips }
{
    let end = w.end;
    if end <= start {
        return Trim {
            window: Window::empty_at(start),
            flips: false,
        };
    }
    if leaving.valid <= w.front {
        return Trim {
            window: Window {
                start,
                front: w.front - leaving.valid,
                nonfinite: w.nonfinite - leaving.nonfinite,
                ..w
            },
            flips: false,
        };
    }
    Trim {
        window: Window {
            start,
            end,
            split: end,
            front: w.front + w.back - leaving.valid,
            back: 0,
            nonfinite: w.nonfinite - leaving.nonfinite,
        },
        flips: true,
    }
}
