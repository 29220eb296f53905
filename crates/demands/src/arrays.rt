// Whole arrays, pairs and ranges, of which demands 1 and 2 speak; and two calls of a kind, of which the law of maps does.
ghost use Rattle.demands.specs.Lent.{doubles};
ghost use Rattle.promises.specs.Calls.{ArrayCall, of_var, of_skew, of_kurtosis, of_cov, of_pearson, of_skew_range, of_kurtosis_range};
ghost use Rattle.demands.specs.Meets.{MeetsArray, MeetTwoArrays};

use crate::lent::{DoublePair, Doubles};
use moment::{CovState, KurtosisState, PearsonState, SkewState, VarState};

// A trace, and a range of its places.
#[derive(Clone, Copy)]
pub struct Range<'a> {
    pub x: Doubles<'a>,
    pub start: usize,
    pub length: usize,
}

// The call that hands out a state, of N members, of what is given as a T.
pub trait StateCall<T: Copy, const N: usize> {
    ghost asked: { T → ArrayCall };

    fn call(x: T, state: &mut [f64; N]) -> u32
        ensures { MeetsArray (asked x) state.old state.new result };
}

impl StateCall<Doubles<'_>, 3> for VarState {
    ghost asked = { λ x. of_var (doubles x) };

    fn call(x: Doubles, state: &mut [f64; 3]) -> u32 {
        moments::moments_var(x.values, x.has_map, x.map, state)
    }
}

impl StateCall<Doubles<'_>, 4> for SkewState {
    ghost asked = { λ x. of_skew (doubles x) };

    fn call(x: Doubles, state: &mut [f64; 4]) -> u32 {
        moments::moments_skew(x.values, x.has_map, x.map, state)
    }
}

impl StateCall<Doubles<'_>, 5> for KurtosisState {
    ghost asked = { λ x. of_kurtosis (doubles x) };

    fn call(x: Doubles, state: &mut [f64; 5]) -> u32 {
        moments::moments_kurtosis(x.values, x.has_map, x.map, state)
    }
}

impl StateCall<DoublePair<'_>, 4> for CovState {
    ghost asked = { λ x. of_cov (doubles x.x) (doubles x.y) };

    fn call(x: DoublePair, state: &mut [f64; 4]) -> u32 {
        moments::moments_cov(
            x.x.values,
            x.x.has_map,
            x.x.map,
            x.y.values,
            x.y.has_map,
            x.y.map,
            state,
        )
    }
}

impl StateCall<DoublePair<'_>, 6> for PearsonState {
    ghost asked = { λ x. of_pearson (doubles x.x) (doubles x.y) };

    fn call(x: DoublePair, state: &mut [f64; 6]) -> u32 {
        moments::moments_pearson_corr(
            x.x.values,
            x.x.has_map,
            x.x.map,
            x.y.values,
            x.y.has_map,
            x.y.map,
            state,
        )
    }
}

impl StateCall<Range<'_>, 4> for SkewState {
    ghost asked = { λ x. of_skew_range (doubles x.x) x.start x.length };

    fn call(x: Range, state: &mut [f64; 4]) -> u32 {
        moments::moments_skew_range(x.x.values, x.x.has_map, x.x.map, x.start, x.length, state)
    }
}

impl StateCall<Range<'_>, 5> for KurtosisState {
    ghost asked = { λ x. of_kurtosis_range (doubles x.x) x.start x.length };

    fn call(x: Range, state: &mut [f64; 5]) -> u32 {
        moments::moments_kurtosis_range(x.x.values, x.x.has_map, x.x.map, x.start, x.length, state)
    }
}

// Two of a kind.
pub fn two_arrays<T: Copy, const N: usize, S: StateCall<T, N>>(
    x: T,
    y: T,
    x_state: &mut [f64; N],
    y_state: &mut [f64; N],
) -> (u32, u32)
    ensures { MeetTwoArrays (S.asked x) (S.asked y) (x_state.old, x_state.new) (y_state.old, y_state.new) result.0 result.1 }
{
    let first = S::call(x, x_state);
    let second = S::call(y, y_state);
    (first, second)
}
