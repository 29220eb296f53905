// Variance: the source's `VarState`.
ghost use Rattle.std.specs.Prelude.{◌≡◌, true, refl};
ghost use Rattle.moment.specs.Var.{var_about, var_new, var_clear, var_inserted, var_insert, var_merged, var_merge, var_combine};
ghost use Rattle.moment.specs.Var.{not_negative, var_finalize};
ghost use Rattle.moment.specs.Arrays.{var_list};
ghost use Rattle.moment.specs.Code.Entrywise.{var_with, var_about_more, var_new_is, var_combine_is};

use crate::states::State;
use crate::{Figure, states};

#[repr(C)]
#[derive(Clone, Copy, Debug, Default, PartialEq)]
pub struct VarState {
    pub weight: f64,
    pub mean: f64,
    pub dp: f64,
}

// Its members, in the order of the source's struct.
impl From<VarState> for [f64; 3] {
    ghost from_gives = { λ s members. members ≡ var_list s };

    fn from(s: VarState) -> [f64; 3] {
        [s.weight, s.mean, s.dp]
    }
}

impl State for VarState {
    type Entry = f64;

    const MERGES_EMPTY: bool = true;

    ghost MERGES_EMPTY = { true };

    ghost about = { var_about };

    ghost with_entry = { var_with };

    ghost new = { var_new };

    ghost weight = { λ s. s.weight };

    ghost merge = { var_merge };

    ghost combine = { var_combine };

    ghost about_weight = { λ w mean. refl };

    ghost about_more = { var_about_more };

    ghost new_is = { var_new_is };

    ghost combine_is = { var_combine_is };

    fn about(weight: f64, mean: f64) -> VarState {
        VarState {
            weight,
            mean,
            dp: 0.0,
        }
    }

    fn with_entry(self, x: f64) -> VarState {
        let d = x - self.mean;
        VarState {
            dp: self.dp + d * d,
            ..self
        }
    }

    fn weight(self) -> f64 {
        self.weight
    }

    #[tactic(auto, unfolding(crate::specs::Var::var_clear))]
    fn merge(self, other: VarState) -> VarState {
        let empty = VarState::about(self.weight + other.weight, 0.0);
        states::cleared(empty.weight, empty, || self.merged(other))
    }
}

// A quotient below zero comes of rounding alone; a NaN stays.
fn not_negative(v: f64) -> f64
    ensures { result ≡ not_negative v }
{
    if v < 0.0 { 0.0 } else { v }
}

impl VarState {
    pub fn new(x: &[f64]) -> Self
        ensures { result ≡ var_new x.now }
    {
        states::new(x)
    }

    // `insert_one` before its `clear_zero_weight_nan`, which changes nothing where the weight counts readings.
    pub fn inserted(self, x: f64) -> Self
        ensures { result ≡ var_inserted self x }
    {
        let new_weight = self.weight + 1.0;
        let delta_mean = x - self.mean;
        let new_mean = self.mean + delta_mean / new_weight;
        VarState {
            weight: new_weight,
            mean: new_mean,
            dp: self.dp + (x - new_mean) * delta_mean,
        }
    }

    #[tactic(auto, unfolding(crate::specs::Var::var_clear))]
    pub fn insert_one(self, x: f64) -> Self
        ensures { result ≡ var_insert self x }
    {
        let empty = VarState::about(self.weight + 1.0, 0.0);
        states::cleared(empty.weight, empty, || self.inserted(x))
    }

    // `combine` with another weight that is not zero, before its `clear_zero_weight_nan`.
    pub fn merged(self, other: VarState) -> Self
        ensures { result ≡ var_merged self other }
    {
        let new_weight = self.weight + other.weight;
        let other_weight_frac = other.weight / new_weight;
        let delta_mean = other.mean - self.mean;
        let new_mean = self.mean + delta_mean * other_weight_frac;
        VarState {
            weight: new_weight,
            mean: new_mean,
            dp: self.dp + (other.dp + other.weight * (other.mean - new_mean) * delta_mean),
        }
    }

    pub fn combine(self, other: VarState) -> Self
        ensures { result ≡ var_combine self other }
    {
        states::combine(self, other)
    }

    #[tactic(auto, unfolding(crate::specs::Var::var_finalize))]
    pub fn finalize(self, ddof: u8) -> Figure
        ensures { result ≡ var_finalize self ddof }
    {
        let ddof = f64::from(ddof);
        if self.weight <= ddof {
            return Figure::Missing;
        }
        Figure::Present(not_negative(self.dp / (self.weight - ddof)))
    }
}
