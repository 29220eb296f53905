// Skewness: the source's `SkewState`.
ghost use Rattle.std.specs.Prelude.{◌≡◌, false, refl};
ghost use Rattle.trace.specs.Lent.{traced};
ghost use Rattle.moment.specs.Skew.{skew_about, skew_new, skew_clear, skew_inserted, skew_insert};
ghost use Rattle.moment.specs.Skew.{skew_merged, skew_merge, skew_combine, skew_biased, skew_correction, skew_finalize};
ghost use Rattle.moment.specs.Arrays.{skew_list, answered, skew_range};
ghost use Rattle.moment.specs.Code.Entrywise.{skew_with, skew_about_more, skew_new_is, skew_combine_is};

use crate::states::State;
use crate::{Figure, is_zero, states};
use trace::{Refusal, Trace};

#[repr(C)]
#[derive(Clone, Copy, Debug, Default, PartialEq)]
pub struct SkewState {
    pub weight: f64,
    pub mean: f64,
    pub m2: f64,
    pub m3: f64,
}

// Its members, in the order of the source's struct.
impl From<SkewState> for [f64; 4] {
    ghost from_gives = { λ s members. members ≡ skew_list s };

    fn from(s: SkewState) -> [f64; 4] {
        [s.weight, s.mean, s.m2, s.m3]
    }
}

impl State for SkewState {
    type Entry = f64;

    const MERGES_EMPTY: bool = false;

    ghost MERGES_EMPTY = { false };

    ghost about = { skew_about };

    ghost with_entry = { skew_with };

    ghost new = { skew_new };

    ghost weight = { λ s. s.weight };

    ghost merge = { skew_merge };

    ghost combine = { skew_combine };

    ghost about_weight = { λ w mean. refl };

    ghost about_more = { skew_about_more };

    ghost new_is = { skew_new_is };

    ghost combine_is = { skew_combine_is };

    fn about(weight: f64, mean: f64) -> SkewState {
        SkewState {
            weight,
            mean,
            m2: 0.0,
            m3: 0.0,
        }
    }

    fn with_entry(self, x: f64) -> SkewState {
        let d = x - self.mean;
        let d2 = d * d;
        let d3 = d * d2;
        SkewState {
            m2: self.m2 + d2,
            m3: self.m3 + d3,
            ..self
        }
    }

    fn weight(self) -> f64 {
        self.weight
    }

    #[tactic(auto, unfolding(crate::specs::Skew::skew_clear))]
    fn merge(self, other: SkewState) -> SkewState {
        let empty = SkewState::about(self.weight + other.weight, 0.0);
        states::cleared(empty.weight, empty, || self.merged(other))
    }
}

impl SkewState {
    pub fn new(x: &[f64]) -> Self
        ensures { result ≡ skew_new x.now }
    {
        states::new(x)
    }

    // `insert_one` before its `clear_zero_weight_nan`, which changes nothing where the weight counts readings.
    pub fn inserted(self, x: f64) -> Self
        ensures { result ≡ skew_inserted self x }
    {
        let new_weight = self.weight + 1.0;
        let delta_mean = x - self.mean;
        let delta_mean_weight = delta_mean / new_weight;
        let new_mean = self.mean + delta_mean_weight;
        let weight_diff = self.weight - 1.0;
        let m2_update = (x - new_mean) * delta_mean;
        let new_m2 = self.m2 + m2_update;
        let new_m3 = self.m3 + delta_mean_weight * (m2_update * weight_diff - 3.0 * self.m2);
        SkewState {
            weight: new_weight,
            mean: new_mean,
            m2: new_m2,
            m3: new_m3,
        }
    }

    #[tactic(auto, unfolding(crate::specs::Skew::skew_clear))]
    pub fn insert_one(self, x: f64) -> Self
        ensures { result ≡ skew_insert self x }
    {
        let empty = SkewState::about(self.weight + 1.0, 0.0);
        states::cleared(empty.weight, empty, || self.inserted(x))
    }

    // `combine` of two weights that are not zero, before its `clear_zero_weight_nan`.
    pub fn merged(self, other: SkewState) -> Self
        ensures { result ≡ skew_merged self other }
    {
        let new_weight = self.weight + other.weight;
        let delta_mean = other.mean - self.mean;
        let delta_mean_weight = delta_mean / new_weight;
        let new_mean = self.mean + other.weight * delta_mean_weight;
        let weight_diff = self.weight - other.weight;
        let self_weight_other_m2 = self.weight * other.m2;
        let other_weight_self_m2 = other.weight * self.m2;
        let m2_update = other.weight * (other.mean - new_mean) * delta_mean;
        let new_m2 = self.m2 + other.m2 + m2_update;
        let new_m3 = self.m3
            + other.m3
            + delta_mean_weight
                * (m2_update * weight_diff + 3.0 * (self_weight_other_m2 - other_weight_self_m2));
        SkewState {
            weight: new_weight,
            mean: new_mean,
            m2: new_m2,
            m3: new_m3,
        }
    }

    pub fn combine(self, other: SkewState) -> Self
        ensures { result ≡ skew_combine self other }
    {
        states::combine(self, other)
    }

    #[tactic(auto, unfolding(crate::specs::Skew::skew_biased))]
    fn biased(self) -> f64
        ensures { result ≡ skew_biased self }
    {
        let m2 = self.m2 / self.weight;
        let m3 = self.m3 / self.weight;
        if is_zero(m2, self.mean) {
            return float::not_a_number();
        }
        m3 / (m2 * root::root(m2))
    }

    pub fn correction(n: f64) -> f64
        ensures { result ≡ skew_correction n }
    {
        root::root(n * (n - 1.0)) / (n - 2.0)
    }

    #[tactic(auto, unfolding(crate::specs::Skew::skew_finalize))]
    pub fn finalize(self, bias: bool) -> Figure
        ensures { result ≡ skew_finalize self bias }
    {
        let biased_est = self.biased();
        if bias {
            if self.weight == 0.0 {
                return Figure::Missing;
            }
            return Figure::Present(biased_est);
        }
        if self.weight <= 2.0 {
            return Figure::Missing;
        }
        Figure::Present(SkewState::correction(self.weight) * biased_est)
    }

    pub fn from_array(x: Trace, start: usize, length: usize) -> Result<SkewState, Refusal>
        ensures { answered result ≡ skew_range (traced x.entry) start length }
    {
        states::from_array(x, start, length)
    }
}
