// Kurtosis: the source's `KurtosisState`.
ghost use Rattle.std.specs.Prelude.{◌≡◌, false, refl};
ghost use Rattle.trace.specs.Lent.{traced};
ghost use Rattle.moment.specs.Kurtosis.{kurtosis_about, kurtosis_new, kurtosis_clear, kurtosis_inserted, kurtosis_insert};
ghost use Rattle.moment.specs.Kurtosis.{kurtosis_merged, kurtosis_merge, kurtosis_combine};
ghost use Rattle.moment.specs.Kurtosis.{kurtosis_biased, kurtosis_unbiased, less_three, kurtosis_finalize};
ghost use Rattle.moment.specs.Arrays.{kurtosis_list, answered, kurtosis_range};
ghost use Rattle.moment.specs.Code.Entrywise.{kurtosis_with, kurtosis_about_more, kurtosis_new_is, kurtosis_combine_is};

use crate::states::State;
use crate::{Figure, is_zero, states};
use trace::{Refusal, Trace};

#[repr(C)]
#[derive(Clone, Copy, Debug, Default, PartialEq)]
pub struct KurtosisState {
    pub weight: f64,
    pub mean: f64,
    pub m2: f64,
    pub m3: f64,
    pub m4: f64,
}

// Its members, in the order of the source's struct.
impl From<KurtosisState> for [f64; 5] {
    ghost from_gives = { λ s members. members ≡ kurtosis_list s };

    fn from(s: KurtosisState) -> [f64; 5] {
        [s.weight, s.mean, s.m2, s.m3, s.m4]
    }
}

impl State for KurtosisState {
    type Entry = f64;

    const MERGES_EMPTY: bool = false;

    ghost MERGES_EMPTY = { false };

    ghost about = { kurtosis_about };

    ghost with_entry = { kurtosis_with };

    ghost new = { kurtosis_new };

    ghost weight = { λ s. s.weight };

    ghost merge = { kurtosis_merge };

    ghost combine = { kurtosis_combine };

    ghost about_weight = { λ w mean. refl };

    ghost about_more = { kurtosis_about_more };

    ghost new_is = { kurtosis_new_is };

    ghost combine_is = { kurtosis_combine_is };

    fn about(weight: f64, mean: f64) -> KurtosisState {
        KurtosisState {
            weight,
            mean,
            m2: 0.0,
            m3: 0.0,
            m4: 0.0,
        }
    }

    fn with_entry(self, x: f64) -> KurtosisState {
        let d = x - self.mean;
        let d2 = d * d;
        let d3 = d * d2;
        let d4 = d2 * d2;
        KurtosisState {
            m2: self.m2 + d2,
            m3: self.m3 + d3,
            m4: self.m4 + d4,
            ..self
        }
    }

    fn weight(self) -> f64 {
        self.weight
    }

    #[tactic(auto, unfolding(crate::specs::Kurtosis::kurtosis_clear))]
    fn merge(self, other: KurtosisState) -> KurtosisState {
        let empty = KurtosisState::about(self.weight + other.weight, 0.0);
        states::cleared(empty.weight, empty, || self.merged(other))
    }
}

impl KurtosisState {
    pub fn new(x: &[f64]) -> Self
        ensures { result ≡ kurtosis_new x.now }
    {
        states::new(x)
    }

    // `insert_one` before its `clear_zero_weight_nan`.
    fn inserted(self, x: f64) -> Self
        ensures { result ≡ kurtosis_inserted self x }
    {
        let new_weight = self.weight + 1.0;
        let delta_mean = x - self.mean;
        let delta_mean_weight = delta_mean / new_weight;
        let new_mean = self.mean + delta_mean_weight;

        let weight_diff = self.weight - 1.0;
        let m2_update = (x - new_mean) * delta_mean;
        let new_m2 = self.m2 + m2_update;
        let new_m3 = self.m3 + delta_mean_weight * (m2_update * weight_diff - 3.0 * self.m2);
        let new_m4 = self.m4
            + delta_mean_weight
                * (delta_mean_weight
                    * (m2_update * (self.weight * weight_diff + 1.0) + 6.0 * self.m2)
                    - 4.0 * self.m3);
        KurtosisState {
            weight: new_weight,
            mean: new_mean,
            m2: new_m2,
            m3: new_m3,
            m4: new_m4,
        }
    }

    #[tactic(auto, unfolding(crate::specs::Kurtosis::kurtosis_clear))]
    pub fn insert_one(self, x: f64) -> Self
        ensures { result ≡ kurtosis_insert self x }
    {
        let empty = KurtosisState::about(self.weight + 1.0, 0.0);
        states::cleared(empty.weight, empty, || self.inserted(x))
    }

    // `combine` of two weights that are not zero, before its `clear_zero_weight_nan`.
    fn merged(self, other: KurtosisState) -> Self
        ensures { result ≡ kurtosis_merged self other }
    {
        let new_weight = self.weight + other.weight;
        let delta_mean = other.mean - self.mean;
        let delta_mean_weight = delta_mean / new_weight;
        let new_mean = self.mean + other.weight * delta_mean_weight;

        let weight_diff = self.weight - other.weight;
        let self_weight_other_m2 = self.weight * other.m2;
        let other_weight_self_m2 = other.weight * self.m2;
        let m2_update = other.weight * (other.mean - new_mean) * delta_mean;
        let new_m2 = self.m2 + other.m2 + m2_update;
        let new_m3 = self.m3
            + other.m3
            + delta_mean_weight
                * (m2_update * weight_diff + 3.0 * (self_weight_other_m2 - other_weight_self_m2));
        let new_m4 = self.m4
            + other.m4
            + delta_mean_weight
                * (delta_mean_weight
                    * (m2_update * (self.weight * weight_diff + other.weight * other.weight)
                        + 6.0
                            * (self.weight * self_weight_other_m2
                                + other.weight * other_weight_self_m2))
                    + 4.0 * (self.weight * other.m3 - other.weight * self.m3));
        KurtosisState {
            weight: new_weight,
            mean: new_mean,
            m2: new_m2,
            m3: new_m3,
            m4: new_m4,
        }
    }

    pub fn combine(self, other: KurtosisState) -> Self
        ensures { result ≡ kurtosis_combine self other }
    {
        states::combine(self, other)
    }

    #[tactic(auto, unfolding(crate::specs::Kurtosis::kurtosis_biased))]
    fn biased(self) -> f64
        ensures { result ≡ kurtosis_biased self }
    {
        let m4 = self.m4 / self.weight;
        let m2 = self.m2 / self.weight;
        if is_zero(m2, self.mean) {
            return float::not_a_number();
        }
        m4 / (m2 * m2)
    }

    fn unbiased(n: f64, biased_est: f64) -> f64
        ensures { result ≡ kurtosis_unbiased n biased_est }
    {
        let nm1_nm2 = (n - 1.0) / (n - 2.0);
        let np1_nm3 = (n + 1.0) / (n - 3.0);
        let nm1_nm3 = (n - 1.0) / (n - 3.0);
        nm1_nm2 * (np1_nm3 * biased_est - 3.0 * nm1_nm3) + 3.0
    }

    fn less_three(out: f64, fisher: bool) -> f64
        ensures { result ≡ less_three out fisher }
    {
        if fisher { out - 3.0 } else { out }
    }

    #[tactic(auto, unfolding(crate::specs::Kurtosis::kurtosis_finalize))]
    pub fn finalize(self, fisher: bool, bias: bool) -> Figure
        ensures { result ≡ kurtosis_finalize self fisher bias }
    {
        let biased_est = self.biased();
        if bias {
            if self.weight == 0.0 {
                return Figure::Missing;
            }
            return Figure::Present(KurtosisState::less_three(biased_est, fisher));
        }
        if self.weight <= 3.0 {
            return Figure::Missing;
        }
        Figure::Present(KurtosisState::less_three(
            KurtosisState::unbiased(self.weight, biased_est),
            fisher,
        ))
    }

    pub fn from_array(x: Trace, start: usize, length: usize) -> Result<KurtosisState, Refusal>
        ensures { answered result ≡ kurtosis_range (traced x.entry) start length }
    {
        states::from_array(x, start, length)
    }
}
