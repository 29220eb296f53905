// Covariance: the source's `CovState`.
ghost use Rattle.std.specs.Prelude.{◌≡◌, false, refl, [], ◌∷◌};
ghost use Rattle.moment.specs.Cov.{cov_about, cov_new, cov_insert, cov_merge, cov_combine, cov_finalize};
ghost use Rattle.moment.specs.Arrays.{cov_list};
ghost use Rattle.moment.specs.Code.Entrywise.{cov_with, cov_about_more, cov_new_is, cov_combine_is};

use crate::states::State;
use crate::{Figure, states};

#[repr(C)]
#[derive(Clone, Copy, Debug, Default, PartialEq)]
pub struct CovState {
    pub weight: f64,
    pub mean_x: f64,
    pub mean_y: f64,
    pub dp_xy: f64,
}

// Its members, in the order of the source's struct.
impl From<CovState> for [f64; 4] {
    ghost from_gives = { λ s members. members ≡ cov_list s };

    fn from(s: CovState) -> [f64; 4] {
        [s.weight, s.mean_x, s.mean_y, s.dp_xy]
    }
}

impl State for CovState {
    type Entry = (f64, f64);

    const MERGES_EMPTY: bool = false;

    ghost MERGES_EMPTY = { false };

    ghost about = { λ w mean. cov_about w mean.0 mean.1 };

    ghost with_entry = { cov_with };

    ghost new = { cov_new };

    ghost weight = { λ s. s.weight };

    ghost merge = { cov_merge };

    ghost combine = { cov_combine };

    ghost about_weight = { λ w mean. refl };

    ghost about_more = { cov_about_more };

    ghost new_is = { cov_new_is };

    ghost combine_is = { cov_combine_is };

    fn about(weight: f64, (mean_x, mean_y): (f64, f64)) -> CovState {
        CovState {
            weight,
            mean_x,
            mean_y,
            dp_xy: 0.0,
        }
    }

    fn with_entry(self, (x, y): (f64, f64)) -> CovState {
        CovState {
            dp_xy: self.dp_xy + (x - self.mean_x) * (y - self.mean_y),
            ..self
        }
    }

    fn weight(self) -> f64 {
        CovState::weight(self)
    }

    fn merge(self, other: CovState) -> CovState {
        let new_weight = self.weight + other.weight;
        let other_weight_frac = other.weight / new_weight;
        let delta_mean_x = other.mean_x - self.mean_x;
        let delta_mean_y = other.mean_y - self.mean_y;
        let new_mean_x = self.mean_x + delta_mean_x * other_weight_frac;
        let new_mean_y = self.mean_y + delta_mean_y * other_weight_frac;
        CovState {
            weight: new_weight,
            mean_x: new_mean_x,
            mean_y: new_mean_y,
            dp_xy: self.dp_xy
                + (other.dp_xy + other.weight * (other.mean_x - new_mean_x) * delta_mean_y),
        }
    }
}

impl CovState {
    pub fn weight(self) -> f64
        ensures { result ≡ self.weight }
    {
        self.weight
    }

    // `new` of one pair.
    pub fn of_pair(x: f64, y: f64) -> Self
        ensures { result ≡ cov_new ((x, y) ∷ []) }
    {
        states::of_one((x, y))
    }

    pub fn insert_one(self, x: f64, y: f64) -> Self
        ensures { result ≡ cov_insert self x y }
    {
        let new_weight = self.weight + 1.0;
        let new_weight_frac = 1.0 / new_weight;
        let delta_mean_x = x - self.mean_x;
        let delta_mean_y = y - self.mean_y;
        let new_mean_x = self.mean_x + delta_mean_x * new_weight_frac;
        let new_mean_y = self.mean_y + delta_mean_y * new_weight_frac;
        CovState {
            weight: new_weight,
            mean_x: new_mean_x,
            mean_y: new_mean_y,
            dp_xy: self.dp_xy + (x - new_mean_x) * delta_mean_y,
        }
    }

    pub fn combine(self, other: CovState) -> Self
        ensures { result ≡ cov_combine self other }
    {
        states::combine(self, other)
    }

    #[tactic(auto, unfolding(crate::specs::Cov::cov_finalize))]
    pub fn finalize(self, ddof: u8) -> Figure
        ensures { result ≡ cov_finalize self ddof }
    {
        let ddof = f64::from(ddof);
        if self.weight <= ddof {
            return Figure::Missing;
        }
        Figure::Present(self.dp_xy / (self.weight - ddof))
    }
}
