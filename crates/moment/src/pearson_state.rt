// Correlation: the source's `PearsonState`.
ghost use Rattle.std.specs.Prelude.{◌≡◌, false, refl, [], ◌∷◌};
ghost use Rattle.moment.specs.Pearson.{pearson_about, pearson_new, pearson_insert, pearson_merge};
ghost use Rattle.moment.specs.Pearson.{pearson_combine, pearson_finalize};
ghost use Rattle.moment.specs.Arrays.{pearson_list};
ghost use Rattle.moment.specs.Code.Entrywise.{pearson_with, pearson_about_more, pearson_new_is, pearson_combine_is};

use crate::states;
use crate::states::State;

#[repr(C)]
#[derive(Clone, Copy, Debug, Default, PartialEq)]
pub struct PearsonState {
    pub weight: f64,
    pub mean_x: f64,
    pub mean_y: f64,
    pub dp_xx: f64,
    pub dp_xy: f64,
    pub dp_yy: f64,
}

// Its members, in the order of the source's struct.
impl From<PearsonState> for [f64; 6] {
    ghost from_gives = { λ s members. members ≡ pearson_list s };

    fn from(s: PearsonState) -> [f64; 6] {
        [s.weight, s.mean_x, s.mean_y, s.dp_xx, s.dp_xy, s.dp_yy]
    }
}

impl State for PearsonState {
    type Entry = (f64, f64);

    const MERGES_EMPTY: bool = false;

    ghost MERGES_EMPTY = { false };

    ghost about = { λ w mean. pearson_about w mean.0 mean.1 };

    ghost with_entry = { pearson_with };

    ghost new = { pearson_new };

    ghost weight = { λ s. s.weight };

    ghost merge = { pearson_merge };

    ghost combine = { pearson_combine };

    ghost about_weight = { λ w mean. refl };

    ghost about_more = { pearson_about_more };

    ghost new_is = { pearson_new_is };

    ghost combine_is = { pearson_combine_is };

    fn about(weight: f64, (mean_x, mean_y): (f64, f64)) -> PearsonState {
        PearsonState {
            weight,
            mean_x,
            mean_y,
            dp_xx: 0.0,
            dp_xy: 0.0,
            dp_yy: 0.0,
        }
    }

    fn with_entry(self, (x, y): (f64, f64)) -> PearsonState {
        let dx = x - self.mean_x;
        let dy = y - self.mean_y;
        PearsonState {
            dp_xx: self.dp_xx + dx * dx,
            dp_xy: self.dp_xy + dx * dy,
            dp_yy: self.dp_yy + dy * dy,
            ..self
        }
    }

    fn weight(self) -> f64 {
        PearsonState::weight(self)
    }

    fn merge(self, other: PearsonState) -> PearsonState {
        let new_weight = self.weight + other.weight;
        let other_weight_frac = other.weight / new_weight;
        let delta_mean_x = other.mean_x - self.mean_x;
        let delta_mean_y = other.mean_y - self.mean_y;
        let new_mean_x = self.mean_x + delta_mean_x * other_weight_frac;
        let new_mean_y = self.mean_y + delta_mean_y * other_weight_frac;
        PearsonState {
            weight: new_weight,
            mean_x: new_mean_x,
            mean_y: new_mean_y,
            dp_xx: self.dp_xx
                + (other.dp_xx + other.weight * (other.mean_x - new_mean_x) * delta_mean_x),
            dp_xy: self.dp_xy
                + (other.dp_xy + other.weight * (other.mean_x - new_mean_x) * delta_mean_y),
            dp_yy: self.dp_yy
                + (other.dp_yy + other.weight * (other.mean_y - new_mean_y) * delta_mean_y),
        }
    }
}

impl PearsonState {
    pub fn weight(self) -> f64
        ensures { result ≡ self.weight }
    {
        self.weight
    }

    // `new` of one pair.
    pub fn of_pair(x: f64, y: f64) -> Self
        ensures { result ≡ pearson_new ((x, y) ∷ []) }
    {
        states::of_one((x, y))
    }

    pub fn insert_one(self, x: f64, y: f64) -> Self
        ensures { result ≡ pearson_insert self x y }
    {
        let new_weight = self.weight + 1.0;
        let new_weight_frac = 1.0 / new_weight;
        let delta_mean_x = x - self.mean_x;
        let delta_mean_y = y - self.mean_y;
        let new_mean_x = self.mean_x + delta_mean_x * new_weight_frac;
        let new_mean_y = self.mean_y + delta_mean_y * new_weight_frac;
        PearsonState {
            weight: new_weight,
            mean_x: new_mean_x,
            mean_y: new_mean_y,
            dp_xx: self.dp_xx + (x - new_mean_x) * delta_mean_x,
            dp_xy: self.dp_xy + (x - new_mean_x) * delta_mean_y,
            dp_yy: self.dp_yy + (y - new_mean_y) * delta_mean_y,
        }
    }

    pub fn combine(self, other: PearsonState) -> Self
        ensures { result ≡ pearson_combine self other }
    {
        states::combine(self, other)
    }

    #[tactic(auto, unfolding(crate::specs::Pearson::pearson_finalize))]
    pub fn finalize(self) -> f64
        ensures { result ≡ pearson_finalize self }
    {
        let denom_sq = self.dp_xx * self.dp_yy;
        if denom_sq > 0.0 {
            return self.dp_xy / root::root(denom_sq);
        }
        float::not_a_number()
    }
}
