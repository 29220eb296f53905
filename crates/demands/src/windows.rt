// Calls with fixed windows, as a host's plan calls; and with weights, of which the first two demands speak and the law of maps. Last a step
// from a row's bounds to the next row's.
ghost use Rattle.window.specs.Given.{Given};
ghost use Rattle.rolling.specs.Moments.{Statistic, Variance, Skewness, Kurtosis, Covariance, Correlation, kind_of};
ghost use Rattle.demands.specs.Lent.{doubles, double_pair, lent_column, same_column};
ghost use Rattle.demands.specs.Meets.{MeetsFixed, MeetTwoFixed, MeetsWeights, MeetTwoWeights, MeetsStep};

use crate::lent::{Answers, Column, DoublePair, Doubles, Figures, Variances};
use plan::Offsets;
use rolling::{CovMoment, KurtosisMoment, PearsonMoment, SkewMoment, VarianceMoment};

// Fixed windows, and how many readings each must have.
#[derive(Clone, Copy)]
pub struct Windows {
    pub window_size: usize,
    pub min_periods: usize,
    pub center: bool,
}

// The call of a figure, of what is given as a T and answered in an L.
pub trait FixedCall<T: Copy, L: Answers>: Copy {
    ghost statistic: { Self → Statistic };

    ghost given: { (f : Self) → T → Given (kind_of (statistic f)) };

    fn call(self, x: T, windows: Windows, lists: &mut L) -> u32
        ensures same { L.same lists.old lists.new }
        ensures meets { MeetsFixed windows.center windows.window_size windows.min_periods (statistic self) (given self x)
            (L.lent lists.old, L.lent lists.new) result };
}

impl FixedCall<Doubles<'_>, Variances<'_>> for VarianceMoment {
    ghost statistic = { λ f. Variance f.ddof };

    ghost given = { λ f x. doubles x };

    fn call(self, x: Doubles, windows: Windows, lists: &mut Variances) -> u32 {
        let VarianceMoment { ddof } = self;
        moments::moments_rolling_var(
            x.values,
            x.has_map,
            x.map,
            windows.window_size,
            windows.min_periods,
            windows.center,
            ddof,
            lists.work,
            lists.figures,
            lists.present,
            lists.lowest,
            lists.lowest_present,
            lists.highest,
            lists.highest_present,
        )
    }
}

impl FixedCall<Doubles<'_>, Figures<'_>> for SkewMoment {
    ghost statistic = { λ f. Skewness f.bias };

    ghost given = { λ f x. doubles x };

    fn call(self, x: Doubles, windows: Windows, lists: &mut Figures) -> u32 {
        let SkewMoment { bias } = self;
        moments::moments_rolling_skew(
            x.values,
            x.has_map,
            x.map,
            windows.window_size,
            windows.min_periods,
            windows.center,
            bias,
            lists.work,
            lists.figures,
            lists.present,
        )
    }
}

impl FixedCall<Doubles<'_>, Figures<'_>> for KurtosisMoment {
    ghost statistic = { λ f. Kurtosis f.fisher f.bias };

    ghost given = { λ f x. doubles x };

    fn call(self, x: Doubles, windows: Windows, lists: &mut Figures) -> u32 {
        let KurtosisMoment { fisher, bias } = self;
        moments::moments_rolling_kurtosis(
            x.values,
            x.has_map,
            x.map,
            windows.window_size,
            windows.min_periods,
            windows.center,
            fisher,
            bias,
            lists.work,
            lists.figures,
            lists.present,
        )
    }
}

impl FixedCall<DoublePair<'_>, Figures<'_>> for CovMoment {
    ghost statistic = { λ f. Covariance f.ddof };

    ghost given = { λ f x. double_pair x };

    fn call(self, x: DoublePair, windows: Windows, lists: &mut Figures) -> u32 {
        let CovMoment { ddof } = self;
        moments::moments_rolling_cov(
            x.x.values,
            x.x.has_map,
            x.x.map,
            x.y.values,
            x.y.has_map,
            x.y.map,
            windows.window_size,
            windows.min_periods,
            windows.center,
            ddof,
            lists.work,
            lists.figures,
            lists.present,
        )
    }
}

impl FixedCall<DoublePair<'_>, Figures<'_>> for PearsonMoment {
    ghost statistic = { λ f. Correlation };

    ghost given = { λ f x. double_pair x };

    fn call(self, x: DoublePair, windows: Windows, lists: &mut Figures) -> u32 {
        moments::moments_rolling_pearson_corr(
            x.x.values,
            x.x.has_map,
            x.x.map,
            x.y.values,
            x.y.has_map,
            x.y.map,
            windows.window_size,
            windows.min_periods,
            windows.center,
            lists.work,
            lists.figures,
            lists.present,
        )
    }
}

// Two, of the same windows, setting and figure.
pub fn two_fixed<T: Copy, L: Answers, F: FixedCall<T, L>>(
    figure: F,
    x: T,
    y: T,
    windows: Windows,
    x_lists: &mut L,
    y_lists: &mut L,
) -> (u32, u32)
    ensures same { L.same x_lists.old x_lists.new × L.same y_lists.old y_lists.new }
    ensures meet { MeetTwoFixed windows.center windows.window_size windows.min_periods (F.statistic figure) (F.given figure x)
        (F.given figure y) (L.lent x_lists.old, L.lent x_lists.new) (L.lent y_lists.old, L.lent y_lists.new) result.0 result.1 }
{
    let first = figure.call(x, windows, x_lists);
    let second = figure.call(y, windows, y_lists);
    (first, second)
}

// The call with weights, with the number that it answers C.
pub fn rolling_var_weights(x: Doubles, windows: Windows, weights: &[f64], lists: &mut Column) -> u32
    ensures same { same_column lists.old lists.new }
    ensures meets { MeetsWeights windows.center windows.window_size windows.min_periods weights.now (doubles x.entry)
        (lent_column lists.old, lent_column lists.new) result }
{
    moments::moments_rolling_var_weights(
        x.values,
        x.has_map,
        x.map,
        windows.window_size,
        windows.min_periods,
        windows.center,
        weights,
        lists.figures,
        lists.present,
    )
}

// Two, of the same windows and weights.
pub fn two_rolling_var_weights(
    x: Doubles,
    y: Doubles,
    windows: Windows,
    weights: &[f64],
    x_lists: &mut Column,
    y_lists: &mut Column,
) -> (u32, u32)
    ensures same { same_column x_lists.old x_lists.new × same_column y_lists.old y_lists.new }
    ensures meet { MeetTwoWeights windows.center windows.window_size windows.min_periods weights.now (doubles x.entry) (doubles y.entry)
        (lent_column x_lists.old, lent_column x_lists.new) (lent_column y_lists.old, lent_column y_lists.new) result.0 result.1 }
{
    let first = rolling_var_weights(x, windows, weights, x_lists);
    let second = rolling_var_weights(y, windows, weights, y_lists);
    (first, second)
}

// The windows of a row and of the row behind it.
pub fn next_offsets(i: usize, window_size: usize, len: usize, center: bool) -> (Offsets, Offsets)
    ensures { MeetsStep center window_size len i result.0 result.1 }
{
    let windows = plan::Fixed {
        window_size,
        center,
    };
    let at = windows.det_offsets(i, len);
    let next = plan::next_offsets(i, at, windows.left_window(), len);
    (at, next)
}
