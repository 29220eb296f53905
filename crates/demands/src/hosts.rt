// Plan calls of a host: one, of which all three demands speak, or for 2 and 3 the statement for pairs of traces, and of a variance that of
// its lowest and highest reading; and two, of which the third and the law of maps speak.
ghost use Rattle.plan.specs.Plan.{planned};
ghost use Rattle.rolling.specs.Moments.{Statistic, Variance, Skewness, Kurtosis, Covariance, Correlation, kind_of};
ghost use Rattle.rolling.specs.Calls.{query};
ghost use Rattle.moments.specs.HostCall.{Host, ReadingLists};
ghost use Rattle.demands.specs.Lent.{hosted, hosted_pair, decoded, decoded_pair};
ghost use Rattle.demands.specs.Meets.{MeetsHost, MeetTwoHosts};

use crate::lent::{Answers, BytePair, Bytes, Figures, Lists, ReadingPair, Readings, Variances};
use plan::Plan;
use rolling::{CovMoment, KurtosisMoment, PearsonMoment, SkewMoment, VarianceMoment};

// The call of a figure, of what is given as a B, decoded into an R and answered in an L.
pub trait HostCall<B: Copy, R: Lists, L: Answers>: Copy {
    ghost statistic: { Self → Statistic };

    ghost hosted: { (f : Self) → B → Host (kind_of (statistic f)) };

    ghost decoded: { (f : Self) → R → ReadingLists (kind_of (statistic f)) };

    fn call(self, given: B, plan: Plan, min_periods: usize, readings: &mut R, lists: &mut L) -> u32
        ensures same { R.same readings.old readings.new × L.same lists.old lists.new }
        ensures meets { MeetsHost (query (planned plan.entry) min_periods (statistic self)) (hosted self given)
            (decoded self readings.old, decoded self readings.new) (L.lent lists.old, L.lent lists.new) result };
}

impl HostCall<Bytes<'_>, Readings<'_>, Variances<'_>> for VarianceMoment {
    ghost statistic = { λ f. Variance f.ddof };

    ghost hosted = { λ f t. hosted t };

    ghost decoded = { λ f r. decoded r };

    fn call(
        self,
        given: Bytes,
        plan: Plan,
        min_periods: usize,
        readings: &mut Readings,
        lists: &mut Variances,
    ) -> u32 {
        let VarianceMoment { ddof } = self;
        moments::moments_plan_var(
            given.values,
            readings.list,
            given.has_map,
            given.map,
            plan.starts,
            plan.ends,
            min_periods,
            ddof,
            lists.work,
            lists.figures,
            lists.present,
            lists.lowest,
            lists.lowest_present,
            lists.highest,
            lists.highest_present,
        )
    }
}

impl HostCall<Bytes<'_>, Readings<'_>, Figures<'_>> for SkewMoment {
    ghost statistic = { λ f. Skewness f.bias };

    ghost hosted = { λ f t. hosted t };

    ghost decoded = { λ f r. decoded r };

    fn call(
        self,
        given: Bytes,
        plan: Plan,
        min_periods: usize,
        readings: &mut Readings,
        lists: &mut Figures,
    ) -> u32 {
        let SkewMoment { bias } = self;
        moments::moments_plan_skew(
            given.values,
            readings.list,
            given.has_map,
            given.map,
            plan.starts,
            plan.ends,
            min_periods,
            bias,
            lists.work,
            lists.figures,
            lists.present,
        )
    }
}

impl HostCall<Bytes<'_>, Readings<'_>, Figures<'_>> for KurtosisMoment {
    ghost statistic = { λ f. Kurtosis f.fisher f.bias };

    ghost hosted = { λ f t. hosted t };

    ghost decoded = { λ f r. decoded r };

    fn call(
        self,
        given: Bytes,
        plan: Plan,
        min_periods: usize,
        readings: &mut Readings,
        lists: &mut Figures,
    ) -> u32 {
        let KurtosisMoment { fisher, bias } = self;
        moments::moments_plan_kurtosis(
            given.values,
            readings.list,
            given.has_map,
            given.map,
            plan.starts,
            plan.ends,
            min_periods,
            fisher,
            bias,
            lists.work,
            lists.figures,
            lists.present,
        )
    }
}

impl HostCall<BytePair<'_>, ReadingPair<'_>, Figures<'_>> for CovMoment {
    ghost statistic = { λ f. Covariance f.ddof };

    ghost hosted = { λ f t. hosted_pair t };

    ghost decoded = { λ f r. decoded_pair r };

    fn call(
        self,
        given: BytePair,
        plan: Plan,
        min_periods: usize,
        readings: &mut ReadingPair,
        lists: &mut Figures,
    ) -> u32 {
        let CovMoment { ddof } = self;
        moments::moments_plan_cov(
            given.x.values,
            readings.x,
            given.x.has_map,
            given.x.map,
            given.y.values,
            readings.y,
            given.y.has_map,
            given.y.map,
            plan.starts,
            plan.ends,
            min_periods,
            ddof,
            lists.work,
            lists.figures,
            lists.present,
        )
    }
}

impl HostCall<BytePair<'_>, ReadingPair<'_>, Figures<'_>> for PearsonMoment {
    ghost statistic = { λ f. Correlation };

    ghost hosted = { λ f t. hosted_pair t };

    ghost decoded = { λ f r. decoded_pair r };

    fn call(
        self,
        given: BytePair,
        plan: Plan,
        min_periods: usize,
        readings: &mut ReadingPair,
        lists: &mut Figures,
    ) -> u32 {
        moments::moments_plan_pearson_corr(
            given.x.values,
            readings.x,
            given.x.has_map,
            given.x.map,
            given.y.values,
            readings.y,
            given.y.has_map,
            given.y.map,
            plan.starts,
            plan.ends,
            min_periods,
            lists.work,
            lists.figures,
            lists.present,
        )
    }
}

// Two, of the same plan, setting and figure.
pub fn two_hosts<B: Copy, R: Lists, L: Answers, F: HostCall<B, R, L>>(
    figure: F,
    x: B,
    y: B,
    plan: Plan,
    min_periods: usize,
    x_readings: &mut R,
    y_readings: &mut R,
    x_lists: &mut L,
    y_lists: &mut L,
) -> (u32, u32)
    ensures first_same { R.same x_readings.old x_readings.new × L.same x_lists.old x_lists.new }
    ensures second_same { R.same y_readings.old y_readings.new × L.same y_lists.old y_lists.new }
    ensures meet { MeetTwoHosts (query (planned plan.entry) min_periods (F.statistic figure)) (F.hosted figure x) (F.hosted figure y)
        (F.decoded figure x_readings.old, F.decoded figure x_readings.new)
        (F.decoded figure y_readings.old, F.decoded figure y_readings.new)
        (L.lent x_lists.old, L.lent x_lists.new) (L.lent y_lists.old, L.lent y_lists.new) result.0 result.1 }
{
    let first = figure.call(x, plan, min_periods, x_readings, x_lists);
    let second = figure.call(y, plan, min_periods, y_readings, y_lists);
    (first, second)
}
