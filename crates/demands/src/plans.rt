// Plan calls with the trace as doubles, which a program in Rattle makes: as a host's, with nothing to decode.
ghost use Rattle.trace.specs.Lent.{traced};
ghost use Rattle.trace.specs.Outcomes.{outcome_number};
ghost use Rattle.plan.specs.Plan.{planned};
ghost use Rattle.window.specs.Given.{Given};
ghost use Rattle.window.specs.Pairs.{paired};
ghost use Rattle.rolling.specs.Moments.{Statistic, Variance, Skewness, Kurtosis, Covariance, Correlation, kind_of};
ghost use Rattle.rolling.specs.Calls.{query};
ghost use Rattle.demands.specs.Meets.{MeetsPlan, MeetTwoPlans};

use crate::lent::{Answers, Figures, Variances};
use plan::Plan;
use rolling::{CovMoment, KurtosisMoment, PearsonMoment, SkewMoment, VarianceMoment};
use trace::{Pair, Refusal, Trace};

// The call of a figure, of what is given as a T and answered in an L.
pub trait PlanCall<T: Copy, L: Answers>: Copy {
    ghost statistic: { Self → Statistic };

    ghost given: { (f : Self) → T → Given (kind_of (statistic f)) };

    fn call(self, x: T, plan: Plan, min_periods: usize, lists: &mut L) -> Result<(), Refusal>
        ensures same { L.same lists.old lists.new }
        ensures meets { MeetsPlan (query (planned plan.entry) min_periods (statistic self)) (given self x)
            (L.lent lists.old, L.lent lists.new) (outcome_number result) };
}

impl PlanCall<Trace<'_>, Variances<'_>> for VarianceMoment {
    ghost statistic = { λ f. Variance f.ddof };

    ghost given = { λ f x. traced x };

    fn call(
        self,
        x: Trace,
        plan: Plan,
        min_periods: usize,
        lists: &mut Variances,
    ) -> Result<(), Refusal> {
        let VarianceMoment { ddof } = self;
        rolling::plan_var(
            x,
            plan,
            min_periods,
            ddof,
            lists.work,
            lists.figures,
            lists.present,
            lists.lowest,
            lists.lowest_present,
            lists.highest,
            lists.highest_present,
        )
    }
}

impl PlanCall<Trace<'_>, Figures<'_>> for SkewMoment {
    ghost statistic = { λ f. Skewness f.bias };

    ghost given = { λ f x. traced x };

    fn call(
        self,
        x: Trace,
        plan: Plan,
        min_periods: usize,
        lists: &mut Figures,
    ) -> Result<(), Refusal> {
        let SkewMoment { bias } = self;
        rolling::plan_skew(
            x,
            plan,
            min_periods,
            bias,
            lists.work,
            lists.figures,
            lists.present,
        )
    }
}

impl PlanCall<Trace<'_>, Figures<'_>> for KurtosisMoment {
    ghost statistic = { λ f. Kurtosis f.fisher f.bias };

    ghost given = { λ f x. traced x };

    fn call(
        self,
        x: Trace,
        plan: Plan,
        min_periods: usize,
        lists: &mut Figures,
    ) -> Result<(), Refusal> {
        let KurtosisMoment { fisher, bias } = self;
        rolling::plan_kurtosis(
            x,
            plan,
            min_periods,
            fisher,
            bias,
            lists.work,
            lists.figures,
            lists.present,
        )
    }
}

impl PlanCall<Pair<'_>, Figures<'_>> for CovMoment {
    ghost statistic = { λ f. Covariance f.ddof };

    ghost given = { λ f x. paired x };

    fn call(
        self,
        x: Pair,
        plan: Plan,
        min_periods: usize,
        lists: &mut Figures,
    ) -> Result<(), Refusal> {
        let CovMoment { ddof } = self;
        rolling::plan_cov(
            x,
            plan,
            min_periods,
            ddof,
            lists.work,
            lists.figures,
            lists.present,
        )
    }
}

impl PlanCall<Pair<'_>, Figures<'_>> for PearsonMoment {
    ghost statistic = { λ f. Correlation };

    ghost given = { λ f x. paired x };

    fn call(
        self,
        x: Pair,
        plan: Plan,
        min_periods: usize,
        lists: &mut Figures,
    ) -> Result<(), Refusal> {
        rolling::plan_pearson_corr(
            x,
            plan,
            min_periods,
            lists.work,
            lists.figures,
            lists.present,
        )
    }
}

// Two, of the same plan, setting and figure.
pub fn two_plans<T: Copy, L: Answers, F: PlanCall<T, L>>(
    figure: F,
    x: T,
    y: T,
    plan: Plan,
    min_periods: usize,
    x_lists: &mut L,
    y_lists: &mut L,
) -> (Result<(), Refusal>, Result<(), Refusal>)
    ensures same { L.same x_lists.old x_lists.new × L.same y_lists.old y_lists.new }
    ensures meet { MeetTwoPlans (query (planned plan.entry) min_periods (F.statistic figure)) (F.given figure x) (F.given figure y)
        (L.lent x_lists.old, L.lent x_lists.new) (L.lent y_lists.old, L.lent y_lists.new)
        (outcome_number result.0) (outcome_number result.1) }
{
    let first = figure.call(x, plan, min_periods, x_lists);
    let second = figure.call(y, plan, min_periods, y_lists);
    (first, second)
}
