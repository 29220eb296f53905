// States and root, of which demands 1 and 2 speak: nothing refuses them. They are functions and no methods of a trait of states: those
// would be as many, each with its definition and its source as members of the trait beside it. `finalize` answers C's byte.
ghost use Rattle.moment.specs.Var.{var_insert, var_combine, var_finalize};
ghost use Rattle.moment.specs.Cov.{cov_insert, cov_combine, cov_finalize};
ghost use Rattle.moment.specs.Pearson.{pearson_insert, pearson_combine, pearson_finalize};
ghost use Rattle.moment.specs.Skew.{skew_insert, skew_combine, skew_finalize};
ghost use Rattle.moment.specs.Kurtosis.{kurtosis_insert, kurtosis_combine, kurtosis_finalize};
ghost use Rattle.promises.specs.SourceStates.{VarState-insert_one, VarState-combine, VarState-finalize};
ghost use Rattle.promises.specs.SourceStates.{CovState-insert_one, CovState-combine, CovState-finalize};
ghost use Rattle.promises.specs.SourceStates.{PearsonState-insert_one, PearsonState-combine, PearsonState-finalize};
ghost use Rattle.promises.specs.SourceStates.{SkewState-insert_one, SkewState-combine, SkewState-finalize};
ghost use Rattle.promises.specs.SourceStates.{KurtosisState-insert_one, KurtosisState-combine, KurtosisState-finalize};
ghost use Rattle.window.specs.Histories.{empty};
ghost use Rattle.demands.specs.Meets.{MeetsState, MeetsFigure, MeetsRoot, MadeBy, MeetsInsert, MeetsCombine};

use moment::{CovState, KurtosisState, PearsonState, SkewState, VarState};

#[tactic(auto, using(crate::proofs::Demanded::state_meets, crate::proofs::Demanded::var_insert_lem))]
pub fn var_insert_one(state: VarState, x: f64) -> VarState
    ensures { MeetsState (var_insert state x) (VarState-insert_one state x) result }
{
    moments::moments_var_insert_one(state, x)
}

#[tactic(auto, using(crate::proofs::Demanded::state_meets, crate::proofs::Demanded::var_combine_lem))]
pub fn var_combine(state: VarState, other: VarState) -> VarState
    ensures { MeetsState (var_combine state other) (VarState-combine state other) result }
{
    moments::moments_var_combine(state, other)
}

#[tactic(auto, using(crate::proofs::Demanded::figure_meets, crate::proofs::Demanded::var_finalize_lem))]
pub fn var_finalize(state: VarState, ddof: u8, figure: &mut f64) -> u8
    ensures { MeetsFigure (var_finalize state ddof) (VarState-finalize state ddof) result figure.old figure.new }
{
    moments::moments_var_finalize(state, ddof, figure)
}

#[tactic(auto, using(crate::proofs::Demanded::state_meets, crate::proofs::Demanded::skew_insert_lem))]
pub fn skew_insert_one(state: SkewState, x: f64) -> SkewState
    ensures { MeetsState (skew_insert state x) (SkewState-insert_one state x) result }
{
    moments::moments_skew_insert_one(state, x)
}

#[tactic(auto, using(crate::proofs::Demanded::state_meets, crate::proofs::Demanded::skew_combine_lem))]
pub fn skew_combine(state: SkewState, other: SkewState) -> SkewState
    ensures { MeetsState (skew_combine state other) (SkewState-combine state other) result }
{
    moments::moments_skew_combine(state, other)
}

#[tactic(auto, using(crate::proofs::Demanded::figure_meets, crate::proofs::Demanded::skew_finalize_lem))]
pub fn skew_finalize(state: SkewState, bias: bool, figure: &mut f64) -> u8
    ensures { MeetsFigure (skew_finalize state bias) (SkewState-finalize state bias) result figure.old figure.new }
{
    moments::moments_skew_finalize(state, bias, figure)
}

#[tactic(auto, using(crate::proofs::Demanded::state_meets, crate::proofs::Demanded::kurtosis_insert_lem))]
pub fn kurtosis_insert_one(state: KurtosisState, x: f64) -> KurtosisState
    ensures { MeetsState (kurtosis_insert state x) (KurtosisState-insert_one state x) result }
{
    moments::moments_kurtosis_insert_one(state, x)
}

#[tactic(auto, using(crate::proofs::Demanded::state_meets, crate::proofs::Demanded::kurtosis_combine_lem))]
pub fn kurtosis_combine(state: KurtosisState, other: KurtosisState) -> KurtosisState
    ensures { MeetsState (kurtosis_combine state other) (KurtosisState-combine state other) result }
{
    moments::moments_kurtosis_combine(state, other)
}

#[tactic(auto, using(crate::proofs::Demanded::figure_meets, crate::proofs::Demanded::kurtosis_finalize_lem))]
pub fn kurtosis_finalize(state: KurtosisState, fisher: bool, bias: bool, figure: &mut f64) -> u8
    ensures { MeetsFigure (kurtosis_finalize state fisher bias) (KurtosisState-finalize state fisher bias) result
        figure.old figure.new }
{
    moments::moments_kurtosis_finalize(state, fisher, bias, figure)
}

#[tactic(auto, using(crate::proofs::Demanded::state_meets, crate::proofs::Demanded::cov_insert_lem))]
pub fn cov_insert_one(state: CovState, x: f64, y: f64) -> CovState
    ensures { MeetsState (cov_insert state x y) (CovState-insert_one state x y) result }
{
    moments::moments_cov_insert_one(state, x, y)
}

#[tactic(auto, using(crate::proofs::Demanded::state_meets, crate::proofs::Demanded::cov_combine_lem))]
pub fn cov_combine(state: CovState, other: CovState) -> CovState
    ensures { MeetsState (cov_combine state other) (CovState-combine state other) result }
{
    moments::moments_cov_combine(state, other)
}

#[tactic(auto, using(crate::proofs::Demanded::figure_meets, crate::proofs::Demanded::cov_finalize_lem))]
pub fn cov_finalize(state: CovState, ddof: u8, figure: &mut f64) -> u8
    ensures { MeetsFigure (cov_finalize state ddof) (CovState-finalize state ddof) result figure.old figure.new }
{
    moments::moments_cov_finalize(state, ddof, figure)
}

#[tactic(auto, using(crate::proofs::Demanded::state_meets, crate::proofs::Demanded::pearson_insert_lem))]
pub fn pearson_insert_one(state: PearsonState, x: f64, y: f64) -> PearsonState
    ensures { MeetsState (pearson_insert state x y) (PearsonState-insert_one state x y) result }
{
    moments::moments_pearson_insert_one(state, x, y)
}

#[tactic(auto, using(crate::proofs::Demanded::state_meets, crate::proofs::Demanded::pearson_combine_lem))]
pub fn pearson_combine(state: PearsonState, other: PearsonState) -> PearsonState
    ensures { MeetsState (pearson_combine state other) (PearsonState-combine state other) result }
{
    moments::moments_pearson_combine(state, other)
}

#[tactic(auto, using(crate::proofs::Demanded::state_meets, crate::proofs::Demanded::pearson_finalize_lem))]
pub fn pearson_finalize(state: PearsonState) -> f64
    ensures { MeetsState (pearson_finalize state) (PearsonState-finalize state) result }
{
    moments::moments_pearson_finalize(state)
}

pub fn root(x: f64) -> f64
    ensures { MeetsRoot x result }
{
    moments::moments_root(x)
}

// A skewness state and a kurtosis state that were made alike.
#[derive(Clone, Copy)]
pub struct Both {
    pub skew: SkewState,
    pub kurtosis: KurtosisState,
}

// As a host makes them: no entry answers an empty state.
pub fn both_empty() -> Both
    ensures { MadeBy empty result.skew result.kurtosis }
{
    let nothing = 0.0;
    Both {
        skew: SkewState {
            weight: nothing,
            mean: nothing,
            m2: nothing,
            m3: nothing,
        },
        kurtosis: KurtosisState {
            weight: nothing,
            mean: nothing,
            m2: nothing,
            m3: nothing,
            m4: nothing,
        },
    }
}

pub fn both_insert_one(state: Both, x: f64) -> Both
    ensures { MeetsInsert state x result }
{
    let skew = state.skew;
    let kurtosis = state.kurtosis;
    Both {
        skew: moments::moments_skew_insert_one(skew, x),
        kurtosis: moments::moments_kurtosis_insert_one(kurtosis, x),
    }
}

pub fn both_combine(state: Both, other: Both) -> Both
    ensures { MeetsCombine state other result }
{
    let skew = state.skew;
    let kurtosis = state.kurtosis;
    let other_skew = other.skew;
    let other_kurtosis = other.kurtosis;
    Both {
        skew: moments::moments_skew_combine(skew, other_skew),
        kurtosis: moments::moments_kurtosis_combine(kurtosis, other_kurtosis),
    }
}
