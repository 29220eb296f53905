// Records of insert, combine and finalize. Word 1 is the state's kind, from 2 on the state's six words. Insert: 8 and 9 what is inserted,
// from 10 on the answer. Combine: from 8 on the other state, from 14 on the answer. Finalize: 8 ddof, 9 biased, 10 fisher, 11 present, 12
// the figure.
use crate::words::{Record, UnknownWord};
use moment::{CovState, KurtosisState, PearsonState, SkewState, VarState};

#[derive(Clone, Copy, Debug, PartialEq, Eq)]
pub enum Kind {
    Var,
    Cov,
    Pearson,
    Skew,
    Kurtosis,
}

impl TryFrom<u64> for Kind {
    type Error = UnknownWord;

    fn try_from(word: u64) -> Result<Kind, UnknownWord> {
        match word {
            0 => Ok(Kind::Var),
            1 => Ok(Kind::Cov),
            2 => Ok(Kind::Pearson),
            3 => Ok(Kind::Skew),
            4 => Ok(Kind::Kurtosis),
            _ => Err(UnknownWord(word)),
        }
    }
}

// A state as its members from a word on, in the source's order. Each is a struct of its own (document 01), so each names its members. One
// `stands_at` over every `Into<[f64; N]>` was not proved: that N doubles fit the address space is known of no N alone.
pub trait State: Copy {
    fn at(rec: Record, k: usize) -> Self;

    fn stands_at(self, rec: Record, k: usize) -> bool;
}

impl State for VarState {
    fn at(rec: Record, k: usize) -> Self {
        let [weight, mean, dp]: [f64; 3] = rec.array(k);
        VarState { weight, mean, dp }
    }

    fn stands_at(self, rec: Record, k: usize) -> bool {
        let members: [f64; 3] = self.into();
        rec.are(k, &members)
    }
}

impl State for CovState {
    fn at(rec: Record, k: usize) -> Self {
        let [weight, mean_x, mean_y, dp_xy]: [f64; 4] = rec.array(k);
        CovState {
            weight,
            mean_x,
            mean_y,
            dp_xy,
        }
    }

    fn stands_at(self, rec: Record, k: usize) -> bool {
        let members: [f64; 4] = self.into();
        rec.are(k, &members)
    }
}

impl State for PearsonState {
    fn at(rec: Record, k: usize) -> Self {
        let [weight, mean_x, mean_y, dp_xx, dp_xy, dp_yy]: [f64; 6] = rec.array(k);
        PearsonState {
            weight,
            mean_x,
            mean_y,
            dp_xx,
            dp_xy,
            dp_yy,
        }
    }

    fn stands_at(self, rec: Record, k: usize) -> bool {
        let members: [f64; 6] = self.into();
        rec.are(k, &members)
    }
}

impl State for SkewState {
    fn at(rec: Record, k: usize) -> Self {
        let [weight, mean, m2, m3]: [f64; 4] = rec.array(k);
        SkewState {
            weight,
            mean,
            m2,
            m3,
        }
    }

    fn stands_at(self, rec: Record, k: usize) -> bool {
        let members: [f64; 4] = self.into();
        rec.are(k, &members)
    }
}

impl State for KurtosisState {
    fn at(rec: Record, k: usize) -> Self {
        let [weight, mean, m2, m3, m4]: [f64; 5] = rec.array(k);
        KurtosisState {
            weight,
            mean,
            m2,
            m3,
            m4,
        }
    }

    fn stands_at(self, rec: Record, k: usize) -> bool {
        let members: [f64; 5] = self.into();
        rec.are(k, &members)
    }
}

fn inserted<S: State, F: FnOnce(S, f64, f64) -> S>(rec: Record, insert: F) -> bool
    requires { F.IsAlwaysCallable insert }
{
    insert(S::at(rec, 2), rec.get(8), rec.get(9)).stands_at(rec, 10)
}

pub fn insert(rec: Record) -> bool {
    match Kind::try_from(rec.word(1)) {
        Ok(Kind::Var) => inserted(rec, |s, x, _| moments::moments_var_insert_one(s, x)),
        Ok(Kind::Cov) => inserted(rec, moments::moments_cov_insert_one),
        Ok(Kind::Pearson) => inserted(rec, moments::moments_pearson_insert_one),
        Ok(Kind::Skew) => inserted(rec, |s, x, _| moments::moments_skew_insert_one(s, x)),
        Ok(Kind::Kurtosis) => inserted(rec, |s, x, _| moments::moments_kurtosis_insert_one(s, x)),
        Err(_) => false,
    }
}

fn combined<S: State, F: FnOnce(S, S) -> S>(rec: Record, combine: F) -> bool
    requires { F.IsAlwaysCallable combine }
{
    combine(S::at(rec, 2), S::at(rec, 8)).stands_at(rec, 14)
}

pub fn combine(rec: Record) -> bool {
    match Kind::try_from(rec.word(1)) {
        Ok(Kind::Var) => combined(rec, moments::moments_var_combine),
        Ok(Kind::Cov) => combined(rec, moments::moments_cov_combine),
        Ok(Kind::Pearson) => combined(rec, moments::moments_pearson_combine),
        Ok(Kind::Skew) => combined(rec, moments::moments_skew_combine),
        Ok(Kind::Kurtosis) => combined(rec, moments::moments_kurtosis_combine),
        Err(_) => false,
    }
}

// The figure is lent as 1.0, so that a missing one is seen to be written.
fn finalized<S: State, F: FnOnce(S, &mut f64) -> u8>(rec: Record, finalize: F) -> bool
    requires { F.IsAlwaysCallable finalize }
{
    let mut figure = 1.0;
    let present = finalize(S::at(rec, 2), &mut figure);
    rec.is(11, present) && rec.is(12, figure)
}

pub fn finalize(rec: Record) -> bool {
    let ddof = rec.get(8);
    let bias = rec.flag(9);
    let fisher = rec.flag(10);
    match Kind::try_from(rec.word(1)) {
        Ok(Kind::Var) => finalized(rec, |s, x| moments::moments_var_finalize(s, ddof, x)),
        Ok(Kind::Cov) => finalized(rec, |s, x| moments::moments_cov_finalize(s, ddof, x)),
        Ok(Kind::Pearson) | Err(_) => finalized(rec, |s, x| {
            *x = moments::moments_pearson_finalize(s);
            1
        }),
        Ok(Kind::Skew) => finalized(rec, |s, x| moments::moments_skew_finalize(s, bias, x)),
        Ok(Kind::Kurtosis) => finalized(rec, |s, x| {
            moments::moments_kurtosis_finalize(s, fisher, bias, x)
        }),
    }
}
