// Records of new, whole and range. Word 1 is the state's kind, 2 the readings of the first trace, 3 whether it has a map, 4 the map's
// bytes, 5 to 7 the same for the second trace, 8 and 9 a range's start and length, 10 to 15 what the lent state holds, 16 the number
// answered, 17 to 22 what the state holds then. From 23 on: trace, map, trace, map.
use crate::states::{Kind, State};
use crate::words::Record;
use moment::{KurtosisState, SkewState, VarState};
use std::alloc::AllocError;
use std::convert::AsSlice;

// A trace that a call is lent, as doubles or as bytes. Its map is a flag and bytes, as in the C interface, and no Option: bytes are lent
// where there is no map too, and are not to be looked at then.
#[derive(Drop)]
pub struct Trace<T> {
    pub values: Vec<T>,
    pub has_map: bool,
    pub map: Vec<u8>,
}

impl Trace<f64> {
    // The trace whose numbers stand from word k on, and whose lists from word `from` on.
    fn at(rec: Record, k: usize, from: usize) -> Result<Self, AllocError> {
        let readings = rec.count(k);
        Ok(Trace {
            values: rec.values(from, readings)?,
            has_map: rec.flag(k.saturating_add(1)),
            map: rec.values(
                from.saturating_add(readings),
                rec.count(k.saturating_add(2)),
            )?,
        })
    }
}

fn traces(rec: Record) -> Result<(Trace<f64>, Trace<f64>), AllocError> {
    let x = Trace::at(rec, 2, 23)?;
    let y = Trace::at(rec, 5, 23 + x.values.len() + x.map.len())?;
    Ok((x, y))
}

// Whether the call answers the number that stands there, and leaves the state that stands there.
fn answers<S: AsSlice<f64> + Drop, F: FnOnce(&mut S) -> u32>(
    rec: Record,
    mut state: S,
    call: F,
) -> bool
    requires { F.IsAlwaysCallable call }
{
    let number = call(&mut state);
    rec.is(16, number) && rec.are(17, state.as_slice())
}

// New and whole alike: of at most 128 pairs the whole array is what `new` makes of them.
fn pairs(rec: Record, kind: Kind, x: &Trace<f64>, y: &Trace<f64>) -> bool {
    match kind {
        Kind::Cov => answers(rec, rec.array(10), |state| {
            moments::moments_cov(
                &x.values, x.has_map, &x.map, &y.values, y.has_map, &y.map, state,
            )
        }),
        Kind::Pearson => answers(rec, rec.array(10), |state| {
            moments::moments_pearson_corr(
                &x.values, x.has_map, &x.map, &y.values, y.has_map, &y.map, state,
            )
        }),
        _ => false,
    }
}

pub fn new(rec: Record) -> Result<bool, AllocError> {
    let (x, y) = traces(rec)?;
    Ok(match Kind::try_from(rec.word(1)) {
        Ok(Kind::Var) => VarState::new(&x.values).stands_at(rec, 17),
        Ok(Kind::Skew) => SkewState::new(&x.values).stands_at(rec, 17),
        Ok(Kind::Kurtosis) => KurtosisState::new(&x.values).stands_at(rec, 17),
        Ok(kind) => pairs(rec, kind, &x, &y),
        Err(_) => false,
    })
}

pub fn whole(rec: Record) -> Result<bool, AllocError> {
    let (x, y) = traces(rec)?;
    Ok(match Kind::try_from(rec.word(1)) {
        Ok(Kind::Var) => answers(rec, rec.array(10), |state| {
            moments::moments_var(&x.values, x.has_map, &x.map, state)
        }),
        Ok(Kind::Skew) => answers(rec, rec.array(10), |state| {
            moments::moments_skew(&x.values, x.has_map, &x.map, state)
        }),
        Ok(Kind::Kurtosis) => answers(rec, rec.array(10), |state| {
            moments::moments_kurtosis(&x.values, x.has_map, &x.map, state)
        }),
        Ok(kind) => pairs(rec, kind, &x, &y),
        Err(_) => false,
    })
}

// Pairs have no call over a range: their whole arrays are asked for.
pub fn range(rec: Record) -> Result<bool, AllocError> {
    let (x, y) = traces(rec)?;
    let [start, length]: [usize; 2] = rec.array(8);
    Ok(match Kind::try_from(rec.word(1)) {
        Ok(Kind::Skew) => answers(rec, rec.array(10), |state| {
            moments::moments_skew_range(&x.values, x.has_map, &x.map, start, length, state)
        }),
        Ok(Kind::Kurtosis) => answers(rec, rec.array(10), |state| {
            moments::moments_kurtosis_range(&x.values, x.has_map, &x.map, start, length, state)
        }),
        Ok(kind) => pairs(rec, kind, &x, &y),
        Err(_) => false,
    })
}
