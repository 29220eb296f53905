// Records of the calls on windows. In plan, word 1 is the figure, 2 ddof, 3 bias, 4 fisher, 5 the minimum, 6 whether a map is lent, 7 the
// number answered, 8 how many doubles of the work slice may then hold anything. From 9 on each list has the word at which it stands and its
// length: 9 trace (bytes, eight a word), 11 map, 13 starts, 15 ends, 17 work, 19 readings, 21 figures, 23 present; of a variance besides
// 25 lowest, 27 its bytes, 29 highest, 31 its bytes. What stands at 19 to 31 is what these lists hold after the call. What stands at 17 is
// what all that are lent hold before it, each from its first word on, and the work slice past its free part after it.
//
// Fixed and weighted have these words but for: 9 the trace in doubles, 13 the weights, 15 the window size, 16 whether windows are centred;
// no readings are decoded. Paired and paired_fixed have those of plan and of fixed, which are the first trace's, but for: 3 whether the
// second trace's map is lent; from 25 on stand the second trace, its map (27) and its readings (29).
ghost use Rattle.std.specs.Prelude.{◌≤◌, IfOk, vec_len};

use crate::arrays::Trace;
use crate::words::{Record, UnknownWord, Word};
use std::alloc::AllocError;

#[derive(Clone, Copy, Debug, PartialEq, Eq)]
enum Figure {
    Var,
    Skew,
    Kurtosis,
}

impl TryFrom<u64> for Figure {
    type Error = UnknownWord;

    fn try_from(word: u64) -> Result<Figure, UnknownWord> {
        match word {
            0 => Ok(Figure::Var),
            1 => Ok(Figure::Skew),
            2 => Ok(Figure::Kurtosis),
            _ => Err(UnknownWord(word)),
        }
    }
}

#[derive(Clone, Copy, Debug, PartialEq, Eq)]
enum PairFigure {
    Cov,
    Pearson,
}

impl TryFrom<u64> for PairFigure {
    type Error = UnknownWord;

    fn try_from(word: u64) -> Result<PairFigure, UnknownWord> {
        match word {
            0 => Ok(PairFigure::Cov),
            1 => Ok(PairFigure::Pearson),
            _ => Err(UnknownWord(word)),
        }
    }
}

#[derive(Clone, Copy)]
struct Settings {
    ddof: u8,
    bias: bool,
    fisher: bool,
    min: usize,
    size: usize,
    center: bool,
}

impl From<Record<'_>> for Settings {
    fn from(rec: Record) -> Settings {
        Settings {
            ddof: rec.get(2),
            bias: rec.flag(3),
            fisher: rec.flag(4),
            min: rec.get(5),
            size: rec.get(15),
            center: rec.flag(16),
        }
    }
}

// The trace of these values, whose map is lent if word `flag` says so, and stands where word `map` says.
fn trace<T: Drop>(
    rec: Record,
    values: Vec<T>,
    flag: usize,
    map: usize,
) -> Result<Trace<T>, AllocError> {
    Ok(Trace {
        values,
        has_map: rec.flag(flag),
        map: rec.list(map)?,
    })
}

// The list whose place and length stand at word k and behind it, as it is lent: with what stands at 17.
fn held<T: Word>(rec: Record, k: usize) -> Result<Vec<T>, AllocError>
    ensures { IfOk result (λ values. vec_len values ≤ 1024) }
{
    rec.values(rec.count(17), rec.count(k.saturating_add(1)))
}

// Whether the work slice holds past its free part what it held.
fn keeps(rec: Record, work: &[f64]) -> bool {
    let free = rec.count(8);
    work.get(free..)
        .is_some_and(|kept| rec.are(rec.count(17) + free, kept))
}

// Whether a call answers the number that stands there, and leaves the lists that it is lent as they stand there. A refusal is a number, and
// a double and a byte for each row are two lists, as in the C interface.
fn agrees<F: FnOnce(&mut [f64], &mut [f64], &mut [u8]) -> u32>(
    rec: Record,
    call: F,
) -> Result<bool, AllocError>
    requires { F.IsAlwaysCallable call }
{
    let mut work = held(rec, 17)?;
    let mut figures = held(rec, 21)?;
    let mut present = held(rec, 23)?;
    let number = call(&mut work, &mut figures, &mut present);
    Ok(
        rec.is(7, number)
            && rec.is_list(21, &figures)
            && rec.is_list(23, &present)
            && keeps(rec, &work),
    )
}

// Whether a call of a variance agrees, and leaves the lists of the lowest and the highest readings as they stand there too.
fn agrees_with_extremes<
    F: FnOnce(&mut [f64], &mut [u8], &mut [f64], &mut [u8]) -> Result<bool, AllocError>,
>(rec: Record, call: F) -> Result<bool, AllocError>
    requires { F.IsAlwaysCallable call }
{
    let mut low = held(rec, 25)?;
    let mut low_bytes = held(rec, 27)?;
    let mut high = held(rec, 29)?;
    let mut high_bytes = held(rec, 31)?;
    let agrees = call(&mut low, &mut low_bytes, &mut high, &mut high_bytes)?;
    Ok(
        agrees
            && rec.is_list(25, &low)
            && rec.is_list(27, &low_bytes)
            && rec.is_list(29, &high)
            && rec.is_list(31, &high_bytes),
    )
}

pub fn plan(rec: Record) -> Result<bool, AllocError> {
    let x = trace(rec, rec.packed(9)?, 6, 11)?;
    let starts = rec.list(13)?;
    let ends = rec.list(15)?;
    let set = Settings::from(rec);
    let readings = &mut held(rec, 19)?;
    let agreed = match Figure::try_from(rec.word(1)) {
        Ok(Figure::Var) => agrees_with_extremes(rec, |low, low_bytes, high, high_bytes| {
            agrees(rec, |work, figures, present| {
                moments::moments_plan_var(
                    &x.values, readings, x.has_map, &x.map, &starts, &ends, set.min, set.ddof,
                    work, figures, present, low, low_bytes, high, high_bytes,
                )
            })
        }),
        Ok(Figure::Skew) => agrees(rec, |work, figures, present| {
            moments::moments_plan_skew(
                &x.values, readings, x.has_map, &x.map, &starts, &ends, set.min, set.bias, work,
                figures, present,
            )
        }),
        Ok(Figure::Kurtosis) | Err(_) => agrees(rec, |work, figures, present| {
            moments::moments_plan_kurtosis(
                &x.values, readings, x.has_map, &x.map, &starts, &ends, set.min, set.fisher,
                set.bias, work, figures, present,
            )
        }),
    }?;
    Ok(agreed && rec.is_list(19, readings))
}

// Of fixed and of weighted. Weights are lent no work slice: the one of their records has no places.
pub fn fixed(rec: Record) -> Result<bool, AllocError> {
    let x = trace(rec, rec.list(9)?, 6, 11)?;
    let weights = rec.list(13)?;
    let set = Settings::from(rec);
    match Figure::try_from(rec.word(1)) {
        Ok(Figure::Var) => agrees_with_extremes(rec, |low, low_bytes, high, high_bytes| {
            agrees(rec, |work, figures, present| {
                moments::moments_rolling_var(
                    &x.values, x.has_map, &x.map, set.size, set.min, set.center, set.ddof, work,
                    figures, present, low, low_bytes, high, high_bytes,
                )
            })
        }),
        Ok(Figure::Skew) => agrees(rec, |work, figures, present| {
            moments::moments_rolling_skew(
                &x.values, x.has_map, &x.map, set.size, set.min, set.center, set.bias, work,
                figures, present,
            )
        }),
        Ok(Figure::Kurtosis) => agrees(rec, |work, figures, present| {
            moments::moments_rolling_kurtosis(
                &x.values, x.has_map, &x.map, set.size, set.min, set.center, set.fisher, set.bias,
                work, figures, present,
            )
        }),
        Err(_) => agrees(rec, |_, figures, present| {
            moments::moments_rolling_var_weights(
                &x.values, x.has_map, &x.map, set.size, set.min, set.center, &weights, figures,
                present,
            )
        }),
    }
}

pub fn paired(rec: Record) -> Result<bool, AllocError> {
    let x = trace(rec, rec.packed(9)?, 6, 11)?;
    let y = trace(rec, rec.packed(25)?, 3, 27)?;
    let starts = rec.list(13)?;
    let ends = rec.list(15)?;
    let set = Settings::from(rec);
    let x_readings = &mut held(rec, 19)?;
    let y_readings = &mut held(rec, 29)?;
    let agreed = match PairFigure::try_from(rec.word(1)) {
        Ok(PairFigure::Cov) => agrees(rec, |work, figures, present| {
            moments::moments_plan_cov(
                &x.values, x_readings, x.has_map, &x.map, &y.values, y_readings, y.has_map, &y.map,
                &starts, &ends, set.min, set.ddof, work, figures, present,
            )
        }),
        Ok(PairFigure::Pearson) | Err(_) => agrees(rec, |work, figures, present| {
            moments::moments_plan_pearson_corr(
                &x.values, x_readings, x.has_map, &x.map, &y.values, y_readings, y.has_map, &y.map,
                &starts, &ends, set.min, work, figures, present,
            )
        }),
    }?;
    Ok(agreed && rec.is_list(19, x_readings) && rec.is_list(29, y_readings))
}

pub fn paired_fixed(rec: Record) -> Result<bool, AllocError> {
    let x = trace(rec, rec.list(9)?, 6, 11)?;
    let y = trace(rec, rec.list(25)?, 3, 27)?;
    let set = Settings::from(rec);
    match PairFigure::try_from(rec.word(1)) {
        Ok(PairFigure::Cov) => agrees(rec, |work, figures, present| {
            moments::moments_rolling_cov(
                &x.values, x.has_map, &x.map, &y.values, y.has_map, &y.map, set.size, set.min,
                set.center, set.ddof, work, figures, present,
            )
        }),
        Ok(PairFigure::Pearson) | Err(_) => agrees(rec, |work, figures, present| {
            moments::moments_rolling_pearson_corr(
                &x.values, x.has_map, &x.map, &y.values, y.has_map, &y.map, set.size, set.min,
                set.center, work, figures, present,
            )
        }),
    }
}

// Word 1 is the window size, 2 whether windows are centred, 3 how many readings there are, 4 the row, 5 and 6 where its window starts and
// ends.
pub fn bounds(rec: Record) -> bool {
    let windows = plan::Fixed {
        window_size: rec.get(1),
        center: rec.flag(2),
    };
    let window = windows.det_offsets(rec.get(4), rec.get(3));
    rec.is(5, window.start) && rec.is(6, window.end)
}
