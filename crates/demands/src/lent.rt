// What C gives and lends to a call. A map is looked at where the flag says so; where it says no, a map of any bytes may be lent.
ghost use Rattle.window.specs.Outputs.{Lent};
ghost use Rattle.demands.specs.Lent.{lent, lent_three, same_readings, same_reading_pair, same_figures, same_variances};

// A trace as doubles.
#[derive(Clone, Copy)]
pub struct Doubles<'a> {
    pub values: &'a [f64],
    pub has_map: bool,
    pub map: &'a [u8],
}

#[derive(Clone, Copy)]
pub struct DoublePair<'a> {
    pub x: Doubles<'a>,
    pub y: Doubles<'a>,
}

// A trace as bytes: by a name of its own, as what is said of the two differs (`hosted`, `doubles`).
#[derive(Clone, Copy)]
pub struct Bytes<'a> {
    pub values: &'a [u8],
    pub has_map: bool,
    pub map: &'a [u8],
}

#[derive(Clone, Copy)]
pub struct BytePair<'a> {
    pub x: Bytes<'a>,
    pub y: Bytes<'a>,
}

// Lists that are lent: a call hands back the very lists, so that what it says of them is said of the lender's.
pub trait Lists {
    ghost same: { Self → Self → Type 0 };
}

// The list that a trace of bytes is decoded into.
#[derive(Drop)]
pub struct Readings<'a> {
    pub list: &'a mut [f64],
}

impl Lists for Readings<'_> {
    ghost same = { same_readings };
}

#[derive(Drop)]
pub struct ReadingPair<'a> {
    pub x: &'a mut [f64],
    pub y: &'a mut [f64],
}

impl Lists for ReadingPair<'_> {
    ghost same = { same_reading_pair };
}

// The two lists of a figure, which with weights takes no work slice.
#[derive(Drop)]
pub struct Column<'a> {
    pub figures: &'a mut [f64],
    pub present: &'a mut [u8],
}

// A work slice, and two lists for each answer of a row.
pub trait Answers: Lists {
    ghost lent: { Self → Lent };
}

#[derive(Drop)]
pub struct Figures<'a> {
    pub work: &'a mut [f64],
    pub figures: &'a mut [f64],
    pub present: &'a mut [u8],
}

impl Lists for Figures<'_> {
    ghost same = { same_figures };
}

impl Answers for Figures<'_> {
    ghost lent = { lent };
}

// Of a variance also those of its lowest and its highest reading.
#[derive(Drop)]
pub struct Variances<'a> {
    pub work: &'a mut [f64],
    pub figures: &'a mut [f64],
    pub present: &'a mut [u8],
    pub lowest: &'a mut [f64],
    pub lowest_present: &'a mut [u8],
    pub highest: &'a mut [f64],
    pub highest_present: &'a mut [u8],
}

impl Lists for Variances<'_> {
    ghost same = { same_variances };
}

impl Answers for Variances<'_> {
    ghost lent = { lent_three };
}
