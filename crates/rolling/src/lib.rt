// Figures over moving windows: document 01's 001 to 006, driven by a plan or by fixed windows, one file for each figure. A public
// function takes any lists and has the Rust's name. That of one figure only hands on to `figures`, and its contract names the figure: a
// generic function in its place would take the figure's name from its callers. What is below is kept inside the crate.
// The two lists of a figure stay apart here and in what is below: C lends them one by one, and by a struct of both contracts would name
// each list's old and new all the same, and that both are handed back besides.
#![tactic(auto)]

mod cov;
mod extremes;
mod figures;
mod kurtosis;
mod leaving;
mod memory;
mod moment_window;
mod pairs;
mod pearson;
mod row;
mod series;
mod skew;
mod variance;

pub use cov::{CovMoment, plan_cov, rolling_cov};
pub use kurtosis::{KurtosisMoment, plan_kurtosis, rolling_kurtosis};
pub use pearson::{PearsonMoment, plan_pearson_corr, rolling_pearson_corr};
pub use skew::{SkewMoment, plan_skew, rolling_skew};
pub use variance::{VarianceMoment, plan_var, rolling_var};
