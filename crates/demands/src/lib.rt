// The three demands, the statement for pairs of traces, that of the lowest and highest reading, the law of maps and that of a skewness
// state in a kurtosis state, of the code itself: each function here makes calls of the entries, of `moments` and for plans of doubles of
// `rolling`, and has as its contract what they say of them; one steps from row to row as the row loops do, by `plan`. Were the contract of
// an entry weaker than they are, its function here could not be proved. No host calls this crate.
// The calls of a kind have one trait, each entry an `impl` of it, and what is said of two calls is said once, of any of them.
// What is given and lent is what C may pass (lent.rt): what is said holds of all of it.
#![tactic(auto)]

pub mod arrays;
pub mod hosts;
pub mod lent;
pub mod plans;
pub mod states;
pub mod windows;
