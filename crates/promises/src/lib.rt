// No code: what the library promises as a whole, as statements (specs/) and theorems (proofs/) over the definitions that the
// contracts of the other crates cite.
#![tactic(auto)]
