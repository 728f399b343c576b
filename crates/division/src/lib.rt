// Unsigned division: quotient and remainder as free gates, and the constraints that they obey.
// A width stands beside its slices, and its bounds in the clauses, as in `words`: the definitions take it so.
#![tactic(auto)]

pub mod check;
pub mod constraint;
pub mod divide;
pub mod known;
pub mod lists;
pub mod pair;
pub mod rows;
pub mod zero;
