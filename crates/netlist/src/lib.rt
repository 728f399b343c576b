// The gate list from outside: the record, what each kind says, the list's check (refusal 11) and the gate evaluator (11, 12, 13).
#![tactic(auto)]

pub mod bit;
pub mod check;
pub mod eval;
pub mod kind;
pub mod record;
pub mod sheet;
