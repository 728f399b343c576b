// Operations on bits: known operands are folded away, what is left is appended to the gate list.
#![tactic(auto)]

pub mod adder;
pub mod choice;
pub mod fold;
pub mod list;
