// The own step of a node: its gates and bits, kind by kind. A width stands beside its slices, as in
// `words`; the kinds that make word after word have a loop each (place.rt says why).
#![tactic(auto)]

pub mod choose; // an ite with an unknown condition
pub mod divide; // a division
pub mod input; // an input or an uninitialised state
pub mod operand; // which operands are visited
pub mod own; // a node's own step, by its kind
pub mod place; // a table, and where its nodes' bits stand
pub mod plain; // the words that are made of two words
pub mod read; // a read
pub mod share; // what shares its operand's bits
pub mod write; // a write
