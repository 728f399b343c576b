// Memory: words of w bits in the order of the listed addresses, read and written at an address that is known or not.
// The addresses, the words and w stay three parameters: a read is lent the words shared and a write alone, so a struct would be two, each made for one call.
// A width stands beside its slices, and its bounds in the clauses, as in `words`: the definitions take it so.
#![tactic(auto)]

pub mod address;
pub mod read;
pub mod write;
