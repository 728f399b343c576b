// Operations on words: chains of operations on bits. A word is a part of a bit map, one u32 a bit, lowest first. Its width stands beside the slice
// and not in it, here and in the crates above: the definitions take a width and any longer word, and a slice for each call would be a `take` in
// each law. The width's bounds, 1 and 64, are no type: these functions are named in docs/STATEMENTS.md and take any width, and any slice.
#![tactic(auto)]

pub mod add;
pub mod each;
pub mod eq;
pub mod join;
pub mod mul;
pub mod shift;
pub mod sub;
