// The program's lines as bytes: a table's text read (read.rt), a lowered table's lines written (write.rt), and what both and others put them together with (put.rt).
#![tactic(auto)]

mod field;
mod line;
mod name;
mod number;
pub mod put;
pub mod read;
pub mod write;
