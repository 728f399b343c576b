// The node table: its nodes, the refusal sheet 1 to 6, the places nodes take and the ceilings.
#![tactic(auto)]

pub mod kind; // the kinds' numbers, and what is a matter of the kind alone
pub mod field; // one node of a table
pub mod sheet; // the refusals 1 to 6, and whether a table asks anything
pub mod size; // places in the bit map and among the values
pub mod ceiling; // the most that each node may add

// The six numbers of a node.
#[derive(Clone, Copy)]
pub struct Node {
    pub kind: u64,
    pub width: u64,
    pub a: u64,
    pub b: u64,
    pub c: u64,
    pub imm: u64,
}

// The refusals 1 to 6; a node is named by its number, from 1.
#[derive(Clone, Copy, Debug, PartialEq, Eq)]
pub enum Fault {
    Size,
    Address,
    Kind(usize),
    NotLowered(usize),
    Operand(usize),
    Sort(usize),
}

// What a node's places are counted in: bits of the bit map, or slots of the word evaluator's values.
#[derive(Clone, Copy)]
pub enum Unit {
    Bit,
    Slot,
}

// The most that a table can ask of the three lent buffers.
#[derive(Clone, Copy)]
pub struct Sums {
    pub gates: u64,
    pub map: u64,
    pub constraints: u64,
}
