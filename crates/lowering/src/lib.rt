// The lowering of a table of nodes to gates: the visits, and the entry point.
#![tactic(auto)]

pub mod lower; // the entry point: refusals, then the visits from the bad nodes
pub mod root; // the visits from the bad nodes
pub mod visit; // a node after what it leans on
