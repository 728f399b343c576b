ghost use Rattle.std.specs.Prelude.{◌≡◌, ◌-◌, ◌≤◌, ◌<◌, length, Ok};
ghost use Rattle.table.specs.Node.{Narrow};
ghost use Rattle.table.specs.Sheet.{table_fault};
ghost use Rattle.table.specs.Ceiling as top;
ghost use Rattle.table.specs.Ceiling.{div_gates, div_constraints, shift_gates, memory_gates, ite_gates, plain_gates, constraint_ceiling, node_gates, node_constraints, sums_of};

use crate::field::{is_given, node_at, width_at};
use crate::kind::{ADD, AND, EQ, ITE, MUL, NOT, OR, READ, SLL, SRL, SUB, ULT, WRITE, divides};
use crate::size::{Listing, times};
use crate::{Node, Sums, Unit};
use digits::powers_below;

// That widths are at most 64 and sums small stands in the clauses of this file's inner functions: a type would be made and taken apart at each call.
#[tactic(auto, unfolding(crate::specs::Ceiling::div_gates))]
fn div_gates(v: u64) -> u64
    requires { v ≤ 64 }
    ensures { (result ≡ div_gates v) × (result ≤ 67108864) }
{
    times(2 * v, v) + 18 * v + 1 + times(v, v.saturating_sub(1)) / 2
}

#[tactic(auto, unfolding(crate::specs::Ceiling::div_constraints))]
fn div_constraints(v: u64) -> u64
    requires { v ≤ 64 }
    ensures { (result ≡ div_constraints v) × (result ≤ 67108864) }
{
    times(v, v.saturating_sub(1)) / 2 + 2 * v + 2
}

// A stage for each power of two below the width.
#[tactic(auto, unfolding(crate::specs::Ceiling::shift_gates))]
fn shift_gates(v: u64) -> u64
    requires { v ≤ 64 }
    ensures { (result ≡ shift_gates v) × (result ≤ 67108864) }
{
    let s = powers_below(v as usize) as u64;
    (times(3 * v, s) + 2 * v - s).saturating_sub(1)
}

impl Listing {
    // For each listed address k gates a bit, less one.
    #[tactic(auto, unfolding(crate::specs::Ceiling::memory_gates))]
    fn memory_gates(self, k: u64) -> u64
        requires { k ≤ 5 }
        ensures { (result ≡ memory_gates self.n self.w k) × (result ≤ 67108864) }
    {
        times(self.n, times(k, self.w).saturating_sub(1))
    }

    #[tactic(auto, unfolding(crate::specs::Ceiling::ite_gates))]
    fn ite_gates(self, v: u64) -> u64
        requires { v ≤ 64 }
        ensures { (result ≡ ite_gates self.n self.w v) × (result ≤ 67108864) }
    {
        3 * self.size_of(Unit::Bit, v)
    }

    // The gates of a node that is not given and no division, over a first operand x wide.
    #[tactic(auto, unfolding(crate::specs::Ceiling::plain_gates, crate::specs::Op::by_op, digits::specs::Op::op_gates, loops::specs::Loop::pick))]
    fn plain_gates(self, node: Node, x: u64) -> u64
        requires { (node.width ≤ 64) × (x ≤ 64) }
        ensures { (result ≡ plain_gates self.n self.w node x) × (result ≤ 67108864) }
    {
        match node.kind {
            ITE => self.ite_gates(node.width),
            READ => self.memory_gates(4),
            WRITE => self.memory_gates(5),
            NOT | AND | OR => x,
            EQ => (3 * x).saturating_sub(1),
            ADD => 3 * x,
            SUB => 4 * x,
            ULT => 4 * x + 1,
            MUL => times(2 * x, x + 1),
            SLL | SRL => shift_gates(x),
            _ => 0,
        }
    }

    // The gates that a node may make.
    #[tactic(auto, unfolding(crate::specs::Ceiling::ceiling, loops::specs::Loop::pick))]
    fn ceiling(self, node: Node, x: u64) -> u64
        requires { (node.width ≤ 64) × (x ≤ 64) }
        ensures { (result ≡ top.ceiling self.n self.w node x) × (result ≤ 67108864) }
    {
        if is_given(node) {
            return self.size_of(Unit::Bit, node.width);
        }
        if divides(node.kind) {
            return div_gates(node.width);
        }
        self.plain_gates(node, x)
    }

    // The gates of node i + 1.
    #[tactic(auto, unfolding(crate::specs::Ceiling::node_gates))]
    pub fn node_gates(self, table: &[u64], i: usize) -> u64
        requires { (i < 512) × Narrow table.now }
        ensures { (result ≡ node_gates table.now self.n self.w i) × (result ≤ 67108864) }
    {
        let node = node_at(table, i + 1);
        self.ceiling(node, width_at(table, node.a))
    }
}

// The constraints that a node may record.
#[tactic(auto, unfolding(crate::specs::Ceiling::constraint_ceiling, loops::specs::Loop::pick))]
fn constraint_ceiling(node: Node) -> u64
    requires { node.width ≤ 64 }
    ensures { (result ≡ constraint_ceiling node) × (result ≤ 67108864) }
{
    if divides(node.kind) {
        return div_constraints(node.width);
    }
    0
}

// The constraints of node i + 1. (Narrow is no type's: three inner functions ask it, and `offsets`, which docs/STATEMENTS.md names and which takes
// the table alone.)
#[tactic(auto, unfolding(crate::specs::Ceiling::node_constraints))]
fn node_constraints(table: &[u64], i: usize) -> u64
    requires { (i < 512) × Narrow table.now }
    ensures { (result ≡ node_constraints table.now i) × (result ≤ 67108864) }
{
    constraint_ceiling(node_at(table, i + 1))
}

// The sums of a table without fault over all its nodes, in one pass; the two constants count among the gates.
pub fn sums(table: &[u64], addrs: &[u64], w: u64) -> Sums
    requires { table_fault table.now addrs.now w ≡ Ok tt }
    ensures { result ≡ sums_of table.now (length addrs.now) w }
{
    let listing = Listing {
        n: addrs.len() as u64,
        w,
    };
    let m = table.len() / 6;
    let mut gates = 2;
    let mut map = 0;
    let mut constraints = 0;
    for i in 0..m {
        gates += listing.node_gates(table, i);
        map += listing.node_size(Unit::Bit, table, i);
        constraints += node_constraints(table, i);
    }
    Sums {
        gates,
        map,
        constraints,
    }
}
