ghost use Rattle.std.specs.Prelude.{◌≡◌, ◌+◌, ◌≤◌, ◌<◌, length, slice_index};
ghost use Rattle.loops.specs.Loop.{iter};
ghost use Rattle.table.specs.Size.{size_of};
ghost use Rattle.values.specs.Value.{read_value, write_value, ite_value, place_at, slot_at};
ghost use Rattle.values.specs.Eval.{slot_step};

use crate::value::word_value;
use table::kind::{ITE, READ, STATE, WRITE, accesses};
use table::sheet::find;
use table::size::Listing;
use table::{Node, Unit};

// A slot of any buffer; 0 where there is none, as the definition has it.
pub fn at(values: &[u64], i: usize) -> u64
    ensures { result ≡ slice_index values.now i }
{
    values.get(i).copied().unwrap_or(0)
}

// The slots of a node. (That at most 64 addresses are listed stands in the clauses: `slot_at`, which docs/STATEMENTS.md names, takes them alone.)
pub fn slots_of(addrs: &[u64], node: Node) -> usize
    requires { (length addrs.now ≤ 64) × (node.width ≤ 64) }
    ensures { (result ≡ size_of Unit.Slot (length addrs.now) 0 node.width) × (result ≤ 64) }
{
    let listing = Listing {
        n: addrs.len() as u64,
        w: 0,
    };
    listing.size_of(Unit::Slot, node.width) as usize
}

// The place of the address that a read or write has in slot b. It is looked for once a node, not once a slot.
#[tactic(auto, unfolding(crate::specs::Value::place_at, loops::specs::Loop::pick))]
pub fn place_at(addrs: &[u64], node: Node, values: &[u64], b: usize) -> Option<usize>
    ensures { result ≡ place_at addrs.now node values.now b }
{
    if accesses(node.kind) {
        find(addrs, at(values, b))
    } else {
        None
    }
}

// A node that is worked out: its operands' slots begin at a, b and c, the first operand is v wide, and the address stands at place p of the list.
#[derive(Clone, Copy)]
pub struct Operands {
    pub node: Node,
    pub v: u64,
    pub a: usize,
    pub b: usize,
    pub c: usize,
    pub p: Option<usize>,
    pub ghost narrow: { (node.width ≤ 64) × (v ≤ 64) },
    pub ghost near: { (a ≤ 65536) × (b ≤ 65536) × (c ≤ 65536) },
}

impl Operands {
    // A read of the memory at a: 0 where the address is not listed. A place past the list's end is no address's, and its slot may be another node's.
    #[tactic(auto, unfolding(crate::specs::Value::read_value, loops::specs::Loop::pick))]
    fn read_value(self, addrs: &[u64], values: &[u64]) -> u64
        requires { length addrs.now ≤ 64 }
        ensures { result ≡ read_value addrs.now values.now self.a self.p }
    {
        match self.p {
            Some(i) if i < addrs.len() => at(values, self.a + i),
            _ => 0,
        }
    }

    // Word j of the memory at a after a write of the word at c: as it was everywhere but at the address.
    #[tactic(auto, unfolding(crate::specs::Value::write_value, loops::specs::Loop::pick))]
    fn write_value(self, values: &[u64], j: usize) -> u64
        requires { j ≤ 64 }
        ensures { result ≡ write_value values.now self.a self.p (slice_index values.now self.c) j }
    {
        match self.p {
            Some(i) if j == i => at(values, self.c),
            _ => at(values, self.a + j),
        }
    }

    #[tactic(auto, unfolding(crate::specs::Value::ite_value, loops::specs::Loop::pick))]
    fn ite_value(self, values: &[u64], j: usize) -> u64
        requires { j ≤ 64 }
        ensures { result ≡ ite_value values.now self.a self.b self.c j }
    {
        let chosen = if at(values, self.a) == 1 {
            self.b
        } else {
            self.c
        };
        at(values, chosen + j)
    }

    // Slot j of the node.
    #[tactic(auto, unfolding(crate::specs::Value::slot_at, loops::specs::Loop::pick))]
    pub fn slot_at(self, addrs: &[u64], values: &[u64], j: usize) -> u64
        requires { (length addrs.now ≤ 64) × (j ≤ 64) }
        ensures { result ≡ slot_at addrs.now self.node self.v values.now self.a self.b self.c self.p j }
    {
        match self.node.kind {
            STATE => at(values, self.a + j),
            ITE => self.ite_value(values, j),
            READ => self.read_value(addrs, values),
            WRITE => self.write_value(values, j),
            _ => word_value(self.node, self.v, at(values, self.a), at(values, self.b)),
        }
    }

    // The m slots of the node, from o on.
    #[tactic(auto, using(loops::proofs::Loop::for_loop), unfolding(crate::specs::Eval::slot_step))]
    pub(crate) fn fill(self, addrs: &[u64], o: usize, m: usize, values: &mut [u64])
        requires { (length addrs.now ≤ 64) × (o ≤ 65536) × (m ≤ 64) × (o + m ≤ length values.old) }
        ensures { values.new ≡ iter m (slot_step addrs.now self.node self.v o self.a self.b self.c self.p) values.old }
    {
        for j in 0..m {
            values[o + j] = self.slot_at(addrs, values, j);
        }
    }
}
