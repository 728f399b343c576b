ghost use Rattle.std.specs.Prelude.{◌≡◌, ◌<◌, ◌≤◌};
ghost use Rattle.loops.specs.Loop.{found};
ghost use Rattle.table.specs.Node.{nodes};
ghost use Rattle.values.specs.Eval.{slot_width, slot_bad, input_bad};

use crate::layout::Layout;
use crate::slot::{at, slots_of};
use table::Node;
use table::field::{is_given, node_at};
use table::sheet::fits;

// A slot of a node is below 2 to this.
#[tactic(auto, unfolding(crate::specs::Eval::slot_width, loops::specs::Loop::pick))]
fn slot_width(w: u64, node: Node) -> u64
    ensures { result ≡ slot_width w node }
{
    if node.width == 0 {
        return w;
    }
    node.width
}

#[tactic(auto, unfolding(crate::specs::Eval::slot_bad))]
fn slot_bad(u: u64, values: &[u64], o: usize, j: usize) -> bool
    requires { (o ≤ 65536) × (j ≤ 64) }
    ensures { result ≡ slot_bad u values.now o j }
{
    !fits(at(values, o + j), u)
}

impl Layout<'_> {
    // Whether node i + 1 is given a value out of range.
    #[tactic(auto, using(crate::proofs::input::Laws::input_none))]
    fn input_bad(&self, w: u64, values: &[u64], i: usize) -> bool
        requires { i < nodes self.now.table.now }
        ensures { result ≡ input_bad self.now.table.now self.now.addrs.now w values.now i }
    {
        let node = node_at(self.table, i + 1);
        if !is_given(node) {
            return false;
        }
        let u = slot_width(w, node);
        let o = self.offset(i + 1);
        (0..slots_of(self.addrs, node)).any(|j| slot_bad(u, values, o, j))
    }

    // The first such node, less one.
    pub fn first_bad_input(&self, w: u64, values: &[u64]) -> Option<usize>
        ensures { result ≡ found (nodes self.now.table.now) (input_bad self.now.table.now self.now.addrs.now w values.now) }
    {
        (0..self.table.len() / 6).find(|&i| self.input_bad(w, values, i))
    }
}
