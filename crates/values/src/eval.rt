ghost use Rattle.std.specs.Prelude.{◌≡◌, ◌+◌, ◌<◌, ◌≤◌, length};
ghost use Rattle.loops.specs.Loop.{iter};
ghost use Rattle.table.specs.Node.{nodes, Fine};
ghost use Rattle.values.specs.Eval as eval;
ghost use Rattle.values.specs.Eval.{total, node_step, run, eval_clear, eval_words};

use crate::Refusal;
use crate::layout::Layout;
use crate::slot::{Operands, place_at, slots_of};
use netlist::sheet::OnSheet;
use table::field::{is_given, node_at, width_at};
use table::{Node, Unit};

impl OnSheet for Refusal {
    ghost number_of = { eval.number_of };

    ghost place_of = { eval.place_of };

    fn number(self) -> u64 {
        match self {
            Refusal::Table(f) => f.number(),
            Refusal::ValueRoom => 12,
            Refusal::Input(_) => 13,
        }
    }

    // A node.
    fn place(self) -> usize {
        match self {
            Refusal::Table(f) => f.place(),
            Refusal::ValueRoom => 0,
            Refusal::Input(i) => i,
        }
    }
}

impl Layout<'_> {
    // Node i + 1, over the values of its operands.
    #[tactic(auto, using(crate::proofs::eval::Laws::node_rules))]
    fn eval_node(&self, i: usize, values: &mut [u64])
        requires { (i < nodes self.now.table.now) × (total self.now.table.now self.now.addrs.now ≤ length values.old) }
        ensures { values.new ≡ node_step self.now.table.now self.now.addrs.now i values.old }
    {
        let node = node_at(self.table, i + 1);
        if is_given(node) {
            return;
        }
        let b = self.offset(node.b as usize);
        let operands = Operands {
            node,
            v: width_at(self.table, node.a),
            a: self.offset(node.a as usize),
            b,
            c: self.offset(node.c as usize),
            p: place_at(self.addrs, node, values, b),
        };
        operands.fill(
            self.addrs,
            self.offset(i + 1),
            slots_of(self.addrs, node),
            values,
        );
    }

    // All nodes upwards.
    #[tactic(auto, using(loops::proofs::Loop::for_loop))]
    fn eval_all(&self, values: &mut [u64])
        requires { total self.now.table.now self.now.addrs.now ≤ length values.old }
        ensures { values.new ≡ iter (nodes self.now.table.now) (node_step self.now.table.now self.now.addrs.now) values.old }
    {
        for i in 0..self.table.len() / 6 {
            self.eval_node(i, values);
        }
    }
}

// A table without fault (table, addresses and width as C lends them). The offsets are worked out once, into a list that is lent for it.
#[tactic(auto, using(crate::proofs::eval::Laws::clear_rules))]
fn eval_clear(
    table: &[u64],
    addrs: &[u64],
    w: u64,
    offsets: &mut [usize],
    values: &mut [u64],
) -> Result<(), Refusal>
    requires fine { Fine table.now addrs.now }
    requires in_bounds { 514 ≤ length offsets.old }
    ensures { run result values.new ≡ eval_clear table.now addrs.now w values.old }
{
    let n = addrs.len() as u64;
    let room = table::size::offsets(Unit::Slot, table, n, 0, offsets);
    if values.len() < room {
        return Err(Refusal::ValueRoom);
    }
    let layout = Layout {
        table,
        addrs,
        offsets,
    };
    if let Some(i) = layout.first_bad_input(w, values) {
        return Err(Refusal::Input(i + 1));
    }
    layout.eval_all(values);
    Ok(())
}

// The values of all nodes: given slots are read, the others worked out.
#[tactic(auto, unfolding(crate::specs::Eval::eval_words))]
pub fn eval_words(table: &[u64], addrs: &[u64], w: u64, values: &mut [u64]) -> Result<(), Refusal>
    ensures { run result values.new ≡ eval_words table.now addrs.now w values.old }
{
    table::sheet::check_table(table, addrs, w)?;
    let mut offsets = [0usize; 514];
    eval_clear(table, addrs, w, &mut offsets, values)
}
