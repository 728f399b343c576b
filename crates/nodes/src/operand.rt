// Which operands are visited: of an ite with a known condition, only the chosen side.
ghost use Rattle.std.specs.Prelude.{◌≡◌, ◌&&◌, ◌<◌, eqb, length, get_or};
ghost use Rattle.loops.specs.Loop.{pick};
ghost use Rattle.table.specs.Kind as kinds;
ghost use Rattle.netlist.specs.Bit.{is_known};

use netlist::record::Gate;
use table::Node;
use table::kind::ITE;

// The bit of an ite's condition; 0 for another kind, as the clause has it. (Below, 0 is the table's own number for no operand.)
#[tactic(auto, unfolding(loops::specs::Loop::pick))]
pub fn condition(offs: &[usize], map: &[u32], node: Node) -> u32
    requires { node.kind ≡ kinds.ITE → (node.a < length offs.now) × (get_or offs.now node.a 0 < length map.now) }
    ensures { result ≡ pick (eqb node.kind kinds.ITE) (get_or map.now (get_or offs.now node.a 0) 0) 0 }
{
    if node.kind != ITE {
        return 0;
    }
    let off = offs[node.a as usize];
    map[off]
}

// What is visited after the first operand.
#[tactic(auto, unfolding(loops::specs::Loop::pick))]
pub fn second(node: Node, cond: u32) -> usize
    ensures { result ≡ pick (eqb node.kind kinds.ITE && eqb cond 0) node.c node.b }
{
    if (node.kind == ITE) & (cond == 0) {
        return node.c as usize;
    }
    node.b as usize
}

// What is visited after that.
#[tactic(auto, unfolding(loops::specs::Loop::pick))]
pub fn third(node: Node, cond: u32) -> usize
    ensures { result ≡ pick (eqb node.kind kinds.ITE && is_known cond) 0 node.c }
{
    if (node.kind == ITE) & Gate::is_known(cond) {
        return 0;
    }
    node.c as usize
}
