ghost use Rattle.std.specs.Prelude.{◌≡◌, ◌<◌};
ghost use Rattle.table.specs.Node.{field_at, node_at, given};

use crate::Node;
use crate::kind::{INPUT, STATE};

// Field k of node i, of any table: 0 where there is none, and no Option, here and below, since the definitions are total.
#[tactic(auto, unfolding(crate::specs::Node::field_at, loops::specs::Loop::pick))]
fn field(table: &[u64], i: usize, k: usize) -> u64
    requires { k < 6 }
    ensures { result ≡ field_at table.now i k }
{
    // The second test is for the product, which else could wrap.
    if (i == 0) | (table.len() < i) {
        return 0;
    }
    table.get(6 * (i - 1) + k).copied().unwrap_or(0)
}

pub fn node_at(table: &[u64], i: usize) -> Node
    ensures { result ≡ node_at table.now i }
{
    Node {
        kind: field(table, i, 0),
        width: field(table, i, 1),
        a: field(table, i, 2),
        b: field(table, i, 3),
        c: field(table, i, 4),
        imm: field(table, i, 5),
    }
}

// The width of node i; 0 where there is none.
pub fn width_at(table: &[u64], i: u64) -> u64
    ensures { result ≡ field_at table.now i 1 }
{
    field(table, i as usize, 1)
}

// An input or an uninitialised state: its value comes from outside.
pub fn is_given(node: Node) -> bool
    ensures { result ≡ given node }
{
    (node.kind == INPUT) | ((node.kind == STATE) & (node.a == 0))
}
