// A node's own step: its gates and bits, by its kind.
ghost use Rattle.std.specs.Prelude.{◌≡◌, false, length};
ghost use Rattle.gates.specs.Made.{net_of, SameList};
ghost use Rattle.table.specs.Kind as kinds;
ghost use Rattle.division.specs.Rows.{SameLists};
ghost use Rattle.nodes.specs.Laid.{source_of};
ghost use Rattle.nodes.specs.Own as own;
ghost use Rattle.nodes.specs.Own.{above_of, own_step};
ghost use Rattle.nodes.specs.Asked.{Stands, Makes, Turned, Owns, core_of};

use crate::place::Here;
use division::lists::Lists;
use gates::list::GateList;
use table::Node;
use table::field::is_given;
use table::kind::{BAD, ITE, READ, SEXT, STATE, WRITE, divides, extends};

// A kind that shares its operand's bits: an initialised state, a bad, an ext, a sext.
fn shares(node: Node) -> bool
    ensures { result ≡ own.shares node }
{
    (node.kind == STATE) | (node.kind == BAD) | extends(node.kind)
}

impl Here<'_> {
    // What stands above the shared bits: in a sext its operand's top bit, else known false.
    fn above_of(&self, map: &[u32]) -> u32
        requires { Stands (source_of self.now.laid) self.now.laid.offs.now (length map.now) self.now.k }
        ensures { result ≡ above_of (source_of self.now.laid) map.now self.now.k }
    {
        if self.node.kind != SEXT {
            return 0;
        }
        let shared = self.laid.place_of(self.node.a as usize);
        let end = shared.off + shared.wide;
        map[end - 1]
    }

    // Every kind but a division: no constraint is recorded.
    fn make(&self, list: &mut GateList, map: &mut [u32])
        requires { Makes (source_of self.now.laid) self.now.laid.offs.now list.old (length map.old) self.now.k × (kinds.divides self.now.node.kind ≡ false) }
        ensures same { SameList list.old list.new }
        ensures made { Turned (own_step (source_of self.now.laid) self.now.k) (net_of list.old) map.old (net_of list.new) map.new }
    {
        let node = self.node;
        if is_given(node) {
            self.input_node(list, map);
        } else if shares(node) {
            let above = self.above_of(map);
            self.share_node(map, above, node.a as usize);
        } else {
            match node.kind {
                ITE => self.ite_node(list, map),
                READ => self.read_node(list, map),
                WRITE => self.write_node(list, map),
                _ => self.word_node(list, map),
            }
        }
    }

    // The own step.
    pub fn own_step(&self, lists: &mut Lists, map: &mut [u32])
        requires { Owns (source_of self.now.laid) self.now.laid.offs.now self.now.k (core_of lists.old map.old) }
        ensures same { SameLists lists.old lists.new }
        ensures made { core_of lists.new map.new ≡ own_step (source_of self.now.laid) self.now.k (core_of lists.old map.old) }
    {
        if divides(self.node.kind) {
            self.divide_node(lists, map);
        } else {
            self.make(&mut lists.gates, map);
        }
    }
}
