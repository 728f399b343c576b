// The visits: a node after what it leans on. Marks are bytes and not bool: `lower_marked` promises for any bytes that are lent.
ghost use Rattle.std.specs.Prelude.{◌≤◌};
ghost use Rattle.table.specs.Node.{nodes};
ghost use Rattle.visits.specs.Claims.{Is};
ghost use Rattle.division.specs.Rows.{SameLists};
ghost use Rattle.nodes.specs.Source.{gates_of, asks_of};
ghost use Rattle.nodes.specs.Laid.{source_of};
ghost use Rattle.nodes.specs.Recipe.{recipe};
ghost use Rattle.lowering.specs.Visit.{Goes, Visits, Enters, low_of};

use division::lists::Lists;
use nodes::operand::{condition, second, third};
use nodes::place::{Here, Laid};
use table::field::node_at;

// Node k and what it leans on, unless it is none or was seen.
#[cycle(process_visit)]
pub fn visit(laid: &Laid, lists: &mut Lists, map: &mut [u32], seen: &mut [u8], k: usize)
    requires { Goes (source_of laid.now) laid.now.offs.now 0 0 (low_of lists.old map.old seen.old) × (k ≤ nodes laid.now.table.now) }
    ensures same { SameLists lists.old lists.new }
    ensures made { Visits (source_of laid.now) k (low_of lists.old map.old seen.old) (low_of lists.new map.new seen.new) }
{
    if k == 0 || seen[k] == 1 {
        return;
    }
    seen[k] = 1;
    process(laid, lists, map, seen, k);
}

// Node k, which is marked: first its operands, then its own gates.
#[cycle(process_visit)]
fn process(laid: &Laid, lists: &mut Lists, map: &mut [u32], seen: &mut [u8], k: usize)
    requires { Goes (source_of laid.now) laid.now.offs.now (gates_of (source_of laid.now) k) (asks_of (source_of laid.now) k) (low_of lists.old map.old seen.old) × Is (recipe (source_of laid.now)) k }
    ensures same { SameLists lists.old lists.new }
    ensures made { Enters (source_of laid.now) k (low_of lists.old map.old seen.old) (low_of lists.new map.new seen.new) }
{
    let node = node_at(laid.table, k);
    visit(laid, lists, map, seen, node.a as usize);
    let cond1 = condition(laid.offs, map, node);
    visit(laid, lists, map, seen, second(node, cond1));
    let cond2 = condition(laid.offs, map, node);
    visit(laid, lists, map, seen, third(node, cond2));
    let here = Here {
        laid: *laid,
        k,
        node,
    };
    here.own_step(lists, map);
}
