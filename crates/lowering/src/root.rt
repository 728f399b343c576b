// The lowering from the bad nodes, in table order.
ghost use Rattle.std.specs.Prelude.{◌≡◌, ◌≤◌};
ghost use Rattle.table.specs.Node.{nodes};
ghost use Rattle.visits.specs.Flow.{root_step, lower_to};
ghost use Rattle.gates.specs.Made.{SameList};
ghost use Rattle.division.specs.Constraint.{SameCons};
ghost use Rattle.division.specs.Rows.{SameLists};
ghost use Rattle.nodes.specs.Laid.{source_of};
ghost use Rattle.nodes.specs.Recipe.{recipe};
ghost use Rattle.lowering.specs.Lower.{start, made_low};
ghost use Rattle.lowering.specs.Visit.{Goes, Begins, lists_of, low_of};

use crate::lower::Done;
use crate::visit::visit;
use division::constraint::ConstraintList;
use division::lists::Lists;
use gates::list::GateList;
use netlist::record::Gate;
use nodes::place::Laid;
use std::mem;
use table::field::node_at;
use table::kind::BAD;

// What the places of a node that is not reached hold: a number of the map, which C reads.
const UNREACHED: u32 = u32::MAX;

// Node k, if it is bad.
fn root_step(laid: &Laid, lists: &mut Lists, map: &mut [u32], seen: &mut [u8], k: usize)
    requires { Goes (source_of laid.now) laid.now.offs.now 0 0 (low_of lists.old map.old seen.old) × (k ≤ nodes laid.now.table.now) }
    ensures same { SameLists lists.old lists.new }
    ensures made { low_of lists.new map.new seen.new ≡ root_step (recipe (source_of laid.now)) k (low_of lists.old map.old seen.old) }
{
    let node = node_at(laid.table, k);
    if node.kind != BAD {
        return;
    }
    visit(laid, lists, map, seen, k);
}

// All of them; there is a mark for each node, and one for none.
fn roots(laid: &Laid, lists: &mut Lists, map: &mut [u32], seen: &mut [u8])
    requires { Goes (source_of laid.now) laid.now.offs.now 0 0 (low_of lists.old map.old seen.old) }
    ensures same { SameLists lists.old lists.new }
    ensures made { low_of lists.new map.new seen.new ≡ lower_to (recipe (source_of laid.now)) (low_of lists.old map.old seen.old) }
{
    for k in 0..seen.len() {
        root_step(laid, lists, map, seen, k);
    }
}

// The same of two lists that are lent apart: they are moved into one and back. (With `Lists` made by lower_roots itself the proof of what its
// two buffers hold in the end does not close: tried.)
fn roots_of(
    laid: &Laid,
    gates: &mut GateList,
    cons: &mut ConstraintList,
    map: &mut [u32],
    seen: &mut [u8],
)
    requires { Goes (source_of laid.now) laid.now.offs.now 0 0 (low_of (lists_of gates.old cons.old) map.old seen.old) }
    ensures same_gates { SameList gates.old gates.new }
    ensures same_cons { SameCons cons.old cons.new }
    ensures made { low_of (lists_of gates.new cons.new) map.new seen.new ≡ lower_to (recipe (source_of laid.now)) (low_of (lists_of gates.old cons.old) map.old seen.old) }
{
    let no_gates = GateList {
        records: &mut [],
        n: 0,
    };
    let no_cons = ConstraintList {
        pairs: &mut [],
        m: 0,
    };
    let mut lists = Lists {
        gates: mem::replace(gates, no_gates),
        cons: mem::replace(cons, no_cons),
    };
    roots(laid, &mut lists, map, seen);
    let Lists { gates: g, cons: k } = lists;
    *gates = g;
    *cons = k;
}

// From the two constants on: no constraint, no bits, nothing seen.
pub fn lower_roots(
    laid: &Laid,
    gates: &mut [u32],
    cons: &mut [u32],
    map: &mut [u32],
    seen: &mut [u8],
) -> Done
    requires { Begins (source_of laid.now) laid.now.offs.now gates.old cons.old map.old seen.old }
    ensures { made_low result gates.new cons.new map.new seen.new ≡ lower_to (recipe (source_of laid.now)) (start (source_of laid.now) gates.old cons.old) }
{
    let mut list = GateList {
        records: gates,
        n: 0,
    };
    let mut held = ConstraintList { pairs: cons, m: 0 };
    list.append(Gate::CONST_FALSE, 0, 0, 0);
    list.append(Gate::CONST_TRUE, 0, 0, 0);
    map.fill(UNREACHED);
    seen.fill(0);
    roots_of(laid, &mut list, &mut held, map, seen);
    Done {
        gates: list.n,
        constraints: held.m,
    }
}
