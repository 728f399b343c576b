// An ite with an unknown condition: a choice at each bit.
ghost use Rattle.std.specs.Prelude.{◌≡◌, ◌+◌, ◌*◌, ◌≤◌, ◌<◌, length};
ghost use Rattle.loops.specs.Loop.{iter};
ghost use Rattle.gates.specs.Made.{net_of, Fits, SameList};
ghost use Rattle.words.specs.Each.{word_of};
ghost use Rattle.table.specs.Kind.{ITE};
ghost use Rattle.nodes.specs.Laid.{source_of};
ghost use Rattle.nodes.specs.Own.{ite_own};
ghost use Rattle.nodes.specs.Place.{placed, choices};
ghost use Rattle.nodes.specs.Asked.{Makes, Turned};

use crate::operand::{condition, second};
use crate::place::{Here, Place};
use gates::list::GateList;
use netlist::record::Gate;
use words::each;
use words::each::Bitwise;

// Word i of the words from `a` on or of those from `b` on, by the bit at place `cond`, to its place.
#[tactic(auto, using(crate::proofs::Paths::steps), unfolding(crate::specs::Place::placed, crate::specs::Place::choices, words::specs::Num::filled))]
fn choose_word(
    list: &mut GateList,
    cond: usize,
    a: usize,
    b: usize,
    to: Place,
    i: usize,
    map: &mut [u32],
)
    requires fits { Fits list.old (3 * to.wide) × (to.wide ≤ 64) × (cond < length map.old) }
    requires w_in_bounds { (a + (i * to.wide + to.wide) ≤ length map.old) × (b + (i * to.wide + to.wide) ≤ length map.old) × (to.off + (i * to.wide + to.wide) ≤ length map.old) }
    ensures same { SameList list.old list.new }
    ensures made { word_of list.new map.new ≡ placed to.off to.wide (choices cond a b to.wide) i (word_of list.old map.old) }
{
    let w = to.wide;
    let left = a + i * w;
    let right = b + i * w;
    let mut word = [0u32; 65];
    each::each_bit(
        list,
        Bitwise::Choose(map[cond]),
        &map[left..left + w],
        &map[right..right + w],
        w,
        &mut word,
    );
    each::put_bits(map, to.off + i * w, &word, w);
}

// All words.
#[tactic(auto, using(crate::proofs::Paths::steps))]
pub fn choose_words(
    list: &mut GateList,
    cond: usize,
    a: usize,
    b: usize,
    to: Place,
    map: &mut [u32],
)
    requires fits { Fits list.old (3 * (to.words * to.wide)) × (to.wide ≤ 64) × (cond < length map.old) }
    requires w_in_bounds { (a + to.words * to.wide ≤ length map.old) × (b + to.words * to.wide ≤ length map.old) × (to.off + to.words * to.wide ≤ length map.old) }
    ensures same { SameList list.old list.new }
    ensures made { word_of list.new map.new ≡ iter to.words (placed to.off to.wide (choices cond a b to.wide)) (word_of list.old map.old) }
{
    for i in 0..to.words {
        choose_word(list, cond, a, b, to, i, map);
    }
}

impl Here<'_> {
    // The own step of an ite. With a known condition it shares the chosen side.
    pub fn ite_node(&self, list: &mut GateList, map: &mut [u32])
        requires { Makes (source_of self.now.laid) self.now.laid.offs.now list.old (length map.old) self.now.k × (self.now.node.kind ≡ ITE) }
        ensures same { SameList list.old list.new }
        ensures made { Turned (ite_own (source_of self.now.laid) self.now.k) (net_of list.old) map.old (net_of list.new) map.new }
    {
        let offs = self.laid.offs;
        let node = self.node;
        let cond = condition(offs, map, node);
        if Gate::is_known(cond) {
            self.share_node(map, 0, second(node, cond));
            return;
        }
        let bit = offs[node.a as usize];
        let left = offs[node.b as usize];
        let right = offs[node.c as usize];
        let place = self.laid.place_of(self.k);
        choose_words(list, bit, left, right, place, map);
    }
}
