// An input or an uninitialised state: one InputBit a bit.
ghost use Rattle.std.specs.Prelude.{◌≡◌, true, ◌+◌, ◌*◌, ◌≤◌, ◌<◌, length};
ghost use Rattle.loops.specs.Loop.{iter};
ghost use Rattle.gates.specs.Made.{net_of, Fits, SameList};
ghost use Rattle.words.specs.Each.{word_of};
ghost use Rattle.table.specs.Node.{given};
ghost use Rattle.nodes.specs.Laid.{source_of};
ghost use Rattle.nodes.specs.Own.{input_step, input_word, each_word};
ghost use Rattle.nodes.specs.Asked.{Makes, Turned};
ghost use Rattle.nodes.specs.Place.{placed, inputs};

use crate::place::{Here, Place};
use gates::list::GateList;
use netlist::record::Gate;
use words::each;

// One word, whose bits have the numbers from `from` on.
#[tactic(auto, using(crate::proofs::Paths::steps), unfolding(crate::specs::Own::input_step))]
fn input_bits(list: &mut GateList, node: usize, from: usize, w: usize, out: &mut [u32])
    requires { Fits list.old w × (w ≤ length out.old) × (node < 4294967296) × (from + w < 4294967296) }
    ensures same { SameList list.old list.new }
    ensures made { word_of list.new out.new ≡ iter w (input_step node from) (word_of list.old out.old) }
{
    for j in 0..w {
        out[j] = list.append(Gate::INPUT_BIT, node as u32, (from + j) as u32, 0);
    }
}

// Word i of the node, to its place in the map.
#[tactic(auto, using(crate::proofs::Paths::steps), unfolding(crate::specs::Place::placed, crate::specs::Place::inputs, words::specs::Num::filled))]
fn input_word(list: &mut GateList, node: usize, to: usize, w: usize, i: usize, map: &mut [u32])
    requires { Fits list.old w × (w ≤ 64) × (node < 4294967296) × (i * w + w < 4294967296) × (to + (i * w + w) ≤ length map.old) }
    ensures same { SameList list.old list.new }
    ensures made { word_of list.new map.new ≡ placed to w (inputs node w) i (word_of list.old map.old) }
{
    let from = i * w;
    let mut word = [0u32; 65];
    input_bits(list, node, from, w, &mut word);
    each::put_bits(map, to + from, &word, w);
}

// All words of the node.
#[tactic(auto, using(crate::proofs::Paths::steps))]
pub fn input_words(list: &mut GateList, node: usize, to: Place, map: &mut [u32])
    requires { Fits list.old (to.words * to.wide) × (to.wide ≤ 64) × (node < 4294967296) × (to.words * to.wide < 4294967296) × (to.off + to.words * to.wide ≤ length map.old) }
    ensures same { SameList list.old list.new }
    ensures made { word_of list.new map.new ≡ iter to.words (placed to.off to.wide (inputs node to.wide)) (word_of list.old map.old) }
{
    for i in 0..to.words {
        input_word(list, node, to.off, to.wide, i, map);
    }
}

impl Here<'_> {
    // The own step of an input or an uninitialised state.
    pub fn input_node(&self, list: &mut GateList, map: &mut [u32])
        requires { Makes (source_of self.now.laid) self.now.laid.offs.now list.old (length map.old) self.now.k × (given self.now.node ≡ true) }
        ensures same { SameList list.old list.new }
        ensures made { Turned (each_word (source_of self.now.laid) self.now.k (input_word (source_of self.now.laid) self.now.k)) (net_of list.old) map.old (net_of list.new) map.new }
    {
        let place = self.laid.place_of(self.k);
        input_words(list, self.k, place, map);
    }
}
