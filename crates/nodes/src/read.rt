// A read: the word that a memory has at an address.
ghost use Rattle.std.specs.Prelude.{◌≡◌, ◌+◌, ◌*◌, ◌-◌, ◌≤◌, length};
ghost use Rattle.gates.specs.Made.{net_of, Fits, SameList};
ghost use Rattle.words.specs.Each.{word_of};
ghost use Rattle.table.specs.Kind.{READ};
ghost use Rattle.nodes.specs.Laid.{source_of};
ghost use Rattle.nodes.specs.Own.{read_word, each_word};
ghost use Rattle.nodes.specs.Place.{placed, reading};
ghost use Rattle.nodes.specs.Asked.{Makes, Turned};

use crate::place::Here;
use gates::list::GateList;
use memory::read;
use words::each;

// The memory's bits stand in the map from `mem` on, the address's from `adr` on; the word goes to the places from `to` on.
// (A place of one word, here and in plain.rt, is an offset and a width: `Place` is of many.)
#[tactic(auto, unfolding(crate::specs::Place::placed, crate::specs::Place::reading, words::specs::Num::filled))]
pub fn read_at(
    list: &mut GateList,
    addrs: &[u64],
    mem: usize,
    adr: usize,
    to: usize,
    w: usize,
    map: &mut [u32],
)
    requires fits { Fits list.old (length addrs.now * (4 * w - 1)) }
    requires le_w { (1 ≤ w) × (w ≤ 64) × (mem + length addrs.now * w ≤ length map.old) × (adr + w ≤ length map.old) × (to + w ≤ length map.old) }
    ensures same { SameList list.old list.new }
    ensures made { word_of list.new map.new ≡ placed to w (reading addrs.now mem adr w) 0 (word_of list.old map.old) }
{
    let end = mem + addrs.len() * w;
    let mut word = [0u32; 65];
    read::read_words(
        list,
        addrs,
        &map[mem..end],
        &map[adr..adr + w],
        w,
        &mut word,
    );
    each::put_bits(map, to, &word, w);
}

impl Here<'_> {
    // The own step of a read.
    #[tactic(auto, using(crate::proofs::MemoryFacts::read_steps))]
    pub fn read_node(&self, list: &mut GateList, map: &mut [u32])
        requires { Makes (source_of self.now.laid) self.now.laid.offs.now list.old (length map.old) self.now.k × (self.now.node.kind ≡ READ) }
        ensures same { SameList list.old list.new }
        ensures made { Turned (each_word (source_of self.now.laid) self.now.k (read_word (source_of self.now.laid) self.now.k)) (net_of list.old) map.old (net_of list.new) map.new }
    {
        let offs = self.laid.offs;
        let mem = offs[self.node.a as usize];
        let adr = offs[self.node.b as usize];
        let place = self.laid.place_of(self.k);
        read_at(list, self.laid.addrs, mem, adr, place.off, place.wide, map);
    }
}
