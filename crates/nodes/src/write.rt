// A write: a memory with a word written at an address.
ghost use Rattle.std.specs.Prelude.{◌≡◌, ◌+◌, ◌*◌, ◌-◌, ◌≤◌, length};
ghost use Rattle.gates.specs.Made.{net_of, Fits, SameList};
ghost use Rattle.words.specs.Each.{word_of};
ghost use Rattle.table.specs.Kind.{WRITE};
ghost use Rattle.nodes.specs.Laid.{source_of};
ghost use Rattle.nodes.specs.Own.{write_own};
ghost use Rattle.nodes.specs.Place.{write_at};
ghost use Rattle.nodes.specs.Asked.{Makes, Turned};

use crate::place::{Here, Place};
use crate::share::share_words;
use gates::list::GateList;
use memory::write;
use words::each;

// The bits of the old memory stand in the map from `old` on, those of the address and of the value from `adr` and from `val` on; the new memory
// goes to its place. Address and value are copied, since the memory is a part of the map that is lent to be written.
#[tactic(auto, unfolding(crate::specs::Place::write_at, words::specs::Num::filled))]
pub fn write_at(
    list: &mut GateList,
    addrs: &[u64],
    old: usize,
    adr: usize,
    val: usize,
    to: Place,
    map: &mut [u32],
)
    requires fits { Fits list.old (length addrs.now * (5 * to.wide - 1)) }
    requires le_w { (1 ≤ to.wide) × (to.wide ≤ 64) }
    requires words_in { (adr + to.wide ≤ length map.old) × (val + to.wide ≤ length map.old) }
    requires memories_in { (old + length addrs.now * to.wide ≤ length map.old) × (to.off + length addrs.now * to.wide ≤ length map.old) }
    ensures same { SameList list.old list.new }
    ensures made { word_of list.new map.new ≡ write_at addrs.now old adr val to.off to.wide (word_of list.old map.old) }
{
    let w = to.wide;
    let words = addrs.len();
    let end = to.off + words * w;
    let mut address = [0u32; 65];
    each::put_bits(&mut address, 0, &map[adr..adr + w], w);
    let mut value = [0u32; 65];
    each::put_bits(&mut value, 0, &map[val..val + w], w);
    share_words(0, old, w, Place { words, ..to }, map);
    write::write_words(
        list,
        addrs,
        &address[..w],
        &value[..w],
        w,
        &mut map[to.off..end],
    );
}

impl Here<'_> {
    // The own step of a write.
    #[tactic(auto, using(crate::proofs::MemoryFacts::write_steps))]
    pub fn write_node(&self, list: &mut GateList, map: &mut [u32])
        requires { Makes (source_of self.now.laid) self.now.laid.offs.now list.old (length map.old) self.now.k × (self.now.node.kind ≡ WRITE) }
        ensures same { SameList list.old list.new }
        ensures made { Turned (write_own (source_of self.now.laid) self.now.k) (net_of list.old) map.old (net_of list.new) map.new }
    {
        let offs = self.laid.offs;
        let old = offs[self.node.a as usize];
        let adr = offs[self.node.b as usize];
        let val = offs[self.node.c as usize];
        let place = self.laid.place_of(self.k);
        write_at(list, self.laid.addrs, old, adr, val, place, map);
    }
}
