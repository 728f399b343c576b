// An initialised state, a bad, an ext, a sext, an ite with a known condition: the operand's bits are shared.
ghost use Rattle.std.specs.Prelude.{◌≡◌, ◌+◌, ◌*◌, ◌≤◌, ◌<◌, length};
ghost use Rattle.loops.specs.Loop.{iter};
ghost use Rattle.nodes.specs.Source.{words_of};
ghost use Rattle.nodes.specs.Laid.{source_of};
ghost use Rattle.nodes.specs.Own.{share_word, each_word};
ghost use Rattle.nodes.specs.Place.{share_at};
ghost use Rattle.nodes.specs.Asked.{Stands, Mapped};

use crate::place::{Here, Place};
use words::each;

// Word i. It goes through a scratch word, in which copies of one bit stand above it.
#[tactic(auto, using(crate::proofs::Paths::steps), unfolding(crate::specs::Place::share_at, words::specs::Num::filled))]
fn share_word(above: u32, from: usize, v: usize, to: usize, w: usize, i: usize, map: &mut [u32])
    requires { (v ≤ 64) × (w ≤ 64) × (from + (i * v + v) ≤ length map.old) × (to + (i * w + w) ≤ length map.old) }
    ensures { map.new ≡ share_at above from v to w i map.old }
{
    let start = from + i * v;
    let mut word = [above; 65];
    each::put_bits(&mut word, 0, &map[start..start + v], v);
    each::put_bits(map, to + i * w, &word, w);
}

// All words: those from `from` on are v wide.
#[tactic(auto, using(crate::proofs::Paths::steps))]
pub fn share_words(above: u32, from: usize, v: usize, to: Place, map: &mut [u32])
    requires { (v ≤ 64) × (to.wide ≤ 64) × (from + to.words * v ≤ length map.old) × (to.off + to.words * to.wide ≤ length map.old) }
    ensures { map.new ≡ iter to.words (share_at above from v to.off to.wide) map.old }
{
    for i in 0..to.words {
        share_word(above, from, v, to.off, to.wide, i, map);
    }
}

impl Here<'_> {
    // The own step of a node that shares the bits of node x, which has as many words; copies of the bit `above` stand above them.
    pub fn share_node(&self, map: &mut [u32], above: u32, x: usize)
        requires stands { Stands (source_of self.now.laid) self.now.laid.offs.now (length map.old) self.now.k }
        requires le_x { (1 ≤ x) × (x < self.now.k) × (words_of (source_of self.now.laid) self.now.k ≡ words_of (source_of self.now.laid) x) }
        ensures { Mapped (each_word (source_of self.now.laid) self.now.k (share_word (source_of self.now.laid) above x)) map.old map.new }
    {
        let place = self.laid.place_of(self.k);
        let shared = self.laid.place_of(x);
        share_words(above, shared.off, shared.wide, place, map);
    }
}
