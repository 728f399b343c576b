// A divisor that may be zero.
ghost use Rattle.std.specs.Prelude.{◌≡◌, ◌*◌, ◌-◌, ◌≤◌, length};
ghost use Rattle.gates.specs.Made.{net_of, made_of, Fits, SameList};
ghost use Rattle.words.specs.Num.{blank};
ghost use Rattle.words.specs.Each.{word_of, put_bits};
ghost use Rattle.division.specs.Zero.{zero_bit, raised, zero_word, chosen};

use crate::divide::Division;
use gates::list::GateList;
use words::each::Bitwise;
use words::{each, eq};

// Whether a word of w bits is zero. Zero's bits are known, so an Xnor costs one gate at most.
#[tactic(auto, using(crate::proofs::Paths::steps), unfolding(crate::specs::Zero::zero_bit, words::specs::Num::filled))]
pub fn zero_bit(list: &mut GateList, den: &[u32], w: usize) -> u32
    requires fits { Fits list.old (2 * w - 1) }
    requires le_w { (1 ≤ w) × (w ≤ 64) × (w ≤ length den.now) }
    ensures same { SameList list.old list.new }
    ensures made { made_of list.new result ≡ zero_bit w den.now (net_of list.old) }
{
    let zero = [0u32; 65];
    eq::eq_words(list, den, &zero, w)
}

// The divisor with its lowest bit Ored with z.
#[tactic(auto, using(crate::proofs::Paths::steps), unfolding(crate::specs::Zero::raised))]
pub fn raise(list: &mut GateList, den: &[u32], z: u32, w: usize, out: &mut [u32])
    requires fits { Fits list.old 1 }
    requires le_w { (1 ≤ w) × (w ≤ 64) × (w ≤ length den.now) × (out.old ≡ blank) }
    ensures same { SameList list.old list.new }
    ensures made { word_of list.new out.new ≡ raised w den.now z (net_of list.old) }
{
    each::put_bits(out, 0, den, w);
    out[0] = list.or_bit(den[0], z);
}

impl Division<'_> {
    // What a division by zero answers: all ones, or the dividend.
    #[tactic(auto, using(crate::proofs::Paths::steps, words::proofs::EachLaws::fill_path), unfolding(loops::specs::Loop::pick))]
    pub fn put_zero(&self, out: &mut [u32])
        requires { (self.now.w ≤ 64) × (self.now.w ≤ length self.now.num.now) × (self.now.w ≤ length out.old) }
        ensures { out.new ≡ put_bits 0 (zero_word self.now.quotient self.now.num.now) self.now.w out.old }
    {
        if self.quotient {
            out[..self.w].fill(1);
        } else {
            each::put_bits(out, 0, self.num, self.w);
        }
    }

    // The choice by z between that and the quotient, or the remainder.
    #[tactic(auto, using(crate::proofs::Paths::steps), unfolding(loops::specs::Loop::pick, words::specs::Num::filled))]
    pub fn choose(&self, list: &mut GateList, z: u32, quot: &[u32], rem: &[u32], out: &mut [u32])
        requires fits { Fits list.old (3 * self.now.w) }
        requires w_bound { (self.now.w ≤ 64) × (self.now.w ≤ length self.now.num.now) × (self.now.w ≤ length quot.now) × (self.now.w ≤ length rem.now) × (self.now.w ≤ length out.old) }
        ensures same { SameList list.old list.new }
        ensures made { word_of list.new out.new ≡ chosen self.now.quotient self.now.w z self.now.num.now quot.now rem.now (word_of list.old out.old) }
    {
        let choice = Bitwise::Choose(z);
        if self.quotient {
            let ones = [1u32; 65];
            each::each_bit(list, choice, &ones, quot, self.w, out);
        } else {
            each::each_bit(list, choice, self.num, rem, self.w, out);
        }
    }
}
