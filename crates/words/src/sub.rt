// Subtraction, and unsigned less-than, which is its top bit.
ghost use Rattle.std.specs.Prelude.{◌≡◌, ℕ, ◌+◌, ◌*◌, ◌≤◌, length};
ghost use Rattle.gates.specs.Made.{net_of, made_of, Fits, SameList};
ghost use Rattle.words.specs.Add.{chain_of};
ghost use Rattle.words.specs.Sub.{sub_cost, sub_words, ult_words};

use crate::each::Bitwise;
use crate::{add, each};
use gates::list::GateList;

// Nots of the right bits first, then an adder chain with carry known true; answers the carry.
pub fn sub_words(list: &mut GateList, left: &[u32], right: &[u32], w: usize, out: &mut [u32]) -> u32
    requires fits { Fits list.old (sub_cost left.now right.now w) }
    requires w_bound { (w ≤ 65) × (w ≤ length left.now) × (w ≤ length right.now) × (w ≤ length out.old) }
    ensures same { SameList list.old list.new }
    ensures made { chain_of list.new result out.new ≡ sub_words w left.now right.now (net_of list.old) out.old }
{
    let mut nots = [0u32; 65];
    each::each_bit(list, Bitwise::Not, right, right, w, &mut nots);
    add::add_words(list, left, &nots, w, 1, out)
}

// Both sides widened by a known false, the difference, its top bit.
pub fn ult_words(list: &mut GateList, left: &[u32], right: &[u32], w: usize) -> u32
    requires fits { Fits list.old (4 * w + 1) }
    requires w_bound { (w ≤ 64) × (w ≤ length left.now) × (w ≤ length right.now) }
    ensures same { SameList list.old list.new }
    ensures made { made_of list.new result ≡ ult_words w left.now right.now (net_of list.old) }
{
    let mut wide_left = [0u32; 65];
    let mut wide_right = [0u32; 65];
    let mut difference = [0u32; 65];
    each::put_bits(&mut wide_left, 0, left, w);
    each::put_bits(&mut wide_right, 0, right, w);
    sub_words(list, &wide_left, &wide_right, w + 1, &mut difference);
    difference[w]
}
