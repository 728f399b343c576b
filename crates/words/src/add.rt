// The adder chain.
ghost use Rattle.std.specs.Prelude.{◌≡◌, ℕ, ◌+◌, ◌≤◌, ◌<◌, length};
ghost use Rattle.gates.specs.Made.{Fits, SameList};
ghost use Rattle.words.specs.Add.{chain_of, add_onto, chain_cost, add_cost, add_words};

use crate::each;
use gates::list::GateList;

// The first w bits of the right word added onto the sum, from a place on; answers the carry.
pub fn add_onto(
    list: &mut GateList,
    sum: &mut [u32],
    from: usize,
    right: &[u32],
    w: usize,
    carry: u32,
) -> u32
    requires fits { Fits list.old (chain_cost from sum.old right.now w) }
    requires w_in_bounds { (w ≤ length right.now) × (from + w ≤ length sum.old) }
    ensures same { SameList list.old list.new }
    ensures made { chain_of list.new result sum.new ≡ add_onto from right.now w (chain_of list.old carry sum.old) }
{
    let mut here = GateList {
        records: &mut *list.records,
        n: list.n,
    };
    let mut c = carry;
    for j in 0..w {
        let s = here.adder_bit(sum[from + j], right[j], c);
        sum[from + j] = s.sum;
        c = s.carry;
    }
    list.n = here.n;
    c
}

// The sum of two words of w bits, with a carry in; answers the carry.
pub fn add_words(
    list: &mut GateList,
    left: &[u32],
    right: &[u32],
    w: usize,
    carry: u32,
    out: &mut [u32],
) -> u32
    requires fits { Fits list.old (add_cost left.now right.now w) }
    requires w_in_bounds { (w ≤ length left.now) × (w ≤ length right.now) × (w ≤ length out.old) }
    ensures same { SameList list.old list.new }
    ensures made { chain_of list.new result out.new ≡ add_words w left.now right.now (chain_of list.old carry out.old) }
{
    each::put_bits(out, 0, left, w);
    add_onto(list, out, 0, right, w, carry)
}
