// The product, row by row.
ghost use Rattle.std.specs.Prelude.{◌≡◌, ℕ, ◌+◌, ◌*◌, ◌-◌, ◌≤◌, ◌<◌, length};
ghost use Rattle.gates.specs.Made.{Fits, SameList};
ghost use Rattle.words.specs.Each.{word_of};
ghost use Rattle.words.specs.Mul.{mul_step, mul_words, mul_cost};

use crate::each::Bitwise;
use crate::{add, each};
use gates::list::GateList;

// The row of digit i, and the chain that adds it. Both leave out what would stand above the width.
fn mul_step(list: &mut GateList, left: &[u32], right: &[u32], w: usize, sum: &mut [u32], i: usize)
    requires fits { Fits list.old (4 * (w - i)) }
    requires i_lt_w { (i < w) × (w ≤ 65) × (w ≤ length left.now) × (w ≤ length right.now) × (w ≤ length sum.old) }
    ensures same { SameList list.old list.new }
    ensures made { word_of list.new sum.new ≡ mul_step w left.now right.now i (word_of list.old sum.old) }
{
    let mut row = [0u32; 65];
    let kept = w - i;
    each::each_bit(list, Bitwise::AndWith(right[i]), left, left, kept, &mut row);
    add::add_onto(list, sum, i, &row, kept, 0);
}

// The product of two words of w bits, modulo 2 to the w.
pub fn mul_words(list: &mut GateList, left: &[u32], right: &[u32], w: usize, out: &mut [u32])
    requires fits { Fits list.old (mul_cost w) }
    requires w_bound { (w ≤ 64) × (w ≤ length left.now) × (w ≤ length right.now) × (w ≤ length out.old) }
    ensures same { SameList list.old list.new }
    ensures made { word_of list.new out.new ≡ mul_words w left.now right.now (word_of list.old out.old) }
{
    digits::put_digits(0, w, out);
    for i in 0..w {
        mul_step(list, left, right, w, out, i);
    }
}
