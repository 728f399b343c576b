// Quotient times divisor, row by row, constrained to lose nothing above the width.
ghost use Rattle.std.specs.Prelude.{◌≡◌, ◌+◌, ◌*◌, ◌-◌, ◌/◌, ◌≤◌, ◌<◌, length};
ghost use Rattle.gates.specs.Made.{net_of, Fits};
ghost use Rattle.words.specs.Num.{blank};
ghost use Rattle.words.specs.Mul.{mul_cost};
ghost use Rattle.division.specs.Constraint.{cons_in, ConFits};
ghost use Rattle.division.specs.Rows.{checked_of, row_step, div_rows, SameLists};

use crate::lists::Lists;
use words::each::Bitwise;
use words::{add, each};

// Row i: the kept bits, those that would stand above the width, the chain; then the constraints that nothing is lost.
#[tactic(auto, using(crate::proofs::Paths::steps), unfolding(crate::specs::Rows::row_step, words::specs::Num::filled))]
fn row_step(lists: &mut Lists, quot: &[u32], den: &[u32], w: usize, sum: &mut [u32], i: usize)
    requires fits { Fits lists.old.gates (4 * (w - i) + i) }
    requires cons_fit { ConFits lists.old.cons (i + 1) }
    requires i_lt_w { (i < w) × (w ≤ 65) × (w ≤ length quot.now) × (w ≤ length den.now) × (w ≤ length sum.old) }
    ensures same { SameLists lists.old lists.new }
    ensures made { checked_of lists.new sum.new ≡ row_step w quot.now den.now i (checked_of lists.old sum.old) }
{
    let mut kept = [0u32; 65];
    let mut lost = [0u32; 65];
    let from = w - i;
    let and_digit = Bitwise::AndWith(den[i]);
    let above = &quot[from..w];
    each::each_bit(&mut lists.gates, and_digit, quot, quot, from, &mut kept);
    each::each_bit(&mut lists.gates, and_digit, above, above, i, &mut lost);
    let carry = add::add_onto(&mut lists.gates, sum, i, &kept, from, 0);
    lists.cons.put_each(&lost, 0, i);
    lists.cons.put(carry, 0);
}

// All rows, onto a sum that is known false.
pub fn div_rows(lists: &mut Lists, quot: &[u32], den: &[u32], w: usize, sum: &mut [u32])
    requires fits { Fits lists.old.gates (mul_cost w + w * (w - 1) / 2) }
    requires cons_fit { ConFits lists.old.cons (w * (w - 1) / 2 + w) }
    requires w_bound { (w ≤ 64) × (w ≤ length quot.now) × (w ≤ length den.now) × (sum.old ≡ blank) }
    ensures same { SameLists lists.old lists.new }
    ensures made { checked_of lists.new sum.new ≡ div_rows w quot.now den.now (net_of lists.old.gates) (cons_in lists.old.cons) }
{
    for i in 0..w {
        row_step(lists, quot, den, w, sum, i);
    }
}
