// The constraints that quotient times divisor and the remainder are the dividend, and that the remainder is below the divisor.
ghost use Rattle.std.specs.Prelude.{◌≡◌, ◌+◌, ◌-◌, ◌≤◌, length};
ghost use Rattle.gates.specs.Made.{Fits};
ghost use Rattle.words.specs.Num.{blank};
ghost use Rattle.division.specs.Constraint.{ConFits};
ghost use Rattle.division.specs.Rows.{checked_of, SameLists};
ghost use Rattle.division.specs.Check.{book_of, sum_words, sum_cost, sum_count, check_words, check_cost, con_count};

use crate::lists::Lists;
use crate::rows;
use words::each::Bitwise;
use words::{add, each, sub};

// Quotient times divisor, and the remainder added, onto a sum that is known false; nothing of it is lost.
#[tactic(auto, using(crate::proofs::Paths::steps), unfolding(crate::specs::Check::sum_words))]
fn sum_words(lists: &mut Lists, quot: &[u32], rem: &[u32], den: &[u32], w: usize, sum: &mut [u32])
    requires fits { Fits lists.old.gates (sum_cost w) }
    requires cons_fit { ConFits lists.old.cons (sum_count w) }
    requires w_bound { (w ≤ 64) × (w ≤ length quot.now) × (w ≤ length rem.now) × (w ≤ length den.now) × (sum.old ≡ blank) }
    ensures same { SameLists lists.old lists.new }
    ensures made { checked_of lists.new sum.new ≡ sum_words w quot.now rem.now den.now (book_of lists.old) }
{
    rows::div_rows(lists, quot, den, w, sum);
    let carry = add::add_onto(&mut lists.gates, sum, 0, rem, w, 0);
    lists.cons.put(carry, 0);
}

// All constraints, over any four words of w bits.
#[tactic(auto, using(crate::proofs::Paths::steps), unfolding(crate::specs::Check::check_words, words::specs::Num::filled))]
pub fn check_words(lists: &mut Lists, quot: &[u32], rem: &[u32], num: &[u32], den: &[u32], w: usize)
    requires fits { Fits lists.old.gates (check_cost w) }
    requires cons_fit { ConFits lists.old.cons (con_count w) }
    requires w_bound { (w ≤ 64) × (w ≤ length quot.now) × (w ≤ length rem.now) × (w ≤ length num.now) × (w ≤ length den.now) }
    ensures same { SameLists lists.old lists.new }
    ensures made { book_of lists.new ≡ check_words w quot.now rem.now num.now den.now (book_of lists.old) }
{
    let mut sum = [0u32; 65];
    let mut same = [0u32; 65];
    sum_words(lists, quot, rem, den, w, &mut sum);
    each::each_bit(&mut lists.gates, Bitwise::Xnor, num, &sum, w, &mut same);
    lists.cons.put_each(&same, 1, w);
    let below = sub::ult_words(&mut lists.gates, rem, den, w);
    lists.cons.put(below, 1);
}
