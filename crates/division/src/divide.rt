// Divu and rem.
ghost use Rattle.std.specs.Prelude.{◌≡◌, ◌+◌, ◌≤◌, length};
ghost use Rattle.gates.specs.Made.{Fits};
ghost use Rattle.words.specs.Num.{blank};
ghost use Rattle.division.specs.Constraint.{ConFits};
ghost use Rattle.division.specs.Rows.{checked_of, SameLists};
ghost use Rattle.division.specs.Check.{book_of, con_count};
ghost use Rattle.division.specs.Divide.{divided_of, div_words, free_word, by_zero, divide_words, div_cost, free_cost, divide_cost};

use crate::lists::Lists;
use crate::{check, pair, zero};

// What is asked: the quotient, or the remainder, of two words of w bits, for a node. Which of the two is a bool, as in the definitions
// (`chosen`, `answer_of`) and in the theorems on them. The bounds of w are no invariant: put_zero asks least, and what others add differs.
#[derive(Clone, Copy)]
pub struct Division<'a> {
    pub quotient: bool,
    pub node: u32,
    pub num: &'a [u32],
    pub den: &'a [u32],
    pub w: usize,
}

// Quotient and remainder as gates, and their constraints.
#[tactic(auto, using(crate::proofs::Paths::steps), unfolding(crate::specs::Divide::div_words))]
fn div_words(
    lists: &mut Lists,
    node: u32,
    num: &[u32],
    den: &[u32],
    w: usize,
    quot: &mut [u32],
    rem: &mut [u32],
)
    requires fits { Fits lists.old.gates (div_cost w) }
    requires cons_fit { ConFits lists.old.cons (con_count w) }
    requires w_bound { (w ≤ 64) × (w ≤ length num.now) × (w ≤ length den.now) × (quot.old ≡ blank) × (rem.old ≡ blank) }
    ensures same { SameLists lists.old lists.new }
    ensures made { divided_of lists.new quot.new rem.new ≡ div_words w node num.now den.now (book_of lists.old) }
{
    pair::pair_words(&mut lists.gates, node, w, quot, rem);
    check::check_words(lists, quot, rem, num, den, w);
}

impl Division<'_> {
    // By gates: over the divisor with its lowest bit Ored with z, and the choice by z.
    #[tactic(auto, using(crate::proofs::Paths::steps), unfolding(crate::specs::Divide::free_word, words::specs::Num::filled))]
    fn divide_free(&self, lists: &mut Lists, z: u32, out: &mut [u32])
        requires fits { Fits lists.old.gates (free_cost self.now.w) }
        requires cons_fit { ConFits lists.old.cons (con_count self.now.w) }
        requires le_w { (1 ≤ self.now.w) × (self.now.w ≤ 64) × (self.now.w ≤ length self.now.num.now) × (self.now.w ≤ length self.now.den.now) × (self.now.w ≤ length out.old) }
        ensures same { SameLists lists.old lists.new }
        ensures made { checked_of lists.new out.new ≡ free_word self.now.quotient self.now.w self.now.node self.now.num.now self.now.den.now z (checked_of lists.old out.old) }
    {
        let mut raised = [0u32; 65];
        let mut quot = [0u32; 65];
        let mut rem = [0u32; 65];
        let w = self.w;
        zero::raise(&mut lists.gates, self.den, z, w, &mut raised);
        div_words(lists, self.node, self.num, &raised, w, &mut quot, &mut rem);
        self.choose(&mut lists.gates, z, &quot, &rem, out);
    }

    // Operands that are not both wholly known.
    #[tactic(auto, using(crate::proofs::Paths::steps), unfolding(crate::specs::Divide::by_zero, loops::specs::Loop::pick))]
    fn by_zero(&self, lists: &mut Lists, out: &mut [u32])
        requires fits { Fits lists.old.gates (divide_cost self.now.w) }
        requires cons_fit { ConFits lists.old.cons (con_count self.now.w) }
        requires le_w { (1 ≤ self.now.w) × (self.now.w ≤ 64) × (self.now.w ≤ length self.now.num.now) × (self.now.w ≤ length self.now.den.now) × (self.now.w ≤ length out.old) }
        ensures same { SameLists lists.old lists.new }
        ensures made { checked_of lists.new out.new ≡ by_zero self.now.quotient self.now.w self.now.node self.now.num.now self.now.den.now (checked_of lists.old out.old) }
    {
        let z = zero::zero_bit(&mut lists.gates, self.den, self.w);
        if z == 1 {
            self.put_zero(out);
        } else {
            self.divide_free(lists, z, out);
        }
    }

    // As numbers where both operands are wholly known.
    #[tactic(auto, using(crate::proofs::Paths::steps), unfolding(crate::specs::Divide::divide_words, loops::specs::Loop::pick))]
    pub fn divide(&self, lists: &mut Lists, out: &mut [u32])
        requires fits { Fits lists.old.gates (divide_cost self.now.w) }
        requires cons_fit { ConFits lists.old.cons (con_count self.now.w) }
        requires le_w { (1 ≤ self.now.w) × (self.now.w ≤ 64) × (length self.now.num.now ≡ self.now.w) × (length self.now.den.now ≡ self.now.w) × (self.now.w ≤ length out.old) }
        ensures same { SameLists lists.old lists.new }
        ensures made { checked_of lists.new out.new ≡ divide_words self.now.quotient self.now.w self.now.node self.now.num.now self.now.den.now (checked_of lists.old out.old) }
    {
        // Two bools and not `digits::known`: the numbers are read by `divide_known`, whose contract, named in docs/STATEMENTS.md, takes the words themselves.
        let known_num = digits::all_known(self.num);
        let known_den = digits::all_known(self.den);
        if known_num & known_den {
            self.divide_known(out);
        } else {
            self.by_zero(lists, out);
        }
    }
}
