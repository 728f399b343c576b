// Wholly known operands are divided as numbers.
ghost use Rattle.std.specs.Prelude.{◌≡◌, ◌≤◌, length};
ghost use Rattle.digits.specs.Digits.{Below};
ghost use Rattle.division.specs.Known.{answer_of, known_word};

use crate::divide::Division;
use values::value::{div_word, rem_word};

#[tactic(auto, unfolding(loops::specs::Loop::pick))]
fn answer_of(quotient: bool, w: usize, n: u64, d: u64) -> u64
    requires { (1 ≤ w) × (w ≤ 64) }
    ensures { result ≡ answer_of quotient w n d }
{
    if quotient {
        div_word(w as u64, n, d)
    } else {
        rem_word(n, d)
    }
}

impl Division<'_> {
    // The quotient, or the remainder, of two known words.
    pub fn divide_known(&self, out: &mut [u32])
        requires le_w { (1 ≤ self.now.w) × (self.now.w ≤ 64) × (length self.now.num.now ≡ self.now.w) × (length self.now.den.now ≡ self.now.w) × (self.now.w ≤ length out.old) }
        requires below { Below 2 self.now.num.now self.now.w × Below 2 self.now.den.now self.now.w }
        ensures { out.new ≡ known_word self.now.quotient self.now.w self.now.num.now self.now.den.now out.old }
    {
        let n = digits::known_number(self.num);
        let d = digits::known_number(self.den);
        digits::put_digits(answer_of(self.quotient, self.w, n, d), self.w, out);
    }
}
