// Numbers and their binary digits: the digits of a number as known bits, and the number that known bits say.
#![tactic(auto)]

ghost use Rattle.std.specs.Prelude.{◌≡◌, ℕ, ◌+◌, ◌*◌, ◌^◌, ◌≤◌, ◌<◌, length};
ghost use Rattle.loops.specs.Loop.{iter, bit};
ghost use Rattle.digits.specs.Digits.{digit, powers_below, put_digits, all_known, Below, known_number, known};

use netlist::record::Gate;

// Digit i of a, by shift and mask.
#[tactic(auto, using(crate::proofs::Words::masked, crate::proofs::Numbers::digit_lt))]
pub fn digit_of(a: u64, i: usize) -> u32
    requires { i < 64 }
    ensures { result ≡ digit a i }
{
    ((a >> i) & 1) as u32
}

// The digits of a, lowest first, as known bits. w stands beside out: with out[..w] each caller, who lends a longer word, would have to put the
// two parts together again. The bound of 64 is no type of its own, here and below: these functions take any word.
#[tactic(auto, using(loops::proofs::Loop::for_loop, crate::proofs::Words::digits_more, std::proofs::lemmas::Grind::common_steps))]
pub fn put_digits(a: u64, w: usize, out: &mut [u32])
    requires { (w ≤ 64) × (w ≤ length out.old) }
    ensures { out.new ≡ put_digits a w out.old }
{
    for i in 0..w {
        out[i] = digit_of(a, i);
    }
}

// Whether all bits of a word are known.
pub fn all_known(bits: &[u32]) -> bool
    ensures { result ≡ all_known (length bits.now) bits.now }
{
    bits.iter().all(|&bit| Gate::is_known(bit))
}

// How many powers of two are below w.
pub fn powers_below(w: usize) -> usize
    requires { w ≤ 64 }
    ensures { result ≡ powers_below w }
{
    (0..w).find(|&j| w <= 1 << j).unwrap_or(w)
}

#[tactic(auto, using(crate::proofs::Words::shifted_fits))]
fn with_digit(x: u64, b: u32, i: usize) -> u64
    requires { (b < 2) × (i < 64) × (x < 2 ^ i) }
    ensures { result ≡ x + 2 ^ i * b }
{
    x + ((b as u64) << i)
}

// The number that known bits say.
#[tactic(auto, using(crate::proofs::Words::number_none, crate::proofs::Words::number_more, crate::proofs::Words::number_less))]
pub fn known_number(bits: &[u32]) -> u64
    requires bits_len_bound { length bits.now ≤ 64 }
    requires below { Below 2 bits.now (length bits.now) }
    ensures { result ≡ known_number (length bits.now) bits.now }
{
    let mut x = 0;
    for (i, &bit) in bits.iter().enumerate() {
        x = with_digit(x, bit, i);
    }
    x
}

// The number that a word says, where all its bits are known.
#[tactic(auto, using(crate::proofs::Words::all_true), unfolding(crate::specs::Digits::known, loops::specs::Loop::pick))]
pub fn known(bits: &[u32]) -> Option<u64>
    requires { length bits.now ≤ 64 }
    ensures { result ≡ known (length bits.now) bits.now }
{
    all_known(bits).then(|| known_number(bits))
}
