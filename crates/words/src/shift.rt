// The two shifts: a choice stage for each amount bit that can move the word within its width, then the clearing.
ghost use Rattle.std.specs.Prelude.{◌≡◌, ℕ, ◌+◌, ◌*◌, ◌-◌, ◌≤◌, ◌<◌, length};
ghost use Rattle.loops.specs.Loop.{iter};
ghost use Rattle.gates.specs.Made.{Fits, SameList};
ghost use Rattle.digits.specs.Digits.{powers_below};
ghost use Rattle.words.specs.Each.{word_of};
ghost use Rattle.words.specs.Shift.{moved, stage, shift_words, shift_cost};

use crate::each::Bitwise;
use crate::{each, join};
use gates::list::GateList;

// To the higher places, or to the lower ones.
#[derive(Clone, Copy)]
pub enum Direction {
    Left,
    Right,
}

// The w bits of a word moved by k places, over known false bits.
#[tactic(auto, unfolding(crate::specs::Shift::moved))]
fn move_bits(to: Direction, bits: &[u32], w: usize, k: usize, out: &mut [u32])
    requires { (k ≤ w) × (w ≤ length bits.now) × (w ≤ length out.old) }
    ensures { out.new ≡ moved to w k bits.now out.old }
{
    let kept = w - k;
    match to {
        Direction::Left => each::put_bits(out, k, bits, kept),
        Direction::Right => each::put_bits(out, 0, &bits[k..w], kept),
    }
}

// Stage j: the word moved by 2 to the j, or the word, by amount bit j.
fn shift_stage(
    list: &mut GateList,
    to: Direction,
    amount: &[u32],
    w: usize,
    out: &mut [u32],
    j: usize,
)
    requires fits { Fits list.old (3 * w) }
    requires j_bound { (j < powers_below w) × (1 ≤ w) × (w ≤ 64) × (w ≤ length amount.now) × (w ≤ length out.old) }
    ensures same { SameList list.old list.new }
    ensures made { word_of list.new out.new ≡ stage to w amount.now j (word_of list.old out.old) }
{
    let mut there = [0u32; 65];
    let places = 1 << j;
    move_bits(to, out, w, places, &mut there);
    each::each_onto(list, Bitwise::Choose(amount[j]), &there, w, out);
}

// The first s stages, lowest first.
fn shift_stages(
    list: &mut GateList,
    to: Direction,
    amount: &[u32],
    w: usize,
    s: usize,
    out: &mut [u32],
)
    requires fits { Fits list.old (3 * w * s) }
    requires s_bound { (s ≤ powers_below w) × (1 ≤ w) × (w ≤ 64) × (w ≤ length amount.now) × (w ≤ length out.old) }
    ensures same { SameList list.old list.new }
    ensures made { word_of list.new out.new ≡ iter s (stage to w amount.now) (word_of list.old out.old) }
{
    for j in 0..s {
        shift_stage(list, to, amount, w, out, j);
    }
}

// A word of w bits shifted by an amount of w bits; the clearing looks at the word alone, so any word may stand at its left.
pub fn shift_words(
    list: &mut GateList,
    to: Direction,
    bits: &[u32],
    amount: &[u32],
    w: usize,
    out: &mut [u32],
)
    requires fits { Fits list.old (shift_cost w) }
    requires le_w { (1 ≤ w) × (w ≤ 64) × (w ≤ length bits.now) × (w ≤ length amount.now) × (w ≤ length out.old) }
    ensures same { SameList list.old list.new }
    ensures made { word_of list.new out.new ≡ shift_words to w bits.now amount.now (word_of list.old out.old) }
{
    let s = digits::powers_below(w);
    each::put_bits(out, 0, bits, w);
    shift_stages(list, to, amount, w, s, out);
    let over = join::join_all(list, Bitwise::Or, &amount[s..w], w - s);
    each::each_onto(list, Bitwise::Clear(over), bits, w, out);
}
