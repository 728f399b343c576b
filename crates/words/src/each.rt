// Words that are made bit by bit.
ghost use Rattle.std.specs.Prelude.{◌≡◌, ℕ, ◌+◌, ◌≤◌, ◌<◌, length};
ghost use Rattle.gates.specs.Made.{net_of, made_of, Fits, SameList};
ghost use Rattle.words.specs.Each.{bitwise, bit_cost, each_cost, word_of, each_bit, put_bits};

use gates::list::GateList;

// What is made of bit i of a left and a right word; a bit that is the same at each place comes along. An enum, and not a closure or a type for
// each: the seven are the cases of the laws (specs/Each.antt), and one match says in one place what seven impls would say in seven.
#[derive(Clone, Copy)]
pub enum Bitwise {
    Not,
    And,
    Or,
    Xnor,
    AndWith(u32),
    Choose(u32),
    Clear(u32),
}

#[tactic(auto, unfolding(crate::specs::Each::bitwise, crate::specs::Each::bit_cost))]
pub fn bit_of(list: &mut GateList, op: Bitwise, a: u32, b: u32) -> u32
    requires { Fits list.old (bit_cost op a b) }
    ensures same { SameList list.old list.new }
    ensures made { made_of list.new result ≡ bitwise op (net_of list.old) a b }
{
    match op {
        Bitwise::Not => list.not_bit(a),
        Bitwise::And => list.and_bit(a, b),
        Bitwise::Or => list.or_bit(a, b),
        Bitwise::Xnor => list.xnor_bit(a, b),
        Bitwise::AndWith(c) => list.and_bit(a, c),
        Bitwise::Choose(c) => list.mux_bit(c, a, b),
        Bitwise::Clear(c) => list.clear_bit(c, b),
    }
}

// The word of w bits that an operation makes of the left and the right word. The loop is over `here`, a list of its own in the same buffer, and
// so are each_onto's, add_onto's and put_each's (division): the next gate's place stays in a register there. Through the lent list it is loaded and
// stored at each gate, and a 64-bit divu takes a quarter longer.
pub fn each_bit(
    list: &mut GateList,
    op: Bitwise,
    left: &[u32],
    right: &[u32],
    w: usize,
    out: &mut [u32],
)
    requires fits { Fits list.old (each_cost op left.now right.now w) }
    requires w_in_bounds { (w ≤ length left.now) × (w ≤ length right.now) × (w ≤ length out.old) }
    ensures same { SameList list.old list.new }
    ensures made { word_of list.new out.new ≡ each_bit op left.now right.now w (word_of list.old out.old) }
{
    let mut here = GateList {
        records: &mut *list.records,
        n: list.n,
    };
    for i in 0..w {
        out[i] = bit_of(&mut here, op, left[i], right[i]);
    }
    list.n = here.n;
}

// The same where the right word is replaced by the word that is made. (Not `each_bit` with `out` twice: a slice that is lent to be written is lent once.)
pub fn each_onto(list: &mut GateList, op: Bitwise, left: &[u32], w: usize, out: &mut [u32])
    requires fits { Fits list.old (each_cost op left.now out.old w) }
    requires w_in_bounds { (w ≤ length left.now) × (w ≤ length out.old) }
    ensures same { SameList list.old list.new }
    ensures made { word_of list.new out.new ≡ each_bit op left.now out.old w (word_of list.old out.old) }
{
    let mut here = GateList {
        records: &mut *list.records,
        n: list.n,
    };
    for i in 0..w {
        out[i] = bit_of(&mut here, op, left[i], out[i]);
    }
    list.n = here.n;
}

// The first w bits of a word put into a list from a place on. By a loop: std's copy of one slice into another, where a shift calls this on two words that
// are lent, makes the archive for C ask its linker for `memmove`, which it needs for nothing else.
#[tactic(auto, using(loops::proofs::Loop::for_loop))]
pub fn put_bits(map: &mut [u32], from: usize, bits: &[u32], w: usize)
    requires { (from + w ≤ length map.old) × (w ≤ length bits.now) }
    ensures { map.new ≡ put_bits from bits.now w map.old }
{
    for i in 0..w {
        map[from + i] = bits[i];
    }
}
