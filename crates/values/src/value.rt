ghost use Rattle.std.specs.Prelude.{◌≡◌, ◌-◌, ◌*◌, ◌%◌, ◌^◌, ◌≤◌};
ghost use Rattle.values.specs.Value.{not_word, add_word, sub_word, mul_word, div_word, rem_word, sll_word, srl_word, sext_word, word_value};

use table::Node;
use table::kind::{ADD, AND, CONST, DIVU, EQ, MUL, NOT, OR, REM, SEXT, SLL, SRL, SUB, ULT};

// A remainder by zero is the dividend.
#[tactic(auto, unfolding(crate::specs::Value::rem_word, loops::specs::Loop::pick))]
pub fn rem_word(x: u64, y: u64) -> u64
    ensures { result ≡ rem_word x y }
{
    x.checked_rem(y).unwrap_or(x)
}

// The width of a word: at most 64 bits.
#[derive(Clone, Copy)]
struct Width {
    bits: u64,
    ghost narrow: { bits ≤ 64 },
}

impl Width {
    // x modulo 2 to the width.
    #[tactic(auto, using(crate::proofs::value::Laws::mask_rules))]
    fn reduce(self, x: u64) -> u64
        ensures { result ≡ x % 2 ^ self.bits }
    {
        if self.bits < 64 {
            return x % (1 << self.bits);
        }
        x
    }

    // Ones.
    #[tactic(auto, using(crate::proofs::value::Laws::mask_rules))]
    fn mask(self) -> u64
        ensures { result ≡ 2 ^ self.bits - 1 }
    {
        if self.bits < 64 {
            return (1 << self.bits) - 1;
        }
        u64::MAX
    }

    #[tactic(auto, using(crate::proofs::value::Laws::word_rules))]
    fn not_word(self, x: u64) -> u64
        ensures { result ≡ not_word self.bits x }
    {
        self.mask() - self.reduce(x)
    }

    #[tactic(auto, using(crate::proofs::value::Laws::word_rules))]
    fn add_word(self, x: u64, y: u64) -> u64
        ensures { result ≡ add_word self.bits x y }
    {
        self.reduce(x.wrapping_add(y))
    }

    #[tactic(auto, using(crate::proofs::value::Laws::word_rules))]
    fn sub_word(self, x: u64, y: u64) -> u64
        ensures { result ≡ sub_word self.bits x y }
    {
        self.reduce(x.wrapping_sub(y))
    }

    #[tactic(auto, using(crate::proofs::value::Laws::word_rules))]
    fn mul_word(self, x: u64, y: u64) -> u64
        ensures { result ≡ mul_word self.bits x y }
    {
        self.reduce(x.wrapping_mul(y))
    }

    // An amount of width or more gives zero, in both shifts.
    #[tactic(auto, using(crate::proofs::value::Laws::word_rules), unfolding(crate::specs::Value::sll_word, loops::specs::Loop::pick))]
    fn sll_word(self, x: u64, y: u64) -> u64
        ensures { result ≡ sll_word self.bits x y }
    {
        if self.bits <= y {
            return 0;
        }
        self.reduce(x << y)
    }

    #[tactic(auto, unfolding(crate::specs::Value::srl_word, loops::specs::Loop::pick))]
    fn srl_word(self, x: u64, y: u64) -> u64
        ensures { result ≡ srl_word self.bits x y }
    {
        if y < self.bits {
            return x >> y;
        }
        0
    }

    // A signed extension to another width: with the top bit set, x less 2^bits. For 64 bits that wraps to 0, which is the same modulo the other's.
    #[tactic(auto, using(crate::proofs::value::Laws::word_rules))]
    fn sext_word(self, to: Width, x: u64) -> u64
        ensures { result ≡ sext_word self.bits to.bits x }
    {
        let low = self.mask();
        if low / 2 < x {
            return to.sub_word(x, low.wrapping_add(1));
        }
        x
    }
}

// A quotient by zero is all ones.
#[tactic(auto, unfolding(crate::specs::Value::div_word, loops::specs::Loop::pick))]
pub fn div_word(v: u64, x: u64, y: u64) -> u64
    requires { v ≤ 64 }
    ensures { result ≡ div_word v x y }
{
    x.checked_div(y).unwrap_or(Width { bits: v }.mask())
}

// A word node's value, over the values x of its first operand, which is v wide, and y of its second.
#[tactic(auto, unfolding(crate::specs::Value::word_value, table::specs::Op::by_op, digits::specs::Op::op_value, loops::specs::Loop::pick))]
pub fn word_value(node: Node, v: u64, x: u64, y: u64) -> u64
    requires { (node.width ≤ 64) × (v ≤ 64) }
    ensures { result ≡ word_value node v x y }
{
    let w = Width { bits: node.width };
    let from = Width { bits: v };
    match node.kind {
        CONST => node.imm,
        DIVU => div_word(node.width, x, y),
        REM => rem_word(x, y),
        SEXT => from.sext_word(w, x),
        NOT => w.not_word(x),
        AND => x & y,
        EQ => (x == y) as u64,
        ADD => w.add_word(x, y),
        SUB => w.sub_word(x, y),
        ULT => (x < y) as u64,
        MUL => w.mul_word(x, y),
        OR => x | y,
        SLL => w.sll_word(x, y),
        SRL => w.srl_word(x, y),
        _ => x,
    }
}
