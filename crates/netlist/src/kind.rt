// The kinds of gates and what each says of its operands' values.
ghost use Rattle.std.specs.Prelude.{◌≡◌, ℕ};
ghost use Rattle.netlist.specs.Kind.{free, uses_y, uses_z, value_of};

use crate::record::Gate;

// Kinds are numbers and no enum: a record is four numbers of the lent buffer (the C interface), and what is_free, uses_y, uses_z and value
// promise they promise of every number.
impl Gate {
    pub const CONST_FALSE: u32 = 0;

    pub const CONST_TRUE: u32 = 1;

    pub const INPUT_BIT: u32 = 2;

    pub const NOT: u32 = 3;

    pub const AND: u32 = 4;

    pub const NAND: u32 = 5;

    pub const OR: u32 = 6;

    pub const MATRIARCH1: u32 = 7;

    pub const CARRY_HALF: u32 = 8;

    pub const RESULT_HALF: u32 = 9;

    pub const CARRY_FULL: u32 = 10;

    pub const RESULT_FULL: u32 = 11;

    pub const QUOTIENT: u32 = 12;

    pub const REMAINDER: u32 = 13;

    // Given from outside, and not by its operands.
    #[tactic(auto, unfolding(crate::specs::Kind::free))]
    pub fn is_free(kind: u32) -> bool
        ensures { result ≡ free kind }
    {
        matches!(kind, Gate::INPUT_BIT | Gate::QUOTIENT | Gate::REMAINDER)
    }

    // Of a kind that is not free: whether y, and whether z, is an operand.
    #[tactic(auto, unfolding(crate::specs::Kind::uses_y))]
    pub fn uses_y(kind: u32) -> bool
        ensures { result ≡ uses_y kind }
    {
        kind != Gate::NOT
    }

    #[tactic(auto, unfolding(crate::specs::Kind::uses_z))]
    pub fn uses_z(kind: u32) -> bool
        ensures { result ≡ uses_z kind }
    {
        matches!(kind, Gate::CARRY_FULL | Gate::RESULT_FULL)
    }

    // What a kind says of its operands' values.
    #[tactic(auto, unfolding(crate::specs::Kind::value_of, loops::specs::Loop::pick))]
    pub fn value(kind: u32, x: bool, y: bool, z: bool) -> bool
        ensures { result ≡ value_of kind x y z }
    {
        match kind {
            Gate::CONST_TRUE => true,
            Gate::NOT => !x,
            Gate::AND => x & y,
            Gate::NAND => !(x & y),
            Gate::OR => x | y,
            Gate::MATRIARCH1 => !x & y,
            Gate::CARRY_HALF => x & y,
            Gate::RESULT_HALF => x ^ y,
            Gate::CARRY_FULL => (x & y) | (x & z) | (y & z),
            Gate::RESULT_FULL => x ^ y ^ z,
            _ => false,
        }
    }
}
