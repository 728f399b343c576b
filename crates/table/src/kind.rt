// Kinds are numbers and no enum: a node is six words of the lent table (the C interface), any number may stand there, and what is asked of a
// kind is answered for every number.
ghost use Rattle.std.specs.Prelude.{◌≡◌};
ghost use Rattle.table.specs.Kind as kinds;

pub const CONST: u64 = 1;

pub const INPUT: u64 = 2;

pub const STATE: u64 = 3;

pub const NOT: u64 = 4;

pub const BAD: u64 = 5;

pub const AND: u64 = 6;

pub const EXT: u64 = 7;

pub const EQ: u64 = 8;

pub const ADD: u64 = 9;

pub const ITE: u64 = 10;

pub const SUB: u64 = 11;

pub const ULT: u64 = 12;

pub const MUL: u64 = 13;

pub const DIVU: u64 = 14;

pub const REM: u64 = 15;

pub const READ: u64 = 16;

pub const WRITE: u64 = 17;

pub const OR: u64 = 18;

pub const SLL: u64 = 20;

pub const SRL: u64 = 21;

pub const SEXT: u64 = 24;

pub fn named(k: u64) -> bool
    ensures { result ≡ kinds.named k }
{
    (1 <= k) & (k <= SEXT)
}

pub fn lowered(k: u64) -> bool
    ensures { result ≡ kinds.lowered k }
{
    (k <= WRITE) | matches!(k, OR | SLL | SRL | SEXT)
}

// A state's a is its initial node, or 0.
pub fn may_use_a(k: u64) -> bool
    ensures { result ≡ kinds.may_use_a k }
{
    STATE <= k
}

pub fn uses_a(k: u64) -> bool
    ensures { result ≡ kinds.uses_a k }
{
    NOT <= k
}

pub fn uses_b(k: u64) -> bool
    ensures { result ≡ kinds.uses_b k }
{
    (k == AND) | ((EQ <= k) & (k != SEXT))
}

pub fn uses_c(k: u64) -> bool
    ensures { result ≡ kinds.uses_c k }
{
    matches!(k, ITE | WRITE)
}

pub fn uses_imm(k: u64) -> bool
    ensures { result ≡ kinds.uses_imm k }
{
    k == CONST
}

// Two operands, and all widths equal.
pub fn evenly(k: u64) -> bool
    ensures { result ≡ kinds.evenly k }
{
    matches!(k, AND | ADD | SUB | MUL | DIVU | REM | OR | SLL | SRL)
}

pub fn compares(k: u64) -> bool
    ensures { result ≡ kinds.compares k }
{
    matches!(k, EQ | ULT)
}

pub fn divides(k: u64) -> bool
    ensures { result ≡ kinds.divides k }
{
    matches!(k, DIVU | REM)
}

// The two extensions.
pub fn extends(k: u64) -> bool
    ensures { result ≡ kinds.extends k }
{
    matches!(k, EXT | SEXT)
}

// read and write have an address.
pub fn accesses(k: u64) -> bool
    ensures { result ≡ kinds.accesses k }
{
    matches!(k, READ | WRITE)
}
