// The layout of a gate record in a lent buffer. Nothing else knows how many numbers a record has.
ghost use Rattle.std.specs.Prelude.{◌≡◌, ℕ, ◌+◌, ◌*◌, take};
ghost use Rattle.netlist.specs.Record.{gate_at, put, used, Room, records, whole_records};

// Numbers of a record.
pub const SIZE: usize = 4;

// A gate: its kind, and three numbers that are operands, or node and bit of a free gate; what a kind does not use is 0.
#[derive(Clone, Copy, PartialEq, Eq)]
pub struct Gate {
    pub kind: u32,
    pub x: u32,
    pub y: u32,
    pub z: u32,
}

// Record i. Room speaks of an index and a buffer together, so no type of one of them can hold it: it stands in each contract.
#[tactic(auto, unfolding(crate::specs::Record::gate_at))]
pub fn gate_at(gates: &[u32], i: usize) -> Gate
    requires { Room gates.now (i + 1) }
    ensures { result ≡ gate_at gates.now i }
{
    let at = SIZE * i;
    Gate {
        kind: gates[at],
        x: gates[at + 1],
        y: gates[at + 2],
        z: gates[at + 3],
    }
}

// The one function that writes a record: number by number, which says their order.
#[tactic(auto, unfolding(crate::specs::Record::put))]
pub fn put_gate(gates: &mut [u32], i: usize, g: Gate)
    requires { Room gates.old (i + 1) }
    ensures { gates.new ≡ put gates.old i g }
{
    let at = SIZE * i;
    gates[at] = g.kind;
    gates[at + 1] = g.x;
    gates[at + 2] = g.y;
    gates[at + 3] = g.z;
}

// The part of a buffer that its first n records take.
pub fn part(gates: &[u32], n: usize) -> &[u32]
    requires { Room gates.now n }
    ensures { result.now ≡ take (used n) gates.now }
{
    let end = SIZE * n;
    &gates[..end]
}

// How many whole records a buffer holds.
pub fn count(gates: &[u32]) -> usize
    ensures { result ≡ records gates.now }
{
    gates.len() / SIZE
}

// Whether a buffer holds whole records only.
pub fn no_rest(gates: &[u32]) -> bool
    ensures { result ≡ whole_records gates.now }
{
    gates.len() % SIZE == 0
}
