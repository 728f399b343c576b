// The gate list's check: refusal 11, with the first faulty gate.
ghost use Rattle.std.specs.Prelude.{◌≡◌, ℕ, ◌+◌, ◌<◌};
ghost use Rattle.loops.specs.Loop.{found};
ghost use Rattle.netlist.specs.Record.{Room, records};
ghost use Rattle.netlist.specs.Check as check;
ghost use Rattle.netlist.specs.Check.{field_good, const_good, later_good, faulty, list_fault};

use crate::record;
use crate::record::Gate;
use crate::sheet::OnSheet;

// Refusals 11, 12 and 13 of the sheet: a faulty gate, a value buffer that is too short, a free gate whose value is neither 0 nor 1.
#[derive(Clone, Copy, Debug, PartialEq, Eq)]
pub enum Refusal {
    GateList(usize),
    ValueRoom,
    Input(usize),
}

impl OnSheet for Refusal {
    ghost number_of = { check.number_of };

    ghost place_of = { check.place_of };

    fn number(self) -> u64 {
        match self {
            Refusal::GateList(_) => 11,
            Refusal::ValueRoom => 12,
            Refusal::Input(_) => 13,
        }
    }

    // The gate that stands beside it.
    fn place(self) -> usize {
        match self {
            Refusal::GateList(i) | Refusal::Input(i) => i,
            Refusal::ValueRoom => 0,
        }
    }
}

// An operand names an earlier gate, an unused field is 0.
#[tactic(auto, unfolding(crate::specs::Check::field_good))]
fn field_good(used: bool, i: usize, v: u32) -> bool
    ensures { result ≡ field_good used i v }
{
    if used { (v as usize) < i } else { v == 0 }
}

impl Gate {
    // Whether this is the constant that gate i is to be, for i below 2.
    #[tactic(auto, unfolding(crate::specs::Check::const_good))]
    fn const_good(self, i: usize) -> bool
        requires { i < 2 }
        ensures { result ≡ const_good i self }
    {
        self == Gate {
            kind: i as u32,
            x: 0,
            y: 0,
            z: 0,
        }
    }

    // Whether gate i may be this one, for i from 2 on.
    #[tactic(auto, unfolding(crate::specs::Check::later_good))]
    fn later_good(self, i: usize) -> bool
        ensures { result ≡ later_good i self }
    {
        (Gate::is_free(self.kind) && self.z == 0)
            || (Gate::NOT <= self.kind
                && self.kind <= Gate::RESULT_FULL
                && (self.x as usize) < i
                && field_good(Gate::uses_y(self.kind), i, self.y)
                && field_good(Gate::uses_z(self.kind), i, self.z))
    }
}

#[tactic(auto, unfolding(crate::specs::Check::faulty, loops::specs::Loop::pick))]
fn is_faulty(gates: &[u32], i: usize) -> bool
    requires { Room gates.now (i + 1) }
    ensures { result ≡ faulty gates.now i }
{
    let gate = record::gate_at(gates, i);
    if i < 2 {
        !gate.const_good(i)
    } else {
        !gate.later_good(i)
    }
}

#[tactic(auto, using(crate::proofs::Paths::list_size))]
pub fn check_gates(gates: &[u32]) -> Result<(), Refusal>
    ensures { result ≡ list_fault gates.now }
{
    let n = record::count(gates);
    if !record::no_rest(gates) || n < 2 {
        return Err(Refusal::GateList(0));
    }
    match (0..n).find(|&i| is_faulty(gates, i)) {
        Some(i) => Err(Refusal::GateList(i)),
        None => Ok(()),
    }
}
