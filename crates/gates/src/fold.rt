// Not, And, Or and Xnor: a known operand is folded away.
ghost use Rattle.std.specs.Prelude.{◌≡◌, ℕ, ◌+◌};
ghost use Rattle.gates.specs.Made.{net_of, made_of, Fits, SameList};
ghost use Rattle.gates.specs.Fold.{not_bit, and_bit, or_bit, xnor_bit, not_cost, xnor_cost};

use crate::list::GateList;
use netlist::record::Gate;

impl GateList<'_> {
    #[tactic(auto, using(crate::proofs::Paths::steps), unfolding(crate::specs::Fold::not_bit, crate::specs::Fold::not_cost, netlist::specs::Bit::by_known))]
    pub fn not_bit(&mut self, a: u32) -> u32
        requires { Fits self.old (not_cost a) }
        ensures same { SameList self.old self.new }
        ensures made { made_of self.new result ≡ not_bit (net_of self.old) a }
    {
        match Gate::of(a) {
            Some(value) => Gate::known(!value),
            None => self.append(Gate::NOT, a, 0, 0),
        }
    }

    // And and Or are each written out: one function of the gate's kind and the value that decides, with these two as its calls, is no shorter, and
    // its contract would have to say both.
    #[tactic(auto, using(crate::proofs::Paths::steps), unfolding(crate::specs::Fold::and_bit, netlist::specs::Bit::by_known))]
    pub fn and_bit(&mut self, a: u32, b: u32) -> u32
        requires { Fits self.old 1 }
        ensures same { SameList self.old self.new }
        ensures made { made_of self.new result ≡ and_bit (net_of self.old) a b }
    {
        match (Gate::of(a), Gate::of(b)) {
            (Some(false), _) => Gate::known(false),
            (Some(true), _) => b,
            (None, Some(false)) => Gate::known(false),
            (None, Some(true)) => a,
            (None, None) => self.append(Gate::AND, a, b, 0),
        }
    }

    #[tactic(auto, using(crate::proofs::Paths::steps), unfolding(crate::specs::Fold::or_bit, netlist::specs::Bit::by_known))]
    pub fn or_bit(&mut self, a: u32, b: u32) -> u32
        requires { Fits self.old 1 }
        ensures same { SameList self.old self.new }
        ensures made { made_of self.new result ≡ or_bit (net_of self.old) a b }
    {
        match (Gate::of(a), Gate::of(b)) {
            (Some(true), _) => Gate::known(true),
            (Some(false), _) => b,
            (None, Some(true)) => Gate::known(true),
            (None, Some(false)) => a,
            (None, None) => self.append(Gate::OR, a, b, 0),
        }
    }

    // Not of the other where one is known false, two gates where none is known.
    #[tactic(auto, using(crate::proofs::Paths::steps), unfolding(crate::specs::Fold::xnor_bit, crate::specs::Fold::xnor_cost, netlist::specs::Bit::by_known))]
    pub fn xnor_bit(&mut self, a: u32, b: u32) -> u32
        requires { Fits self.old (xnor_cost a b) }
        ensures same { SameList self.old self.new }
        ensures made { made_of self.new result ≡ xnor_bit (net_of self.old) a b }
    {
        match (Gate::of(a), Gate::of(b)) {
            (Some(true), _) => b,
            (Some(false), _) => self.not_bit(b),
            (None, Some(true)) => a,
            (None, Some(false)) => self.not_bit(a),
            (None, None) => {
                let half = self.append(Gate::RESULT_HALF, a, b, 0);
                self.not_bit(half)
            }
        }
    }
}
