// The adder on (left, right, carry).
ghost use Rattle.std.specs.Prelude.{◌≡◌, ℕ, ◌+◌};
ghost use Rattle.gates.specs.Made.{net_of, sum_of, Fits, SameList};
ghost use Rattle.gates.specs.Adder.{two_known, one_known, none_known, adder_bit, adder_cost};

use crate::list::GateList;
use netlist::record::Gate;

// A sum bit and a carry.
#[derive(Clone, Copy)]
pub struct Sum {
    pub sum: u32,
    pub carry: u32,
}

impl GateList<'_> {
    #[tactic(auto, using(crate::proofs::Paths::steps), unfolding(crate::specs::Adder::two_known, loops::specs::Loop::pick))]
    fn two_known(&mut self, a: u32, b: u32, third: u32) -> Sum
        requires { Fits self.old 1 }
        ensures same { SameList self.old self.new }
        ensures made { sum_of self.new result ≡ two_known (net_of self.old) a b third }
    {
        if a == b {
            return Sum {
                sum: third,
                carry: a,
            };
        }
        let sum = self.not_bit(third);
        Sum { sum, carry: third }
    }

    #[tactic(auto, using(crate::proofs::Paths::steps), unfolding(crate::specs::Adder::one_known, loops::specs::Loop::pick))]
    fn one_known(&mut self, known: u32, a: u32, b: u32) -> Sum
        requires { Fits self.old 3 }
        ensures same { SameList self.old self.new }
        ensures made { sum_of self.new result ≡ one_known (net_of self.old) known a b }
    {
        let half = self.append(Gate::RESULT_HALF, a, b, 0);
        if known == Gate::known(false) {
            let carry = self.append(Gate::CARRY_HALF, a, b, 0);
            return Sum { sum: half, carry };
        }
        let sum = self.not_bit(half);
        let carry = self.or_bit(a, b);
        Sum { sum, carry }
    }

    #[tactic(auto, using(crate::proofs::Paths::steps), unfolding(crate::specs::Adder::none_known))]
    fn none_known(&mut self, a: u32, b: u32, c: u32) -> Sum
        requires { Fits self.old 2 }
        ensures same { SameList self.old self.new }
        ensures made { sum_of self.new result ≡ none_known (net_of self.old) a b c }
    {
        let sum = self.append(Gate::RESULT_FULL, a, b, c);
        let carry = self.append(Gate::CARRY_FULL, a, b, c);
        Sum { sum, carry }
    }

    #[tactic(auto, using(crate::proofs::Paths::steps), unfolding(crate::specs::Adder::adder_bit, loops::specs::Loop::pick))]
    pub fn adder_bit(&mut self, left: u32, right: u32, carry: u32) -> Sum
        requires { Fits self.old (adder_cost left right) }
        ensures same { SameList self.old self.new }
        ensures made { sum_of self.new result ≡ adder_bit (net_of self.old) left right carry }
    {
        match (
            Gate::is_known(left),
            Gate::is_known(right),
            Gate::is_known(carry),
        ) {
            (true, true, _) => self.two_known(left, right, carry),
            (true, false, true) => self.two_known(left, carry, right),
            (true, false, false) => self.one_known(left, right, carry),
            (false, true, true) => self.two_known(right, carry, left),
            (false, true, false) => self.one_known(right, left, carry),
            (false, false, true) => self.one_known(carry, left, right),
            (false, false, false) => self.none_known(left, right, carry),
        }
    }
}
