// The choice of one of two bits by a condition.
ghost use Rattle.std.specs.Prelude.{◌≡◌, ℕ, ◌+◌};
ghost use Rattle.gates.specs.Made.{net_of, made_of, Fits, SameList};
ghost use Rattle.gates.specs.Choice.{true_side, false_side, both_sides, choice_bit, mux_bit};

use crate::list::GateList;
use netlist::record::Gate;

impl GateList<'_> {
    #[tactic(auto, using(crate::proofs::Paths::steps), unfolding(crate::specs::Choice::true_side, netlist::specs::Bit::by_known))]
    fn true_side(&mut self, c: u32, t: u32) -> u32
        requires { Fits self.old 1 }
        ensures same { SameList self.old self.new }
        ensures made { made_of self.new result ≡ true_side (net_of self.old) c t }
    {
        match Gate::of(t) {
            Some(false) => Gate::known(false),
            Some(true) => c,
            None => self.and_bit(t, c),
        }
    }

    #[tactic(auto, using(crate::proofs::Paths::steps), unfolding(crate::specs::Choice::false_side, netlist::specs::Bit::by_known))]
    fn false_side(&mut self, c: u32, f: u32) -> u32
        requires { Fits self.old 1 }
        ensures same { SameList self.old self.new }
        ensures made { made_of self.new result ≡ false_side (net_of self.old) c f }
    {
        match Gate::of(f) {
            Some(false) => Gate::known(false),
            Some(true) => self.not_bit(c),
            None => self.append(Gate::MATRIARCH1, c, f, 0),
        }
    }

    #[tactic(auto, using(crate::proofs::Paths::steps), unfolding(crate::specs::Choice::both_sides))]
    fn both_sides(&mut self, c: u32, t: u32, f: u32) -> u32
        requires { Fits self.old 3 }
        ensures same { SameList self.old self.new }
        ensures made { made_of self.new result ≡ both_sides (net_of self.old) c t f }
    {
        let x = self.true_side(c, t);
        let y = self.false_side(c, f);
        self.or_bit(x, y)
    }

    // By a condition that is not known.
    #[tactic(auto, using(crate::proofs::Paths::steps), unfolding(crate::specs::Choice::choice_bit, loops::specs::Loop::pick))]
    fn choice_bit(&mut self, c: u32, t: u32, f: u32) -> u32
        requires { Fits self.old 3 }
        ensures same { SameList self.old self.new }
        ensures made { made_of self.new result ≡ choice_bit (net_of self.old) c t f }
    {
        if !(Gate::is_known(t) & Gate::is_known(f)) {
            self.both_sides(c, t, f)
        } else if t == f {
            t
        } else if t == Gate::known(true) {
            c
        } else {
            self.not_bit(c)
        }
    }

    // By any condition: a known one picks without gates.
    #[tactic(auto, using(crate::proofs::Paths::steps), unfolding(crate::specs::Choice::mux_bit, netlist::specs::Bit::by_known))]
    pub fn mux_bit(&mut self, c: u32, t: u32, f: u32) -> u32
        requires { Fits self.old 3 }
        ensures same { SameList self.old self.new }
        ensures made { made_of self.new result ≡ mux_bit (net_of self.old) c t f }
    {
        match Gate::of(c) {
            Some(true) => t,
            Some(false) => f,
            None => self.choice_bit(c, t, f),
        }
    }

    // Of known false and a bit: where the condition is not known the false side stands alone, since the true side is known false and the Or folds.
    #[tactic(auto, using(crate::proofs::Paths::steps), unfolding(crate::specs::Choice::mux_bit, netlist::specs::Bit::by_known))]
    pub fn clear_bit(&mut self, c: u32, f: u32) -> u32
        requires { Fits self.old 1 }
        ensures same { SameList self.old self.new }
        ensures made { made_of self.new result ≡ mux_bit (net_of self.old) c 0 f }
    {
        match Gate::of(c) {
            Some(true) => Gate::known(false),
            Some(false) => f,
            None => self.false_side(c, f),
        }
    }
}
