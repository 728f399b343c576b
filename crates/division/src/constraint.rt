// The list of constraints, gate and value. Nothing else in the code knows how many numbers a constraint has.
ghost use Rattle.std.specs.Prelude.{◌≡◌, ◌+◌, ◌*◌, ◌≤◌, ◌<◌, length};
ghost use Rattle.division.specs.Constraint.{con_used, con_gate, con_value, cons_in, constrain, constrain_each, ConFits, SameCons};

// Gate and value of a constraint: numbers, which C reads.
#[derive(Clone, Copy)]
pub struct Constraint {
    pub gate: u32,
    pub value: u32,
}

// Constraint j.
#[tactic(auto, using(crate::proofs::Paths::steps), unfolding(crate::specs::Constraint::con_gate, crate::specs::Constraint::con_value))]
pub fn constraint_at(cons: &[u32], j: usize) -> Constraint
    requires { con_used (j + 1) ≤ length cons.now }
    ensures { (result.gate ≡ con_gate cons.now j) × (result.value ≡ con_value cons.now j) }
{
    let place = 2 * j;
    Constraint {
        gate: cons[place],
        value: cons[place + 1],
    }
}

// The list that is being made: a lent buffer, and how many constraints of it are in use. It has a type beside `GateList`: the numbers of a
// record, how one is written and what is then known differ, and what is left alike is these two fields.
// `same` is as `GateList`'s.
#[derive(Drop)]
pub struct ConstraintList<'a> {
    pub pairs: &'a mut [u32],
    pub m: usize,
}

impl ConstraintList<'_> {
    // One constraint more.
    #[tactic(auto, using(crate::proofs::Paths::steps), unfolding(crate::specs::Constraint::constrain, crate::specs::Constraint::put_con))]
    pub fn put(&mut self, gate: u32, value: u32)
        requires { ConFits self.old 1 }
        ensures same { SameCons self.old self.new }
        ensures put { cons_in self.new ≡ constrain (cons_in self.old) gate value }
    {
        let place = 2 * self.m;
        self.pairs[place] = gate;
        self.pairs[place + 1] = value;
        self.m += 1;
    }

    // The same value for each of the first k bits of a word. (`here`: as in `words`' each_bit.)
    #[tactic(auto, using(crate::proofs::Paths::steps), unfolding(crate::specs::Constraint::con_step))]
    pub fn put_each(&mut self, bits: &[u32], value: u32, k: usize)
        requires { ConFits self.old k × (k ≤ length bits.now) }
        ensures same { SameCons self.old self.new }
        ensures put { cons_in self.new ≡ constrain_each bits.now value k (cons_in self.old) }
    {
        let mut here = ConstraintList {
            pairs: &mut *self.pairs,
            m: self.m,
        };
        for j in 0..k {
            here.put(bits[j], value);
        }
        self.m = here.m;
    }
}
