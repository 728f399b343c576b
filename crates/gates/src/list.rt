// The gate list that is being made.
ghost use Rattle.std.specs.Prelude.{◌≡◌, ℕ, ◌+◌};
ghost use Rattle.netlist.specs.Record.{gate};
ghost use Rattle.gates.specs.Made.{net_of, made_of, added, Fits, SameList};

use netlist::record;
use netlist::record::Gate;

// A lent buffer, and how many records of it are made: the next gate goes there. What rides along with the gates that are made belongs here.
// The clause `same` of each function that makes gates says that the list still lies in that buffer: what the buffer holds follows from it.
#[derive(Drop)]
pub struct GateList<'a> {
    pub records: &'a mut [u32],
    pub n: usize,
}

impl GateList<'_> {
    // One gate more; answers its bit.
    #[tactic(auto, unfolding(crate::specs::Made::added))]
    pub fn append(&mut self, kind: u32, x: u32, y: u32, z: u32) -> u32
        requires { Fits self.old 1 }
        ensures same { SameList self.old self.new }
        ensures made { made_of self.new result ≡ added (net_of self.old) (gate kind x y z) }
    {
        let n = self.n;
        record::put_gate(self.records, n, Gate { kind, x, y, z });
        self.n = n + 1;
        Gate::unknown(n)
    }
}
