ghost use Rattle.std.specs.Prelude.{◌≡◌, ◌+◌, ◌*◌, ◌≤◌, ◌<◌, length};
ghost use Rattle.table.specs.Node.{nodes, Narrow};
ghost use Rattle.table.specs.Size.{size_of, node_size, size_sum, offsets_into};

use crate::Unit;
use crate::field::width_at;

// A product that stays small.
pub fn times(a: u64, b: u64) -> u64
    requires { (a ≤ 4096) × (b ≤ 4096) }
    ensures { (result ≡ a * b) × (result ≤ 16777216) }
{
    a * b
}

// How many addresses are listed, and how wide a memory's words are.
#[derive(Clone, Copy)]
pub struct Listing {
    pub n: u64,
    pub w: u64,
    pub ghost small: { (n ≤ 64) × (w ≤ 64) },
}

impl Listing {
    // The places of a node of width v.
    #[tactic(auto, unfolding(loops::specs::Loop::pick))]
    pub fn size_of(self, unit: Unit, v: u64) -> u64
        requires { v ≤ 64 }
        ensures { (result ≡ size_of unit self.n self.w v) × (result ≤ 16777216) }
    {
        match unit {
            Unit::Bit if v == 0 => times(self.n, self.w),
            Unit::Bit => v,
            Unit::Slot if v == 0 => self.n,
            Unit::Slot => 1,
        }
    }

    // The places of node i + 1.
    #[tactic(auto, unfolding(crate::specs::Size::node_size))]
    pub fn node_size(self, unit: Unit, table: &[u64], i: usize) -> u64
        requires { (i < 512) × Narrow table.now }
        ensures { (result ≡ node_size unit table.now self.n self.w i) × (result ≤ 16777216) }
    {
        self.size_of(unit, width_at(table, (i + 1) as u64))
    }
}

// Where each node's places begin, at its number; after the last, where they end. The end is the answer too. (n and w as the callers have
// them: a `Listing` would be made for this call alone.)
pub fn offsets(unit: Unit, table: &[u64], n: u64, w: u64, out: &mut [usize]) -> usize
    requires n_bound { (n ≤ 64) × (w ≤ 64) × (nodes table.now ≤ 512) × Narrow table.now }
    requires table_in_bounds { nodes table.now + 2 ≤ length out.old }
    ensures { (result ≡ size_sum unit table.now n w) × (out.new ≡ offsets_into unit table.now n w out.old) }
{
    let listing = Listing { n, w };
    let m = table.len() / 6;
    let mut at = 0;
    out[0] = 0;
    for i in 0..m {
        out[i + 1] = at;
        at += listing.node_size(unit, table, i) as usize;
    }
    out[m + 1] = at;
    at
}
