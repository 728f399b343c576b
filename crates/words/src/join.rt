// All bits of a word joined to one.
ghost use Rattle.std.specs.Prelude.{◌≡◌, ℕ, ◌-◌, ◌≤◌, length};
ghost use Rattle.gates.specs.Made.{net_of, made_of, Fits, SameList};
ghost use Rattle.words.specs.Join.{Joins, join_all};

use crate::each;
use crate::each::Bitwise;
use gates::list::GateList;

// The first w bits, from the lowest up.
pub fn join_all(list: &mut GateList, op: Bitwise, bits: &[u32], w: usize) -> u32
    requires joins { Joins op }
    requires fits { Fits list.old (w - 1) }
    requires le_w { (1 ≤ w) × (w ≤ length bits.now) }
    ensures same { SameList list.old list.new }
    ensures made { made_of list.new result ≡ join_all op w bits.now (net_of list.old) }
{
    let mut joined = bits[0];
    for i in 0..w - 1 {
        joined = each::bit_of(list, op, joined, bits[i + 1]);
    }
    joined
}
