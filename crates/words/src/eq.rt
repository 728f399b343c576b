// Equality of two words.
ghost use Rattle.std.specs.Prelude.{◌≡◌, ℕ, ◌≤◌, length};
ghost use Rattle.gates.specs.Made.{net_of, made_of, Fits, SameList};
ghost use Rattle.words.specs.Eq.{eq_cost, eq_words};

use crate::each::Bitwise;
use crate::{each, join};
use gates::list::GateList;

// All Xnors, then the Ands.
pub fn eq_words(list: &mut GateList, left: &[u32], right: &[u32], w: usize) -> u32
    requires fits { Fits list.old (eq_cost left.now right.now w) }
    requires le_w { (1 ≤ w) × (w ≤ 65) × (w ≤ length left.now) × (w ≤ length right.now) }
    ensures same { SameList list.old list.new }
    ensures made { made_of list.new result ≡ eq_words w left.now right.now (net_of list.old) }
{
    let mut equal = [0u32; 65];
    each::each_bit(list, Bitwise::Xnor, left, right, w, &mut equal);
    join::join_all(list, Bitwise::And, &equal, w)
}
