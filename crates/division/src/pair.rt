// The quotient and remainder gates.
ghost use Rattle.std.specs.Prelude.{◌≡◌, ◌+◌, ◌*◌, ◌≤◌, ◌<◌, length};
ghost use Rattle.gates.specs.Made.{Fits, SameList};
ghost use Rattle.division.specs.Pair.{pair_of, pair_words};

use gates::list::GateList;
use netlist::record::Gate;

// They alternate from bit 0.
#[tactic(auto, using(crate::proofs::Paths::steps), unfolding(crate::specs::Pair::pair_step))]
pub fn pair_words(list: &mut GateList, node: u32, w: usize, quot: &mut [u32], rem: &mut [u32])
    requires fits { Fits list.old (2 * w) }
    requires w_bound { (w ≤ 64) × (w ≤ length quot.old) × (w ≤ length rem.old) }
    ensures same { SameList list.old list.new }
    ensures made { pair_of list.new quot.new rem.new ≡ pair_words w node (pair_of list.old quot.old rem.old) }
{
    for i in 0..w {
        let bit = i as u32;
        quot[i] = list.append(Gate::QUOTIENT, node, bit, 0);
        rem[i] = list.append(Gate::REMAINDER, node, bit, 0);
    }
}
