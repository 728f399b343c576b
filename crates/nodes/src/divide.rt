// A division.
ghost use Rattle.std.specs.Prelude.{◌≡◌, true, ◌+◌, ◌≤◌, length};
ghost use Rattle.gates.specs.Made.{Fits};
ghost use Rattle.table.specs.Kind as kinds;
ghost use Rattle.division.specs.Constraint.{ConFits};
ghost use Rattle.division.specs.Rows.{checked_of, SameLists};
ghost use Rattle.division.specs.Check.{con_count};
ghost use Rattle.division.specs.Divide.{divide_cost};
ghost use Rattle.nodes.specs.Laid.{source_of};
ghost use Rattle.nodes.specs.Own.{divide_own};
ghost use Rattle.nodes.specs.Place.{divide_at};
ghost use Rattle.nodes.specs.Asked.{Owns, core_of};

use crate::place::{Here, Place};
use division::divide::Division;
use division::lists::Lists;
use table::kind::DIVU;
use words::each;

// A division of the words from `a` and from `b` on, as wide as its own bits, which go to their place.
#[tactic(auto, unfolding(crate::specs::Place::divide_at, words::specs::Num::filled))]
pub fn divide_places(
    lists: &mut Lists,
    quotient: bool,
    node: u32,
    a: usize,
    b: usize,
    to: Place,
    map: &mut [u32],
)
    requires fits { Fits lists.old.gates (divide_cost to.wide) }
    requires cons_fit { ConFits lists.old.cons (con_count to.wide) }
    requires le_w { (1 ≤ to.wide) × (to.wide ≤ 64) × (a + to.wide ≤ length map.old) × (b + to.wide ≤ length map.old) × (to.off + to.wide ≤ length map.old) }
    ensures same { SameLists lists.old lists.new }
    ensures made { checked_of lists.new map.new ≡ divide_at quotient node to.wide a b to.off (checked_of lists.old map.old) }
{
    let w = to.wide;
    let mut word = [0u32; 65];
    let division = Division {
        quotient,
        node,
        num: &map[a..a + w],
        den: &map[b..b + w],
        w,
    };
    division.divide(lists, &mut word);
    each::put_bits(map, to.off, &word, w);
}

impl Here<'_> {
    // The own step of a division.
    #[tactic(auto, using(crate::proofs::DivideFacts::divide_steps))]
    pub fn divide_node(&self, lists: &mut Lists, map: &mut [u32])
        requires { Owns (source_of self.now.laid) self.now.laid.offs.now self.now.k (core_of lists.old map.old) × (kinds.divides self.now.node.kind ≡ true) }
        ensures same { SameLists lists.old lists.new }
        ensures made { core_of lists.new map.new ≡ divide_own (source_of self.now.laid) self.now.k (core_of lists.old map.old) }
    {
        let offs = self.laid.offs;
        let num = offs[self.node.a as usize];
        let den = offs[self.node.b as usize];
        let quotient = self.node.kind == DIVU;
        let place = self.laid.place_of(self.k);
        divide_places(lists, quotient, self.k as u32, num, den, place, map);
    }
}
