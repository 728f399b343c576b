// A table that is lowered, and where its nodes' bits stand in the bit map.
ghost use Rattle.std.specs.Prelude.{◌≡◌, ◌≤◌, length};
ghost use Rattle.table.specs.declared.Unit.TheVariants.{Bit};
ghost use Rattle.table.specs.Node.{nodes, node_at};
ghost use Rattle.table.specs.Size.{Offsets};
ghost use Rattle.nodes.specs.Laid.{source_of};
ghost use Rattle.nodes.specs.Asked.{place_of};

use table::Node;
use table::field::width_at;

// A table, its listed addresses and its word width, and where each node's bits begin. What is asked of it stands in the contracts
// (`Stands`, `Makes`, `Owns`, `Goes`): these are definitions over a `Source` and what is made of it, and the theorems speak in them too.
#[derive(Clone, Copy)]
pub struct Laid<'a> {
    pub table: &'a [u64],
    pub addrs: &'a [u64],
    pub word: u64,
    pub offs: &'a [usize],
}

// Node k of such a table.
#[derive(Clone, Copy)]
pub struct Here<'a> {
    pub laid: Laid<'a>,
    pub k: usize,
    pub node: Node,
    ghost is: { node ≡ node_at laid.table.now k },
}

// So many words, each so wide, from an offset on. The kinds that make word after word have a loop each: one function over a closure
// would say each kind's law once more, as the clause of its closure, for the two lines of a loop. So too where a word is made apart and then
// put into the map.
#[derive(Clone, Copy)]
pub struct Place {
    pub off: usize,
    pub words: usize,
    pub wide: usize,
}

impl Laid<'_> {
    // A word is one word, a memory one for each listed address.
    pub fn place_of(&self, x: usize) -> Place
        requires { Offsets Bit self.now.table.now (length self.now.addrs.now) self.now.word self.now.offs.now × (x ≤ nodes self.now.table.now) }
        ensures { result ≡ place_of (source_of self.now) x }
    {
        let off = self.offs[x];
        let width = width_at(self.table, x as u64);
        if width == 0 {
            return Place {
                off,
                words: self.addrs.len(),
                wide: self.word as usize,
            };
        }
        Place {
            off,
            words: 1,
            wide: width as usize,
        }
    }
}
