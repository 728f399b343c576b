ghost use Rattle.std.specs.Prelude.{◌≡◌, ◌+◌, ◌≤◌};
ghost use Rattle.table.specs.Node.{nodes};
ghost use Rattle.values.specs.Eval.{Ready, offset};

// A table without fault, its listed addresses, and where each node's slots begin. (`Listing` counts alone, and nodes' `Laid` has the word width
// and the offsets of bits: what is known of each differs.)
#[derive(Clone, Copy)]
pub struct Layout<'a> {
    pub table: &'a [u64],
    pub addrs: &'a [u64],
    pub offsets: &'a [usize],
    pub ghost ready: { Ready table.now addrs.now offsets.now },
}

impl Layout<'_> {
    // Where the slots of node i begin: not far.
    pub(crate) fn offset(&self, i: usize) -> usize
        requires { i ≤ nodes self.now.table.now + 1 }
        ensures { (result ≡ offset self.now.table.now self.now.addrs.now i) × (result ≤ 65536) }
    {
        self.offsets[i]
    }
}
