// The listed addresses.
ghost use Rattle.std.specs.Prelude.{◌≡◌, ◌*◌, ◌-◌, ◌≤◌, length};
ghost use Rattle.gates.specs.Made.{net_of, made_of, Fits, SameList};
ghost use Rattle.memory.specs.Address.{at_listed};

use gates::list::GateList;
use words::eq;

// Whether the address is the listed one, a: a's digits are known, so an Xnor costs one gate at most.
pub fn at_listed(list: &mut GateList, a: u64, adr: &[u32], w: usize) -> u32
    requires fits { Fits list.old (2 * w - 1) }
    requires le_w { (1 ≤ w) × (w ≤ 64) × (w ≤ length adr.now) }
    ensures same { SameList list.old list.new }
    ensures made { made_of list.new result ≡ at_listed w a adr.now (net_of list.old) }
{
    let mut listed = [0u32; 65];
    digits::put_digits(a, w, &mut listed);
    eq::eq_words(list, &listed, adr, w)
}
