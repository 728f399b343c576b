// Reading a memory.
ghost use Rattle.std.specs.Prelude.{◌≡◌, ◌+◌, ◌*◌, ◌-◌, ◌≤◌, ◌<◌, length};
ghost use Rattle.gates.specs.Made.{Fits, SameList};
ghost use Rattle.words.specs.Each.{word_of};
ghost use Rattle.memory.specs.Read.{cleared, read_known, read_one, read_words};

use crate::address;
use gates::list::GateList;
use table::sheet::find;
use words::each;
use words::each::Bitwise;

// The result at first, and where an address is not listed: known false.
#[tactic(auto, using(words::proofs::EachLaws::fill_path))]
fn clear(out: &mut [u32], w: usize)
    requires { (w ≤ 64) × (w ≤ length out.old) }
    ensures { out.new ≡ cleared w out.old }
{
    out[..w].fill(0);
}

// Read at a known address: one word is copied, if it is listed.
fn read_known(addrs: &[u64], mem: &[u32], a: u64, w: usize, out: &mut [u32])
    requires { (length addrs.now * w ≤ length mem.now) × (w ≤ 64) × (w ≤ length out.old) }
    ensures { out.new ≡ read_known (length addrs.now) w addrs.now mem.now a out.old }
{
    if let Some(i) = find(addrs, a) {
        let from = i * w;
        each::put_bits(out, 0, &mem[from..from + w], w);
        return;
    }
    clear(out, w);
}

// Read at one listed address, a, whose word is given, onto the result.
fn read_one(list: &mut GateList, a: u64, word: &[u32], adr: &[u32], w: usize, out: &mut [u32])
    requires fits { Fits list.old (4 * w - 1) }
    requires le_w { (1 ≤ w) × (w ≤ 64) × (w ≤ length word.now) × (w ≤ length adr.now) × (w ≤ length out.old) }
    ensures same { SameList list.old list.new }
    ensures made { word_of list.new out.new ≡ read_one w a word.now adr.now (word_of list.old out.old) }
{
    let equal = address::at_listed(list, a, adr, w);
    let mut ands = [0u32; 65];
    each::each_bit(list, Bitwise::AndWith(equal), word, word, w, &mut ands);
    each::each_onto(list, Bitwise::Or, out, w, &mut ands);
    each::put_bits(out, 0, &ands, w);
}

// The word of w bits that a memory has at an address: where that is not known, every listed word takes part.
pub fn read_words(
    list: &mut GateList,
    addrs: &[u64],
    mem: &[u32],
    adr: &[u32],
    w: usize,
    out: &mut [u32],
)
    requires fits { Fits list.old (length addrs.now * (4 * w - 1)) }
    requires le_w { (1 ≤ w) × (w ≤ 64) × (w ≡ length adr.now) × (w ≤ length out.old) }
    requires w_in_bounds { length addrs.now * w ≤ length mem.now }
    ensures same { SameList list.old list.new }
    ensures made { word_of list.new out.new ≡ read_words (length addrs.now) w addrs.now mem.now adr.now (word_of list.old out.old) }
{
    if let Some(a) = digits::known(adr) {
        read_known(addrs, mem, a, w, out);
        return;
    }
    clear(out, w);
    for i in 0..addrs.len() {
        let from = i * w;
        read_one(list, addrs[i], &mem[from..from + w], adr, w, out);
    }
}
