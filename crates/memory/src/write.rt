// Writing a memory, in place.
ghost use Rattle.std.specs.Prelude.{◌≡◌, ◌+◌, ◌*◌, ◌-◌, ◌≤◌, ◌<◌, length};
ghost use Rattle.gates.specs.Made.{Fits, SameList};
ghost use Rattle.words.specs.Each.{word_of};
ghost use Rattle.memory.specs.Write.{write_known, write_one, write_words};

use crate::address;
use gates::list::GateList;
use table::sheet::find;
use words::each;
use words::each::Bitwise;

// Write at a known address: one word is replaced, if it is listed.
fn write_known(addrs: &[u64], a: u64, val: &[u32], w: usize, mem: &mut [u32])
    requires { (length addrs.now * w ≤ length mem.old) × (w ≤ length val.now) }
    ensures { mem.new ≡ write_known (length addrs.now) w addrs.now a val.now mem.old }
{
    if let Some(i) = find(addrs, a) {
        let from = i * w;
        each::put_bits(mem, from, val, w);
    }
}

// Write at one listed address, a, whose word is given: it becomes the value, or stays.
fn write_one(list: &mut GateList, a: u64, adr: &[u32], val: &[u32], w: usize, word: &mut [u32])
    requires fits { Fits list.old (5 * w - 1) }
    requires le_w { (1 ≤ w) × (w ≤ 64) × (w ≤ length adr.now) × (w ≤ length val.now) × (w ≤ length word.old) }
    ensures same { SameList list.old list.new }
    ensures made { word_of list.new word.new ≡ write_one w a adr.now val.now (word_of list.old word.old) }
{
    let equal = address::at_listed(list, a, adr, w);
    each::each_onto(list, Bitwise::Choose(equal), val, w, word);
}

// A word of w bits written to the memory at an address: where that is not known, every listed word may be the one.
// (A read asks alike whether the address is known; that question is all that the two share.)
pub fn write_words(
    list: &mut GateList,
    addrs: &[u64],
    adr: &[u32],
    val: &[u32],
    w: usize,
    mem: &mut [u32],
)
    requires fits { Fits list.old (length addrs.now * (5 * w - 1)) }
    requires le_w { (1 ≤ w) × (w ≤ 64) × (w ≡ length adr.now) × (w ≤ length val.now) }
    requires w_in_bounds { length addrs.now * w ≤ length mem.old }
    ensures same { SameList list.old list.new }
    ensures made { word_of list.new mem.new ≡ write_words (length addrs.now) w addrs.now adr.now val.now (word_of list.old mem.old) }
{
    if let Some(a) = digits::known(adr) {
        write_known(addrs, a, val, w, mem);
        return;
    }
    for i in 0..addrs.len() {
        let from = i * w;
        write_one(list, addrs[i], adr, val, w, &mut mem[from..from + w]);
    }
}
