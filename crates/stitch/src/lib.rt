// The program but for its reading and writing: the bytes read to the bytes to write.
#![tactic(auto)]

ghost use Rattle.std.specs.Prelude.{◌≤◌, length};
ghost use Rattle.text.specs.Write.{Written};
ghost use Rattle.stitch.specs.Printed.{printed, ROOM};

mod print;

use crate::print::{Source, print_table};
use text::read::{Table, read_text};
use text::write::write_refused;

// What the program prints of a text, from the buffer's first byte on; answers how many bytes it is.
pub fn answer(text: &[u8], out: &mut [u8]) -> usize
    requires { ROOM ≤ length out.old }
    ensures { Written out.old (printed text.now) out.new result }
{
    let mut addrs = [0u64; 64];
    let mut nodes = [0u64; 3072]; // 512 of six numbers
    let Some(
        Table {
            word,
            addrs: n,
            nodes: m,
        },
    ) = read_text(text, &mut addrs, &mut nodes)
    else {
        return write_refused(1, 0, out); // the sheet's first number: there is no table that has a fault
    };
    let end = 6 * m;
    let source = Source {
        nodes: &nodes[..end],
        addrs: &addrs[..n],
        word,
    };
    print_table(source, out)
}
