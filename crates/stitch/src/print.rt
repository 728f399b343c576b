// A table's lines: it is lowered, and the lowering printed, or a refusal.
ghost use Rattle.std.specs.Prelude.{◌≤◌, length};
ghost use Rattle.text.specs.Write.{Written};
ghost use Rattle.stitch.specs.Printed.{done_output, table_lines, ROOM};
ghost use Rattle.stitch.specs.Lent.{Done};
ghost use Rattle.stitch.specs.Read.{source_of};

use lowering::lower::lower_marked;
use netlist::record;
use netlist::sheet::OnSheet;
use table::Unit;
use text::write::{write, write_refused};

// Room for 4,096 gates.
const GATE_NUMBERS: usize = 4096 * record::SIZE;

// A table as it was read: its nodes, six numbers each, the listed addresses and the word width. (Nothing is known of it yet, as it is of `Layout`
// and `Laid`.)
#[derive(Clone, Copy)]
pub struct Source<'a> {
    pub nodes: &'a [u64],
    pub addrs: &'a [u64],
    pub word: u64,
}

// A lowering that is done: its gates and constraints, and the whole map and marks.
#[derive(Clone, Copy)]
pub struct Lowered<'a> {
    pub gates: &'a [u32],
    pub constraints: &'a [u32],
    pub map: &'a [u32],
    pub marks: &'a [u8],
}

fn print_done(table: Source, made: Lowered, out: &mut [u8]) -> usize
    requires done { Done (source_of table) made.gates.now made.constraints.now made.map.now made.marks.now }
    requires in_bounds { ROOM ≤ length out.old }
    ensures { Written out.old (done_output (source_of table.entry) made.entry.gates.now made.entry.constraints.now made.entry.map.now made.entry.marks.now) out.new result }
{
    let mut offsets = [0usize; 514]; // at the nodes' numbers, from 0, and where the last node's bits end
    let size = table.nodes.len() / 6 + 1;
    let end = size + 1;
    let listed = table.addrs.len() as u64;
    let total = table::size::offsets(Unit::Bit, table.nodes, listed, table.word, &mut offsets);
    write(
        made.gates,
        &made.map[..total],
        &offsets[..end],
        &made.marks[..size],
        made.constraints,
        out,
    )
}

pub fn print_table(table: Source, out: &mut [u8]) -> usize
    requires { ROOM ≤ length out.old }
    ensures { Written out.old (table_lines (source_of table.entry)) out.new result }
{
    let mut gates = [0u32; GATE_NUMBERS];
    let mut constraints = [0u32; 16384]; // 8,192 of two
    let mut map = [0u32; 16384];
    let mut marks = [0u8; 513]; // at the nodes' numbers, from 0
    let answer = lower_marked(
        table.nodes,
        table.addrs,
        table.word,
        &mut gates,
        &mut constraints,
        &mut map,
        &mut marks,
    );
    match answer {
        Err(refusal) => {
            let place = refusal.place() as u64;
            write_refused(refusal.number(), place, out)
        }
        Ok(done) => {
            let asked = 2 * done.constraints;
            let made = Lowered {
                gates: record::part(&gates, done.gates),
                constraints: &constraints[..asked],
                map: &map,
                marks: &marks,
            };
            print_done(table, made, out)
        }
    }
}
