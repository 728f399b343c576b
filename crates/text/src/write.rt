// The lines that the program prints of a lowered table, or of a refusal.
ghost use Rattle.std.specs.Prelude.{◌≡◌, ◌+◌, ◌*◌, ◌≤◌, ◌<◌, length, get_or};
ghost use Rattle.netlist.specs.Record.{used, Room};
ghost use Rattle.text.specs.Put.{put};
ghost use Rattle.text.specs.Writer.{so_far};
ghost use Rattle.text.specs.Write.{constraint_size, gate_count, constraint_count, gate_line, bits_line, next_bits, node_count, constraint_line, refused_line};
ghost use Rattle.text.specs.Write.{each, output, Offsets, output_room, refused_room, Written};

use crate::put::Writer;
use netlist::record;

// Bytes that are always enough for 4,096 gates, 512 nodes, 16,384 map places and 8,192 constraints.
pub const ROOM: usize = 750639;

// Numbers of a constraint.
const CONSTRAINT_SIZE: usize = 2;

// The numbers that the first n records take, which is netlist's to say. Record n starts there.
fn taken(gates: &[u32], n: usize) -> usize
    requires { Room gates.now n }
    ensures { result ≡ used n }
{
    let first = record::part(gates, n);
    first.len()
}

fn gate_line(lines: &mut Writer, gates: &[u32], i: usize)
    requires { Room gates.now (i + 1) }
    ensures after { so_far lines.new ≡ put (so_far lines.old) (gate_line gates.now i) }
    ensures same { lines.new.out.ghost_name ≡ lines.old.out.ghost_name }
{
    let o = taken(gates, i);
    let e = taken(gates, i + 1);
    lines.numbered(b"gate", i as u64, &gates[o..e]);
}

// A line for each gate; below, for each node and each constraint. A loop each: a closure would say the line's clause once more.
fn gate_lines(lines: &mut Writer, gates: &[u32])
    ensures after { so_far lines.new ≡ put (so_far lines.old) (each (gate_count gates.now) (gate_line gates.now)) }
    ensures same { lines.new.out.ghost_name ≡ lines.old.out.ghost_name }
{
    let n = record::count(gates);
    for i in 0..n {
        gate_line(lines, gates, i);
    }
}

// The line of node i, where it is marked as reached.
fn bits_line(lines: &mut Writer, map: &[u32], offsets: &[usize], marks: &[u8], i: usize)
    requires i_in_bounds { (i + 1 < length offsets.now) × (i < length marks.now) }
    requires i_bound { (get_or offsets.now i 0 ≤ get_or offsets.now (i + 1) 0) × (get_or offsets.now (i + 1) 0 ≤ length map.now) }
    ensures after { so_far lines.new ≡ put (so_far lines.old) (bits_line map.now offsets.now marks.now i) }
    ensures same { lines.new.out.ghost_name ≡ lines.old.out.ghost_name }
{
    if marks[i] == 0 {
        return;
    }
    let o = offsets[i];
    let e = offsets[i + 1];
    lines.numbered(b"bits", i as u64, &map[o..e]);
}

fn bits_lines(lines: &mut Writer, map: &[u32], offsets: &[usize], marks: &[u8])
    requires { Offsets offsets.now map.now (length marks.now) }
    ensures after { so_far lines.new ≡ put (so_far lines.old) (each (node_count marks.now) (next_bits map.now offsets.now marks.now)) }
    ensures same { lines.new.out.ghost_name ≡ lines.old.out.ghost_name }
{
    for i in 1..marks.len() {
        bits_line(lines, map, offsets, marks, i);
    }
}

fn constraint_line(lines: &mut Writer, constraints: &[u32], i: usize)
    requires { constraint_size * i + constraint_size ≤ length constraints.now }
    ensures after { so_far lines.new ≡ put (so_far lines.old) (constraint_line constraints.now i) }
    ensures same { lines.new.out.ghost_name ≡ lines.old.out.ghost_name }
{
    let o = CONSTRAINT_SIZE * i;
    lines.record(b"constraint", &constraints[o..o + CONSTRAINT_SIZE]);
}

fn constraint_lines(lines: &mut Writer, constraints: &[u32])
    ensures after { so_far lines.new ≡ put (so_far lines.old) (each (constraint_count constraints.now) (constraint_line constraints.now)) }
    ensures same { lines.new.out.ghost_name ≡ lines.old.out.ghost_name }
{
    let n = constraints.len() / CONSTRAINT_SIZE;
    for i in 0..n {
        constraint_line(lines, constraints, i);
    }
}

// All that is printed of a lowered table, from the buffer's first byte on; answers how many bytes it is. `gates` and `constraints` are
// the used parts; node i is reached where marks[i] is not 0, and its bits stand in the map from offsets[i] up to offsets[i + 1]. (Each list
// lies in a buffer of its own, as the lowering fills it.)
pub fn write(
    gates: &[u32],
    map: &[u32],
    offsets: &[usize],
    marks: &[u8],
    constraints: &[u32],
    out: &mut [u8],
) -> usize
    requires offsets { Offsets offsets.now map.now (length marks.now) }
    requires constraints_in_bounds { output_room (gate_count gates.now) (node_count marks.now) (length map.now) (constraint_count constraints.now) ≤ length out.old }
    ensures { Written out.old (output gates.now map.now offsets.now marks.now constraints.now) out.new result }
{
    let mut lines = Writer { out, at: 0 };
    gate_lines(&mut lines, gates);
    bits_lines(&mut lines, map, offsets, marks);
    constraint_lines(&mut lines, constraints);
    let g = record::count(gates);
    let k = constraints.len() / CONSTRAINT_SIZE;
    lines.pair(b"done", g as u64, k as u64);
    lines.at
}

// A refusal's one line, from the buffer's first byte on.
pub fn write_refused(number: u64, node: u64, out: &mut [u8]) -> usize
    requires { refused_room ≤ length out.old }
    ensures { Written out.old (refused_line number node) out.new result }
{
    let mut lines = Writer { out, at: 0 };
    lines.pair(b"refused", number, node);
    lines.at
}
