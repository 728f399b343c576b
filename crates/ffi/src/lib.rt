// The entry points for C and Rust. Numbers and slices alone cross: a slice is a pointer and a length, and what stands beside a refusal is
// stored through a reference. Nothing is asked of the caller beyond what bindings/ramstitcher.h says of pointers.
#![tactic(auto)]

ghost use Rattle.std.specs.Prelude.{◌≡◌};
ghost use Rattle.table.specs.Sheet as sheet;
ghost use Rattle.table.specs.Sheet.{table_fault};
ghost use Rattle.nodes.specs.Source.{source};
ghost use Rattle.lowering.specs.Promise.{Promise};
ghost use Rattle.lowering.specs.Lower as low;
ghost use Rattle.values.specs.Eval as words;
ghost use Rattle.netlist.specs.Check as check;
ghost use Rattle.netlist.specs.Eval as list;
ghost use Rattle.ffi.specs.Count.{gates_made, constraints_held, lower_answer, room_for};

use lowering::lower::Done;
use netlist::sheet;
use table::{Fault, Sums};

// The sums of a table that was checked.
#[tactic(auto, using(table::proofs::sheet::Laws::faulty), unfolding(crate::specs::Count::room_for, loops::specs::Loop::pick))]
fn room_of(table: &[u64], addrs: &[u64], word: u64, checked: Result<(), Fault>) -> Sums
    requires { checked ≡ table_fault table.now addrs.now word }
    ensures { result ≡ room_for table.now addrs.now word }
{
    match checked {
        Ok(()) => table::ceiling::sums(table, addrs, word),
        Err(_) => Sums {
            gates: 0,
            map: 0,
            constraints: 0,
        },
    }
}

// What the lowering of a table asks for: records of gates, places of the map, constraints. Refusals 1 to 6 are given here as there.
#[unsafe(no_mangle)]
pub extern "C" fn ramstitcher_room(
    table: &[u64],
    addrs: &[u64],
    word: u64,
    node: &mut usize,
    gates: &mut u64,
    constraints: &mut u64,
    map: &mut u64,
) -> u64
    ensures value { result ≡ sheet.number (table_fault table.now addrs.now word) }
    ensures node_after { node.new ≡ sheet.node (table_fault table.now addrs.now word) }
    ensures gates_after { gates.new ≡ (room_for table.now addrs.now word).gates }
    ensures constraints_after { constraints.new ≡ (room_for table.now addrs.now word).constraints }
    ensures map_after { map.new ≡ (room_for table.now addrs.now word).map }
{
    let checked = table::sheet::check_table(table, addrs, word);
    let s = room_of(table, addrs, word, checked);
    *gates = s.gates;
    *constraints = s.constraints;
    *map = s.map;
    *node = sheet::place(checked);
    sheet::number(checked)
}

// The lowering. Returns the number on the refusal sheet, 0 for none.
#[unsafe(no_mangle)]
pub extern "C" fn ramstitcher_lower(
    table: &[u64],
    addrs: &[u64],
    word: u64,
    gates: &mut [u32],
    constraints: &mut [u32],
    map: &mut [u32],
    node: &mut usize,
    made: &mut usize,
    held: &mut usize,
) -> u64
    ensures promise { Promise (source table.now addrs.now word) gates.old constraints.old map.old (lower_answer table.now addrs.now word gates.old constraints.old map.old) gates.new constraints.new map.new }
    ensures value { result ≡ low.number (lower_answer table.now addrs.now word gates.old constraints.old map.old) }
    ensures node_after { node.new ≡ low.node (lower_answer table.now addrs.now word gates.old constraints.old map.old) }
    ensures made_after { made.new ≡ gates_made (lower_answer table.now addrs.now word gates.old constraints.old map.old) }
    ensures held_after { held.new ≡ constraints_held (lower_answer table.now addrs.now word gates.old constraints.old map.old) }
{
    let answer = lowering::lower::lower(table, addrs, word, gates, constraints, map);
    let done = answer.unwrap_or(Done {
        gates: 0,
        constraints: 0,
    });
    *made = done.gates;
    *held = done.constraints;
    *node = sheet::place(answer);
    sheet::number(answer)
}

// The word evaluator.
#[unsafe(no_mangle)]
pub extern "C" fn ramstitcher_eval_words(
    table: &[u64],
    addrs: &[u64],
    word: u64,
    values: &mut [u64],
    node: &mut usize,
) -> u64
    ensures value { result ≡ words.number (words.eval_words table.now addrs.now word values.old).answer }
    ensures node_after { node.new ≡ words.node (words.eval_words table.now addrs.now word values.old).answer }
    ensures values_after { values.new ≡ (words.eval_words table.now addrs.now word values.old).values }
{
    let a = values::eval::eval_words(table, addrs, word, values);
    *node = sheet::place(a);
    sheet::number(a)
}

// The gate evaluator.
#[unsafe(no_mangle)]
pub extern "C" fn ramstitcher_eval_gates(gates: &[u32], values: &mut [u8], gate: &mut usize) -> u64
    ensures value { result ≡ check.number (list.eval_gates gates.now values.old).answer }
    ensures gate_after { gate.new ≡ check.place (list.eval_gates gates.now values.old).answer }
    ensures values_after { values.new ≡ (list.eval_gates gates.now values.old).values }
{
    let answer = netlist::eval::eval_gates(gates, values);
    *gate = sheet::place(answer);
    sheet::number(answer)
}
