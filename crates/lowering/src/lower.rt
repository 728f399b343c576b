// The lowering of any table: refusals 1 to 6, then 14, then 7, 8, 9; on success gates, constraints and bit map.
ghost use Rattle.std.specs.Prelude.{◌≡◌, true, ◌≤◌, length, Ok};
ghost use Rattle.table.specs.Sheet.{table_fault, asks};
ghost use Rattle.nodes.specs.Source.{source};
ghost use Rattle.lowering.specs.declared.lower.Refusal.TheVariants.{Table};
ghost use Rattle.lowering.specs.Lower.{run, lowered, ended, lower_clear, marked, Accepted};
ghost use Rattle.lowering.specs.Promise.{Promise};

use crate::root::lower_roots;
use netlist::record;
use netlist::sheet::OnSheet;
use nodes::place::Laid;
use table::sheet::{asks, check_table};
use table::{Fault, Unit};

// How many gates and constraints a lowering has made in the lent buffers.
#[derive(Clone, Copy, Debug, PartialEq, Eq)]
pub struct Done {
    pub gates: usize,
    pub constraints: usize,
}

// Refusals 1 to 6, of the table; 14; 7, 8 and 9.
#[derive(Clone, Copy, Debug, PartialEq, Eq)]
pub enum Refusal {
    Table(Fault),
    NothingAsked,
    GateRoom,
    BitRoom,
    ConstraintRoom,
}

impl From<Fault> for Refusal {
    ghost from_gives = { λ f r. r ≡ Table f };

    fn from(f: Fault) -> Refusal {
        Refusal::Table(f)
    }
}

impl OnSheet for Refusal {
    ghost use Rattle.lowering.specs.Lower.{number_of, place_of};

    ghost number_of = { number_of };

    ghost place_of = { place_of };

    fn number(self) -> u64 {
        match self {
            Refusal::Table(f) => f.number(),
            Refusal::NothingAsked => 14,
            Refusal::GateRoom => 7,
            Refusal::BitRoom => 8,
            Refusal::ConstraintRoom => 9,
        }
    }

    // The node that stands beside it.
    fn place(self) -> usize {
        match self {
            Refusal::Table(f) => f.place(),
            _ => 0,
        }
    }
}

// With room for the sums. (Table and buffers stay parameters of their own, as C lends them to `lower`: the clauses speak of each buffer before and
// after, and a struct over them would add a clause `same` for each.)
fn lower_room(
    table: &[u64],
    addrs: &[u64],
    word: u64,
    gates: &mut [u32],
    constraints: &mut [u32],
    map: &mut [u32],
    marks: &mut [u8],
) -> Done
    requires accepted { Accepted (source table.now addrs.now word) gates.old constraints.old map.old }
    requires in_bounds { 513 ≤ length marks.old }
    ensures map_after { run (Ok result) gates.new constraints.new map.new ≡ ended (source table.now addrs.now word) map.old (lowered (source table.now addrs.now word) gates.old constraints.old) }
    ensures marks_after { marks.new ≡ marked (source table.now addrs.now word) gates.old constraints.old marks.old (Ok result) }
{
    let mut offs = [0usize; 514];
    let size = table.len() / 6 + 1;
    let listed = addrs.len() as u64;
    let total = table::size::offsets(Unit::Bit, table, listed, word, &mut offs);
    let laid = Laid {
        table,
        addrs,
        word,
        offs: &offs,
    };
    lower_roots(
        &laid,
        gates,
        constraints,
        &mut map[..total],
        &mut marks[..size],
    )
}

// A table without fault that asks something: room first.
fn lower_clear(
    table: &[u64],
    addrs: &[u64],
    word: u64,
    gates: &mut [u32],
    constraints: &mut [u32],
    map: &mut [u32],
    marks: &mut [u8],
) -> Result<Done, Refusal>
    requires word_value { (table_fault table.now addrs.now word ≡ Ok tt) × (asks table.now ≡ true) }
    requires in_bounds { 513 ≤ length marks.old }
    ensures map_after { run result gates.new constraints.new map.new ≡ lower_clear (source table.now addrs.now word) gates.old constraints.old map.old }
    ensures marks_after { marks.new ≡ marked (source table.now addrs.now word) gates.old constraints.old marks.old result }
{
    let sums = table::ceiling::sums(table, addrs, word);
    let records = record::count(gates) as u64;
    let places = map.len() as u64;
    let pairs = (constraints.len() / 2) as u64;
    if records < sums.gates {
        return Err(Refusal::GateRoom);
    }
    if places < sums.map {
        return Err(Refusal::BitRoom);
    }
    if pairs < sums.constraints {
        return Err(Refusal::ConstraintRoom);
    }
    Ok(lower_room(table, addrs, word, gates, constraints, map, marks))
}

// The lowering, which also marks the nodes that it reached: 1 at a node's number. The program asks for it.
pub fn lower_marked(
    table: &[u64],
    addrs: &[u64],
    word: u64,
    gates: &mut [u32],
    constraints: &mut [u32],
    map: &mut [u32],
    marks: &mut [u8],
) -> Result<Done, Refusal>
    requires { 513 ≤ length marks.old }
    ensures promise { Promise (source table.now addrs.now word) gates.old constraints.old map.old result gates.new constraints.new map.new }
    ensures marks_after { marks.new ≡ marked (source table.now addrs.now word) gates.old constraints.old marks.old result }
{
    check_table(table, addrs, word)?;
    if !asks(table) {
        return Err(Refusal::NothingAsked);
    }
    lower_clear(table, addrs, word, gates, constraints, map, marks)
}

// The lowering of any table into the lent buffers: gates, constraints, and the bit map.
pub fn lower(
    table: &[u64],
    addrs: &[u64],
    word: u64,
    gates: &mut [u32],
    constraints: &mut [u32],
    map: &mut [u32],
) -> Result<Done, Refusal>
    ensures { Promise (source table.now addrs.now word) gates.old constraints.old map.old result gates.new constraints.new map.new }
{
    let mut marks = [0u8; 513];
    lower_marked(table, addrs, word, gates, constraints, map, &mut marks)
}
