ghost use Rattle.std.specs.Prelude.{◌≡◌, ◌^◌, ◌≤◌, ◌<◌, ltb, length};
ghost use Rattle.loops.specs.Loop.{found};
ghost use Rattle.table.specs.Sheet as sheet;
ghost use Rattle.table.specs.Sheet.{size_good, is_at, address_bad, addresses_bad, operand, operands_good, sort_good, sorts_good, fault_of, node_fault, nodes_fault, table_fault};

use crate::field::{node_at, width_at};
use crate::kind::{
    BAD, CONST, INPUT, ITE, NOT, READ, STATE, WRITE, compares, evenly, extends, lowered, may_use_a,
    named, uses_a, uses_b, uses_c, uses_imm,
};
use crate::{Fault, Node};
use netlist::sheet::OnSheet;

impl OnSheet for Fault {
    ghost number_of = { sheet.number_of };

    ghost place_of = { sheet.place_of };

    fn number(self) -> u64 {
        match self {
            Fault::Size => 1,
            Fault::Address => 2,
            Fault::Kind(_) => 3,
            Fault::NotLowered(_) => 4,
            Fault::Operand(_) => 5,
            Fault::Sort(_) => 6,
        }
    }

    // A node.
    fn place(self) -> usize {
        match self {
            Fault::Size | Fault::Address => 0,
            Fault::Kind(i) | Fault::NotLowered(i) | Fault::Operand(i) | Fault::Sort(i) => i,
        }
    }
}

// Whether x is below 2^width.
#[tactic(auto, using(crate::proofs::sheet::Laws::fits_rules))]
pub fn fits(x: u64, width: u64) -> bool
    ensures { result ≡ ltb x (2 ^ width) }
{
    if width < 64 {
        return x >> width == 0;
    }
    true
}

#[tactic(auto, unfolding(crate::specs::Sheet::size_good))]
fn size_good(table: &[u64], addrs: &[u64], w: u64) -> bool
    ensures { result ≡ size_good table.now addrs.now w }
{
    let len = table.len();
    (len % 6 == 0) & (len / 6 <= 512) & (addrs.len() <= 64) & (1 <= w) & (w <= 64)
}

// The place of x among the addresses.
pub fn find(addrs: &[u64], x: u64) -> Option<usize>
    ensures { result ≡ found (length addrs.now) (is_at addrs.now x) }
{
    addrs.iter().position(|a| *a == x)
}

fn address_bad(addrs: &[u64], w: u64, i: usize) -> bool
    requires { i < length addrs.now }
    ensures { result ≡ address_bad addrs.now w i }
{
    let x = addrs[i];
    addrs[..i].contains(&x) | !fits(x, w)
}

fn addresses_bad(addrs: &[u64], w: u64) -> bool
    ensures { result ≡ addresses_bad addrs.now w }
{
    (0..addrs.len()).any(|i| address_bad(addrs, w, i))
}

// Whether x may be an operand of node i, which must or may use one there.
fn operand_good(must: bool, may: bool, i: usize, x: u64) -> bool
    ensures { result ≡ operand must may i x }
{
    (!must & (x == 0)) | (may & (1 <= x) & ((x as usize) < i))
}

#[tactic(auto, unfolding(crate::specs::Sheet::operands_good))]
fn operands_good(i: usize, node: Node) -> bool
    ensures { result ≡ operands_good i node }
{
    let k = node.kind;
    operand_good(uses_a(k), may_use_a(k), i, node.a)
        & operand_good(uses_b(k), uses_b(k), i, node.b)
        & operand_good(uses_c(k), uses_c(k), i, node.c)
        & (uses_imm(k) | (node.imm == 0))
}

// The sort rules, for a node over operands of widths va, vb and vc.
#[tactic(auto, unfolding(crate::specs::Sheet::sort_good))]
fn sort_good(w: u64, node: Node, va: u64, vb: u64, vc: u64) -> bool
    ensures { result ≡ sort_good w node va vb vc }
{
    let k = node.kind;
    let v = node.width;
    (v <= 64)
        & (((k == CONST) & (1 <= v) & fits(node.imm, v))
            | (k == INPUT)
            | ((k == STATE) & ((node.a == 0) | (va == v)))
            | ((k == NOT) & (1 <= v) & (va == v))
            | (evenly(k) & (1 <= v) & (va == v) & (vb == v))
            | ((k == BAD) & (v == 1) & (va == 1))
            | (extends(k) & (1 <= va) & (va <= v))
            | (compares(k) & (v == 1) & (1 <= va) & (vb == va))
            | ((k == ITE) & (va == 1) & (vb == v) & (vc == v))
            | ((k == READ) & (v == w) & (va == 0) & (vb == w))
            | ((k == WRITE) & (v == 0) & (va == 0) & (vb == w) & (vc == w)))
}

#[tactic(auto, unfolding(crate::specs::Sheet::sorts_good))]
fn sorts_good(table: &[u64], w: u64, node: Node) -> bool
    ensures { result ≡ sorts_good table.now w node }
{
    let va = width_at(table, node.a);
    let vb = width_at(table, node.b);
    let vc = width_at(table, node.c);
    sort_good(w, node, va, vb, vc)
}

// The first of 3 to 6 at a node with number i.
#[tactic(auto, unfolding(crate::specs::Sheet::fault_of, loops::specs::Loop::pick))]
fn fault_of(table: &[u64], w: u64, i: usize, node: Node) -> Result<(), Fault>
    ensures { result ≡ fault_of table.now w i node }
{
    if !named(node.kind) {
        return Err(Fault::Kind(i));
    }
    if !lowered(node.kind) {
        return Err(Fault::NotLowered(i));
    }
    if !operands_good(i, node) {
        return Err(Fault::Operand(i));
    }
    if !sorts_good(table, w, node) {
        return Err(Fault::Sort(i));
    }
    Ok(())
}

#[tactic(auto, unfolding(crate::specs::Sheet::node_fault))]
fn node_fault(table: &[u64], w: u64, i: usize) -> Result<(), Fault>
    ensures { result ≡ node_fault table.now w i }
{
    fault_of(table, w, i, node_at(table, i))
}

// Nodes upwards, to the first with a fault.
#[tactic(auto, using(crate::proofs::sheet::Laws::nodes_rules))]
fn nodes_fault(table: &[u64], w: u64) -> Result<(), Fault>
    ensures { result ≡ nodes_fault table.now w }
{
    for i in 0..table.len() / 6 {
        node_fault(table, w, i + 1)?;
    }
    Ok(())
}

// The first of 1 to 6 that applies to a table, its listed addresses and its word width: three parameters here and above, as C lends them.
#[tactic(auto, unfolding(crate::specs::Sheet::table_fault, loops::specs::Loop::pick))]
pub fn check_table(table: &[u64], addrs: &[u64], w: u64) -> Result<(), Fault>
    ensures { result ≡ table_fault table.now addrs.now w }
{
    if !size_good(table, addrs, w) {
        return Err(Fault::Size);
    }
    if addresses_bad(addrs, w) {
        return Err(Fault::Address);
    }
    nodes_fault(table, w)
}

// Whether a table asks anything: it has a bad node. A record cut off at the end is no node.
pub fn asks(table: &[u64]) -> bool
    ensures { result ≡ sheet.asks table.now }
{
    let whole = table.len() / 6;
    (0..whole).any(|i| node_at(table, i + 1).kind == BAD)
}
