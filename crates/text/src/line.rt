// The line that a text begins with, and the lines after it.
ghost use Rattle.std.specs.Prelude.{◌≡◌, option_map};
ghost use Rattle.text.specs.Field.{pair_line};
ghost use Rattle.text.specs.NodeLine.{numbers_of, node_fields, node_line};

use crate::field::{kind_field, last_number, name_field, number_field};

// A node's record. (Not `table`'s: for one struct text would lean on two crates more.)
#[derive(Clone, Copy)]
pub struct Node {
    pub kind: u64,
    pub width: u64,
    pub a: u64,
    pub b: u64,
    pub c: u64,
    pub imm: u64,
}

// A line of this name and a number.
pub fn pair_line<'a>(text: &'a [u8], name: &[u8]) -> Option<(u64, &'a [u8])>
    ensures { option_map (λ p. (p.0, p.1.now)) result ≡ pair_line name.now text.now }
{
    let rest = name_field(text, name)?;
    last_number(rest)
}

// A node's fields after its number.
fn node_fields(text: &[u8]) -> Option<(Node, &[u8])>
    ensures { option_map (λ p. (numbers_of p.0, p.1.now)) result ≡ node_fields text.now }
{
    let (kind, rest) = kind_field(text)?;
    let (width, rest) = number_field(rest)?;
    let (a, rest) = number_field(rest)?;
    let (b, rest) = number_field(rest)?;
    let (c, rest) = number_field(rest)?;
    let (imm, rest) = last_number(rest)?;
    let node = Node {
        kind,
        width,
        a,
        b,
        c,
        imm,
    };
    Some((node, rest))
}

// The line of node i.
pub fn node_line(text: &[u8], i: u64) -> Option<(Node, &[u8])>
    ensures { option_map (λ p. (numbers_of p.0, p.1.now)) result ≡ node_line i text.now }
{
    let rest = name_field(text, b"node")?;
    let (n, rest) = number_field(rest)?;
    if n != i {
        return None;
    }
    node_fields(rest)
}
