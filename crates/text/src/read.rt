// A table's text: any bytes are read into a table or a refusal, in one pass up to the first line at fault. (Only the line that ends the
// addresses is looked at twice: as an address, then as a node.)
ghost use Rattle.std.specs.Prelude.{◌≡◌, ◌+◌, ◌*◌, ◌≤◌, length};
ghost use Rattle.std.proofs.lemmas.List.Edits.{sets};
ghost use Rattle.text.specs.Rows.{rows};
ghost use Rattle.text.specs.Plain.{is_addr, addr_of, is_node, node_of};
ghost use Rattle.text.specs.NodeLine.{numbers_of};
ghost use Rattle.text.specs.Read.{addr_size, node_size, fill, read_text};
ghost use Rattle.text.specs.Read.Filled.{filled};
ghost use Rattle.text.specs.Read.Stored.{stored};

use crate::line::{Node, node_line, pair_line};

// No text of 64 addresses and 512 nodes at most is longer, so a program needs to read one byte more and nothing beyond.
pub const LONGEST: usize = 72858;

// Numbers of a node's record.
const NODE_SIZE: usize = 6;

// The word width, and how many addresses and nodes there are: they lie in the two lent buffers.
#[derive(Clone, Copy)]
pub struct Table {
    pub word: u64,
    pub addrs: usize,
    pub nodes: usize,
}

// The address lines that a text begins with, until one is none or the room is used up: how many, and the lines after them.
fn read_addrs<'a>(text: &'a [u8], addrs: &mut [u64]) -> (usize, &'a [u8])
    ensures { filled addrs.new result.0 (rows result.1.now) ≡ fill addr_size is_addr addr_of addrs.old 0 (rows text.now) }
{
    let mut rest = text;
    for n in 0..addrs.len() {
        let Some((addr, next)) = pair_line(rest, b"addr") else {
            return (n, rest);
        };
        addrs[n] = addr;
        rest = next;
    }
    (addrs.len(), rest)
}

fn store(nodes: &mut [u64], n: usize, node: Node)
    requires { node_size * n + node_size ≤ length nodes.old }
    ensures { nodes.new ≡ sets nodes.old (node_size * n) (numbers_of node) }
{
    let start = NODE_SIZE * n;
    let record = [node.kind, node.width, node.a, node.b, node.c, node.imm];
    nodes[start..start + NODE_SIZE].copy_from_slice(&record);
}

// The node lines that a text begins with, until one is none or the room is used up: how many, and the lines after them. (A loop beside read_addrs':
// one for both would take two closures with a clause each, what is read and where it is stored, and be longer.)
fn read_nodes<'a>(text: &'a [u8], nodes: &mut [u64]) -> (usize, &'a [u8])
    ensures { filled nodes.new result.0 (rows result.1.now) ≡ fill node_size is_node node_of nodes.old 0 (rows text.now) }
{
    let room = nodes.len() / NODE_SIZE;
    let mut rest = text;
    for n in 0..room {
        let Some((node, next)) = node_line(rest, n as u64 + 1) else {
            return (n, rest);
        };
        store(nodes, n, node);
        rest = next;
    }
    (room, rest)
}

// The whole text. What the buffers have no room for is refused: a table has at most 64 addresses and 512 nodes.
pub fn read_text(text: &[u8], addrs: &mut [u64], nodes: &mut [u64]) -> Option<Table>
    ensures { stored result addrs.new nodes.new ≡ read_text text.now addrs.old nodes.old }
{
    let (word, rest) = pair_line(text, b"word")?;
    let (listed, rest) = read_addrs(rest, addrs);
    let (count, rest) = read_nodes(rest, nodes);
    if !rest.is_empty() {
        return None;
    }
    Some(Table {
        word,
        addrs: listed,
        nodes: count,
    })
}
