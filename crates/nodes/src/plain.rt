// The words that are made of one or two words, or of none.
ghost use Rattle.std.specs.Prelude.{◌≡◌, false, ◌+◌, ◌*◌, ◌-◌, ◌≤◌, length};
ghost use Rattle.table.specs.Kind as kinds;
ghost use Rattle.table.specs.Ceiling.{ceiling};
ghost use Rattle.gates.specs.Made.{net_of, Fits, SameList};
ghost use Rattle.digits.specs.Digits.{put_digits};
ghost use Rattle.words.specs.Num.{blank};
ghost use Rattle.words.specs.Each.{word_of, put_bits};
ghost use Rattle.nodes.specs.Laid.{source_of};
ghost use Rattle.nodes.specs.Own.{plain_word, word_own, each_word};
ghost use Rattle.nodes.specs.Place.{plain_at};
ghost use Rattle.nodes.specs.Asked.{Makes, Turned, Plain, right_of};

use crate::place::Here;
use gates::list::GateList;
use table::Node;
use table::kind::{ADD, AND, CONST, EQ, MUL, NOT, OR, SLL, SRL, SUB, ULT};
use words::each::Bitwise;
use words::shift::Direction;
use words::{add, each, eq, mul, shift, sub};

// The word of a node over its operands' words, which are v wide.
fn plain_word(list: &mut GateList, node: Node, v: usize, a: &[u32], b: &[u32], out: &mut [u32])
    requires fits { Fits list.old (ceiling 0 0 node v) }
    requires kind { (node.kind ≡ kinds.CONST → ⊥) × (kinds.compares node.kind ≡ false → node.width ≡ v) }
    requires le_v { (1 ≤ v) × (v ≤ 64) × (v ≤ length a.now) × (v ≤ length b.now) × (out.old ≡ blank) }
    ensures same { SameList list.old list.new }
    ensures made { word_of list.new out.new ≡ plain_word node v a.now b.now (net_of list.old) }
{
    match node.kind {
        NOT => each::each_bit(list, Bitwise::Not, a, a, v, out),
        AND => each::each_bit(list, Bitwise::And, a, b, v, out),
        OR => each::each_bit(list, Bitwise::Or, a, b, v, out),
        EQ => out[0] = eq::eq_words(list, a, b, v),
        ULT => out[0] = sub::ult_words(list, a, b, v),
        ADD => {
            add::add_words(list, a, b, v, 0, out);
        }
        SUB => {
            sub::sub_words(list, a, b, v, out);
        }
        MUL => mul::mul_words(list, a, b, v, out),
        SLL => shift::shift_words(list, Direction::Left, a, b, v, out),
        SRL => shift::shift_words(list, Direction::Right, a, b, v, out),
        _ => {}
    }
}

// A node whose operands' bits stand in the map from `a` and from `b` on; its own go to the places from `to` on.
#[tactic(auto, using(crate::proofs::Paths::steps), unfolding(crate::specs::Place::plain_at, words::specs::Num::filled))]
pub fn plain_node(
    list: &mut GateList,
    node: Node,
    v: usize,
    a: usize,
    b: usize,
    to: usize,
    map: &mut [u32],
)
    requires fits { Fits list.old (ceiling 0 0 node v) }
    requires kind { (node.kind ≡ kinds.CONST → ⊥) × (kinds.compares node.kind ≡ false → node.width ≡ v) }
    requires le_v { (1 ≤ v) × (v ≤ 64) × (node.width ≤ 64) × (a + v ≤ length map.old) × (b + v ≤ length map.old) × (to + node.width ≤ length map.old) }
    ensures same { SameList list.old list.new }
    ensures made { word_of list.new map.new ≡ plain_at node v a b to (word_of list.old map.old) }
{
    let mut word = [0u32; 65];
    plain_word(list, node, v, &map[a..a + v], &map[b..b + v], &mut word);
    each::put_bits(map, to, &word, node.width as usize);
}

// A const: the digits of its number.
#[tactic(auto, unfolding(words::specs::Num::filled))]
pub fn const_node(number: u64, w: usize, to: usize, map: &mut [u32])
    requires { (w ≤ 64) × (to + w ≤ length map.old) }
    ensures { map.new ≡ put_bits to (put_digits number w blank) w map.old }
{
    let mut word = [0u32; 65];
    digits::put_digits(number, w, &mut word);
    each::put_bits(map, to, &word, w);
}

// The second operand; a not has but one, which then stands for both.
#[tactic(auto, unfolding(loops::specs::Loop::pick))]
fn right_of(node: Node) -> u64
    ensures { result ≡ right_of node }
{
    if node.kind == NOT {
        return node.a;
    }
    node.b
}

impl Here<'_> {
    // The own step of a node that is one word, made of its operands' words or of its number.
    pub fn word_node(&self, list: &mut GateList, map: &mut [u32])
        requires { Makes (source_of self.now.laid) self.now.laid.offs.now list.old (length map.old) self.now.k × Plain self.now.node }
        ensures same { SameList list.old list.new }
        ensures made { Turned (each_word (source_of self.now.laid) self.now.k (word_own (source_of self.now.laid) self.now.k)) (net_of list.old) map.old (net_of list.new) map.new }
    {
        let node = self.node;
        let place = self.laid.place_of(self.k);
        if node.kind == CONST {
            const_node(node.imm, place.wide, place.off, map);
            return;
        }
        let left = self.laid.place_of(node.a as usize);
        let second = self.laid.offs[right_of(node) as usize];
        plain_node(list, node, left.wide, left.off, second, place.off, map);
    }
}
