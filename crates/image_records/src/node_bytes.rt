// The bytes of an expression's record: as they are written, and whether they stand there.
ghost use Rattle.std.specs.Prelude.{◌≡◌, ◌-◌, ◌*◌, ◌%◌, ◌<◌, take, drop};
ghost use Rattle.language.specs.Decode.{node_of, operator_of, plain_node};
ghost use Rattle.language.specs.Encode.{digit_record, node_bytes, node_record, node_size};
ghost use Rattle.language.specs.Scan.{same};
ghost use Rattle.image_records.specs.Nodes.{meant};

use crate::nodes::Node;
use crate::{constants, marks, numbers, record_sizes};

// The marks beside which operators' find room.
const WHOLE: u16 = marks::WHOLE as u16;

const ONE: u16 = marks::ONE as u16;

const PART: u16 = marks::PART as u16;

const TWO: u16 = marks::TWO as u16;

const WORD_PART: u16 = marks::WORD_PART as u16;

const FIRST_ARM: u16 = marks::FIRST_ARM as u16;

const NEXT_ARM: u16 = marks::NEXT_ARM as u16;

const CHOICE: u16 = marks::CHOICE as u16;

// A mark, a byte, and three numbers.
#[tactic(auto, unfolding(language::specs::Encode::little))]
fn fields(mark: u16, x: u8, a: u16, b: u16, c: u16) -> [u8; record_sizes::NODE]
    ensures { result ≡ node_record mark x a b c }
{
    let [a0, a1] = a.to_le_bytes();
    let [b0, b1] = b.to_le_bytes();
    let [c0, c1] = c.to_le_bytes();
    [numbers::low(mark), x, a0, a1, b0, b1, c0, c1]
}

// A mark, a byte, and a number in six bytes.
#[tactic(auto, unfolding(language::specs::Encode::little))]
fn digit_record(mark: u8, x: u8, n: u64) -> [u8; record_sizes::NODE]
    ensures { result ≡ digit_record mark x n }
{
    let [b0, b1, b2, b3, b4, b5, ..] = n.to_le_bytes();
    [mark, x, b0, b1, b2, b3, b4, b5]
}

// The field for a constant's length.
fn length_field(l: u16) -> u8
    ensures { result ≡ (l - 1) % 256 }
{
    numbers::low(l.saturating_sub(1))
}

// The bytes of a record; v is a constant's number, or its low 64 bits.
pub fn node_bytes(node: Node, v: u64) -> [u8; record_sizes::NODE]
    ensures { result ≡ node_bytes (meant v node) }
{
    match node {
        Node::Constant(l) => digit_record(marks::CONSTANT, length_field(l), v % 0x1000000000000),
        Node::More(d) => digit_record(marks::MORE, 0, d),
        Node::Whole(f) => fields(WHOLE, f, 0, 0, 0),
        Node::One(f, e) => fields(ONE, f, e, 0, 0),
        Node::Part(f, a, b) => fields(PART, f, a, b, 0),
        Node::Two(f, e, g) => fields(TWO, f, e, g, 0),
        Node::WordPart(f, e, a, b) => fields(WORD_PART, f, e, a, b),
        Node::FirstArm(e) => fields(FIRST_ARM, 0, e, 0, 0),
        Node::NextArm(a, e) => fields(NEXT_ARM, 0, a, e, 0),
        Node::Choice(e, a, n) => fields(CHOICE, 0, e, a, n),
        Node::Binary(k, a, b) => fields(marks::BINARY + k as u16, 0, a, b, 0),
        Node::Prefix(k, a) => fields(marks::PREFIX + k as u16, 0, a, 0, 0),
        Node::Cut(k, a, c) => fields(marks::CUT + k as u16, 0, a, c, 0),
        Node::Broken => fields(0, 0, 0, 0, 0),
    }
}

// Whether the fields of an operator are those that writing gives it. What is broken is written as zeros.
fn operator_right(mark: u8, x: u16, a: u16, b: u16, c: u16) -> bool
    requires { x < 256 }
    ensures { result ≡ same (node_record mark x a b c) (node_bytes (operator_of mark a b)) }
{
    match mark / 64 {
        1 => numbers::two_zero(x, c),
        2 => numbers::three_zero(x, b, c),
        3 => numbers::two_zero(x, c),
        _ => numbers::two_zero(mark as u16, x) && numbers::three_zero(a, b, c),
    }
}

// The same of any record that holds no digits: by its mark, fields without use are empty.
fn plain_right(mark: u8, x: u16, a: u16, b: u16, c: u16) -> bool
    requires { x < 256 }
    ensures { result ≡ same (node_record mark x a b c) (node_bytes (plain_node mark x a b c)) }
{
    match mark {
        marks::WHOLE => numbers::three_zero(a, b, c),
        marks::ONE => numbers::two_zero(b, c),
        marks::PART => c == 0,
        marks::TWO => c == 0,
        marks::WORD_PART => true,
        marks::FIRST_ARM => numbers::three_zero(x, b, c),
        marks::NEXT_ARM => numbers::two_zero(x, c),
        marks::CHOICE => x == 0,
        _ => operator_right(mark, x, a, b, c),
    }
}

// Whether record n has the bytes that writing gives it.
pub fn node_right(exprs: &[u8], n: usize) -> bool
    ensures { result ≡ same (take node_size (drop (node_size * n) exprs.now)) (node_bytes (node_of exprs.now n)) }
{
    if exprs.len() / record_sizes::NODE <= n {
        return false;
    }
    let at = record_sizes::NODE * n;
    let mark = exprs[at];
    let x = exprs[at + 1];
    match mark {
        marks::CONSTANT => constants::digits_marked(exprs, n, x / 48),
        marks::MORE => x == 0,
        _ => {
            let a = numbers::two_there(exprs, at + 2);
            let b = numbers::two_there(exprs, at + 4);
            let c = numbers::two_there(exprs, at + 6);
            plain_right(mark, numbers::wide(x), a, b, c)
        }
    }
}
