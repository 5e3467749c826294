// A record of the expressions, read from its bytes.
ghost use Rattle.std.specs.Prelude.{◌≡◌, ℕ};
ghost use Rattle.language.specs.Decode.{node_of, operator_of, plain_node};
ghost use Rattle.image_records.specs.Nodes.{constant_number, meant};

use crate::{constants, marks, numbers, record_sizes};

#[derive(Clone, Copy)]
pub enum Node {
    // its length; `constant_at` gives its value
    Constant(u16),
    More(u64),
    // a facility, and what stands between its brackets
    Whole(u8),
    One(u8, u16),
    Part(u8, u16, u16),
    Two(u8, u16, u16),
    WordPart(u8, u16, u16, u16),
    // an operator's kind, and its operands
    Binary(u8, u16, u16),
    Prefix(u8, u16),
    Cut(u8, u16, u16),
    FirstArm(u16),
    NextArm(u16, u16),
    Choice(u16, u16, u16),
    Broken,
}

// An operator, by its mark's high bits.
#[tactic(auto, using(std::proofs::lemmas::Bool::Decides::nat_tests), unfolding(language::specs::Decode::operator_of))]
fn operator_of(mark: u8, a: u16, b: u16) -> Node
    ensures { (v : ℕ) → meant v result ≡ operator_of mark a b }
{
    let kind = mark % 64;
    match mark / 64 {
        1 => Node::Binary(kind, a, b),
        2 => Node::Prefix(kind, a),
        3 => Node::Cut(kind, a, b),
        _ => Node::Broken,
    }
}

// What is no constant, by its mark.
#[tactic(auto, using(std::proofs::lemmas::Bool::Decides::nat_tests), unfolding(language::specs::Decode::plain_node))]
fn plain_node(mark: u8, x: u8, a: u16, b: u16, c: u16) -> Node
    ensures { (v : ℕ) → meant v result ≡ plain_node mark x a b c }
{
    match mark {
        marks::WHOLE => Node::Whole(x),
        marks::ONE => Node::One(x, a),
        marks::PART => Node::Part(x, a, b),
        marks::TWO => Node::Two(x, a, b),
        marks::WORD_PART => Node::WordPart(x, a, b, c),
        marks::FIRST_ARM => Node::FirstArm(a),
        marks::NEXT_ARM => Node::NextArm(a, b),
        marks::CHOICE => Node::Choice(a, b, c),
        _ => operator_of(mark, a, b),
    }
}

// Record n of a section of expressions.
pub fn node_at(exprs: &[u8], n: usize) -> Node
    ensures { meant (constant_number n exprs.now) result ≡ node_of exprs.now n }
{
    if exprs.len() / record_sizes::NODE <= n {
        return Node::Broken;
    }
    let at = record_sizes::NODE * n;
    let mark = exprs[at];
    let x = exprs[at + 1];
    match mark {
        marks::CONSTANT => {
            if constants::digits_marked(exprs, n, x / 48) {
                return Node::Constant(x as u16 + 1);
            }
            Node::Broken
        }
        marks::MORE => Node::More(numbers::six_there(exprs, at + 2)),
        _ => {
            let a = numbers::two_there(exprs, at + 2);
            let b = numbers::two_there(exprs, at + 4);
            let c = numbers::two_there(exprs, at + 6);
            plain_node(mark, x, a, b, c)
        }
    }
}
