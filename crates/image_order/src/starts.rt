// Where the tree that ends at a record begins: a record's parts stand right before it, each whole.
ghost use Rattle.std.specs.Prelude.{◌≡◌};
ghost use Rattle.language.specs.Description.{Description};
ghost use Rattle.language.specs.Order.{just_before, start_at, two_before};
ghost use Rattle.image_order.specs.Edges.{edge};
ghost use Rattle.image_order.specs.Holds.{ConstantAt, Nodes};
ghost use Rattle.image_order.specs.Parts.{parts_of};

use crate::edges;
use image_records::nodes::Node;
use image_records::{constants, marks, nodes, record_sizes};

// What stands before a record and belongs to it.
#[derive(Clone, Copy)]
pub enum Parts {
    // no tree ends here
    No,
    Leaf,
    // the digits of a constant of this length
    Digits(u16),
    One(u16),
    Two(u16, u16),
}

pub fn parts_of(node: Node) -> Parts
    ensures { result ≡ parts_of node }
{
    match node {
        Node::Constant(l) => Parts::Digits(l),
        Node::More(_) | Node::Broken => Parts::No,
        Node::Whole(_) | Node::Part(_, _, _) => Parts::Leaf,
        Node::One(_, a)
        | Node::WordPart(_, a, _, _)
        | Node::Prefix(_, a)
        | Node::Cut(_, a, _)
        | Node::FirstArm(a) => Parts::One(a),
        Node::Two(_, a, b) | Node::Binary(_, a, b) | Node::NextArm(a, b) | Node::Choice(a, b, _) =>
            Parts::Two(a, b),
    }
}

// The further digits of a constant of l bits stand before it, or it would be broken; its number is to fit its length.
fn constant_start(exprs: &[u8], n: u16, l: u16) -> usize
    requires { ConstantAt exprs.now n l }
    ensures { (d : Description) → Nodes d exprs.now → edge result ≡ start_at d n }
{
    let last = n as usize;
    if !constants::constant_fits(exprs, last) {
        return edges::NONE;
    }
    let digits = constants::further_digits(l) as usize;
    last - digits + 1
}

// Where the tree that ends at a begins, if that is right before n. `start`, were it called from here too, would no longer be inlined where it is called most.
#[cycle(before_two_before_walked)]
fn before(exprs: &[u8], a: u16, n: usize) -> usize
    ensures { (d : Description) → Nodes d exprs.now → edge result ≡ just_before d (start_at d) a n }
{
    if a as usize + 1 != n {
        return edges::NONE;
    }
    walked(exprs, a)
}

// Two trees, the second of which ends right before n.
#[cycle(before_two_before_walked)]
fn two_before(exprs: &[u8], a: u16, b: u16, n: usize) -> usize
    ensures { (d : Description) → Nodes d exprs.now → edge result ≡ two_before d (start_at d) a b n }
{
    let second = before(exprs, b, n);
    if second == edges::NONE {
        return edges::NONE;
    }
    before(exprs, a, second - 1)
}

// Where the tree that ends at record n begins, found from its parts.
#[cycle(before_two_before_walked)]
fn walked(exprs: &[u8], n: u16) -> usize
    ensures { (d : Description) → Nodes d exprs.now → edge result ≡ start_at d n }
{
    let last = n as usize;
    match parts_of(nodes::node_at(exprs, last)) {
        Parts::No => edges::NONE,
        Parts::Leaf => last + 1,
        Parts::Digits(l) => constant_start(exprs, n, l),
        Parts::One(a) => before(exprs, a, last),
        Parts::Two(a, b) => two_before(exprs, a, b, last),
    }
}

// The same. Most trees are a whole facility, which needs no walk.
pub fn start(exprs: &[u8], n: u16) -> usize
    ensures { (d : Description) → Nodes d exprs.now → edge result ≡ start_at d n }
{
    let last = n as usize;
    if exprs.len() / record_sizes::NODE <= last {
        return edges::NONE;
    }
    if exprs[record_sizes::NODE * last] == marks::WHOLE {
        return last + 1;
    }
    walked(exprs, n)
}
