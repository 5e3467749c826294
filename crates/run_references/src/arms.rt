// The chosen arm of a conditional.
ghost use Rattle.std.specs.Prelude.{◌≡◌};
ghost use Rattle.language.specs.Description.{Description};
ghost use Rattle.language.specs.Meaning as M;
ghost use Rattle.language.specs.Meaning.{arm_back, arm_number};
ghost use Rattle.value_limbs.specs.Limbs.{number};
ghost use Rattle.value_operators.specs.Meaning.{valued};
ghost use Rattle.run_references.specs.Described.{Nodes};
ghost use Rattle.run_references.specs.Places.{arm_expression, found_meant};

use crate::bounds;
use image_records::nodes;
use image_records::nodes::Node;
use value_operators::Value;

// Whether a condition's value may choose between n arms: of two, only one bit may.
pub fn decides(n: u16, v: Value) -> bool
    ensures { result ≡ M.decides n (valued v) }
{
    n != 2 || v.length == 1
}

// The number of the arm that a value takes, of n arms.
pub fn arm_number(n: u16, v: Value) -> Option<u16>
    ensures { found_meant result ≡ arm_number n (number v.limbs) }
{
    let k = bounds::small(v);
    if k == 0 {
        return Some(n);
    }
    if k < n as u32 {
        return Some(k as u16);
    }
    None
}

// The expression of an arm.
fn expression_of(node: Node) -> Option<u16>
    ensures { found_meant result ≡ arm_expression node }
{
    match node {
        Node::FirstArm(e) | Node::NextArm(_, e) => Some(e),
        _ => None,
    }
}

// The expression of the arm that is `back` arms before the one at record a.
pub fn arm_back(expressions: &[u8], a: u16, back: u32) -> Option<u16>
    ensures { (d : Description) → Nodes d expressions.now → found_meant result ≡ arm_back d back a }
{
    let mut at = a;
    for _ in 0..back {
        let Node::NextArm(before, _) = nodes::node_at(expressions, at as usize) else {
            return None;
        };
        at = before;
    }
    expression_of(nodes::node_at(expressions, at as usize))
}
