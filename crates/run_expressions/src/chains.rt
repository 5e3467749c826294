// Operators with one operand, each right behind the record that is its operand: such a chain is worked out by loops, so that it takes no stack however long it is.
ghost use Rattle.std.specs.Prelude.{true, ◌≡◌, ℕ, ◌+◌, ◌-◌, ◌<◌, ◌≤◌};
ghost use Rattle.std.proofs.Math.Option.{some};
ghost use Rattle.language.specs.Decode.{node_of};
ghost use Rattle.image_records.specs.Nodes.{meant};
ghost use Rattle.value_operators.specs.Meaning.{valued};
ghost use Rattle.run_references.specs.Worth.{answered};
ghost use Rattle.run_expressions.specs.Chains.{Chain, Climbed, operand_of, operated_on};

use image_records::nodes;
use image_records::nodes::Node;
use run_references::worth;
use run_references::worth::Worth;
use value_operators::Value;

// Whether record n is an operator whose one operand is the record right before it.
fn linked(expressions: &[u8], n: usize) -> bool
    ensures { result ≡ true → (0 < n) × (operand_of (node_of expressions.now n) ≡ some (n - 1)) }
{
    match nodes::node_at(expressions, n) {
        Node::Prefix(_, a) | Node::Cut(_, a, _) => a as usize + 1 == n,
        _ => false,
    }
}

// The lowest record of the chain that ends at record n: n itself, where it is no such operator.
pub fn foot(expressions: &[u8], n: usize) -> usize
    ensures { (result ≤ n) × Chain expressions.now result n }
{
    let mut b = n;
    while linked(expressions, b) {
        b -= 1;
    }
    b
}

// What a record makes of its operand's value, where it is an operator with one operand; any other record leaves it.
fn operated(node: Node, v: Value) -> Worth
    ensures { (c : ℕ) → answered result ≡ operated_on (meant c node) (valued v) }
{
    match node {
        Node::Prefix(k, _) => worth::prefix(k, Ok(v)),
        Node::Cut(k, _, c) => worth::cut(k, Ok(v), c),
        _ => Ok(v),
    }
}

// The same value, made anew from its numbers: handed on whole it takes along the gap at its end, which is moved through memory at each step.
fn anew(v: Value) -> Value
    ensures { valued result ≡ valued v }
{
    let limbs = v.limbs;
    Value {
        limbs,
        length: v.length,
    }
}

// The worth of record n, which ends a chain from record b, from the worth of b's operand.
pub fn ended(expressions: &[u8], b: usize, n: usize, w: Worth) -> Worth
    ensures { Climbed expressions.now b n (answered w) (answered result) }
{
    let mut v = anew(w?);
    for i in b..=n {
        v = anew(operated(nodes::node_at(expressions, i), v)?);
    }
    Ok(v)
}
