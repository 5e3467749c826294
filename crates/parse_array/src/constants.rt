// A constant's records: the digits of a wide one above the lowest, the highest first, and its own.
ghost use Rattle.std.specs.Prelude.{◌≡◌, ◌*◌, ◌/◌, ◌%◌, ◌^◌};
ghost use Rattle.language.specs.Describe.{constant_nodes, constant_size};
ghost use Rattle.value_limbs.specs.Limbs.{number};
ghost use Rattle.value_operators.specs.Meaning.{valued};
ghost use Rattle.text_words.specs.Meaning.{positioned};
ghost use Rattle.parse_array.specs.Held.{Grew};

use crate::{Work, nodes, places};
use image_records::constants;
use image_records::nodes::Node;
use text_words::Position;
use value_operators::Value;

// Digit i of a value: 48 bits, the lowest first.
fn digit_of(v: Value, i: u16) -> u64
    ensures { result ≡ number v.limbs / 2 ^ (48 * i) % 2 ^ 48 }
{
    let above = value_limbs::shifts::right(v.limbs, 48 * (i as u32));
    above[0] % 0x1000000000000
}

// Adds the records of a constant behind n others; answers how many there are then, or none where there was no room.
pub fn add_constant(work: &mut Work, n: u16, v: Value, at: Position) -> Option<u16>
    ensures { Grew n (constant_nodes (valued v) (positioned at)) (constant_size (valued v)) work.old work.new result }
{
    let beside = places::plain(at);
    let mut k = n;
    for i in (0..constants::further_digits(v.length)).rev() {
        k = nodes::add_node(work, k, Node::More(digit_of(v, i + 1)), 0, beside)?;
    }
    nodes::add_node(work, k, Node::Constant(v.length), digit_of(v, 0), beside)
}
