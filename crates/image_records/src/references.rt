// A record that is a reference: its facility and its subscripts.
ghost use Rattle.std.specs.Prelude.{◌≡◌, ℕ};
ghost use Rattle.language.specs.References.{reference_of};
ghost use Rattle.image_records.specs.Nodes.{meant};
ghost use Rattle.image_records.specs.References.{reference_meant, widened, widened_node};
ghost use Rattle.language.specs.Description.{bounds};
ghost use Rattle.store_geometry.specs.Shapes.{bounds_meant};

use crate::nodes::Node;
use crate::numbers;
use store_geometry::bounds::Bounds;
use store_geometry::subscripts::Subscripts;

// The ends of a part: what a record has of them, and what they have above its 16 bits.
fn ends(a: u16, b: u16, first: u16, last: u16) -> Bounds
    ensures { bounds_meant result ≡ widened (bounds a b) first last }
{
    Bounds {
        first: numbers::joined(a, first),
        last: numbers::joined(b, last),
    }
}

// The reference that a record is, if it is one: a facility, and what it is subscripted with. `first` and `last` are what the ends of a part have above the 16 bits of a record.
pub fn reference_of(node: Node, first: u16, last: u16) -> Option<(u8, Subscripts)>
    ensures { (v : ℕ) → reference_meant result ≡ reference_of (widened_node first last (meant v node)) }
{
    match node {
        Node::Whole(f) => Some((f, Subscripts::Whole)),
        Node::One(f, e) => Some((f, Subscripts::One(e))),
        Node::Part(f, a, b) => Some((f, Subscripts::Part(ends(a, b, first, last)))),
        Node::Two(f, e, g) => Some((f, Subscripts::Two(e, g))),
        Node::WordPart(f, e, a, b) => Some((f, Subscripts::WordPart(e, ends(a, b, first, last)))),
        _ => None,
    }
}
