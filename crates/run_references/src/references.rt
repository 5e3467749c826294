// A record of an image that is a reference: its ends are what the record says.
ghost use Rattle.std.specs.Prelude.{◌≡◌, ℕ};
ghost use Rattle.language.specs.References.{reference_of};
ghost use Rattle.image_records.specs.Nodes.{meant};
ghost use Rattle.image_records.specs.References.{reference_meant};

use image_records::nodes::Node;
use image_records::references;
use store_geometry::subscripts::Subscripts;

// The reference that a record is, if it is one.
pub fn reference_of(node: Node) -> Option<(u8, Subscripts)>
    ensures { (v : ℕ) → reference_meant result ≡ reference_of (meant v node) }
{
    references::reference_of(node, 0, 0)
}
