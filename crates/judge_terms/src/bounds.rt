// What a facility's bounds say of its words and of references to it.
ghost use Rattle.std.specs.Prelude.{◌≡◌, ◌^◌, ◌≤◌};
ghost use Rattle.language.specs.Description.{word_length};
ghost use Rattle.language.specs.References.{taken_length};
ghost use Rattle.language.specs.Tree.{Name};
ghost use Rattle.store_geometry.specs.Subscripts.{subscripts_meant};
ghost use Rattle.judge_records.specs.Read.{facility_meant};

use judge_records::facilities;
use judge_records::facilities::Facility;
use store_geometry::subscripts::Subscripts;
use store_geometry::{shapes, subscripts};

// Bits of a word.
pub fn word_length(f: Facility) -> u64
    ensures { ((name : Name) → result ≡ word_length (facility_meant name f)) × (result ≤ 2 ^ 32) }
{
    shapes::word_length(facilities::shape_of(f))
}

// How many bits a reference takes.
pub fn taken_length(f: Facility, s: Subscripts) -> u64
    ensures { (name : Name) → result ≡ taken_length (facility_meant name f) (subscripts_meant s) }
{
    subscripts::taken_length(facilities::shape_of(f), s)
}
