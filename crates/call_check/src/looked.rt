// Lookups in any image: names and where they stand in it, and declarations with their places in the store.
ghost use Rattle.std.specs.Prelude.{◌≡◌};
ghost use Rattle.language.specs.Lookups as L;
ghost use Rattle.call_answers.specs.Lookups.{Looks, name_meant};

use crate::passes;
use image_lookups::{declared, named};
use image_sections::facilities::FacilityRecord;
use image_sections::names::Part;
use language::refusals::Refusal;

// Where the name of facility n stands.
pub fn facility_part(image: &[u8], n: u32) -> Result<Part, Refusal>
    ensures { name_meant result ≡ L.facility_name image.now n }
{
    named::facility_part(image, passes(image), n)
}

// Where the label of state n stands; an empty one is no refusal.
pub fn state_part(image: &[u8], n: u32) -> Result<Part, Refusal>
    ensures { name_meant result ≡ L.state_name image.now n }
{
    named::state_part(image, passes(image), n)
}

// The name of facility n, empty on refusal.
pub fn facility_name(image: &[u8], n: u32) -> &[u8]
    ensures { result.now ≡ L.part_of image.now (L.facility_name image.now n) }
{
    named::facility_name(image, passes(image), n)
}

// The label of state n, empty on refusal.
pub fn state_name(image: &[u8], n: u32) -> &[u8]
    ensures { result.now ≡ L.part_of image.now (L.state_name image.now n) }
{
    named::state_name(image, passes(image), n)
}

// The declaration of facility n and its place in the store.
pub fn facility(image: &[u8], n: u32) -> Result<FacilityRecord, Refusal>
    ensures { Looks image.now n result }
{
    declared::facility(image, passes(image), n)
}
