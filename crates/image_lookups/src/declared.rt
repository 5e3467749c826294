// A facility's declaration, and its place in the store.
ghost use Rattle.std.specs.Prelude.{◌≡◌};
ghost use Rattle.language.specs.Image.{passes};
ghost use Rattle.call_answers.specs.Lookups.{Looks};

use image_records::record_sizes;
use image_sections::facilities::FacilityRecord;
use image_sections::{facilities, sections};
use language::refusals::Refusal;

pub fn facility(image: &[u8], passed: bool, n: u32) -> Result<FacilityRecord, Refusal>
    requires { passed ≡ passes image.now }
    ensures { Looks image.now n result }
{
    if !passed {
        return Err(Refusal::ImageFails);
    }
    let facilities = sections::section(image, sections::FACILITIES);
    if facilities.len() / record_sizes::FACILITY <= n as usize {
        return Err(Refusal::BadSubscript);
    }
    Ok(facilities::facility_at(facilities, n as usize))
}
