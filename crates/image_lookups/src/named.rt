// The names of facilities and states: where they stand in the image, and that part of it, which is empty where there is none.
ghost use Rattle.std.specs.Prelude.{◌≡◌, ◌+◌, ◌^◌, ◌<◌};
ghost use Rattle.language.specs.Decode.{offset_of};
ghost use Rattle.language.specs.Image.{passes};
ghost use Rattle.language.specs.Lookups as L;
ghost use Rattle.language.specs.Lookups.{facility_name, part_of, state_name};
ghost use Rattle.call_answers.specs.Lookups.{name_meant};
ghost use Rattle.language.specs.Encode.{names_section};

use image_records::{bytes, numbers, record_sizes};
use image_sections::names::Part;
use image_sections::{header, names, sections};
use language::refusals::Refusal;

// A part of the names as a part of the image.
fn found(image: &[u8], part: Part) -> Result<Part, Refusal>
    requires { part.offset < 2 ^ 32 }
    ensures { name_meant result ≡ L.named (record { offset = offset_of names_section image.now + part.offset; length = part.length }) }
{
    let names = numbers::four(image, 48) as usize;
    Ok(Part {
        offset: names + part.offset,
        length: part.length,
    })
}

// Where the name of facility n stands.
pub fn facility_part(image: &[u8], passed: bool, n: u32) -> Result<Part, Refusal>
    requires { passed ≡ passes image.now }
    ensures { name_meant result ≡ facility_name image.now n }
{
    if !passed {
        return Err(Refusal::ImageFails);
    }
    let facilities = sections::section(image, sections::FACILITIES);
    if facilities.len() / record_sizes::FACILITY <= n as usize {
        return Err(Refusal::BadSubscript);
    }
    found(image, names::facility_part(facilities, n))
}

// Where the label of state n stands, which may be empty.
pub fn state_part(image: &[u8], passed: bool, n: u32) -> Result<Part, Refusal>
    requires { passed ≡ passes image.now }
    ensures { name_meant result ≡ state_name image.now n }
{
    if !passed {
        return Err(Refusal::ImageFails);
    }
    let states = sections::section(image, sections::STATES);
    if states.len() / record_sizes::STATE <= n as usize {
        return Err(Refusal::BadSubscript);
    }
    let c = header::counts_at(image);
    let facilities = sections::section(image, sections::FACILITIES);
    let operations = sections::section(image, sections::OPERATIONS);
    let part = names::state_part(
        facilities,
        c.facilities,
        operations,
        c.operations,
        states,
        n,
    );
    found(image, part)
}

// The part of the image that an answer names.
pub fn name(image: &[u8], answer: Result<Part, Refusal>) -> &[u8]
    ensures { result.now ≡ part_of image.now (name_meant answer) }
{
    match answer {
        Ok(p) => names::name_at(image, p),
        Err(_) => bytes::part(image, 0, 0),
    }
}

// The name of facility n.
pub fn facility_name(image: &[u8], passed: bool, n: u32) -> &[u8]
    requires { passed ≡ passes image.now }
    ensures { result.now ≡ part_of image.now (facility_name image.now n) }
{
    name(image, facility_part(image, passed, n))
}

// The label of state n.
pub fn state_name(image: &[u8], passed: bool, n: u32) -> &[u8]
    requires { passed ≡ passes image.now }
    ensures { result.now ≡ part_of image.now (state_name image.now n) }
{
    name(image, state_part(image, passed, n))
}
