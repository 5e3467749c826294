// The lookups: a name as a part of the image, and a facility's declaration with its place in the store.
ghost use Rattle.std.specs.Prelude.{◌≡◌};
ghost use Rattle.language.specs.Lookups as L;
ghost use Rattle.call_answers.specs.Numbers.{facility_numbers, name_numbers};

use call_answers::exported::{FacilityAnswer, NameAnswer};
use call_answers::numbers;
use call_check::looked;

// The name of a facility.
#[unsafe(no_mangle)]
pub extern "C" fn ddlp_facility_name(image: &[u8], number: u32) -> NameAnswer
    ensures { result ≡ name_numbers (L.facility_name image.now number) }
{
    numbers::name_numbers(looked::facility_part(image, number))
}

// The label of a state, which may be empty.
#[unsafe(no_mangle)]
pub extern "C" fn ddlp_state_name(image: &[u8], number: u32) -> NameAnswer
    ensures { result ≡ name_numbers (L.state_name image.now number) }
{
    numbers::name_numbers(looked::state_part(image, number))
}

// The declaration of a facility, and its place in the store.
#[unsafe(no_mangle)]
pub extern "C" fn ddlp_facility(image: &[u8], number: u32) -> FacilityAnswer
    ensures { result ≡ facility_numbers (L.facility image.now number) }
{
    numbers::facility_numbers(looked::facility(image, number))
}
