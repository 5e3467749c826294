// The stimulus: the input terminals' words one after the other, of the right length and without spare bits.
ghost use Rattle.std.specs.Bool.{then_some};
ghost use Rattle.std.specs.Prelude.{List, ◌≡◌, ℕ};
ghost use Rattle.language.specs.Calls.{well_formed};
ghost use Rattle.language.specs.Description.{Description};
ghost use Rattle.language.specs.Tree.{Name};
ghost use Rattle.image_sections.specs.Declarations.{facility_in};
ghost use Rattle.run_references.specs.Described.{Describes};
ghost use Rattle.run_begin.specs.InBytes.{fits_at, input_bytes};

use crate::sizes;
use image_records::record_sizes;
use image_sections::{facilities, kinds};
use run_references::bounds;
use store_words::spare;

// How many bytes facility n takes from `at` on, where they are its words without spare bits; only an input takes any, and only its record is read whole.
fn takes(section: &[u8], stimulus: &[u8], n: usize, at: usize) -> Option<usize>
    ensures { (name : Name) → result ≡ then_some (fits_at stimulus.now at (facility_in section.now n name)) (input_bytes (facility_in section.now n name)) }
{
    if !kinds::is_input(facilities::kind_at(section, n)) {
        return Some(0);
    }
    let f = facilities::facility_at(section, n);
    spare::no_spare_bits(stimulus, at, bounds::word_count(f), bounds::word_length(f)).then_some(
        sizes::words_bytes(f),
    )
}

// Whether the stimulus is of the right length and has no spare bits.
pub fn well_formed(section: &[u8], stimulus: &[u8]) -> bool
    ensures { (d : Description) (E : List ℕ) → Describes d section.now E → result ≡ well_formed d stimulus.now }
{
    let mut at: usize = 0;
    for n in 0..section.len() / record_sizes::FACILITY {
        let Some(bytes) = takes(section, stimulus, n, at) else {
            return false;
        };
        at += bytes;
    }
    stimulus.len() == at
}
