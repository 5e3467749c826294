// The stimuli of a run, one after the other.
ghost use Rattle.std.specs.Prelude.{List, ◌≡◌, ℕ, ◌*◌, ◌<◌};
ghost use Rattle.language.specs.Calls.{all_well_formed};
ghost use Rattle.language.specs.Description.{Description};
ghost use Rattle.run_references.specs.Described.{Describes};

use crate::stimulus;
use image_records::bytes;

// How many bytes each cycle has of n, where all have as many.
pub fn share(n: usize, cycles: u32) -> usize
    ensures { (m : ℕ) → 0 < cycles → n ≡ cycles * m → result ≡ m }
{
    n.checked_div(cycles as usize).unwrap_or(0)
}

// Whether there is a stimulus of the right form for each cycle, and nothing more.
pub fn all_well_formed(section: &[u8], stimuli: &[u8], cycles: u32) -> bool
    ensures { (d : Description) (E : List ℕ) → Describes d section.now E → result ≡ all_well_formed d cycles stimuli.now }
{
    let each = share(stimuli.len(), cycles);
    let mut at: usize = 0;
    for _ in 0..cycles {
        if stimuli.len() - at < each
            || !stimulus::well_formed(section, bytes::part(stimuli, at, each))
        {
            return false;
        }
        at += each;
    }
    stimuli.len() == at
}
