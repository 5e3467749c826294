// The length that the values of states must have.
ghost use Rattle.std.specs.Prelude.{List, ◌≡◌, ℕ};
ghost use Rattle.language.specs.Description.{Description, Places};
ghost use Rattle.language.specs.Rules.{sequencing_length};
ghost use Rattle.judge_all.specs.InSlices.{Declared};
ghost use Rattle.judge_all.specs.Stated.{wanted_length};

use image_records::record_sizes;
use image_sections::kinds;
use judge_records::facilities;
use judge_terms::bounds;

// The length of the first sequencing register, if there is one: else states have no values.
pub fn sequencing_length(fs: &[u8], fp: &[u8]) -> Option<u64>
    ensures { (es ep : List ℕ) (d : Description) (p : Places) → Declared fs.now es fp.now ep d p → wanted_length result ≡ sequencing_length d p }
{
    for n in 0..fs.len() / record_sizes::FACILITY {
        let f = facilities::facility_at(fs, fp, n);
        if kinds::is_sequencing(f.kind) {
            return Some(bounds::word_length(f));
        }
    }
    None
}
