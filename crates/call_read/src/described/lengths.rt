// The length that the bare values of states take.
ghost use Rattle.std.specs.Prelude.{List, ◌≡◌, ℕ};
ghost use Rattle.judge_all.specs.InSlices.{Declared};
ghost use Rattle.language.specs.Description.{Description, Places};
ghost use Rattle.language.specs.Rules.{sequencing_length};
ghost use Rattle.parse_states.specs.Begins.{length_of};
ghost use Rattle.parse_tables.specs.declared.Table.TheVariants as T;
ghost use Rattle.parse_tables.specs.Rows as R;
ghost use Rattle.call_read.specs.Lengths.{lending};

use judge_all::wanted;
use language::ceilings;
use parse_array::Work;
use parse_held::body;
use parse_tables::Table;

// Bits of the longest value.
const LONGEST: u64 = ceilings::VALUE as u64;

// The length of the sequencing register among the first n facilities; 0 where there is none, or where it is longer than values are.
pub fn sequencing_length(work: &Work, n: u16) -> u16
    ensures { (es ep : List ℕ) (d : Description) (p : Places) → Declared (R.rows T.Facilities n work.now) es (R.rows T.FacilityPlaces n work.now) ep d p → length_of result ≡ lending (sequencing_length d p) }
{
    let s: &[u8] = work;
    let fs = body::rows_of(s, Table::Facilities, n);
    let fp = body::rows_of(s, Table::FacilityPlaces, n);
    match wanted::sequencing_length(fs, fp) {
        Some(l) if l <= LONGEST => l as u16,
        _ => 0,
    }
}
