// How much of the store facilities take, and the verdicts kept of computed terminals.
ghost use Rattle.std.specs.Prelude.{◌≡◌, ℕ, ◌+◌, ◌≤◌, ◌<◌, length};
ghost use Rattle.language.specs.Layout.{facility_bytes};
ghost use Rattle.language.specs.Tree.{Name};
ghost use Rattle.store_geometry.specs.Places.{capped};
ghost use Rattle.judge_records.specs.Read.{facility_meant};
ghost use Rattle.judge_verdicts.specs.Meaning.{recalled, work_of};
ghost use Rattle.judge_verdicts.specs.Noted.{noted_from};

use judge_records::facilities;
use judge_records::facilities::Facility;
use judge_verdicts::{Verdict, kept};
use store_geometry::places;

// The place after a facility; 16,385 stands for every one past the largest store.
pub fn place_after(place: u32, f: Facility) -> u32
    ensures { (name : Name) → result ≡ capped (place + facility_bytes (facility_meant name f)) }
{
    places::cap(places::place_after(place, facilities::shape_of(f)))
}

// Keeps the verdict on facility or operation n, where it can be named.
pub fn remember(memo: &mut [usize], n: usize, v: Verdict)
    requires { noted_from ≤ length memo.old }
    ensures { (length memo.new ≡ length memo.old) × (n < 256 → recalled memo.new n ≡ work_of v) × ((i : ℕ) → i < n → i < 256 → recalled memo.new i ≡ recalled memo.old i) }
{
    if 255 < n {
        return;
    }
    kept::keep(memo, n as u16, v);
}
