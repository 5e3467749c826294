// Facilities, in order of declaration: each computed terminal names only those before it.
ghost use Rattle.std.specs.Prelude.{cond, false, ◌||◌, ◌≡◌, ◌/◌, ◌≤◌, ◌<◌, length, take};
ghost use Rattle.language.specs.Description.{Description, Places, facility_at, facility_place, is_computed};
ghost use Rattle.language.specs.Expressions.{terminal_judged};
ghost use Rattle.language.specs.Judging as L;
ghost use Rattle.language.specs.Rules.{bounds_faults, facilities_faults, facility_faults, first_faults};
ghost use Rattle.language.specs.WordStage.{least};
ghost use Rattle.judge_records.specs.Read.{FacilityRead, facility_meant};
ghost use Rattle.judge_verdicts.specs.Meaning.{seen};
ghost use Rattle.judge_verdicts.specs.Noted.{noted_from};
ghost use Rattle.text_words.specs.Meaning.{judged};
ghost use Rattle.judge_all.specs.InSlices.{Remembered, facility_places_of};
ghost use Rattle.judge_all.specs.BySections.{DeclaredBy};
ghost use Rattle.language.specs.Encode.{facility_size};

use crate::{bounds, memory};
use image_records::record_sizes;
use image_sections::kinds;
use judge_expressions::{Records, filled, walk};
use judge_records::facilities;
use judge_records::facilities::Facility;
use judge_terms::operators;
use judge_verdicts::Verdict;
use text_words::{Judged, faults};

// The faults of all facilities, and the number of the first expression's record that belongs to none.
#[derive(Clone, Copy)]
pub struct Terminals {
    pub faults: Judged,
    pub next: u16,
}

// The record after a terminal's expression, which is the last of its own.
fn after(f: Facility, next: u16) -> u16 {
    if !kinds::is_computed(f.kind) {
        return next;
    }
    f.expression.checked_add(1).unwrap_or(next)
}

// The expression of facility n, if it is a computed terminal; its records are those from `next` on.
fn terminal(records: &Records<'_>, memo: &mut [usize], n: usize, f: Facility, next: u16) -> Verdict
    requires { (n < length records.now.facilities.now / facility_size) × FacilityRead records.now.facilities.now records.now.facility_places.now n f × (noted_from ≤ length memo.old) }
    ensures { (length memo.new ≡ length memo.old) × (take noted_from memo.new ≡ take noted_from memo.old) × ((d : Description) (p : Places) → DeclaredBy records.now d p → Remembered records.now.facilities.now memo.old n d p → result ≡ seen (cond (is_computed (facility_at d n).kind) (terminal_judged d p n) (L.worth 1 0 0))) }
{
    if kinds::is_computed(f.kind) {
        let end = filled::fill(records, memo, n, next, f.expression);
        return walk::expression(records, &memo[0..end], n, f.expression);
    }
    operators::nothing()
}

// The faults of facility n, after others that take up to `before` of the store.
fn one(fp: &[u8], n: usize, another: bool, before: u32, f: Facility, v: Verdict) -> Judged
    ensures { (d : Description) (p : Places) → facility_place p n ≡ facility_places_of fp.now n → facility_meant (facility_at d n).name f ≡ facility_at d n → v ≡ seen (cond (is_computed (facility_at d n).kind) (terminal_judged d p n) (L.worth 1 0 0)) → judged result ≡ least (first_faults d p (bounds_faults d p (facility_at d n) (facility_place p n)) (facility_faults d p n another before (facility_at d n) (facility_place p n))) }
{
    let own = bounds::bounds_faults(fp, n, f);
    let after = memory::place_after(before, f);
    if kinds::is_computed(f.kind) {
        let terminal = bounds::terminal_faults(fp, n, f, v);
        return bounds::or_else(
            own,
            bounds::facility_faults(fp, n, another, after, f, terminal),
        );
    }
    let all = bounds::facility_faults(fp, n, another, after, f, Ok(()));
    bounds::or_else(own, all)
}

// All facilities; the verdicts on computed terminals are kept.
pub fn facilities(records: &Records<'_>, memo: &mut [usize]) -> Terminals
    requires { noted_from ≤ length memo.old }
    ensures { (length memo.new ≡ length memo.old) × ((d : Description) (p : Places) → DeclaredBy records.now d p → (judged result.faults ≡ least (facilities_faults d p 0 false 0 d.facilities)) × Remembered records.now.facilities.now memo.new (length records.now.facilities.now / facility_size) d p) }
{
    let mut another = false;
    let mut before: u32 = 0;
    let mut next: u16 = 0;
    let mut all = Ok(());
    for n in 0..records.facilities.len() / record_sizes::FACILITY {
        let f = facilities::facility_at(records.facilities, records.facility_places, n);
        let v = terminal(records, memo, n, f, next);
        next = after(f, next);
        all = faults::earlier(all, one(records.facility_places, n, another, before, f, v));
        another = another | kinds::is_sequencing(f.kind);
        before = memory::place_after(before, f);
        memory::remember(memo, n, v);
    }
    Terminals { faults: all, next }
}
