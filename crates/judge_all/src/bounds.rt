// The rules of one declaration.
ghost use Rattle.std.specs.Prelude.{cond, false, true, List, ◌++◌, ◌≡◌, leb};
ghost use Rattle.language.specs.Description.{Description, Places, facility_place, is_sequencing, word_length};
ghost use Rattle.language.specs.Judging as L;
ghost use Rattle.language.specs.Rules.{bounds_faults, first_faults, same_length, sequencing_right};
ghost use Rattle.language.specs.Ceilings.{largest_bound, largest_store};
ghost use Rattle.language.specs.Tree.{Name};
ghost use Rattle.language.specs.WordStage.{least};
ghost use Rattle.language.specs.Words as W;
ghost use Rattle.judge_records.specs.Read.{facility_meant};
ghost use Rattle.judge_verdicts.specs.Meaning.{seen};
ghost use Rattle.language.specs.declared.refusals.Refusal.TheVariants.{BadSequencing, BadSubscript, CeilingPassed};
ghost use Rattle.text_words.specs.Meaning.{judged, positioned};
ghost use Rattle.judge_all.specs.InSlices.{facility_places_of};

use image_sections::kinds;
use judge_records::facilities::Facility;
use judge_records::places;
use judge_verdicts::{Verdict, faults};
use language::ceilings;
use language::refusals::Refusal;
use text_words::{Judged, Position};

// Bits of a sequencing register, whose value is one.
const LONGEST: u64 = ceilings::VALUE as u64;

// Bytes of a store.
const LARGEST_STORE: u32 = ceilings::STORE as u32;

// A bound is at most 65,535.
fn bound_fault(n: u32, at: Position) -> Judged
    ensures { (q : W.Position) → positioned at ≡ q → judged result ≡ least (L.unless (leb n largest_bound) q BadSubscript) }
{
    faults::unless(n <= ceilings::BOUND, at, Refusal::BadSubscript)
}

// The bounds of facility n.
pub fn bounds_faults(fp: &[u8], n: usize, f: Facility) -> Judged
    ensures { (d : Description) (p : Places) (name : Name) → facility_place p n ≡ facility_places_of fp.now n → judged result ≡ least (bounds_faults d p (facility_meant name f) (facility_place p n)) }
{
    let one = bound_fault(f.words.first, places::of_facility(fp, n, 1));
    let two = bound_fault(f.words.last, places::of_facility(fp, n, 2));
    let three = bound_fault(f.bits.first, places::of_facility(fp, n, 3));
    let four = bound_fault(f.bits.last, places::of_facility(fp, n, 4));
    faults::also(one, faults::also(two, faults::also(three, four)))
}

// A sequencing register has at most one dimension and 256 bits, and is the only one.
fn sequencing_right(another: bool, f: Facility) -> bool
    ensures { (d : Description) (p : Places) (name : Name) → result ≡ cond (is_sequencing (facility_meant name f).kind) (sequencing_right d p another (facility_meant name f)) true }
{
    if !kinds::is_sequencing(f.kind) {
        return true;
    }
    if another {
        return false;
    }
    if 1 < f.dimensions {
        return false;
    }
    judge_terms::bounds::word_length(f) <= LONGEST
}

// A computed terminal and its expression are equally long.
fn same_length(length: u64, at: Position, v: Verdict) -> Judged
    ensures { (d : Description) (p : Places) (q : W.Position) (j : L.Judged) → positioned at ≡ q → v ≡ seen j → judged result ≡ least (same_length d p length q j) }
{
    let w = v?;
    faults::unless(length == w.length as u64, at, Refusal::BadLength)
}

// Faults, and else what comes after them.
pub fn or_else(a: Judged, b: Judged) -> Judged
    ensures { (d : Description) (p : Places) (x y : List W.Fault) → judged a ≡ least x → judged b ≡ least y → judged result ≡ least (first_faults d p x y) }
{
    a?;
    b
}

// The length of a computed terminal, against that of its expression.
pub fn terminal_faults(fp: &[u8], n: usize, f: Facility, v: Verdict) -> Judged
    ensures { (d : Description) (p : Places) (name : Name) (j : L.Judged) → facility_place p n ≡ facility_places_of fp.now n → v ≡ seen j → judged result ≡ least (same_length d p (word_length (facility_meant name f)) (facility_place p n).equals j) }
{
    same_length(
        judge_terms::bounds::word_length(f),
        places::of_facility(fp, n, 5),
        v,
    )
}

// Facility n, which ends at `after` in the store, with the faults of a computed terminal.
pub fn facility_faults(
    fp: &[u8],
    n: usize,
    another: bool,
    after: u32,
    f: Facility,
    terminal: Judged,
) -> Judged
    ensures { (d : Description) (p : Places) (name : Name) (x : List W.Fault) → facility_place p n ≡ facility_places_of fp.now n → judged terminal ≡ least x → judged result ≡ least (L.unless (cond (is_sequencing (facility_meant name f).kind) (sequencing_right d p another (facility_meant name f)) true) (facility_place p n).name BadSequencing ++ (L.unless (leb after largest_store) (facility_place p n).name CeilingPassed ++ x)) }
{
    let at = places::of_facility(fp, n, 0);
    let one = faults::unless(sequencing_right(another, f), at, Refusal::BadSequencing);
    let two = faults::unless(after <= LARGEST_STORE, at, Refusal::CeilingPassed);
    faults::also(one, faults::also(two, terminal))
}
