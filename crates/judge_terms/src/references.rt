// References: what a record refers to, and the rules for it.
ghost use Rattle.std.specs.Prelude.{cond, true, List, ◌++◌, ◌≡◌, ℕ, ◌+◌};
ghost use Rattle.image_sections.specs.Declarations.{kind_meant};
ghost use Rattle.language.specs.Description.{Description, Places, is_computed, node_at, node_place};
ghost use Rattle.language.specs.Judging as L;
ghost use Rattle.language.specs.ReferenceRules.{bound_faults, direction_faults, end_faults, subscript_faults};
ghost use Rattle.language.specs.References.{reference_of};
ghost use Rattle.language.specs.Tree.{Name};
ghost use Rattle.language.specs.WordStage.{least};
ghost use Rattle.language.specs.Words as W;
ghost use Rattle.store_geometry.specs.Shapes.{bounds_meant};
ghost use Rattle.store_geometry.specs.Subscripts.{subscripts_meant};
ghost use Rattle.image_records.specs.References.{reference_meant};
ghost use Rattle.judge_records.specs.Read.{facility_meant};
ghost use Rattle.judge_verdicts.specs.Meaning.{recalled, seen};
ghost use Rattle.language.specs.declared.refusals.Refusal.TheVariants.{BadSubscript};
ghost use Rattle.text_words.specs.Meaning.{judged, positioned};
ghost use Rattle.judge_terms.specs.Shown.{Records};

use crate::{constants, operators};
use image_records::nodes::Node;
use image_records::{nodes, references};
use image_sections::facilities::FacilityKind;
use image_sections::kinds;
use judge_records::facilities::Facility;
use judge_records::places;
use judge_verdicts::{Verdict, faults, kept, tests, work};
use language::refusals::Refusal;
use store_geometry::bounds;
use store_geometry::bounds::Bounds;
use store_geometry::subscripts::Subscripts;
use text_words::{Judged, Position};

// What record n refers to, if it is a reference.
pub fn reference_at(exprs: &[u8], places: &[u8], n: u16) -> Option<(u8, Subscripts)>
    ensures { (d : Description) (p : Places) → Records exprs.now places.now d p → reference_meant result ≡ reference_of (node_at d n) }
{
    let first = places::large_no(places, 3 * n as usize + 1);
    let last = places::large_no(places, 3 * n as usize + 2);
    references::reference_of(nodes::node_at(exprs, n as usize), first, last)
}

// A subscript that is one constant lies within the bounds.
fn subscript_faults(exprs: &[u8], places: &[u8], b: Bounds, e: u16) -> Judged
    ensures { (d : Description) (p : Places) (t : ℕ → L.Judged) → Records exprs.now places.now d p → judged result ≡ least (subscript_faults d p t (bounds_meant b) e) }
{
    let Node::Constant(_) = nodes::node_at(exprs, e as usize) else {
        return Ok(());
    };
    let at = places::of_node(places, e as usize, 0);
    faults::unless(constants::within(exprs, e, b), at, Refusal::BadSubscript)
}

// The ends of a part lie within the bounds.
fn end_faults(places: &[u8], n: u16, b: Bounds, x: Bounds) -> Judged
    ensures { (d : Description) (p : Places) (t : ℕ → L.Judged) (exprs : List ℕ) → Records exprs places.now d p → judged result ≡ least (end_faults d p t (bounds_meant b) (bounds_meant x) (node_place p n)) }
{
    let first = places::of_node(places, n as usize, 1);
    let last = places::of_node(places, n as usize, 2);
    let right = bounds::in_bounds(b, x.first as u64);
    let one = faults::unless(right, first, Refusal::BadSubscript);
    let right = bounds::in_bounds(b, x.last as u64);
    faults::also(one, faults::unless(right, last, Refusal::BadSubscript))
}

// The constants of a reference with the right number of subscripts.
pub fn bound_faults(exprs: &[u8], places: &[u8], n: u16, f: Facility, s: Subscripts) -> Judged
    ensures { (d : Description) (p : Places) (t : ℕ → L.Judged) (name : Name) → Records exprs.now places.now d p → judged result ≡ least (bound_faults d p t (facility_meant name f) (subscripts_meant s) (node_place p n)) }
{
    let w = f.words;
    let b = f.bits;
    match s {
        Subscripts::Whole => Ok(()),
        Subscripts::One(e) => {
            let taken = if f.dimensions == 1 { b } else { w };
            subscript_faults(exprs, places, taken, e)
        }
        Subscripts::Part(x) => end_faults(places, n, b, x),
        Subscripts::Two(e, g) => {
            let one = subscript_faults(exprs, places, w, e);
            faults::also(one, subscript_faults(exprs, places, b, g))
        }
        Subscripts::WordPart(e, x) => {
            let one = subscript_faults(exprs, places, w, e);
            faults::also(one, end_faults(places, n, b, x))
        }
    }
}

// A part lies in the declared direction.
pub fn direction_faults(places: &[u8], n: u16, f: Facility, s: Subscripts) -> Judged
    ensures { (d : Description) (p : Places) (t : ℕ → L.Judged) (exprs : List ℕ) (name : Name) → Records exprs places.now d p → judged result ≡ least (direction_faults d p t (facility_meant name f) (subscripts_meant s) (node_place p n)) }
{
    let last = places::of_node(places, n as usize, 2);
    match s {
        Subscripts::Part(x) | Subscripts::WordPart(_, x) => {
            let right = bounds::same_direction(f.bits, x);
            faults::unless(right, last, Refusal::BadSubscript)
        }
        _ => Ok(()),
    }
}

// The work that a facility adds where it is named: a computed terminal's is kept.
pub fn computed_work(memo: &[usize], f: u8, kind: FacilityKind) -> Verdict
    ensures { (j : L.Judged) → (is_computed (kind_meant kind) ≡ true → recalled memo.now f ≡ seen j) → result ≡ seen (cond (is_computed (kind_meant kind)) j (L.worth 1 0 0)) }
{
    if kinds::is_computed(kind) {
        return kept::recall(memo, f as u16);
    }
    operators::nothing()
}

// The length of a reference, and its work with that of its subscripts and of a computed terminal.
fn with_computed(at: Position, length: u64, subs: Verdict, computed: Verdict) -> Verdict
    ensures { (q : W.Position) (j k : L.Judged) → positioned at ≡ q → subs ≡ seen j → computed ≡ seen k → result ≡ seen (L.given_both j k (λ v w. L.sized q length (v.work + w.work))) }
{
    let (v, w) = faults::both(subs, computed)?;
    tests::sized(at, length, work::added(v.work, w.work))
}

// A reference with the right number of subscripts, from what is known of its parts.
pub fn counted_right(
    at: Position,
    length: u64,
    subs: Verdict,
    bounds: Judged,
    direction: Judged,
    computed: Verdict,
) -> Verdict
    ensures { (q : W.Position) (j k : L.Judged) (x y : List W.Fault) → positioned at ≡ q → subs ≡ seen j → computed ≡ seen k → judged bounds ≡ least x → judged direction ≡ least y → result ≡ seen (L.or_faulty (L.faults_of j ++ x) (L.or_faulty y (L.given_both j k (λ v w. L.sized q length (v.work + w.work))))) }
{
    faults::also(faults::faults_of(subs), bounds)?;
    direction?;
    with_computed(at, length, subs, computed)
}

// One with another number of them.
pub fn counted_wrong(at: Position, subs: Verdict) -> Verdict
    ensures { (q : W.Position) (j : L.Judged) → positioned at ≡ q → subs ≡ seen j → result ≡ seen (L.or_faulty (L.faults_of j) (L.refuse q BadSubscript)) }
{
    subs?;
    faults::refused(at, Refusal::BadSubscript)
}
