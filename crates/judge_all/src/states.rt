// States, in order: their values, their work, and the faults of their actions.
ghost use Rattle.std.specs.Prelude.{cond, false, true, List, [], ◌++◌, ◌≡◌, ℕ, ◌/◌, ◌≤◌, eqb, length};
ghost use Rattle.std.proofs.Math.Option.{Option};
ghost use Rattle.image_sections.specs.Declarations.{run_meant, state_meant, value_meant};
ghost use Rattle.language.specs.Description as D;
ghost use Rattle.language.specs.Description.{Description, Places, state_at, state_place};
ghost use Rattle.language.specs.Judging as L;
ghost use Rattle.language.specs.Rules.{missing, own_faults, sequencing_length, state_faults, states_faults};
ghost use Rattle.language.specs.WordStage.{least};
ghost use Rattle.language.specs.Words as W;
ghost use Rattle.judge_verdicts.specs.Meaning.{seen};
ghost use Rattle.text_words.specs.Meaning.{judged, positioned};
ghost use Rattle.judge_all.specs.InSlices.{Performed};
ghost use Rattle.judge_all.specs.BySections.{ActingBy, StatedBy};
ghost use Rattle.judge_all.specs.Stated.{Valued, state_judged, state_places_of, values_before, wanted_length};
ghost use Rattle.language.specs.Encode.{operation_size};

use crate::{values, wanted};
use image_records::record_sizes;
use image_sections::runs::Run;
use image_sections::states::StateRecord;
use judge_actions::{Owner, Sections, walk};
use judge_records::places;
use judge_verdicts::{Verdict, faults};
use language::ceilings;
use language::refusals::Refusal;
use text_words::{Judged, Position};

// Whether a value is there or not wanted.
fn value_there(wanted: Option<u64>, value: Option<u16>) -> bool
    ensures { (d : Description) (p : Places) → result ≡ cond (missing d p (wanted_length wanted) (value_meant value)) false true }
{
    wanted.is_none() || value.is_some()
}

// The faults of a state's actions, or else its own: a value that is missing, work that is too much.
fn own_faults(there: bool, at: Position, v: Verdict) -> Judged
    ensures { (d : Description) (p : Places) (l : Option ℕ) (q : W.Position) (s : D.State) (j : L.Judged) → positioned at ≡ q → there ≡ cond (missing d p l s.value) false true → v ≡ seen j → judged result ≡ least (own_faults d p l q s j) }
{
    let w = v?;
    let one = faults::unless(there, at, Refusal::BadSequencing);
    let two = faults::unless(w.work <= ceilings::WORK, at, Refusal::CeilingPassed);
    faults::also(one, two)
}

// A state whose value is at fault has no further fault of its own, but those of its actions.
fn with_value(wrong: Judged, own: Judged, run: Judged) -> Judged
    ensures { (x y z : List W.Fault) → judged wrong ≡ least x → judged own ≡ least y → judged run ≡ least z → judged result ≡ least (cond (eqb (length x) 0) y (x ++ z)) }
{
    match wrong {
        Ok(()) => own,
        Err(_) => faults::also(wrong, run),
    }
}

// The verdict on a state's actions, where all operations are judged.
fn actions(sections: &Sections<'_>, kept: &[usize], ops: usize, run: Run) -> Verdict
    requires { ops ≤ 256 }
    ensures { (d : Description) (p : Places) (os : List ℕ) → ActingBy sections.now os d p → Performed kept.now ops d p → length d.operations ≡ ops → result ≡ seen (state_judged d p (run_meant run)) }
{
    let n = run.count as usize;
    let i = run.first as usize;
    let own = Owner {
        state: true,
        ops,
        kept,
    };
    walk::list(sections, &own, n, i)
}

// StateRecord n, whose actions have the verdict v.
fn state(
    es: &[u8],
    ss: &[u8],
    sp: &[u8],
    n: usize,
    wanted: Option<u64>,
    s: StateRecord,
    v: Verdict,
) -> Judged
    ensures { (d : Description) (p : Places) → Valued es.now ss.now d → state_place p n ≡ state_places_of sp.now n → state_meant (state_at d n).name s ≡ state_at d n → v ≡ seen (state_judged d p (state_at d n).actions) → judged result ≡ least (state_faults d p (wanted_length wanted) (values_before d p n) (state_place p n) (state_at d n)) }
{
    let at = places::of_state(sp, n, 0);
    let wrong = values::value_faults(es, ss, n, wanted, places::of_state(sp, n, 1), s.value);
    let own = own_faults(value_there(wanted, s.value), at, v);
    with_value(wrong, own, faults::faults_of(v))
}

// All states.
pub fn states(sections: &Sections<'_>, os: &[u8], kept: &[usize], sp: &[u8]) -> Judged
    requires { length os.now / operation_size ≤ 256 }
    ensures { (d : Description) (p : Places) → StatedBy sections.now os.now sp.now d p → Performed kept.now (length os.now / operation_size) d p → judged result ≡ least (states_faults d p (sequencing_length d p) [] 0 d.states) }
{
    let records = &sections.records;
    let wanted = wanted::sequencing_length(records.facilities, records.facility_places);
    let ops = os.len() / record_sizes::OPERATION;
    let mut all = Ok(());
    for n in 0..sections.states.len() / record_sizes::STATE {
        let s = image_sections::states::state_at(sections.states, n);
        let v = actions(sections, kept, ops, s.actions);
        let one = state(records.expressions, sections.states, sp, n, wanted, s, v);
        all = text_words::faults::earlier(all, one);
    }
    all
}
