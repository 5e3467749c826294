// One action that is no conditional.
ghost use Rattle.std.specs.Prelude.{cond, ◌≡◌, ℕ, ◌+◌, ◌<◌, ◌≤◌, ltb, drop, length, take};
ghost use Rattle.image_sections.specs.Declarations.{name_length_in};
ghost use Rattle.language.specs.ActionRules.{simple_judged};
ghost use Rattle.language.specs.Decode.{names_length};
ghost use Rattle.language.specs.Description.{action_at, action_place, nowhere};
ghost use Rattle.language.specs.Expressions.{own_work};
ghost use Rattle.language.specs.Judging as L;
ghost use Rattle.language.specs.Words as W;
ghost use Rattle.judge_verdicts.specs.Meaning.{recalled, seen};
ghost use Rattle.language.specs.declared.refusals.Refusal.TheVariants.{BadName};
ghost use Rattle.text_words.specs.Meaning.{positioned};
ghost use Rattle.judge_terms.specs.Shown.{worked};
ghost use Rattle.judge_actions.specs.Acting.{ListsBy};
ghost use Rattle.judge_actions.specs.Listed.{in_right};
ghost use Rattle.language.specs.Encode.{state_size};

use crate::{Owner, Sections, stores};
use image_records::actions::Action;
use image_records::{actions, record_sizes};
use image_sections::names;
use judge_records::places;
use judge_verdicts::{Verdict, faults, kept, work};
use language::refusals::Refusal;
use text_words::Position;

// The work of an operation that is named: only the first `ops` may be.
fn operation(kept: &[usize], ops: usize, o: u16) -> Verdict
    ensures { (j : L.Judged) → (o < ops → recalled kept.now o ≡ seen (worked j)) → (ops ≤ o → j ≡ L.refuse nowhere BadName) → result ≡ seen (worked j) }
{
    if (o as usize) < ops {
        return kept::recall(kept, o);
    }
    faults::refused(places::nowhere(), Refusal::BadName)
}

// An operation reference.
fn perform(kept: &[usize], ops: usize, o: u16) -> Verdict
    ensures { (w : ℕ → L.Judged) → (o < ops → recalled kept.now o ≡ seen (worked (w o))) → (ops ≤ o → w o ≡ L.refuse nowhere BadName) → result ≡ seen (L.given (w o) (λ x. L.worth 1 0 (own_work + x.work))) }
{
    let w = operation(kept, ops, o)?;
    work::only(work::with_one(w.work))
}

// Whether state s has a name; `labels` are the states' names.
fn labelled(states: &[u8], labels: &[u8], s: u16) -> bool
    ensures { result ≡ ltb 0 (length (take (name_length_in state_size 0 states.now s) (drop (names_length s 0 state_size states.now) labels.now))) }
{
    let state = image_sections::states::state_at(states, s as usize);
    if state.name == 0 {
        return false;
    }
    names::names_length(states, s as u32, 0, names::STATE) < labels.len()
}

// An action without parts.
fn alone() -> Verdict
    ensures { result ≡ seen (L.worth 1 0 own_work) }
{
    work::only(work::own())
}

// A state is gone to by its name.
fn to_state(states: &[u8], labels: &[u8], at: Position, s: u16) -> Verdict
    ensures { (q : W.Position) → positioned at ≡ q → result ≡ seen (cond (ltb 0 (length (take (name_length_in state_size 0 states.now s) (drop (names_length s 0 state_size states.now) labels.now)))) (L.worth 1 0 own_work) (L.refuse q BadName)) }
{
    if labelled(states, labels, s) {
        return alone();
    }
    faults::refused(at, Refusal::BadName)
}

// What stands only in operations, or only in states.
fn only_in(right: bool, at: Position, v: Verdict) -> Verdict
    ensures { (q : W.Position) (j : L.Judged) → positioned at ≡ q → v ≡ seen j → result ≡ seen (in_right right q j) }
{
    if right {
        return v;
    }
    faults::refused(at, Refusal::NoContinuation)
}

// The action that record i is.
pub fn simple(sections: &Sections<'_>, own: &Owner<'_>, i: usize) -> Verdict
    ensures { ListsBy sections.now own.now (λ d p w. simple_judged d p own.now.state w (action_place p i) (action_at d i)) result }
{
    let at = places::of_record(sections.action_places, i);
    let (records, memo) = (&sections.records, sections.memo);
    let known = records.facilities.len() / record_sizes::FACILITY;
    match actions::action_at(sections.actions, i) {
        Action::Store(k, l, r) => {
            let v = stores::store(records, memo, known, at, k, l, r);
            only_in(!own.state, at, v)
        }
        Action::StorePair(k, l, m, r) => {
            let v = stores::store_pair(records, memo, known, at, k, l, m, r);
            only_in(!own.state, at, v)
        }
        Action::Set(l) => stores::set(records, memo, known, at, l),
        Action::Perform(o) => perform(own.kept, own.ops, o),
        Action::Goto(s) | Action::Call(s) => {
            let v = to_state(sections.states, sections.labels, at, s);
            only_in(own.state, at, v)
        }
        Action::Return => only_in(own.state, at, alone()),
        Action::When(..) | Action::Choose(..) | Action::Arm(_) => {
            faults::refused(at, Refusal::NoContinuation)
        }
        Action::Broken => faults::refused(at, Refusal::BadName),
    }
}
