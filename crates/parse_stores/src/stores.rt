// What follows a reference on the left: `@`, a store's sign, or CON and a second reference.
ghost use Rattle.std.specs.Prelude.{[], ◌∷◌, ◌≡◌};
ghost use Rattle.parse_step.specs.Course.{kind_no};
ghost use Rattle.about_grammar.specs.Following.{among};
ghost use Rattle.language.specs.Machine as L;
ghost use Rattle.image_records.specs.Actions.{meant};
ghost use Rattle.language.specs.Kinds.{con_word, delayed_sign, equal_sign};
ghost use Rattle.parse_stores.specs.Reached.{AfterLeft, Stores, sided};

use crate::leaves;
use image_records::actions::Action;
use language::refusals::Refusal;
use parse_array::Work;
use parse_levels::Level;
use parse_step::{Answer, Bearing, State, adding, kinds, taking};
use text_words::Word;

// The records of a left side: one reference, or two joined by CON.
#[derive(Clone, Copy)]
pub enum Sides {
    One(u16),
    Two(u16, u16),
}

// Whether a kind is a store's sign.
#[tactic(auto, using(std::proofs::lemmas::Bool::Decides::nat_tests), unfolding(about_grammar::specs::Following::among))]
pub fn signs(kind: u8) -> bool
    ensures { result ≡ among kind (delayed_sign ∷ equal_sign ∷ []) }
{
    matches!(kind, language::kinds::DELAYED | language::kinds::EQUAL)
}

// A store's record.
fn storing(kind: u8, left: Sides, right: u16) -> Action
    ensures { meant result ≡ sided kind left right }
{
    match left {
        Sides::One(l) => Action::Store(kind, l, right),
        Sides::Two(l, m) => Action::StorePair(kind, l, m, right),
    }
}

// `@` behind a reference.
pub fn set(s: State, text: &[u8], w: Word, work: &mut Work) -> Answer
    ensures { AfterLeft L.set_sign text.now w s work.old work.new result }
{
    if kinds::kind_of(w) == language::kinds::AT {
        let taken = taking::take(text, w, s, true, Bearing::Level)?;
        let action = Action::Set(adding::last(taken.state.nodes));
        return leaves::put(taken.state, action, w.at, taken.next, work);
    }
    taking::refuse(w, Refusal::NoContinuation)
}

// A store, from its sign on.
fn store(s: State, left: Sides, text: &[u8], w: Word, work: &mut Work) -> Answer
    ensures { Stores left text.now w s work.old work.new result }
{
    let kind = kinds::kind_of(w);
    if signs(kind) {
        let taken = taking::take(text, w, s, true, Bearing::Level)?;
        let right = parse_expressions::start(
            taken.state,
            Level::Expression,
            text,
            taken.next,
            work,
        )?;
        let action = storing(kind, left, adding::last(right.state.nodes));
        return leaves::put(right.state, action, w.at, right.next, work);
    }
    taking::refuse(w, Refusal::NoContinuation)
}

// CON, a second reference, and the store.
fn second(s: State, text: &[u8], w: Word, work: &mut Work) -> Answer
    ensures { kind_no w.kind ≡ con_word → AfterLeft L.left_rest text.now w s work.old work.new result }
{
    let taken = taking::take(text, w, s, false, Bearing::Level)?;
    let kept = leaves::keep_name(text, taken.next, taken.state)?;
    let other = parse_expressions::reference(kept.state, taken.next, text, kept.next, work)?;
    let left = Sides::Two(adding::last(s.nodes), adding::last(other.state.nodes));
    store(other.state, left, text, other.next, work)
}

// What follows the first reference in an operation.
pub fn rest(s: State, text: &[u8], w: Word, work: &mut Work) -> Answer
    ensures { AfterLeft L.left_rest text.now w s work.old work.new result }
{
    let kind = kinds::kind_of(w);
    if kind == language::kinds::CON {
        return second(s, text, w, work);
    }
    if kind == language::kinds::AT {
        return set(s, text, w, work);
    }
    let left = Sides::One(adding::last(s.nodes));
    store(s, left, text, w, work)
}
