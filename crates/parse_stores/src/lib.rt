// Simple actions (the manual, 7.1 and 8.2), read as the machine of the grammar reads them.
#![tactic(auto)]

ghost use Rattle.std.specs.Prelude.{true, [], ◌∷◌, ◌≡◌};
ghost use Rattle.parse_step.specs.Course.{kind_no};
ghost use Rattle.about_grammar.specs.Following.{among};
ghost use Rattle.language.specs.Kinds.{at_sign, call_sign, con_word, delayed_sign, equal_sign, goto_sign, open_bracket, return_word};
ghost use Rattle.language.specs.Machine as L;
ghost use Rattle.language.specs.Machine.{ask};
ghost use Rattle.parse_expressions.specs.Phrases.{after_name, same};
ghost use Rattle.parse_stores.specs.Actions.{Acts};
ghost use Rattle.parse_stores.specs.Leaves.{Performs};
ghost use Rattle.parse_stores.specs.Reached.{Arrows};

use image_records::actions::Action;
use parse_array::Work;
use parse_step::{Answer, Bearing, State, kinds, taking};
use parse_tables::meaning::KnownNames;
use text_words::Word;

pub mod leaves;
mod stores;

// A name alone: it performs an operation, and counts.
fn perform(s: State, name: Word, text: &[u8], w: Word, work: &mut Work, n: KnownNames) -> Answer
    ensures { Performs name text.now n w s work.old work.new result }
{
    let counted = taking::pass(name, w, s, true, Bearing::Level)?;
    let m = leaves::meaning(text, work, n, name);
    leaves::put(counted.state, leaves::performing(m), name.at, w, work)
}

// A state's name behind `->` or `=>`.
fn arrow(s: State, call: bool, text: &[u8], w: Word, work: &mut Work, n: KnownNames) -> Answer
    ensures { Arrows call text.now n w s work.old work.new result }
{
    let kept = leaves::keep_name(text, w, s)?;
    let m = leaves::meaning(text, work, n, w);
    leaves::put(kept.state, leaves::going(call, m), w.at, kept.next, work)
}

// What begins with a sign in a state: `->`, `=>` or RETURN.
pub fn signed(s: State, text: &[u8], w: Word, work: &mut Work, n: KnownNames) -> Answer
    ensures { among (kind_no w.kind) (goto_sign ∷ call_sign ∷ return_word ∷ []) ≡ true → Acts (ask L.state_action ∷ []) same text.now n w s work.old work.new result }
{
    let taken = taking::take(text, w, s, true, Bearing::Level)?;
    let kind = kinds::kind_of(w);
    if kind == language::kinds::RETURN {
        return leaves::put(taken.state, Action::Return, w.at, taken.next, work);
    }
    arrow(
        taken.state,
        kind == language::kinds::CALL,
        text,
        taken.next,
        work,
        n,
    )
}

// Whether a reference goes on behind a name in an operation: `[`, CON, `@`, `<-` or `=` comes.
#[tactic(auto, using(std::proofs::lemmas::Bool::Decides::nat_tests), unfolding(about_grammar::specs::Following::among))]
fn refers(kind: u8) -> bool
    ensures { result ≡ among kind (open_bracket ∷ con_word ∷ at_sign ∷ delayed_sign ∷ equal_sign ∷ []) }
{
    matches!(
        kind,
        language::kinds::OPEN_BRACKET
            | language::kinds::CON
            | language::kinds::AT
            | language::kinds::DELAYED
            | language::kinds::EQUAL
    )
}

// The same in a state: `[` or `@` comes.
#[tactic(auto, using(std::proofs::lemmas::Bool::Decides::nat_tests), unfolding(about_grammar::specs::Following::among))]
fn sets(kind: u8) -> bool
    ensures { result ≡ among kind (open_bracket ∷ at_sign ∷ []) }
{
    matches!(kind, language::kinds::OPEN_BRACKET | language::kinds::AT)
}

// An action of an operation, behind its first name.
pub fn named_in_operation(
    s: State,
    name: Word,
    text: &[u8],
    w: Word,
    work: &mut Work,
    n: KnownNames,
) -> Answer
    ensures { Acts (ask L.operation_name ∷ []) (after_name name) text.now n w s work.old work.new result }
{
    if refers(kinds::kind_of(w)) {
        let first = parse_expressions::reference(s, name, text, w, work)?;
        return stores::rest(first.state, text, first.next, work);
    }
    perform(s, name, text, w, work, n)
}

// An action of a state, behind its first name. What may follow differs and how it is read too, so that one function with a flag would ask it twice.
pub fn named_in_state(
    s: State,
    name: Word,
    text: &[u8],
    w: Word,
    work: &mut Work,
    n: KnownNames,
) -> Answer
    ensures { Acts (ask L.state_name ∷ []) (after_name name) text.now n w s work.old work.new result }
{
    if sets(kinds::kind_of(w)) {
        let first = parse_expressions::reference(s, name, text, w, work)?;
        return stores::set(first.state, text, first.next, work);
    }
    perform(s, name, text, w, work, n)
}
