// How a state begins: a label with or without a value, or at once its actions.
ghost use Rattle.std.specs.Prelude.{◌≡◌};
ghost use Rattle.about_grammar.specs.Following.{among};
ghost use Rattle.parse_states.specs.Heads.{AfterName, Brackets, Counted, Heads, PlainHead, Valued, state_kinds};

use crate::{Begun, Head, values};
use language::ceilings;
use language::refusals::Refusal;
use parse_array::Work;
use parse_step::{Answer, Bearing, Reached, State, Unread, adding, kinds, taking};
use text_words::{Position, Word, places};

// How far a constant in parentheses was read, with the colon behind them.
#[derive(Clone, Copy)]
pub struct Bracketed {
    pub reached: Reached,
    pub constant: Word,
}

// Whether a state may begin with a word of a kind.
#[tactic(auto, using(std::proofs::lemmas::Bool::Decides::nat_tests), unfolding(about_grammar::specs::Following::among))]
fn begins(kind: u8) -> bool
    ensures { result ≡ among kind state_kinds }
{
    matches!(
        kind,
        language::kinds::NAME
            | language::kinds::SLASH
            | language::kinds::GOTO
            | language::kinds::CALL
            | language::kinds::RETURN
            | language::kinds::IF
            | language::kinds::CASE
    )
}

// Counts a state at its first word, which is not yet taken.
fn count(w: Word, s: State) -> Answer
    ensures { Counted w s result }
{
    if s.states < ceilings::STATES {
        let state = State {
            states: s.states + 1,
            ..s
        };
        return Ok(Reached { next: w, state });
    }
    if begins(kinds::kind_of(w)) {
        return taking::refuse(w, Refusal::CeilingPassed);
    }
    taking::refuse(w, Refusal::NoContinuation)
}

// A state without a value; its label's word is at its place.
fn plain(at: Position, size: usize) -> Head
    ensures { PlainHead at size result }
{
    Head {
        at,
        size,
        value: None,
        spot: places::position(0),
    }
}

// A constant in parentheses, and the colon.
fn in_brackets(text: &[u8], w: Word, s: State) -> Result<Bracketed, Unread>
    ensures { Brackets text.now w s result }
{
    let open = taking::take(text, w, s, false, Bearing::Opens)?;
    let kept = taking::keep_constant(text, open.next, open.state)?;
    let close = taking::expect(
        text,
        kept.next,
        kept.state,
        language::kinds::CLOSE_PAREN,
        Bearing::Closes,
    )?;
    let reached = taking::expect(
        text,
        close.next,
        close.state,
        language::kinds::COLON,
        Bearing::Level,
    )?;
    Ok(Bracketed {
        reached,
        constant: open.next,
    })
}

// A label's value, whose records are written.
fn valued(
    text: &[u8],
    name: Word,
    w: Word,
    work: &mut Work,
    s: State,
    l: u16,
) -> Result<Begun, Unread>
    ensures { Valued l name text.now w s work.old work.new result }
{
    let read = in_brackets(text, w, s)?;
    let v = values::stated(read.constant, l);
    let reached = adding::add_constant(work, v, read.reached.next, read.reached.state)?;
    let head = Head {
        at: name.at,
        size: name.size,
        value: Some(adding::last(reached.state.nodes)),
        spot: read.constant.at,
    };
    Ok(Begun {
        reached,
        head,
        named: false,
    })
}

// Behind the name that a state begins with: it was a label, or the first action's.
fn after_name(
    text: &[u8],
    name: Word,
    w: Word,
    work: &mut Work,
    s: State,
    l: u16,
) -> Result<Begun, Unread>
    ensures { AfterName l name text.now w s work.old work.new result }
{
    let kind = kinds::kind_of(w);
    if kind == language::kinds::OPEN_PAREN {
        return valued(text, name, w, work, s, l);
    }
    if kind == language::kinds::COLON {
        return Ok(Begun {
            reached: taking::take(text, w, s, false, Bearing::Level)?,
            head: plain(name.at, name.size),
            named: false,
        });
    }
    Ok(Begun {
        reached: Reached { next: w, state: s },
        head: plain(name.at, 0),
        named: true,
    })
}

// The head of a state.
pub fn head(text: &[u8], w: Word, work: &mut Work, s: State, l: u16) -> Result<Begun, Unread>
    ensures { Heads l text.now w s work.old work.new result }
{
    let counted = count(w, s)?;
    if kinds::kind_of(w) != language::kinds::NAME {
        return Ok(Begun {
            reached: counted,
            head: plain(w.at, 0),
            named: false,
        });
    }
    let name = taking::take(text, w, counted.state, false, Bearing::Level)?;
    after_name(text, w, name.next, work, name.state, l)
}
