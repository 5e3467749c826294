// What simple actions are made of: names, and the records of actions.
ghost use Rattle.std.specs.Prelude.{◌≡◌};
ghost use Rattle.language.specs.Description as D;
ghost use Rattle.language.specs.Naming.{of_operation, of_state};
ghost use Rattle.parse_tables.specs.Known as K;
ghost use Rattle.image_records.specs.Actions.{meant};
ghost use Rattle.parse_stores.specs.Leaves.{KeepsName, NameMeans, Puts};
ghost use Rattle.parse_stores.specs.Reached.{arrow_action};

use image_records::actions::Action;
use language::refusals::Refusal;
use parse_array::Work;
use parse_step::{Answer, Bearing, Reached, State, Unread, adding, kinds, taking};
use parse_tables::actions;
use parse_tables::meaning::{KnownNames, Meaning};
use text_words::{Position, Word, places};

// Keeps a name that must come; it is not counted.
pub fn keep_name(text: &[u8], w: Word, s: State) -> Answer
    ensures { KeepsName text.now w s result }
{
    if kinds::kind_of(w) == language::kinds::NAME {
        return taking::take(text, w, s, false, Bearing::Level);
    }
    taking::refuse(w, Refusal::NoContinuation)
}

// Adds an action's record, whose word is at; the word behind the action has been seen.
pub fn put(s: State, action: Action, at: Position, next: Word, work: &mut Work) -> Answer
    ensures { Puts (meant action) at next s work.old work.new result }
{
    let room = actions::add_action(work, s.actions, action, at);
    parse_array::whole(work);
    if room {
        let state = adding::with_actions(s, s.actions + 1);
        return Ok(Reached { next, state });
    }
    Err(Unread::Full(s))
}

// The record of a name that performs an operation; broken where it means none.
pub fn performing(m: Meaning) -> Action
    ensures { meant result ≡ of_operation (K.meant m) D.perform }
{
    match m {
        Meaning::Operation(k) => Action::Perform(k as u16),
        Meaning::Facility(_) | Meaning::State(_) | Meaning::Unknown => Action::Broken,
    }
}

// The record of a name behind `=>` or `->`; broken where it means no state.
pub fn going(call: bool, m: Meaning) -> Action
    ensures { meant result ≡ of_state (K.meant m) (arrow_action call) }
{
    match m {
        Meaning::State(k) if call => Action::Call(k),
        Meaning::State(k) => Action::Goto(k),
        Meaning::Facility(_) | Meaning::Operation(_) | Meaning::Unknown => Action::Broken,
    }
}

// What a name means, by its word.
pub fn meaning(text: &[u8], work: &Work, n: KnownNames, name: Word) -> Meaning
    ensures { NameMeans text.now work.now n name result }
{
    parse_tables::meaning::what(text, work, n, places::place(name.at), name.size)
}
