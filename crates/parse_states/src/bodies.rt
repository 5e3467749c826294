// The actions of a state, separated by commas, and the `/` that ends it.
ghost use Rattle.parse_states.specs.Bodies.{Bodies, Firsts, Lists, Rests, Stands};

use parse_array::Work;
use parse_step::{Answer, Bearing, State, kinds, taking};
use parse_tables::meaning::KnownNames;
use text_words::Word;

// The first action, whose name was taken or not.
fn first(
    s: State,
    named: bool,
    name: Word,
    text: &[u8],
    w: Word,
    work: &mut Work,
    n: KnownNames,
) -> Answer
    ensures { Firsts named name text.now n w s work.old work.new result }
{
    if named {
        return parse_stores::named_in_state(s, name, text, w, work, n);
    }
    parse_actions::action(s, true, text, w, work, n)
}

// Behind an action: a comma and another, or the `/`. Each counts a word, so that there are not too many.
fn rest(s: State, text: &[u8], w: Word, work: &mut Work, n: KnownNames) -> Answer
    requires { Stands text.now n w s work.old }
    ensures { Rests text.now n w s work.old work.new result }
{
    let mut next = w;
    let mut state = s;
    loop {
        if kinds::kind_of(next) != language::kinds::COMMA {
            return taking::expect(text, next, state, language::kinds::SLASH, Bearing::Level);
        }
        let comma = taking::take(text, next, state, false, Bearing::Level)?;
        let another = parse_actions::action(comma.state, true, text, comma.next, work, n)?;
        next = another.next;
        state = another.state;
    }
}

// Some actions, and the `/`.
fn list(
    s: State,
    named: bool,
    name: Word,
    text: &[u8],
    w: Word,
    work: &mut Work,
    n: KnownNames,
) -> Answer
    requires { Stands text.now n w s work.old }
    ensures { Lists named name text.now n w s work.old work.new result }
{
    let one = first(s, named, name, text, w, work, n)?;
    rest(one.state, text, one.next, work, n)
}

// The actions of a state, of which the first one's name was taken or not; there may be none.
pub fn body(
    s: State,
    named: bool,
    name: Word,
    text: &[u8],
    w: Word,
    work: &mut Work,
    n: KnownNames,
) -> Answer
    requires { Stands text.now n w s work.old }
    ensures { Bodies named name text.now n w s work.old work.new result }
{
    if named {
        return list(s, true, name, text, w, work, n);
    }
    if kinds::kind_of(w) == language::kinds::SLASH {
        return taking::take(text, w, s, false, Bearing::Level);
    }
    list(s, false, name, text, w, work, n)
}
