// The function of a terminal: none, an input, or an expression.
ghost use Rattle.parse_terminals.specs.Functions.{Computes, Follows, Functions, Plains};

use crate::{Defined, inputs};
use image_sections::facilities::FacilityKind;
use parse_array::Work;
use parse_levels::Level;
use parse_step::{Bearing, Reached, State, Unread, adding, kinds, taking};
use text_words::{Word, places};

// A terminal without a function.
fn plain(w: Word, s: State) -> Defined
    ensures { Plains w s result }
{
    Defined {
        reached: Reached { next: w, state: s },
        kind: FacilityKind::Plain,
        expression: 0,
        equals: places::position(0),
    }
}

// An expression behind the `=`, written behind those of the terminals before.
fn computed(text: &[u8], equal: Word, w: Word, work: &mut Work, s: State) -> Result<Defined, Unread>
    ensures { Computes text.now equal w s work.old work.new result }
{
    let reached = parse_expressions::start(s, Level::Expression, text, w, work)?;
    Ok(Defined {
        reached,
        kind: FacilityKind::Computed,
        expression: adding::last(reached.state.nodes),
        equals: equal.at,
    })
}

// What stands behind the `=`.
fn behind_equal(
    text: &[u8],
    name: Word,
    equal: Word,
    w: Word,
    work: &mut Work,
    s: State,
) -> Result<Defined, Unread>
    ensures { Follows text.now name equal w s work.old work.new result }
{
    if kinds::kind_of(w) != language::kinds::INPUT {
        return computed(text, equal, w, work, s);
    }
    let reached = inputs::input(text, name, w, s)?;
    Ok(Defined {
        reached,
        kind: FacilityKind::Input,
        expression: 0,
        equals: places::position(0),
    })
}

// The function behind a terminal's dimensions; where there are two it has none.
pub fn function(
    text: &[u8],
    name: Word,
    dimensions: u8,
    w: Word,
    work: &mut Work,
    s: State,
) -> Result<Defined, Unread>
    ensures { Functions text.now name dimensions w s work.old work.new result }
{
    if dimensions == 2 {
        return Ok(plain(w, s));
    }
    if kinds::kind_of(w) != language::kinds::EQUAL {
        return Ok(plain(w, s));
    }
    let equal = taking::take(text, w, s, false, Bearing::Level)?;
    behind_equal(text, name, w, equal.next, work, equal.state)
}
