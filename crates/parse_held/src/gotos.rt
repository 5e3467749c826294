// Gotos and calls, resolved when all labels are known: until then each waits with the length of its name, whose word stands at its place.
ghost use Rattle.std.specs.Prelude.{◌≡◌, ◌+◌, ◌<◌, ◌≤◌};
ghost use Rattle.image_records.specs.Actions.{meant};
ghost use Rattle.judge_records.specs.Read.{place_of};
ghost use Rattle.language.specs.Decode.{action_of};
ghost use Rattle.language.specs.Description as D;
ghost use Rattle.parse_array.specs.Layout.{most_actions};
ghost use Rattle.parse_held.specs.Gotos.{Resolves, ResolvesAll, labels_in, or_broken, state_at};
ghost use Rattle.parse_tables.specs.declared.Table.TheVariants as T;
ghost use Rattle.parse_tables.specs.Names as N;
ghost use Rattle.parse_tables.specs.Rows as R;

use crate::body;
use image_records::actions;
use image_records::actions::Action;
use judge_records::places;
use parse_array::Work;
use parse_tables::actions::rewrite_action;
use parse_tables::{Table, finding};

// Action k, as its record says.
fn action_of(work: &Work, k: u16) -> Action
    requires { k < most_actions }
    ensures { meant result ≡ action_of (R.rows T.Actions (k + 1) work.now) k }
{
    let s: &[u8] = work;
    actions::action_at(body::rows_of(s, Table::Actions, k + 1), k as usize)
}

// The state, among n labels, whose name of this length stands at the place of action k.
fn state_named(text: &[u8], work: &Work, k: u16, length: u16, n: u16) -> Option<u8>
    requires { k < most_actions }
    ensures { N.found result ≡ state_at text.now (labels_in text.now work.now n) (place_of 1 (R.rows T.ActionPlaces (k + 1) work.now) k 0) length }
{
    let s: &[u8] = work;
    let at = places::of_record(body::rows_of(s, Table::ActionPlaces, k + 1), k as usize);
    finding::find(
        text,
        work,
        Table::Labels,
        n,
        text_words::places::place(at),
        length as usize,
    )
}

// The record of a goto; broken where there is no state.
fn goto(state: Option<u8>) -> Action
    ensures { meant result ≡ or_broken (N.found state) D.goto }
{
    state.map_or(Action::Broken, |k| Action::Goto(u16::from(k)))
}

// The record of a call; broken where there is no state.
fn call(state: Option<u8>) -> Action
    ensures { meant result ≡ or_broken (N.found state) D.call }
{
    state.map_or(Action::Broken, |k| Action::Call(u16::from(k)))
}

// Resolves action k where it waits for a state, by the first n labels.
fn resolve_one(text: &[u8], work: &mut Work, k: u16, n: u16)
    requires { k < most_actions }
    ensures { Resolves text.now k n work.old work.new }
{
    match action_of(work, k) {
        Action::Goto(length) => {
            let state = state_named(text, work, k, length, n);
            rewrite_action(work, k, goto(state))
        }
        Action::Call(length) => {
            let state = state_named(text, work, k, length, n);
            rewrite_action(work, k, call(state))
        }
        _ => {}
    }
}

// Resolves the actions from one number up to another by the first n labels.
pub fn resolve(text: &[u8], work: &mut Work, from: u16, to: u16, n: u16)
    requires { to ≤ most_actions }
    ensures { ResolvesAll text.now from to n work.old work.new }
{
    for k in from..to {
        resolve_one(text, work, k, n);
    }
}
