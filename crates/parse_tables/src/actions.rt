// Actions: a record and the place of its word; a conditional's and an arm's record is written again when the records that belong to it are counted.
ghost use Rattle.std.specs.Prelude.{◌<◌};
ghost use Rattle.language.specs.Encode.{action_bytes};
ghost use Rattle.image_records.specs.Actions.{meant};
ghost use Rattle.parse_array.specs.Layout.{most_actions};
ghost use Rattle.parse_tables.specs.Actions.{ActionAdded};
ghost use Rattle.parse_tables.specs.declared.Table.TheVariants as T;
ghost use Rattle.parse_tables.specs.Rows.{Wrote};

use crate::{Table, places, rows};
use image_records::action_bytes;
use image_records::actions::Action;
use parse_array::Work;
use parse_array::layout::MOST_ACTIONS;
use text_words::Position;

// Writes the record of action n again.
pub fn rewrite_action(work: &mut Work, n: u16, action: Action)
    ensures { n < most_actions → Wrote T.Actions n (action_bytes (meant action)) work.old work.new }
{
    rows::write(work, Table::Actions, n, &action_bytes::action_bytes(action));
}

// Adds action n with the place of its word; answers whether there was room.
pub fn add_action(work: &mut Work, n: u16, action: Action, at: Position) -> bool
    ensures { ActionAdded n (meant action) at work.old work.new result }
{
    if MOST_ACTIONS <= n {
        return false;
    }
    rewrite_action(work, n, action);
    rows::write(work, Table::ActionPlaces, n, &places::place_row(at));
    true
}
