// The list of terminals.
ghost use Rattle.parse_facilities.specs.Lists.{terminals};

use crate::declaring;
use parse_array::Work;
use parse_facilities::Progress;
use parse_facilities::lists::List;
use parse_step::{State, Unread};
use text_words::Word;

#[derive(Clone, Copy)]
pub struct TerminalList;

impl List for TerminalList {
    ghost listing = { terminals };

    fn one(
        text: &[u8],
        w: Word,
        work: &mut Work,
        s: State,
        place: u16,
    ) -> Result<Progress, Unread> {
        declaring::terminal(text, w, work, s, place)
    }
}
