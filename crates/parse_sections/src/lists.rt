// A section of declarations: the word that begins it, and its list.
ghost use Rattle.parse_sections.specs.Sections.{Section, Starts};

use parse_array::Work;
use parse_facilities::lists::List;
use parse_facilities::{Progress, lists};
use parse_step::{Bearing, State, Unread, taking};
use text_words::Word;

// The list L, whose word has been seen.
pub fn section<L: List>(
    text: &[u8],
    w: Word,
    work: &mut Work,
    s: State,
    place: u16,
) -> Result<Progress, Unread>
    requires { Starts L.listing text.now place w s work.old }
    ensures { Section L.listing text.now w s place work.old work.new result }
{
    let first = taking::take(text, w, s, false, Bearing::Level)?;
    lists::declarations::<L>(text, first.next, work, first.state, place)
}
