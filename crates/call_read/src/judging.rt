// What the working array holds, judged by all the rules.
ghost use Rattle.std.specs.Prelude.{◌≡◌, ◌≤◌, length};
ghost use Rattle.language.specs.Rules as L;
ghost use Rattle.language.specs.WordStage.{least};
ghost use Rattle.judge_records.specs.Noted.{noted_description, places_in};
ghost use Rattle.text_words.specs.Meaning.{judged};
ghost use Rattle.parse_held.specs.Sections.{Few, beside_held, most_letters, names_held, sections_held};

use image_records::bytes;
use judge_all::Described;
use language::ceilings;
use parse_array::Work;
use parse_array::layout::{MOST_FACILITIES, MOST_OPERATIONS, MOST_STATES};
use parse_held::{Holding, body, counts, names};
use parse_tables::Table;
use text_words::Judged;

// Letters of all names: at most a line's for each.
const MOST_LETTERS: usize = ceilings::NAME
    * (MOST_FACILITIES + MOST_OPERATIONS + MOST_STATES) as usize;

// The least of all faults. In a frame of its own, so that the letters take no stack while the text is read.
#[inline(never)]
pub fn judge(text: &[u8], work: &Work, c: Holding) -> Judged
    ensures { Few c → length (names_held text.now work.now c) ≤ most_letters → judged result ≡ least (L.faults (noted_description (sections_held text.now work.now c) (beside_held work.now c)) (places_in (beside_held work.now c))) }
{
    let s: &[u8] = work;
    let few = counts::within(c);
    let mut letters = [0u8; MOST_LETTERS];
    names::put(&mut letters, 0, text, work, few);
    let n = names::count(text, work, few);
    let described = Described {
        facilities: body::rows_of(s, Table::Facilities, few.facilities),
        operations: body::rows_of(s, Table::Operations, few.operations),
        expressions: body::nodes_of(s, few.nodes),
        actions: body::rows_of(s, Table::Actions, few.actions),
        states: body::rows_of(s, Table::States, few.states),
        names: bytes::part(&letters, 0, n),
        facility_places: body::rows_of(s, Table::FacilityPlaces, few.facilities),
        operation_places: body::rows_of(s, Table::OperationPlaces, few.operations),
        expression_places: body::node_places_of(s, few.nodes),
        action_places: body::rows_of(s, Table::ActionPlaces, few.actions),
        state_places: body::rows_of(s, Table::StatePlaces, few.states),
    };
    judge_all::least_fault(&described)
}
