// Places, and the marks of numbers too large, read from their bytes.
ghost use Rattle.std.specs.Prelude.{◌≡◌, ◌+◌, ◌*◌, ◌<◌, ◌≤◌};
ghost use Rattle.language.specs.Decode.{half_at};
ghost use Rattle.language.specs.Description.{nowhere as Nowhere};
ghost use Rattle.text_words.specs.Meaning.{positioned};
ghost use Rattle.judge_records.specs.Noted.{large_no, place_no};
ghost use Rattle.judge_records.specs.Read.{place_of};

use image_records::numbers;
use language::ceilings;
use text_words::Position;

// The bit of a place that says that the number there is too large for its record; no place has it.
pub const LARGE: u16 = ceilings::TEXT as u16;

// How many places stand beside an expression's record, a facility's, a state's, and an action's or an operation's.
const IN_NODE: usize = 3;

const IN_FACILITY: usize = 6;

const IN_STATE: usize = 2;

const IN_RECORD: usize = 1;

// Bytes of a word's place, and of those beside each record.
pub const WORD: usize = 2;

pub const NODE: usize = WORD * IN_NODE;

pub const FACILITY: usize = WORD * IN_FACILITY;

pub const STATE: usize = WORD * IN_STATE;

// The two bytes of the k-th place.
fn half(places: &[u8], k: usize) -> u16
    ensures { result ≡ half_at (2 * k) places.now }
{
    if places.len() / WORD < k {
        return 0;
    }
    numbers::two(places, WORD * k)
}

// The k-th place of a section.
fn place_no(places: &[u8], k: usize) -> Position
    ensures { positioned result ≡ place_no places.now k }
{
    let place = half(places, k) % LARGE;
    text_words::places::position(place as usize)
}

// Whether the number at the k-th place is too large for its record: 1, or else 0.
pub fn large_no(places: &[u8], k: usize) -> u16
    ensures { (result ≡ large_no places.now k) × (result < 2) }
{
    half(places, k) / LARGE
}

// No place.
pub fn nowhere() -> Position
    ensures { positioned result ≡ Nowhere }
{
    text_words::places::position(0)
}

// The k-th of the places beside record n, of which each has SIZE.
fn beside<const SIZE: usize>(places: &[u8], n: usize, k: u8) -> Position
    requires { (0 < SIZE) × (SIZE ≤ 6) }
    ensures { positioned result ≡ place_of SIZE places.now n k }
{
    if places.len() / (WORD * SIZE) <= n {
        return nowhere();
    }
    place_no(places, SIZE * n + k as usize)
}

// The k-th place of an expression's record.
pub fn of_node(places: &[u8], n: usize, k: u8) -> Position
    ensures { positioned result ≡ place_of 3 places.now n k }
{
    beside::<IN_NODE>(places, n, k)
}

// The k-th place of a facility.
pub fn of_facility(places: &[u8], n: usize, k: u8) -> Position
    ensures { positioned result ≡ place_of 6 places.now n k }
{
    beside::<IN_FACILITY>(places, n, k)
}

// The k-th place of a state.
pub fn of_state(places: &[u8], n: usize, k: u8) -> Position
    ensures { positioned result ≡ place_of 2 places.now n k }
{
    beside::<IN_STATE>(places, n, k)
}

// The place of an action or of an operation.
pub fn of_record(places: &[u8], n: usize) -> Position
    ensures { positioned result ≡ place_of 1 places.now n 0 }
{
    beside::<IN_RECORD>(places, n, 0)
}
