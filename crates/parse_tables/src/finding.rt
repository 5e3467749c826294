// A name looked for in a table of names: its first declaration.
ghost use Rattle.std.specs.Prelude.{◌≡◌, ◌+◌, ◌≤◌, drop, take};
ghost use Rattle.language.specs.Decode.{half_at};
ghost use Rattle.language.specs.Naming.{number_of};
ghost use Rattle.parse_array.specs.Layout.{name_size, work_size};
ghost use Rattle.parse_array.specs.Names.{letters};
ghost use Rattle.parse_tables.specs.Names.{found, names_in};
ghost use Rattle.parse_tables.specs.Rows.{size};

use crate::{Table, rows};
use image_records::{bytes, numbers};
use parse_array::Work;
use parse_array::layout::NAME_SIZE;
use text_characters::names::matches;

// The word of the name that stands at a place of the working array, which has all of its bytes: none is tested for.
fn word_at<'a>(text: &'a [u8], work: &Work, at: usize) -> &'a [u8]
    requires { at + name_size ≤ work_size }
    ensures { result.now ≡ take (half_at (at + 2) work.now) (drop (half_at at work.now) text.now) }
{
    let s: &[u8] = work;
    let place = numbers::two_there(s, at) as usize;
    let size = numbers::two_there(s, at + 2) as usize;
    bytes::part(text, place, size)
}

// The number of the first of n names in a table that is the word of this place and length.
pub fn find(
    text: &[u8],
    work: &Work,
    table: Table,
    n: u16,
    place: usize,
    length: usize,
) -> Option<u8>
    requires { size table ≡ name_size }
    ensures { found result ≡ number_of (letters text.now place length) 0 (names_in text.now table work.now n) }
{
    let name = bytes::part(text, place, length);
    let base = rows::begin(table);
    for k in 0..rows::held(table, n) {
        if matches(name, word_at(text, work, base + NAME_SIZE * k as usize)) {
            return Some(k as u8);
        }
    }
    None
}
