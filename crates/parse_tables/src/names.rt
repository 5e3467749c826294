// Names, as the places and sizes of the words that declare them.
ghost use Rattle.std.specs.Prelude.{map, ◌≡◌, ℕ, ◌<◌, ◌≤◌, length};
ghost use Rattle.language.specs.Characters.{folded};
ghost use Rattle.parse_array.specs.Layout.{name_size};
ghost use Rattle.parse_tables.specs.Names.{name_at, name_row};
ghost use Rattle.parse_tables.specs.Rows as R;
ghost use Rattle.parse_tables.specs.Rows.{Wrote, most, size};

use crate::{Table, rows};
use image_records::{bytes, numbers};
use parse_array::Work;
use parse_array::layout::NAME_SIZE;
use text_words::{Position, places};

// The bytes of a name: its place, and its size.
fn name_row(at: Position, length: usize) -> [u8; NAME_SIZE]
    ensures { result ≡ name_row at.place length }
{
    let [p0, p1] = ((places::place(at) % 65536) as u16).to_le_bytes();
    let [s0, s1] = ((length % 65536) as u16).to_le_bytes();
    [p0, p1, s0, s1]
}

// Adds name n to a table of names.
pub fn add_name(work: &mut Work, table: Table, n: u16, at: Position, length: usize)
    ensures { size table ≡ 4 → n < most table → Wrote table n (name_row at.place length) work.old work.new }
{
    rows::write(work, table, n, &name_row(at, length));
}

// The word of name k in a table of names.
pub fn word<'a>(text: &'a [u8], work: &Work, table: Table, k: u16) -> &'a [u8]
    ensures { ((n : ℕ) → size table ≡ name_size → k < n → map folded result.now ≡ name_at text.now (R.rows table n work.now) k) × (length result.now ≤ 65535) }
{
    let s: &[u8] = work;
    let at = rows::begin(table) + NAME_SIZE * k as usize;
    let place = numbers::two(s, at) as usize;
    let size = numbers::two(s, at + 2) as usize;
    bytes::part(text, place, size)
}
