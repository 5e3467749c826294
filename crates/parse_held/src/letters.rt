// Names in capitals, from the places and sizes of their words in the text.
ghost use Rattle.std.specs.Prelude.{map, ◌≡◌, ◌+◌, ◌*◌, ◌<◌, ◌≤◌, length};
ghost use Rattle.language.specs.Characters.{folded};
ghost use Rattle.image_records.specs.Placed.{placed};
ghost use Rattle.parse_tables.specs.Rows.{size};
ghost use Rattle.parse_held.specs.Sections.{letters_of};

use parse_array::Work;
use parse_tables::{Table, names};
use text_characters::letters;

// Writes a word in capitals at a place; nothing where it does not fit.
fn put_word(s: &mut [u8], at: usize, word: &[u8])
    ensures { s.new ≡ placed s.old at (map folded word.now) }
{
    if s.len() < at || s.len() - at < word.len() {
        return;
    }
    for (i, letter) in word.iter().enumerate() {
        s[at + i] = letters::fold(*letter);
    }
}

// How many letters the first n names of a table have.
pub fn count(text: &[u8], work: &Work, table: Table, n: u16) -> usize
    ensures { (size table ≡ 4 → result ≡ length (letters_of text.now table n work.now)) × (result ≤ 65535 * n) }
{
    let mut sum: usize = 0;
    for k in 0..n {
        sum += names::word(text, work, table, k).len();
    }
    sum
}

// Writes them from a place on, where they fit; answers where they end.
pub fn put(s: &mut [u8], at: usize, text: &[u8], work: &Work, table: Table, n: u16) -> usize
    requires { at ≤ 0xffffffffff }
    ensures { (size table ≡ 4 → result ≡ at + length (letters_of text.now table n work.now)) × (result ≤ at + 65535 * n) × (size table ≡ 4 → at + length (letters_of text.now table n work.now) ≤ length s.old → s.new ≡ placed s.old at (letters_of text.now table n work.now)) }
{
    let mut to = at;
    for k in 0..n {
        let word = names::word(text, work, table, k);
        put_word(s, to, word);
        to += word.len();
    }
    to
}
