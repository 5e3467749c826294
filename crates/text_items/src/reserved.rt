// Reserved words (the manual, 2.1), told apart by the letter with which they begin.
ghost use Rattle.std.specs.Prelude.{None, Some, cond, map, ◌≡◌};
ghost use Rattle.language.specs.Characters.{folded};
ghost use Rattle.language.specs.Scan.{reserved_kind, same};
ghost use Rattle.text_items.specs.Tables.{unless_zero, kind_with};

use language::kinds;
use text_characters::{letters, names, parts};

// The kinds of words that no rule has.
const TIME: u8 = 43;

const OUTPUT: u8 = 45;

const LEVEL: u8 = 46;

// The kind of a reserved word where a name is that word.
fn only(name: &[u8], word: &[u8], kind: u8) -> Option<u8>
    ensures { result ≡ cond (same (map folded name.now) (map folded word.now)) (Some kind) None }
{
    names::matches(name, word).then_some(kind)
}

// The kind of the reserved word with C that a name is
fn with_c(name: &[u8]) -> Option<u8>
    ensures { result ≡ unless_zero (kind_with 67 (map folded name.now)) }
{
    if names::matches(name, b"CASE") {
        return Some(kinds::CASE);
    }
    if names::matches(name, b"CON") {
        return Some(kinds::CON);
    }
    only(name, b"CONTROL", kinds::CONTROL)
}

// The kind of the reserved word with E that a name is
fn with_e(name: &[u8]) -> Option<u8>
    ensures { result ≡ unless_zero (kind_with 69 (map folded name.now)) }
{
    if names::matches(name, b"ENDCASE") {
        return Some(kinds::END_CASE);
    }
    if names::matches(name, b"ELSE") {
        return Some(kinds::ELSE);
    }
    if names::matches(name, b"ENDIF") {
        return Some(kinds::END_IF);
    }
    if names::matches(name, b"END") {
        return Some(kinds::END);
    }
    only(name, b"EXT", kinds::EXT)
}

// The kind of the reserved word with I that a name is
fn with_i(name: &[u8]) -> Option<u8>
    ensures { result ≡ unless_zero (kind_with 73 (map folded name.now)) }
{
    if names::matches(name, b"IF") {
        return Some(kinds::IF);
    }
    only(name, b"INPUT", kinds::INPUT)
}

// The kind of the reserved word with O that a name is
fn with_o(name: &[u8]) -> Option<u8>
    ensures { result ≡ unless_zero (kind_with 79 (map folded name.now)) }
{
    if names::matches(name, b"OUTPUT") {
        return Some(OUTPUT);
    }
    only(name, b"OPERATION", kinds::OPERATION)
}

// The kind of the reserved word with R that a name is
fn with_r(name: &[u8]) -> Option<u8>
    ensures { result ≡ unless_zero (kind_with 82 (map folded name.now)) }
{
    if names::matches(name, b"RED") {
        return Some(kinds::RED);
    }
    if names::matches(name, b"RETURN") {
        return Some(kinds::RETURN);
    }
    only(name, b"REGISTER", kinds::REGISTER)
}

// The kind of the reserved word with T that a name is
fn with_t(name: &[u8]) -> Option<u8>
    ensures { result ≡ unless_zero (kind_with 84 (map folded name.now)) }
{
    if names::matches(name, b"THEN") {
        return Some(kinds::THEN);
    }
    if names::matches(name, b"TAIL") {
        return Some(kinds::TAIL);
    }
    if names::matches(name, b"TIME") {
        return Some(TIME);
    }
    only(name, b"TERMINAL", kinds::TERMINAL)
}

// The kind of the reserved word that a name is
pub fn kind_of(name: &[u8]) -> Option<u8>
    ensures { result ≡ unless_zero (reserved_kind (map folded name.now)) }
{
    match letters::fold(parts::byte(name, 0)) {
        b'C' => with_c(name),
        b'D' => only(name, b"DO", kinds::DO),
        b'E' => with_e(name),
        b'H' => only(name, b"HEAD", kinds::HEAD),
        b'I' => with_i(name),
        b'L' => only(name, b"LEVEL", LEVEL),
        b'M' => only(name, b"MEMORY", kinds::MEMORY),
        b'O' => with_o(name),
        b'R' => with_r(name),
        b'T' => with_t(name),
        _ => None,
    }
}
