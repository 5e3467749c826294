// The bytes of an action's record: as they are written, and whether they stand there.
ghost use Rattle.std.specs.Prelude.{◌≡◌, ◌*◌, ◌<◌, take, drop};
ghost use Rattle.language.specs.Decode.{action_of, action_with};
ghost use Rattle.language.specs.Encode.{action_bytes, action_record, action_size, store_mark};
ghost use Rattle.language.specs.Scan.{same};
ghost use Rattle.image_records.specs.Actions.{meant};

use crate::actions::Action;
use crate::{marks, numbers, record_sizes};

// A mark and three numbers.
#[tactic(auto, unfolding(language::specs::Encode::little))]
fn fields(mark: u8, a: u16, b: u16, c: u16) -> [u8; record_sizes::ACTION]
    ensures { result ≡ action_record mark a b c }
{
    let [a0, a1] = a.to_le_bytes();
    let [b0, b1] = b.to_le_bytes();
    let [c0, c1] = c.to_le_bytes();
    [mark, a0, a1, b0, b1, c0, c1]
}

// The mark of a delayed store or, after it, of an immediate one.
fn store_mark(sign: u8, mark: u8) -> u8
    requires { mark < 255 }
    ensures { result ≡ store_mark sign mark }
{
    if sign == language::kinds::DELAYED {
        mark
    } else {
        mark + 1
    }
}

// The bytes of a record.
pub fn action_bytes(action: Action) -> [u8; record_sizes::ACTION]
    ensures { result ≡ action_bytes (meant action) }
{
    match action {
        Action::Store(k, l, r) => fields(store_mark(k, marks::STORE), l, r, 0),
        Action::StorePair(k, l, m, r) => fields(store_mark(k, marks::PAIR), l, m, r),
        Action::Set(l) => fields(marks::SET, l, 0, 0),
        Action::Perform(o) => fields(marks::PERFORM, o, 0, 0),
        Action::Goto(s) => fields(marks::GOTO, s, 0, 0),
        Action::Call(s) => fields(marks::CALL, s, 0, 0),
        Action::Return => fields(marks::RETURN, 0, 0, 0),
        Action::When(c, x) => fields(marks::WHEN, c, x, 0),
        Action::Choose(c, n, x) => fields(marks::CHOOSE, c, n, x),
        Action::Arm(x) => fields(marks::ARM, x, 0, 0),
        Action::Broken => fields(0, 0, 0, 0),
    }
}

// Whether the fields of a record are those that writing gives it: by its mark, fields without use are empty. What is broken is written as zeros.
fn fields_right(mark: u8, a: u16, b: u16, c: u16) -> bool
    ensures { result ≡ same (action_record mark a b c) (action_bytes (action_with mark a b c)) }
{
    match mark {
        marks::STORE => c == 0,
        marks::IMMEDIATE_STORE => c == 0,
        marks::PAIR => true,
        marks::IMMEDIATE_PAIR => true,
        marks::SET => numbers::two_zero(b, c),
        marks::PERFORM => numbers::two_zero(b, c),
        marks::GOTO => numbers::two_zero(b, c),
        marks::CALL => numbers::two_zero(b, c),
        marks::RETURN => numbers::three_zero(a, b, c),
        marks::WHEN => c == 0,
        marks::CHOOSE => true,
        marks::ARM => numbers::two_zero(b, c),
        _ => mark == 0 && numbers::three_zero(a, b, c),
    }
}

// Whether record n has the bytes that writing gives it.
pub fn action_right(acts: &[u8], n: usize) -> bool
    ensures { result ≡ same (take action_size (drop (action_size * n) acts.now)) (action_bytes (action_of acts.now n)) }
{
    if acts.len() / record_sizes::ACTION <= n {
        return false;
    }
    let at = record_sizes::ACTION * n;
    let a = numbers::two_there(acts, at + 1);
    let b = numbers::two_there(acts, at + 3);
    let c = numbers::two_there(acts, at + 5);
    fields_right(acts[at], a, b, c)
}
