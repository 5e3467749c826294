// Verdicts kept in numbers, so that nothing is judged again where it is named.
ghost use Rattle.std.specs.Prelude.{◌≡◌, ◌+◌, ◌*◌, ◌<◌, get_or, length, set};
ghost use Rattle.judge_verdicts.specs.Meaning.{Kept, numbered, recalled};

use crate::{Verdict, work};
use language::refusals::Refusal;
use text_words::Fault;

// The number at a place, and 0 past the end.
fn number(memo: &[usize], at: usize) -> usize
    ensures { result ≡ get_or memo.now at 0 }
{
    memo.get(at).copied().unwrap_or(0)
}

// The refusal of a number.
pub fn numbered(n: usize) -> Refusal
    ensures { result ≡ numbered n }
{
    match n {
        1 => Refusal::TextTooLong,
        2 => Refusal::BadCharacter,
        3 => Refusal::NoContinuation,
        4 => Refusal::BadName,
        5 => Refusal::BadConstant,
        6 => Refusal::BadSubscript,
        7 => Refusal::BadLength,
        8 => Refusal::BadStore,
        9 => Refusal::BadSequencing,
        10 => Refusal::CeilingPassed,
        12 => Refusal::BufferTooShort,
        13 => Refusal::ImageFails,
        14 => Refusal::Unsound,
        _ => Refusal::BadStimulus,
    }
}

// The k-th verdict: its faults and its work.
pub fn recall(memo: &[usize], k: u16) -> Verdict
    ensures { result ≡ recalled memo.now k }
{
    let at = 2 * k as usize;
    let mark = number(memo, at);
    let value = number(memo, at + 1);
    if mark == 0 {
        return work::only(value);
    }
    Err(Fault {
        at: text_words::places::position(value),
        refusal: numbered(mark),
    })
}

// Writes the two numbers of the k-th verdict.
fn put(memo: &mut [usize], k: u16, mark: usize, value: usize)
    requires { 2 * k + 1 < length memo.old }
    ensures { memo.new ≡ set (set memo.old (2 * k) mark) (2 * k + 1) value }
{
    let at = 2 * k as usize;
    memo[at] = mark;
    memo[at + 1] = value;
}

// Keeps the k-th verdict, and leaves those before it.
pub fn keep(memo: &mut [usize], k: u16, v: Verdict)
    requires { 2 * k + 1 < length memo.old }
    ensures { Kept memo.old k v memo.new }
{
    match v {
        Ok(w) => put(memo, k, 0, w.work),
        Err(f) => {
            let mark = u8::from(f.refusal) as usize;
            put(memo, k, mark, text_words::places::place(f.at))
        }
    }
}
