// What an operator makes of the verdicts on its operands.
ghost use Rattle.std.specs.Prelude.{◌≡◌, ℕ, suc, ◌+◌};
ghost use Rattle.language.specs.Description.{Description, Places};
ghost use Rattle.language.specs.Expressions.{choice_judged, evenly, own_work};
ghost use Rattle.language.specs.Judging as L;
ghost use Rattle.language.specs.Operators.{binary_length, cut_length_of, prefix_length};
ghost use Rattle.language.specs.Words as W;
ghost use Rattle.text_words.specs.Meaning.{positioned};
ghost use Rattle.judge_verdicts.specs.Meaning.{seen};

use crate::lengths;
use judge_verdicts::{Verdict, Worth, faults, tests, work};
use language::refusals::Refusal;
use text_words::Position;
use value_operators::operators;

// A constant.
pub fn constant(at: Position, length: u16) -> Verdict
    ensures { (q : W.Position) → positioned at ≡ q → result ≡ seen (L.sized q length own_work) }
{
    tests::sized(at, length as u64, work::own())
}

// An operator with two operands.
pub fn binary(at: Position, kind: u8, a: Verdict, b: Verdict) -> Verdict
    ensures { (q : W.Position) (j k : L.Judged) → positioned at ≡ q → a ≡ seen j → b ≡ seen k → result ≡ seen (L.given_both j k (λ v w. L.sized q (binary_length kind v.length w.length) (own_work + v.work + w.work))) }
{
    let (v, w) = faults::both(a, b)?;
    let length = operators::binary_length(kind, v.length, w.length);
    tests::sized(at, length as u64, work::with_two(v.work, w.work))
}

// An operator before its operand.
pub fn prefix(at: Position, kind: u8, a: Verdict) -> Verdict
    ensures { (q : W.Position) (j : L.Judged) → positioned at ≡ q → a ≡ seen j → result ≡ seen (L.given j (λ v. L.sized q (prefix_length kind v.length) (own_work + v.work))) }
{
    let v = a?;
    let length = operators::prefix_length(kind, v.length);
    tests::sized(at, length as u64, work::with_one(v.work))
}

// HEAD, TAIL or EXT with a count.
pub fn cut(at: Position, kind: u8, a: Verdict, count: u16) -> Verdict
    ensures { (q : W.Position) (j : L.Judged) → positioned at ≡ q → a ≡ seen j → result ≡ seen (L.given j (λ v. L.sized q (cut_length_of kind v.length count) (own_work + v.work))) }
{
    let v = a?;
    let length = operators::cut_length(kind, v.length, count);
    tests::sized(at, length as u64, work::with_one(v.work))
}

// The first arm of a conditional.
pub fn first_arm(a: Verdict) -> Verdict
    ensures { (j : L.Judged) → a ≡ seen j → result ≡ seen (L.given j (λ v. L.worth v.length 1 v.work)) }
{
    let v = a?;
    Ok(Worth {
        length: v.length,
        arms: 1,
        work: v.work,
    })
}

// Arms, and one more.
pub fn next_arm(a: Verdict, b: Verdict) -> Verdict
    ensures { (j k : L.Judged) → a ≡ seen j → b ≡ seen k → result ≡ seen (L.given_both j k (λ v w. L.worth (evenly v.length w.length) (suc v.arms) (v.work + w.work))) }
{
    let (v, w) = faults::both(a, b)?;
    Ok(Worth {
        length: lengths::evenly(v.length, w.length),
        arms: work::added(v.arms, 1),
        work: work::added(v.work, w.work),
    })
}

// A condition, and the arms that it chooses among.
pub fn choice(at: Position, count: u16, c: Verdict, a: Verdict) -> Verdict
    ensures { (d : Description) (p : Places) (t : ℕ → L.Judged) (known : ℕ) (q : W.Position) (j k : L.Judged) → positioned at ≡ q → c ≡ seen j → a ≡ seen k → result ≡ seen (L.given_both j k (choice_judged d p t known q count)) }
{
    let (v, w) = faults::both(c, a)?;
    if !lengths::selects(v.length, count) || w.arms != count as usize {
        return faults::refused(at, Refusal::BadLength);
    }
    tests::sized(at, w.length as u64, work::with_two(v.work, w.work))
}

// Nothing to judge.
pub fn nothing() -> Verdict
    ensures { result ≡ seen (L.worth 1 0 0) }
{
    work::only(0)
}

// Two parts of which only faults and work count.
pub fn together(a: Verdict, b: Verdict) -> Verdict
    ensures { (j k : L.Judged) → a ≡ seen j → b ≡ seen k → result ≡ seen (L.given_both j k (λ v w. L.worth 1 0 (v.work + w.work))) }
{
    let (v, w) = faults::both(a, b)?;
    work::only(work::added(v.work, w.work))
}
