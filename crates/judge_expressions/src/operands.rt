// References where they are operands: with work of their own.
ghost use Rattle.std.specs.Prelude.{◌≡◌, ℕ};
ghost use Rattle.language.specs.Description.{Description, Places};
ghost use Rattle.language.specs.Expressions.{judge_at};
ghost use Rattle.language.specs.Judging as L;
ghost use Rattle.judge_verdicts.specs.Meaning.{seen};
ghost use Rattle.judge_verdicts.specs.Noted.{record_in};
ghost use Rattle.judge_terms.specs.Shown.{NotedRight, with_own};

use judge_verdicts::{Verdict, Worth, noted, work};

// A reference that is an operand.
pub fn with_own(v: Verdict) -> Verdict
    ensures { (j : L.Judged) → v ≡ seen j → result ≡ seen (with_own j) }
{
    let w = v?;
    Ok(Worth {
        work: work::with_one(w.work),
        ..w
    })
}

// A record that is noted, as an operand.
pub fn noted_operand(e: usize) -> Verdict
    ensures { (d : Description) (p : Places) (t : ℕ → L.Judged) (known : ℕ) → NotedRight d p t known e → result ≡ seen (judge_at d p t known (record_in e)) }
{
    let v = noted::verdict(e);
    if noted::is_reference(e) {
        return with_own(v);
    }
    v
}
