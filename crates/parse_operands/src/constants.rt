// Constants as operands, and the ends of a part.
ghost use Rattle.std.specs.Prelude.{List, [], ◌∷◌, ◌≡◌, ℕ, ◌≤◌};
ghost use Rattle.language.specs.Kinds.{a_constant};
ghost use Rattle.language.specs.Machine.{ask, term};
ghost use Rattle.parse_step.specs.Answers.{answered};
ghost use Rattle.parse_step.specs.Course.{kind_no};
ghost use Rattle.parse_step.specs.Pays.{Spends};
ghost use Rattle.parse_step.specs.Says.{Parses};
ghost use Rattle.parse_operands.specs.Ended.{Closed, Counting, Ended};

use parse_array::Work;
use parse_step::{Answer, Bearing, Reached, State, Unread, adding, taking};
use text_words::Word;

// A term that is a constant.
pub fn constant(s: State, text: &[u8], w: Word, work: &mut Work) -> Answer
    ensures { kind_no w.kind ≡ a_constant → Parses (ask term ∷ []) (λ t b. b) s.nesting text.now w s work.old work.new result × Spends text.now 0 w s result }
{
    let taken = taking::take(text, w, s, true, Bearing::Level)?;
    adding::add_constant(work, w, taken.next, taken.state)
}

// A constant in brackets that begins an expression: it was kept, and counts.
pub fn counted(s: State, w: Word, next: Word, work: &mut Work) -> Answer
    ensures { Counting w next s work.old work.new result × ((t : List ℕ) → w.value.length ≤ 256 → Spends t 0 next s result) }
{
    let passed = taking::pass(w, next, s, true, Bearing::Level)?;
    adding::add_constant(work, w, passed.next, passed.state)
}

// The ends of a part, with the bracket that closes it; `last` is the second one.
#[derive(Clone, Copy)]
pub struct EndsRead {
    pub reached: Reached,
    pub last: Word,
}

// Two constants with a colon between them, and the bracket; they have been seen as far as the colon.
pub fn ends_of(s: State, text: &[u8], w: Word) -> Result<EndsRead, Unread>
    ensures { Ended text.now w s result × Spends text.now 1 w s (answered (λ x. x.reached) result) }
{
    let first = taking::take(text, w, s, false, Bearing::Level)?;
    let colon = taking::take(text, first.next, first.state, false, Bearing::Level)?;
    closed(colon.state, text, colon.next)
}

// The second constant of a part, and the bracket that closes it.
fn closed(s: State, text: &[u8], w: Word) -> Result<EndsRead, Unread>
    ensures { Closed text.now w s result × Spends text.now 1 w s (answered (λ x. x.reached) result) }
{
    let kept = taking::keep_constant(text, w, s)?;
    let reached = taking::expect(
        text,
        kept.next,
        kept.state,
        language::kinds::CLOSE_BRACKET,
        Bearing::Closes,
    )?;
    Ok(EndsRead { reached, last: w })
}
