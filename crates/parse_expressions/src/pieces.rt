// What the descent is made of besides itself: signs, records of operators, the parts of references.
ghost use Rattle.std.specs.Prelude.{Bool, true, [], ◌∷◌, ◌≡◌, ◌+◌, ◌-◌, ◌%◌};
ghost use Rattle.about_grammar.specs.Following.{among};
ghost use Rattle.language.specs.Description as D;
ghost use Rattle.language.specs.Kinds.{a_constant};
ghost use Rattle.language.specs.Machine as L;
ghost use Rattle.parse_step.specs.Course.{ahead, kind_no};
ghost use Rattle.parse_step.specs.Gained.{eased_state};
ghost use Rattle.parse_step.specs.Pays.{Spends};
ghost use Rattle.parse_step.specs.Says.{Parses};
ghost use Rattle.parse_step.specs.Taken.{ends_ahead};
ghost use Rattle.parse_levels.specs.Orders.{operators_of};
ghost use Rattle.text_words.specs.Meaning.{positioned};
ghost use Rattle.parse_expressions.specs.Phrases as S;
ghost use Rattle.parse_expressions.specs.Phrases.{Keeps, Second, Unprefixed, after_name, at_nesting, first_word, gains, last_word, other_word, rank_behind};

use image_records::nodes::Node;
use parse_array::{Work, places};
use parse_levels::{Lead, Rank, ranks};
use parse_operands::{constants, nodes};
use parse_step::{Answer, Bearing, Reached, State, adding, kinds, taking};
use text_words::Word;

// How far arms were read, and how many there are.
#[derive(Clone, Copy)]
pub struct Armed {
    pub reached: Reached,
    pub count: u16,
}

// The words of a conditional: before its arms, and at its end. Three functions, since one with the place for a parameter would have the same six words in its arms.
pub fn first_word(case: bool) -> u8
    ensures { result ≡ first_word case }
{
    if case {
        language::kinds::DO
    } else {
        language::kinds::THEN
    }
}

pub fn other_word(case: bool) -> u8
    ensures { result ≡ other_word case }
{
    if case {
        language::kinds::DO
    } else {
        language::kinds::ELSE
    }
}

pub fn last_word(case: bool) -> u8
    ensures { result ≡ last_word case }
{
    if case {
        language::kinds::END_CASE
    } else {
        language::kinds::END_IF
    }
}

// Whether a further arm comes.
pub fn another(case: bool, w: Word) -> bool
    ensures { result ≡ S.another case (kind_no w.kind) }
{
    case && kinds::kind_of(w) == language::kinds::DO
}

// The number of arms as a record has it.
pub fn one_more(count: u16) -> u16
    ensures { result ≡ (count + 1) % 65536 }
{
    count.wrapping_add(1)
}

// The state at the nesting that it has: said again, so that the descent is seen to end.
pub fn at(s: State, nesting: u16) -> State
    ensures { result ≡ at_nesting s nesting }
{
    State { nesting, ..s }
}

// The word RED behind a reduction's sign; nothing behind another prefix operator.
pub fn reducing(s: State, head: Lead, text: &[u8], w: Word) -> Answer
    ensures { Unprefixed head text.now w s result × Spends text.now 1 w s result }
{
    match head {
        Lead::Reduction => taking::expect(text, w, s, language::kinds::RED, Bearing::Level),
        Lead::Plain | Lead::Negation | Lead::Complement => Ok(Reached { next: w, state: s }),
    }
}

// Whether a word is an operator of a rank.
pub fn operates(rank: Rank, w: Word) -> bool
    ensures { result ≡ among (kind_no w.kind) (operators_of rank) }
{
    ranks::operates(rank, kinds::kind_of(w))
}

// The first rank whose operators may come behind one of a rank: the same, but for a relation, which comes at most once.
pub fn behind(rank: Rank) -> Rank
    ensures { result ≡ rank_behind rank }
{
    match rank {
        Rank::Relation => Rank::Cut,
        _ => rank,
    }
}

// The record of the prefix operator w, behind its operand's.
pub fn add_prefix(s: State, w: Word, next: Word, work: &mut Work) -> Answer
    ensures { gains (D.prefix (kind_no w.kind) (s.nodes - 1)) (positioned w.at) next (eased_state s) work.old work.new result }
{
    let beside = places::plain(w.at);
    let node = Node::Prefix(kinds::kind_of(w), adding::last(s.nodes));
    adding::add(work, next, adding::eased(s), node, 0, beside)
}

// The record of the operator w, whose left operand's record is `left`.
pub fn add_binary(s: State, left: u16, w: Word, next: Word, work: &mut Work) -> Answer
    ensures { gains (D.binary (kind_no w.kind) left (s.nodes - 1)) (positioned w.at) next s work.old work.new result }
{
    let beside = places::plain(w.at);
    let node = Node::Binary(kinds::kind_of(w), left, adding::last(s.nodes));
    adding::add(work, next, s, node, 0, beside)
}

// An arm's record: the first, or one behind the arm of record `before`.
pub fn add_first_arm(s: State, next: Word, work: &mut Work) -> Answer
    ensures { gains (D.first_arm (s.nodes - 1)) D.nowhere next s work.old work.new result }
{
    let beside = places::plain(text_words::places::position(0));
    adding::add(
        work,
        next,
        s,
        Node::FirstArm(adding::last(s.nodes)),
        0,
        beside,
    )
}

pub fn add_next_arm(s: State, before: u16, next: Word, work: &mut Work) -> Answer
    ensures { gains (D.next_arm before (s.nodes - 1)) D.nowhere next s work.old work.new result }
{
    let beside = places::plain(text_words::places::position(0));
    let node = Node::NextArm(before, adding::last(s.nodes));
    adding::add(work, next, s, node, 0, beside)
}

// A conditional's record; its condition's is `condition`, and it has `count` arms.
pub fn add_choice(
    s: State,
    condition: u16,
    count: u16,
    w: Word,
    next: Word,
    work: &mut Work,
) -> Answer
    ensures { gains (D.choice condition (s.nodes - 1) count) (positioned w.at) next s work.old work.new result }
{
    let beside = places::plain(w.at);
    let node = Node::Choice(condition, adding::last(s.nodes), count);
    adding::add(work, next, s, node, 0, beside)
}

// A constant in brackets that begins an expression: kept, and then counted.
pub fn keep(s: State, text: &[u8], w: Word, work: &mut Work) -> Answer
    ensures { kind_no w.kind ≡ a_constant → ((later : Bool) → Keeps later text.now w s work.old work.new result) × Spends text.now 0 w s result }
{
    let kept = taking::take(text, w, s, false, Bearing::Level)?;
    constants::counted(kept.state, w, kept.next, work)
}

// A part of a facility, between constants that have been seen.
pub fn part(s: State, name: Word, text: &[u8], w: Word, work: &mut Work) -> Answer
    ensures { (ends_ahead (ahead text.now w) ≡ true → Parses (L.ask L.subscript ∷ []) (after_name name) (s.nesting - 1) text.now w s work.old work.new result) × Spends text.now 2 w s result }
{
    let ends = constants::ends_of(s, text, w)?;
    nodes::add_part(
        ends.reached.state,
        name,
        w,
        ends.last,
        text,
        ends.reached.next,
        work,
    )
}

// A part of a word, whose own subscript has been read.
pub fn word_part(s: State, name: Word, text: &[u8], w: Word, work: &mut Work) -> Answer
    ensures { (ends_ahead (ahead text.now w) ≡ true → Second L.second name (s.nesting - 1) text.now w s work.old work.new result) × Spends text.now 2 w s result }
{
    let ends = constants::ends_of(s, text, w)?;
    nodes::add_word_part(
        ends.reached.state,
        name,
        adding::last(ends.reached.state.nodes),
        w,
        ends.last,
        text,
        ends.reached.next,
        work,
    )
}
