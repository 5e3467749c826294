// Expressions and references (the manual, 5.1 and 5.2): a recursive descent that writes their records, against the machine of the grammar.
// A frame of each function stands for every level of nesting, so that none keeps more than it needs.
#![tactic(auto)]

ghost use Rattle.std.specs.Prelude.{false, true, [], ◌∷◌, ◌≡◌, ◌-◌, ◌≤◌};
ghost use Rattle.language.specs.Kinds.{a_constant, a_name, open_paren};
ghost use Rattle.language.specs.Machine as L;
ghost use Rattle.language.specs.Machine.{ask};
ghost use Rattle.parse_step.specs.Answers.{answered};
ghost use Rattle.parse_step.specs.Course.{kind_no};
ghost use Rattle.parse_step.specs.Pays.{Spends};
ghost use Rattle.parse_step.specs.Says.{Extends, Parses};
ghost use Rattle.parse_levels.specs.Orders.{stack_of, tails_from};
ghost use Rattle.parse_expressions.specs.Phrases.{Arms, Begins, FirstArm, Inside, Leads, MoreArms, NextArm, Operates, Second, Whole, after_name, choice_word, same};

use crate::pieces::Armed;
use language::refusals::Refusal;
use parse_array::Work;
use parse_array::layout::MOST_NODES;
use parse_levels::{Lead, Level, Rank, heads, ranks};
use parse_operands::{constants, cuts, nodes};
use parse_step::{Answer, Bearing, Reached, State, Unread, adding, kinds, taking};
use text_words::Word;

pub mod pieces;

// A turn for each record that there may be, and for each rank.
const TURNS: u16 = MOST_NODES + 7;

// An expression of a level.
#[cycle(arms_choice_first_arm_group_inside_leading_more_arms_named_next_arm_opening_operation_reference_rest_second_single_start_subscript_term_whole)]
pub fn start(s: State, level: Level, text: &[u8], w: Word, work: &mut Work) -> Answer
    ensures { Parses (stack_of level) same s.nesting text.now w s work.old work.new result × Spends text.now 0 w s result }
{
    whole(s, false, level, text, w, work)
}

// The same; or what stands in brackets from a constant on, which is then kept. Both here, so that `rest` is called at one place and needs no frame of its own.
#[cycle(arms_choice_first_arm_group_inside_leading_more_arms_named_next_arm_opening_operation_reference_rest_second_single_start_subscript_term_whole)]
fn whole(s: State, kept: bool, level: Level, text: &[u8], w: Word, work: &mut Work) -> Answer
    ensures { Whole kept level text.now w s work.old work.new result × ((kept ≡ true → kind_no w.kind ≡ a_constant) → Spends text.now 0 w s result) }
{
    let head = heads::head_of(level, kinds::kind_of(w));
    let first = leading(s, kept, head, text, w, work)?;
    let state = pieces::at(first.state, s.nesting);
    rest(state, heads::after(head), level, text, first.next, work)
}

// What comes before its operators.
#[cycle(arms_choice_first_arm_group_inside_leading_more_arms_named_next_arm_opening_operation_reference_rest_second_single_start_subscript_term_whole)]
fn leading(s: State, kept: bool, head: Lead, text: &[u8], w: Word, work: &mut Work) -> Answer
    ensures { Leads kept head text.now w s work.old work.new result × ((kept ≡ true → kind_no w.kind ≡ a_constant) → Spends text.now 0 w s result) }
{
    if kept {
        return pieces::keep(s, text, w, work);
    }
    opening(s, head, text, w, work)
}

// Its first operand, with what stands before it.
#[cycle(arms_choice_first_arm_group_inside_leading_more_arms_named_next_arm_opening_operation_reference_rest_second_single_start_subscript_term_whole)]
fn opening(s: State, head: Lead, text: &[u8], w: Word, work: &mut Work) -> Answer
    ensures { Begins head text.now w s work.old work.new result × Spends text.now 0 w s result }
{
    if let Lead::Plain = head {
        return term(s, text, w, work);
    }
    let taken = taking::take(text, w, s, true, Bearing::Opens)?;
    let red = pieces::reducing(taken.state, head, text, taken.next)?;
    let inner = pieces::at(red.state, taken.state.nesting);
    let operand = start(inner, heads::prefixed(head), text, red.next, work)?;
    pieces::add_prefix(operand.state, w, operand.next, work)
}

// The operators of a level from a rank on, behind an operand, in one frame whatever their ranks. Each turn writes a record or goes to a looser rank, so that they end before the array is full.
#[cycle(arms_choice_first_arm_group_inside_leading_more_arms_named_next_arm_opening_operation_reference_rest_second_single_start_subscript_term_whole)]
fn rest(s: State, rank: Rank, level: Level, text: &[u8], w: Word, work: &mut Work) -> Answer
    ensures { Extends (tails_from rank level) [] s.nesting text.now w s work.old work.new result × Spends text.now 1 w s result }
{
    let mut state = s;
    let mut next = w;
    let mut from = rank;
    for _ in 0..TURNS {
        if !ranks::within(from, level) {
            return Ok(Reached { next, state });
        }
        if !pieces::operates(from, next) {
            from = ranks::next(from);
            continue;
        }
        let one = operation(state, from, text, next, work)?;
        state = pieces::at(one.state, s.nesting);
        next = one.next;
        from = pieces::behind(from);
    }
    Err(Unread::Full(state))
}

// An operator of a rank and what is on its right.
#[cycle(arms_choice_first_arm_group_inside_leading_more_arms_named_next_arm_opening_operation_reference_rest_second_single_start_subscript_term_whole)]
fn operation(s: State, rank: Rank, text: &[u8], w: Word, work: &mut Work) -> Answer
    ensures { Operates rank text.now w s work.old work.new result × Spends text.now 1 w s result }
{
    let got = taking::take(text, w, s, true, Bearing::Level)?;
    if let Rank::Cut = rank {
        return cuts::cut(got.state, kinds::kind_of(w), w, text, got.next, work);
    }
    let got = start(got.state, ranks::operand(rank), text, got.next, work)?;
    pieces::add_binary(got.state, adding::last(s.nodes), w, got.next, work)
}

// A term.
#[cycle(arms_choice_first_arm_group_inside_leading_more_arms_named_next_arm_opening_operation_reference_rest_second_single_start_subscript_term_whole)]
fn term(s: State, text: &[u8], w: Word, work: &mut Work) -> Answer
    ensures { Parses (ask L.term ∷ []) same s.nesting text.now w s work.old work.new result × Spends text.now 0 w s result }
{
    let kind = kinds::kind_of(w);
    if kind == language::kinds::CONSTANT {
        return constants::constant(s, text, w, work);
    }
    if kind == language::kinds::NAME {
        return named(s, text, w, work);
    }
    if kind == language::kinds::OPEN_PAREN {
        return group(s, text, w, work);
    }
    if kind == language::kinds::IF {
        return choice(s, false, text, w, work);
    }
    if kind == language::kinds::CASE {
        return choice(s, true, text, w, work);
    }
    taking::refuse(w, Refusal::NoContinuation)
}

// An expression in parentheses.
#[cycle(arms_choice_first_arm_group_inside_leading_more_arms_named_next_arm_opening_operation_reference_rest_second_single_start_subscript_term_whole)]
fn group(s: State, text: &[u8], w: Word, work: &mut Work) -> Answer
    ensures { (kind_no w.kind ≡ open_paren → Parses (ask L.term ∷ []) same s.nesting text.now w s work.old work.new result) × Spends text.now 0 w s result }
{
    let got = taking::take(text, w, s, false, Bearing::Opens)?;
    let got = start(got.state, Level::Expression, text, got.next, work)?;
    taking::expect(
        text,
        got.next,
        got.state,
        language::kinds::CLOSE_PAREN,
        Bearing::Closes,
    )
}

// A reference, from its name on.
#[cycle(arms_choice_first_arm_group_inside_leading_more_arms_named_next_arm_opening_operation_reference_rest_second_single_start_subscript_term_whole)]
fn named(s: State, text: &[u8], w: Word, work: &mut Work) -> Answer
    ensures { (kind_no w.kind ≡ a_name → Parses (ask L.term ∷ []) same s.nesting text.now w s work.old work.new result) × Spends text.now 0 w s result }
{
    let taken = taking::take(text, w, s, true, Bearing::Level)?;
    reference(taken.state, w, text, taken.next, work)
}

// The rest of a reference, behind its name.
#[cycle(arms_choice_first_arm_group_inside_leading_more_arms_named_next_arm_opening_operation_reference_rest_second_single_start_subscript_term_whole)]
pub fn reference(s: State, name: Word, text: &[u8], w: Word, work: &mut Work) -> Answer
    ensures { Parses (ask L.subscripts ∷ []) (after_name name) s.nesting text.now w s work.old work.new result × Spends text.now 2 w s result }
{
    if kinds::kind_of(w) == language::kinds::OPEN_BRACKET {
        let opened = taking::take(text, w, s, false, Bearing::Opens)?;
        return subscript(opened.state, name, text, opened.next, work);
    }
    nodes::add_whole(s, name, text, w, work)
}

// A reference behind its first bracket.
#[cycle(arms_choice_first_arm_group_inside_leading_more_arms_named_next_arm_opening_operation_reference_rest_second_single_start_subscript_term_whole)]
pub fn subscript(s: State, name: Word, text: &[u8], w: Word, work: &mut Work) -> Answer
    ensures { Parses (ask L.subscript ∷ []) (after_name name) (s.nesting - 1) text.now w s work.old work.new result × Spends text.now 2 w s result }
{
    if taking::ends_ahead(text, w) {
        return pieces::part(s, name, text, w, work);
    }
    let got = inside(s, false, text, w, work)?;
    if kinds::kind_of(got.next) == language::kinds::COMMA {
        let got = taking::take(text, got.next, got.state, false, Bearing::Level)?;
        let state = pieces::at(got.state, s.nesting);
        return second(state, name, text, got.next, work);
    }
    let got = taking::expect(
        text,
        got.next,
        got.state,
        language::kinds::CLOSE_BRACKET,
        Bearing::Closes,
    )?;
    let state = pieces::at(got.state, adding::last(s.nesting));
    single(state, name, text, got.next, work)
}

// A reference with one subscript, and perhaps a second one in brackets of its own.
#[cycle(arms_choice_first_arm_group_inside_leading_more_arms_named_next_arm_opening_operation_reference_rest_second_single_start_subscript_term_whole)]
fn single(s: State, name: Word, text: &[u8], w: Word, work: &mut Work) -> Answer
    ensures { Second L.second_option name s.nesting text.now w s work.old work.new result × Spends text.now 2 w s result }
{
    if kinds::kind_of(w) == language::kinds::OPEN_BRACKET {
        let opened = taking::take(text, w, s, false, Bearing::Opens)?;
        return second(opened.state, name, text, opened.next, work);
    }
    nodes::add_one(s, name, adding::last(s.nodes), text, w, work)
}

// A reference behind its first subscript.
#[cycle(arms_choice_first_arm_group_inside_leading_more_arms_named_next_arm_opening_operation_reference_rest_second_single_start_subscript_term_whole)]
fn second(s: State, name: Word, text: &[u8], w: Word, work: &mut Work) -> Answer
    ensures { Second L.second name (s.nesting - 1) text.now w s work.old work.new result × Spends text.now 2 w s result }
{
    if taking::ends_ahead(text, w) {
        return pieces::word_part(s, name, text, w, work);
    }
    let got = inside(s, true, text, w, work)?;
    let got = taking::expect(
        text,
        got.next,
        got.state,
        language::kinds::CLOSE_BRACKET,
        Bearing::Closes,
    )?;
    nodes::add_two(
        got.state,
        name,
        adding::last(s.nodes),
        adding::last(got.state.nodes),
        text,
        got.next,
        work,
    )
}

// An expression in brackets, which may begin with a constant that no colon follows.
#[cycle(arms_choice_first_arm_group_inside_leading_more_arms_named_next_arm_opening_operation_reference_rest_second_single_start_subscript_term_whole)]
fn inside(s: State, later: bool, text: &[u8], w: Word, work: &mut Work) -> Answer
    ensures { Inside later text.now w s work.old work.new result × Spends text.now 0 w s result }
{
    if kinds::kind_of(w) == language::kinds::CONSTANT {
        return whole(s, true, Level::Expression, text, w, work);
    }
    whole(s, false, Level::Expression, text, w, work)
}

// A conditional: IF, or CASE.
#[cycle(arms_choice_first_arm_group_inside_leading_more_arms_named_next_arm_opening_operation_reference_rest_second_single_start_subscript_term_whole)]
fn choice(s: State, case: bool, text: &[u8], w: Word, work: &mut Work) -> Answer
    ensures { (kind_no w.kind ≡ choice_word case → Parses (ask L.term ∷ []) same s.nesting text.now w s work.old work.new result) × Spends text.now 0 w s result }
{
    let got = taking::take(text, w, s, true, Bearing::Opens)?;
    let nesting = got.state.nesting;
    let got = start(got.state, Level::Expression, text, got.next, work)?;
    let nodes = got.state.nodes;
    let before = pieces::at(got.state, nesting);
    let chosen = arms(before, case, text, got.next, work)?;
    let got = taking::expect(
        text,
        chosen.reached.next,
        chosen.reached.state,
        pieces::last_word(case),
        Bearing::Closes,
    )?;
    let number = adding::last(nodes);
    pieces::add_choice(got.state, number, chosen.count, w, got.next, work)
}

// The arms of a conditional.
#[cycle(arms_choice_first_arm_group_inside_leading_more_arms_named_next_arm_opening_operation_reference_rest_second_single_start_subscript_term_whole)]
fn arms(s: State, case: bool, text: &[u8], w: Word, work: &mut Work) -> Result<Armed, Unread>
    ensures { Arms case text.now w s work.old work.new result × Spends text.now 1 w s (answered (λ a. a.reached) result) }
{
    let first = first_arm(s, pieces::first_word(case), text, w, work)?;
    let state = pieces::at(first.state, s.nesting);
    let other = next_arm(state, pieces::other_word(case), text, first.next, work)?;
    let state = pieces::at(other.state, s.nesting);
    more_arms(state, case, 2, text, other.next, work)
}

// The first arm, behind its word.
#[cycle(arms_choice_first_arm_group_inside_leading_more_arms_named_next_arm_opening_operation_reference_rest_second_single_start_subscript_term_whole)]
fn first_arm(s: State, separator: u8, text: &[u8], w: Word, work: &mut Work) -> Answer
    ensures { FirstArm separator text.now w s work.old work.new result × (3 ≤ separator → Spends text.now 1 w s result) }
{
    let got = taking::expect(text, w, s, separator, Bearing::Level)?;
    let state = pieces::at(got.state, s.nesting);
    let got = start(state, Level::Expression, text, got.next, work)?;
    pieces::add_first_arm(got.state, got.next, work)
}

// An arm behind others.
#[cycle(arms_choice_first_arm_group_inside_leading_more_arms_named_next_arm_opening_operation_reference_rest_second_single_start_subscript_term_whole)]
fn next_arm(s: State, separator: u8, text: &[u8], w: Word, work: &mut Work) -> Answer
    ensures { NextArm separator text.now w s work.old work.new result × (3 ≤ separator → Spends text.now 1 w s result) }
{
    let got = taking::expect(text, w, s, separator, Bearing::Level)?;
    let state = pieces::at(got.state, s.nesting);
    let got = start(state, Level::Expression, text, got.next, work)?;
    pieces::add_next_arm(got.state, adding::last(s.nodes), got.next, work)
}

// Further arms of CASE, behind n. Each writes a record, so that they end before the array is full.
#[cycle(arms_choice_first_arm_group_inside_leading_more_arms_named_next_arm_opening_operation_reference_rest_second_single_start_subscript_term_whole)]
fn more_arms(
    s: State,
    case: bool,
    n: u16,
    text: &[u8],
    w: Word,
    work: &mut Work,
) -> Result<Armed, Unread>
    ensures { MoreArms case n text.now w s work.old work.new result × Spends text.now 1 w s (answered (λ a. a.reached) result) }
{
    let mut state = s;
    let mut next = w;
    let mut count = n;
    for _ in 0..MOST_NODES {
        if !pieces::another(case, next) {
            let reached = Reached { next, state };
            return Ok(Armed { reached, count });
        }
        let at = pieces::at(state, s.nesting);
        let one = next_arm(at, language::kinds::DO, text, next, work)?;
        state = one.state;
        next = one.next;
        count = pieces::one_more(count);
    }
    Err(Unread::Full(state))
}
