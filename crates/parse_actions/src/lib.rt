// Lists of actions and conditionals (the manual, 7.1 and 8.2), read as the machine of the grammar reads them.
#![tactic(auto)]

ghost use Rattle.std.specs.Prelude.{true, false, [], ◌∷◌};
ghost use Rattle.language.specs.Machine.{ask};
ghost use Rattle.parse_tables.specs.declared.meaning.KnownNames as M;
ghost use Rattle.parse_expressions.specs.Phrases.{same};
ghost use Rattle.parse_stores.specs.Actions.{Acts};
ghost use Rattle.parse_actions.specs.Lists.{Another, Arm, Arms, Condition, Conditional, Deeper, Else, Named, NextArm, Plain, Signed, action_ask, list_stack};

use image_records::actions::Action;
use language::ceilings;
use language::refusals::Refusal;
use parse_array::Work;
use parse_expressions::pieces::Armed;
use parse_levels::Level;
use parse_step::{Answer, Bearing, State, Unread, kinds, taking};
use parse_tables::meaning::KnownNames;
use text_words::Word;

mod leaves;

// One turn more than words are counted.
const TURNS: u16 = ceilings::COUNTED + 1;

// A list of actions, in an operation or in a state. Each action counts a word, of which there are at most 2,048.
#[cycle(action_another_arm_arms_cases_list_next_arm_otherwise_when)]
pub fn list(
    s: State,
    in_state: bool,
    text: &[u8],
    w: Word,
    work: &mut Work,
    n: KnownNames,
) -> Answer
    ensures { Acts (list_stack in_state) same text.now n w s work.old work.new result }
{
    let mut read = action(s, in_state, text, w, work, n)?;
    for _ in 1..TURNS {
        if !leaves::is(read.next, language::kinds::COMMA) {
            return Ok(read);
        }
        let state = parse_expressions::pieces::at(read.state, s.nesting);
        read = another(state, in_state, text, read.next, work, n)?;
    }
    Ok(read)
}

// A comma and the action behind it.
#[cycle(action_another_arm_arms_cases_list_next_arm_otherwise_when)]
fn another(s: State, in_state: bool, text: &[u8], w: Word, work: &mut Work, n: KnownNames) -> Answer
    ensures { Another in_state text.now n w s work.old work.new result }
{
    let comma = taking::take(text, w, s, false, Bearing::Level)?;
    let state = parse_expressions::pieces::at(comma.state, s.nesting);
    action(state, in_state, text, comma.next, work, n)
}

// An action.
#[cycle(action_another_arm_arms_cases_list_next_arm_otherwise_when)]
pub fn action(
    s: State,
    in_state: bool,
    text: &[u8],
    w: Word,
    work: &mut Work,
    n: KnownNames,
) -> Answer
    ensures { Acts (ask (action_ask in_state) ∷ []) same text.now n w s work.old work.new result }
{
    let kind = kinds::kind_of(w);
    if kind == language::kinds::IF {
        return when(s, in_state, text, w, work, n);
    }
    if kind == language::kinds::CASE {
        return cases(s, in_state, text, w, work, n);
    }
    plain(s, in_state, text, w, work, n)
}

// A conditional up to its first arm. Its record is written again when those that belong to it are counted.
fn condition(s: State, case: bool, text: &[u8], w: Word, work: &mut Work) -> Answer
    ensures { ((m : M.KnownNames) → Condition case text.now m w s work.old work.new result) × Deeper s result }
{
    let opened = taking::take(text, w, s, true, Bearing::Opens)?;
    let read = parse_expressions::start(opened.state, Level::Expression, text, opened.next, work)?;
    let kind = parse_expressions::pieces::first_word(case);
    let word = taking::expect(text, read.next, read.state, kind, Bearing::Level)?;
    let inner = parse_expressions::pieces::at(word.state, opened.state.nesting);
    parse_stores::leaves::put(inner, Action::Broken, w.at, word.next, work)
}

// IF, with or without ELSE.
#[cycle(action_another_arm_arms_cases_list_next_arm_otherwise_when)]
fn when(s: State, in_state: bool, text: &[u8], w: Word, work: &mut Work, n: KnownNames) -> Answer
    ensures { Conditional in_state false text.now n w s work.old work.new result }
{
    let head = condition(s, false, text, w, work)?;
    let first = arm(head.state, in_state, text, head.next, work, n)?;
    if leaves::is(first.next, language::kinds::END_IF) {
        let end = leaves::end_if(text, first);
        leaves::when_again(
            work,
            s.actions,
            head.state.actions,
            head.state.nodes,
            first.state.actions,
            w,
        );
        return end;
    }
    let state = parse_expressions::pieces::at(first.state, head.state.nesting);
    let second = otherwise(state, in_state, text, first.next, work, n)?;
    let end = leaves::end_if(text, second);
    leaves::choose_again(work, s.actions, head.state.nodes, 2, second.state.actions);
    end
}

// ELSE and its list.
#[cycle(action_another_arm_arms_cases_list_next_arm_otherwise_when)]
fn otherwise(
    s: State,
    in_state: bool,
    text: &[u8],
    w: Word,
    work: &mut Work,
    n: KnownNames,
) -> Answer
    ensures { Else in_state text.now n w s work.old work.new result }
{
    let word = taking::expect(text, w, s, language::kinds::ELSE, Bearing::Level)?;
    let state = parse_expressions::pieces::at(word.state, s.nesting);
    arm(state, in_state, text, word.next, work, n)
}

// CASE.
#[cycle(action_another_arm_arms_cases_list_next_arm_otherwise_when)]
fn cases(s: State, in_state: bool, text: &[u8], w: Word, work: &mut Work, n: KnownNames) -> Answer
    ensures { Conditional in_state true text.now n w s work.old work.new result }
{
    let head = condition(s, true, text, w, work)?;
    let chosen = arms(head.state, in_state, text, head.next, work, n)?;
    let last = chosen.reached;
    let end = taking::expect(
        text,
        last.next,
        last.state,
        language::kinds::END_CASE,
        Bearing::Closes,
    );
    leaves::choose_again(
        work,
        s.actions,
        head.state.nodes,
        chosen.count,
        last.state.actions,
    );
    end
}

// The arms of CASE, behind the first DO. Each counts a word, of which there are at most 2,048.
#[cycle(action_another_arm_arms_cases_list_next_arm_otherwise_when)]
fn arms(
    s: State,
    in_state: bool,
    text: &[u8],
    w: Word,
    work: &mut Work,
    n: KnownNames,
) -> Result<Armed, Unread>
    ensures { Arms in_state text.now n w s work.old work.new result }
{
    let mut reached = arm(s, in_state, text, w, work, n)?;
    for count in 1..TURNS {
        if !leaves::is(reached.next, language::kinds::DO) {
            return Ok(Armed { reached, count });
        }
        let state = parse_expressions::pieces::at(reached.state, s.nesting);
        reached = next_arm(state, in_state, text, reached.next, work, n)?;
    }
    Ok(Armed {
        reached,
        count: TURNS,
    })
}

// DO and its list.
#[cycle(action_another_arm_arms_cases_list_next_arm_otherwise_when)]
fn next_arm(
    s: State,
    in_state: bool,
    text: &[u8],
    w: Word,
    work: &mut Work,
    n: KnownNames,
) -> Answer
    ensures { NextArm in_state text.now n w s work.old work.new result }
{
    let word = taking::take(text, w, s, false, Bearing::Level)?;
    let state = parse_expressions::pieces::at(word.state, s.nesting);
    arm(state, in_state, text, word.next, work, n)
}

// A list of its own, behind the record of an arm, which is written again when the list's records are counted.
#[cycle(action_another_arm_arms_cases_list_next_arm_otherwise_when)]
fn arm(s: State, in_state: bool, text: &[u8], w: Word, work: &mut Work, n: KnownNames) -> Answer
    ensures { Arm in_state text.now n w s work.old work.new result }
{
    let at = text_words::places::position(0);
    let begun = parse_stores::leaves::put(s, Action::Broken, at, w, work)?;
    let read = list(begun.state, in_state, text, w, work, n)?;
    leaves::arm_again(work, s.actions, read.state.actions);
    Ok(read)
}

// An action that is no conditional.
fn plain(s: State, in_state: bool, text: &[u8], w: Word, work: &mut Work, n: KnownNames) -> Answer
    ensures { Plain in_state text.now n w s work.old work.new result }
{
    if kinds::kind_of(w) == language::kinds::NAME {
        return named(s, in_state, text, w, work, n);
    }
    if in_state {
        return signed(s, text, w, work, n);
    }
    taking::refuse(w, Refusal::NoContinuation)
}

// An action that begins with a name.
fn named(s: State, in_state: bool, text: &[u8], w: Word, work: &mut Work, n: KnownNames) -> Answer
    ensures { Named in_state text.now n w s work.old work.new result }
{
    let name = taking::take(text, w, s, false, Bearing::Level)?;
    if in_state {
        return parse_stores::named_in_state(name.state, w, text, name.next, work, n);
    }
    parse_stores::named_in_operation(name.state, w, text, name.next, work, n)
}

// An action of a state that begins with a sign.
fn signed(s: State, text: &[u8], w: Word, work: &mut Work, n: KnownNames) -> Answer
    ensures { Signed text.now n w s work.old work.new result }
{
    if leaves::signs(kinds::kind_of(w)) {
        return parse_stores::signed(s, text, w, work, n);
    }
    taking::refuse(w, Refusal::NoContinuation)
}
