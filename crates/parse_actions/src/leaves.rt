// What lists and conditionals are made of besides themselves: words looked for, and the records that are written again.
ghost use Rattle.std.specs.Prelude.{[], ◌∷◌, ◌≡◌, ◌-◌, ◌<◌, eqb};
ghost use Rattle.parse_step.specs.Course.{kind_no};
ghost use Rattle.parse_step.specs.declared.Bearing.TheVariants.{Closes};
ghost use Rattle.parse_step.specs.Taken.{Expected};
ghost use Rattle.about_grammar.specs.Following.{among};
ghost use Rattle.language.specs.Description as D;
ghost use Rattle.language.specs.Encode.{action_bytes};
ghost use Rattle.language.specs.Kinds.{call_sign, end_if_word, goto_sign, return_word};
ghost use Rattle.parse_tables.specs.declared.Table.TheVariants as T;
ghost use Rattle.parse_tables.specs.Rows.{Wrote};
ghost use Rattle.parse_array.specs.Layout.{most_actions};
ghost use Rattle.parse_actions.specs.Lists.{OneBranch};

use image_records::actions::Action;
use parse_array::Work;
use parse_step::{Answer, Bearing, Reached, adding, kinds, taking};
use parse_tables::{Table, actions, places, rows};
use text_words::Word;

// Whether a word is of a kind.
#[tactic(auto, using(std::proofs::lemmas::Bool::Decides::nat_tests))]
pub fn is(w: Word, kind: u8) -> bool
    ensures { result ≡ eqb (kind_no w.kind) kind }
{
    kinds::kind_of(w) == kind
}

// Whether an action begins with a kind in a state besides a name: `->`, `=>` or RETURN.
#[tactic(auto, using(std::proofs::lemmas::Bool::Decides::nat_tests), unfolding(about_grammar::specs::Following::among))]
pub fn signs(kind: u8) -> bool
    ensures { result ≡ among kind (goto_sign ∷ call_sign ∷ return_word ∷ []) }
{
    matches!(
        kind,
        language::kinds::GOTO | language::kinds::CALL | language::kinds::RETURN
    )
}

// How many of `count` records stand behind record n.
pub fn behind(n: u16, count: u16) -> u16
    ensures { result ≡ count - n - 1 }
{
    count.saturating_sub(n).saturating_sub(1)
}

// Writes the record of an arm again: those behind it belong to it.
pub fn arm_again(work: &mut Work, acts: u16, count: u16)
    ensures { acts < most_actions → Wrote T.Actions acts (action_bytes (D.arm (count - acts - 1))) work.old work.new }
{
    actions::rewrite_action(work, acts, Action::Arm(behind(acts, count)));
}

// Writes the record of a conditional with arms again; the last of `nodes` records is its condition's.
pub fn choose_again(work: &mut Work, acts: u16, nodes: u16, arms: u16, count: u16)
    ensures { acts < most_actions → Wrote T.Actions acts (action_bytes (D.choose (nodes - 1) arms (count - acts - 1))) work.old work.new }
{
    let action = Action::Choose(adding::last(nodes), arms, behind(acts, count));
    actions::rewrite_action(work, acts, action);
}

// Writes the record of IF without ELSE again, whose word is w; its one arm has its place.
pub fn when_again(work: &mut Work, acts: u16, arm: u16, nodes: u16, count: u16, w: Word)
    ensures { acts < most_actions → arm < most_actions → OneBranch acts arm (nodes - 1) count w.at work.old work.new }
{
    let action = Action::When(adding::last(nodes), behind(acts, count));
    actions::rewrite_action(work, acts, action);
    let beside = places::place_row(w.at);
    rows::write(work, Table::ActionPlaces, arm, &beside);
}

// The word ENDIF behind what was read.
pub fn end_if(text: &[u8], a: Reached) -> Answer
    ensures { Expected text.now end_if_word Closes a.next a.state result }
{
    taking::expect(
        text,
        a.next,
        a.state,
        language::kinds::END_IF,
        Bearing::Closes,
    )
}
