// The sections in their order; each word decides what may follow.
ghost use Rattle.parse_facilities.specs.Lists.{memories, registers, terminals};
ghost use Rattle.language.specs.Machine.{after_memories, after_registers, after_terminals};
ghost use Rattle.parse_sections.specs.Sections.{From, Goes, Operates, Somewhere, Starts};

use crate::lists;
use crate::operations::lists as operations;
use language::refusals::Refusal;
use parse_array::Work;
use parse_facilities::lists::{MemoryList, RegisterList};
use parse_step::{Answer, Bearing, State, kinds, taking};
use parse_terminals::lists::TerminalList;
use text_words::Word;

// Operations, whose word has been seen, and CONTROL.
fn operations(text: &[u8], w: Word, work: &mut Work, s: State, place: u16) -> Answer
    requires { Somewhere text.now place w s work.old }
    ensures { Operates text.now w s place work.old work.new result }
{
    parse_array::whole(work);
    let first = taking::take(text, w, s, false, Bearing::Level)?;
    operations::operations(text, first.next, work, first.state)
}

// Behind the terminals.
fn behind_terminals(text: &[u8], w: Word, work: &mut Work, s: State, place: u16) -> Answer
    requires { Somewhere text.now place w s work.old }
    ensures { Goes terminals after_terminals text.now w s place work.old work.new result }
{
    let k = kinds::kind_of(w);
    if k == language::kinds::OPERATION {
        return operations(text, w, work, s, place);
    }
    parse_array::whole(work);
    if k == language::kinds::CONTROL {
        return taking::take(text, w, s, false, Bearing::Level);
    }
    taking::refuse(w, Refusal::NoContinuation)
}

// Terminals, whose word has been seen, and what follows.
pub fn terminals(text: &[u8], w: Word, work: &mut Work, s: State, place: u16) -> Answer
    requires { Starts terminals text.now place w s work.old }
    ensures { From terminals text.now w s place work.old work.new result }
{
    let read = lists::section::<TerminalList>(text, w, work, s, place)?;
    behind_terminals(
        text,
        read.reached.next,
        work,
        read.reached.state,
        read.place,
    )
}

// One function for both lists would call itself, for the memories behind the registers: two state the order plainly.
// Behind the memories.
fn behind_memories(text: &[u8], w: Word, work: &mut Work, s: State, place: u16) -> Answer
    requires { Somewhere text.now place w s work.old }
    ensures { Goes memories after_memories text.now w s place work.old work.new result }
{
    if kinds::kind_of(w) == language::kinds::TERMINAL {
        return terminals(text, w, work, s, place);
    }
    behind_terminals(text, w, work, s, place)
}

// Memories, whose word has been seen, and what follows.
pub fn memories(text: &[u8], w: Word, work: &mut Work, s: State, place: u16) -> Answer
    requires { Starts memories text.now place w s work.old }
    ensures { From memories text.now w s place work.old work.new result }
{
    let read = lists::section::<MemoryList>(text, w, work, s, place)?;
    behind_memories(
        text,
        read.reached.next,
        work,
        read.reached.state,
        read.place,
    )
}

// Behind the registers.
fn behind_registers(text: &[u8], w: Word, work: &mut Work, s: State, place: u16) -> Answer
    requires { Somewhere text.now place w s work.old }
    ensures { Goes registers after_registers text.now w s place work.old work.new result }
{
    if kinds::kind_of(w) == language::kinds::MEMORY {
        return memories(text, w, work, s, place);
    }
    behind_memories(text, w, work, s, place)
}

// Registers, whose word has been seen, and what follows.
pub fn registers(text: &[u8], w: Word, work: &mut Work, s: State, place: u16) -> Answer
    requires { Starts registers text.now place w s work.old }
    ensures { From registers text.now w s place work.old work.new result }
{
    let read = lists::section::<RegisterList>(text, w, work, s, place)?;
    behind_registers(
        text,
        read.reached.next,
        work,
        read.reached.state,
        read.place,
    )
}
