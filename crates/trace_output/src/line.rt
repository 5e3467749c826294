// Whole lines of output.
ghost use Rattle.std.specs.Prelude.{List, ◌++◌, ◌≡◌, ℕ, ◌/◌, ◌≤◌, length as size};
ghost use Rattle.language.specs.Description.{Description, state_at};
ghost use Rattle.language.specs.Encode.{facility_size};
ghost use Rattle.language.specs.Layout.{store_size_of};
ghost use Rattle.language.specs.Trace as T;
ghost use Rattle.run_references.specs.Described.{Describes};
ghost use Rattle.trace_output.specs.Adds.{Adds};
ghost use Rattle.trace_output.specs.Texts.{Named, refused_text};

use crate::{out, shown};

// A state's label, or `-` where it has none.
fn label_text(out: &mut [u8], at: usize, label: &[u8]) -> usize
    ensures { Adds (T.printed_label label.now) out.old at out.new result }
{
    if label.len() == 0 {
        return out::push(out, at, b'-');
    }
    out::append(out, at, label)
}

// A word, a number, and the end of the line.
pub fn numbered(out: &mut [u8], at: usize, word: &[u8], n: u64) -> usize
    ensures { Adds (word.now ++ (T.decimal n ++ T.line_end)) out.old at out.new result }
{
    let mut end = out::append(out, at, word);
    end = out::decimal(out, end, n);
    out::push(out, end, b'\n')
}

// The refusal of a text, with its place.
pub fn refusal(out: &mut [u8], at: usize, n: u64, place: u64) -> usize
    ensures { Adds (refused_text n place) out.old at out.new result }
{
    let mut end = out::append(out, at, b"refused ");
    end = out::decimal(out, end, n);
    numbered(out, end, b" ", place)
}

// The line of a cycle: its number, the label of its state, and the facilities after it.
pub fn cycle_line(
    out: &mut [u8],
    at: usize,
    number: u64,
    label: &[u8],
    section: &[u8],
    names: &[u8],
    store: &[u8],
) -> usize
    requires { size section.now / facility_size ≤ 65536 }
    ensures { (size out.new ≡ size out.old) × ((d : Description) (E : List ℕ) (state : ℕ) → Describes d section.now E → Named d section.now names.now → store_size_of d.facilities ≤ size store.now → label.now ≡ (state_at d state).name → Adds (T.cycle_line d number state store.now) out.old at out.new result) }
{
    let mut end = out::decimal(out, at, number);
    end = out::push(out, end, b' ');
    end = label_text(out, end, label);
    end = shown::facilities_line(out, end, section, names, store);
    out::push(out, end, b'\n')
}
