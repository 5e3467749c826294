// References as records: a name that means no facility leaves a broken one.
ghost use Rattle.std.specs.Prelude.{◌≡◌, ℕ, ◌%◌};
ghost use Rattle.language.specs.Describe.{noted};
ghost use Rattle.language.specs.Description as D;
ghost use Rattle.language.specs.Description.{bounds};
ghost use Rattle.language.specs.Naming.{meaning, number_of, of_facility};
ghost use Rattle.image_records.specs.Nodes.{meant};
ghost use Rattle.text_words.specs.Meaning.{positioned};
ghost use Rattle.parse_tables.specs.Names.{facility_names, found};
ghost use Rattle.parse_operands.specs.References.{Adds, letters_of, of_found, of_known, part_of, word_part_of};

use image_records::nodes::Node;
use parse_array::{Work, bounds};
use parse_step::{Answer, State, adding};
use parse_tables::{Table, finding};
use text_words::{Word, places};

// Which facility a name means, of those known.
fn facility(text: &[u8], work: &Work, known: u16, name: Word) -> Option<u8>
    ensures { found result ≡ number_of (letters_of text.now name) 0 (facility_names text.now work.now known) }
{
    finding::find(
        text,
        work,
        Table::FacilityNames,
        known,
        places::place(name.at),
        name.size,
    )
}

fn whole(f: Option<u8>) -> Node
    ensures { (v : ℕ) → meant v result ≡ of_found (found f) D.whole }
{
    f.map_or(Node::Broken, |k| Node::Whole(k))
}

fn one(f: Option<u8>, e: u16) -> Node
    ensures { (v : ℕ) → meant v result ≡ of_found (found f) (λ k. D.one k e) }
{
    f.map_or(Node::Broken, |k| Node::One(k, e))
}

fn two(f: Option<u8>, e: u16, g: u16) -> Node
    ensures { (v : ℕ) → meant v result ≡ of_found (found f) (λ k. D.two k e g) }
{
    f.map_or(Node::Broken, |k| Node::Two(k, e, g))
}

// The low bits of a bound, which a record has room for.
fn low(bound: u32) -> u16
    ensures { result ≡ bound % 65536 }
{
    (bound % 65536) as u16
}

// A bound, of which a broken record has none.
fn marked(f: Option<u8>, bound: u32) -> u32
    ensures { result ≡ of_known (found f) bound }
{
    if f.is_some() { bound } else { 0 }
}

fn part(f: Option<u8>, a: u32, b: u32) -> Node
    ensures { (v : ℕ) → meant v result ≡ of_found (found f) (λ k. D.part k (bounds (a % 65536) (b % 65536))) }
{
    f.map_or(Node::Broken, |k| Node::Part(k, low(a), low(b)))
}

fn word_part(f: Option<u8>, e: u16, a: u32, b: u32) -> Node
    ensures { (v : ℕ) → meant v result ≡ of_found (found f) (λ k. D.word_part k e (bounds (a % 65536) (b % 65536))) }
{
    f.map_or(Node::Broken, |k| Node::WordPart(k, e, low(a), low(b)))
}

// A whole facility.
pub fn add_whole(s: State, name: Word, text: &[u8], next: Word, work: &mut Work) -> Answer
    ensures { Adds (λ sc. noted (of_facility (meaning sc (letters_of text.now name)) D.whole) (positioned name.at)) text.now next s work.old work.new result }
{
    let node = whole(facility(text, work, s.known, name));
    let beside = parse_array::places::plain(name.at);
    adding::add(work, next, s, node, 0, beside)
}

// One bit or one word, by the expression of record e.
pub fn add_one(s: State, name: Word, e: u16, text: &[u8], next: Word, work: &mut Work) -> Answer
    ensures { Adds (λ sc. noted (of_facility (meaning sc (letters_of text.now name)) (λ k. D.one k e)) (positioned name.at)) text.now next s work.old work.new result }
{
    let node = one(facility(text, work, s.known, name), e);
    let beside = parse_array::places::plain(name.at);
    adding::add(work, next, s, node, 0, beside)
}

// One bit of a word, by two expressions.
pub fn add_two(
    s: State,
    name: Word,
    e: u16,
    g: u16,
    text: &[u8],
    next: Word,
    work: &mut Work,
) -> Answer
    ensures { Adds (λ sc. noted (of_facility (meaning sc (letters_of text.now name)) (λ k. D.two k e g)) (positioned name.at)) text.now next s work.old work.new result }
{
    let node = two(facility(text, work, s.known, name), e, g);
    let beside = parse_array::places::plain(name.at);
    adding::add(work, next, s, node, 0, beside)
}

// A part between two constants.
pub fn add_part(
    s: State,
    name: Word,
    first: Word,
    last: Word,
    text: &[u8],
    next: Word,
    work: &mut Work,
) -> Answer
    ensures { Adds (part_of text.now name first last) text.now next s work.old work.new result }
{
    let a = bounds::bound(first.value);
    let b = bounds::bound(last.value);
    let f = facility(text, work, s.known, name);
    let node = part(f, a, b);
    let beside = parse_array::places::ended(name.at, marked(f, a), first.at, marked(f, b), last.at);
    adding::add(work, next, s, node, 0, beside)
}

// A part of a word.
pub fn add_word_part(
    s: State,
    name: Word,
    e: u16,
    first: Word,
    last: Word,
    text: &[u8],
    next: Word,
    work: &mut Work,
) -> Answer
    ensures { Adds (word_part_of text.now name e first last) text.now next s work.old work.new result }
{
    let a = bounds::bound(first.value);
    let b = bounds::bound(last.value);
    let f = facility(text, work, s.known, name);
    let node = word_part(f, e, a, b);
    let beside = parse_array::places::ended(name.at, marked(f, a), first.at, marked(f, b), last.at);
    adding::add(work, next, s, node, 0, beside)
}
