// Names numbered over the three sections: their lengths and places.
ghost use Rattle.std.specs.Prelude.{◌≡◌, ◌+◌, ◌≤◌, drop, get_or, length};
ghost use Rattle.language.specs.Description.{nowhere};
ghost use Rattle.text_words.specs.Meaning.{positioned};
ghost use Rattle.judge_names.specs.Numbered.{lengths_of, places_of};

use image_records::{numbers, record_sizes};
use judge_records::places;
use text_words::Position;

// How many names there are.
pub fn count(fs: &[u8], os: &[u8], ss: &[u8]) -> usize
    ensures { result ≡ length (lengths_of fs.now os.now ss.now) }
{
    fs.len() / record_sizes::FACILITY
        + os.len() / record_sizes::OPERATION
        + ss.len() / record_sizes::STATE
}

// The length of name k; 0 where there is none.
pub fn length_of(fs: &[u8], os: &[u8], ss: &[u8], k: usize) -> u8
    ensures { result ≡ get_or (lengths_of fs.now os.now ss.now) k 0 }
{
    let f = fs.len() / record_sizes::FACILITY;
    if k < f {
        return numbers::byte(fs, record_sizes::FACILITY * k + record_sizes::FACILITY_NAME);
    }
    let o = os.len() / record_sizes::OPERATION;
    if k - f < o {
        return numbers::byte(os, record_sizes::OPERATION * (k - f));
    }
    if k - f - o < ss.len() / record_sizes::STATE {
        return numbers::byte(ss, record_sizes::STATE * (k - f - o));
    }
    0
}

// The place of name k; the places of a section need not be as many as its names.
pub fn place_of(fp: &[u8], op: &[u8], sp: &[u8], k: usize) -> Position
    ensures { positioned result ≡ get_or (places_of fp.now op.now sp.now) k nowhere }
{
    let f = fp.len() / places::FACILITY;
    if k < f {
        return places::of_facility(fp, k, 0);
    }
    let o = op.len() / places::WORD;
    if k - f < o {
        return places::of_record(op, k - f);
    }
    places::of_state(sp, k - f - o, 0)
}

// Where the next name begins, after one of this length; the end of all names stands for every place past it.
pub fn after(ns: &[u8], offset: usize, n: u8) -> usize
    requires { offset ≤ length ns.now }
    ensures { (result ≤ length ns.now) × (drop result ns.now ≡ drop (offset + n) ns.now) }
{
    if ns.len() - offset < n as usize {
        return ns.len();
    }
    offset + n as usize
}
