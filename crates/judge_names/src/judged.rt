// A name that was declared before is refused.
ghost use Rattle.std.specs.Prelude.{cond, false, true, [], ◌≡◌};
ghost use Rattle.language.specs.Encode.{Sections};
ghost use Rattle.language.specs.Rules as L;
ghost use Rattle.language.specs.Rules.{name_faults, name_places, names_of};
ghost use Rattle.language.specs.WordStage.{least};
ghost use Rattle.judge_records.specs.Noted.{Beside, noted_description, places_in};
ghost use Rattle.text_words.specs.Meaning.{judged};
ghost use Rattle.judge_names.specs.Numbered.{earlier, lengths_of};

use crate::{numbered, sums};
use image_records::bytes;
use judge_verdicts::faults;
use language::refusals::Refusal;
use text_words::Judged;

// Whether a name is none of the first k; a state without a name repeats none. Without a mark no name has the same sum.
fn is_new(fs: &[u8], os: &[u8], ss: &[u8], ns: &[u8], k: usize, name: &[u8], mark: u8) -> bool
    requires { mark ≡ 0 → L.declared name.now (earlier (lengths_of fs.now os.now ss.now) ns.now k) ≡ false }
    ensures { result ≡ cond (L.twice name.now (earlier (lengths_of fs.now os.now ss.now) ns.now k)) false true }
{
    if name.len() == 0 || mark == 0 {
        return true;
    }
    let mut offset = 0;
    for i in 0..k {
        let n = numbered::length_of(fs, os, ss, i);
        if bytes::same(name, bytes::part(ns, offset, n as usize)) {
            return false;
        }
        offset = numbered::after(ns, offset, n);
    }
    true
}

// All names, in order of declaration: facilities, operations and states.
pub fn names(fs: &[u8], os: &[u8], ss: &[u8], ns: &[u8], fp: &[u8], op: &[u8], sp: &[u8]) -> Judged
    ensures { (x : Sections) (q : Beside) → fs.now ≡ x.facilities → os.now ≡ x.operations → ss.now ≡ x.states → ns.now ≡ x.names → fp.now ≡ q.facilities → op.now ≡ q.operations → sp.now ≡ q.states → judged result ≡ least (name_faults [] (names_of (noted_description x q)) (name_places (places_in q))) }
{
    let count = numbered::count(fs, os, ss);
    let mut marks = [0u8; 1024];
    let mut all = Ok(());
    let mut offset = 0;
    for k in 0..count {
        let n = numbered::length_of(fs, os, ss, k);
        let name = bytes::part(ns, offset, n as usize);
        let slot = sums::sum(name) as usize;
        let fresh = is_new(fs, os, ss, ns, k, name, marks[slot]);
        marks[slot] = 1;
        let at = numbered::place_of(fp, op, sp, k);
        all = text_words::faults::earlier(all, faults::unless(fresh, at, Refusal::BadName));
        offset = numbered::after(ns, offset, n);
    }
    all
}
