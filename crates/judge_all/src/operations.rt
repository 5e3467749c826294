// Operations, in order of declaration: each names only those before it.
ghost use Rattle.std.specs.Prelude.{List, ◌≡◌, ℕ, ◌/◌, ◌≤◌, length};
ghost use Rattle.image_sections.specs.Declarations.{run_meant};
ghost use Rattle.language.specs.ActionRules.{operation_judged};
ghost use Rattle.language.specs.Description.{Description, Places, operation_at};
ghost use Rattle.language.specs.Rules.{operations_faults};
ghost use Rattle.language.specs.WordStage.{least};
ghost use Rattle.judge_verdicts.specs.Meaning.{seen};
ghost use Rattle.judge_verdicts.specs.Noted.{noted_from};
ghost use Rattle.text_words.specs.Meaning.{judged};
ghost use Rattle.judge_all.specs.InSlices.{Performed};
ghost use Rattle.judge_all.specs.BySections.{ActingBy};
ghost use Rattle.language.specs.Encode.{operation_size};

use crate::memory;
use image_records::record_sizes;
use image_sections::runs::Run;
use judge_actions::{Owner, Sections, walk};
use judge_records::places;
use judge_verdicts::Verdict;
use language::refusals::Refusal;
use text_words::{Judged, faults};

// Operation k, which has this body.
fn operation(sections: &Sections<'_>, kept: &[usize], k: usize, body: Run) -> Verdict
    requires { k ≤ 256 }
    ensures { (d : Description) (p : Places) (os : List ℕ) → ActingBy sections.now os d p → Performed kept.now k d p → run_meant body ≡ (operation_at d k).body → result ≡ seen (operation_judged d p k) }
{
    let n = body.count as usize;
    let i = body.first as usize;
    if n == 0 {
        return judge_verdicts::faults::refused(places::nowhere(), Refusal::NoContinuation);
    }
    let own = Owner {
        state: false,
        ops: k,
        kept,
    };
    walk::list(sections, &own, n, i)
}

// All operations, of which there are at most 256; their verdicts are kept.
pub fn operations(sections: &Sections<'_>, os: &[u8], kept: &mut [usize]) -> Judged
    requires { (noted_from ≤ length kept.old) × (length os.now / operation_size ≤ 256) }
    ensures { (length kept.new ≡ length kept.old) × ((d : Description) (p : Places) → ActingBy sections.now os.now d p → (judged result ≡ least (operations_faults d p (length os.now / operation_size) 0)) × Performed kept.new (length os.now / operation_size) d p) }
{
    let mut all = Ok(());
    for n in 0..os.len() / record_sizes::OPERATION {
        let x = image_sections::operations::operation_at(os, n);
        let v = operation(sections, kept, n, x.body);
        all = faults::earlier(all, judge_verdicts::faults::faults_of(v));
        memory::remember(kept, n, v);
    }
    all
}
