// The cases of a file that has nothing else: traces or images.
use crate::tally::Score;
use crate::{images, traces};
use std::alloc::Global;
use std::io;
use std::io::Read;

#[derive(Clone, Copy)]
pub enum Kind {
    Traces,
    Images,
}

// Whether the next case agrees; none at the end.
fn next(alloc: Global, file: &mut impl Read, kind: Kind) -> io::Result<Option<bool>> {
    match kind {
        Kind::Traces => traces::next(alloc, file),
        Kind::Images => images::next(alloc, file),
    }
}

// Every case.
pub fn run(alloc: Global, file: &mut impl Read, kind: Kind) -> io::Result<Score> {
    let mut score = Score::default();
    for _ in 0..100000 {
        let Some(agrees) = next(alloc, file, kind)? else {
            break;
        };
        score = score.counted(agrees);
    }
    Ok(score)
}
