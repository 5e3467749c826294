// The cases of data/corpus, as the second simulator packs them: the lengths of a text, its input and the output that is owed in four bytes each, and these.
use crate::fetched;
use image_records::{bytes, numbers};
use std::alloc::Global;
use std::io;
use std::io::Read;
use trace_whole::printed;

// Whether the trace of a text and its input is the output that is owed.
fn agrees(text: &[u8], input: &[u8], owed: &[u8]) -> bool {
    let mut out = [0u8; fetched::MOST];
    let n = printed::printed(text, input, &mut out);
    bytes::part(&out, 0, n) == owed
}

// Whether the next case agrees; none at the end.
pub fn next(alloc: Global, file: &mut impl Read) -> io::Result<Option<bool>> {
    let mut head = [0u8; 12];
    if !fetched::filled(file, &mut head)? {
        return Ok(None);
    }
    let text = fetched::fetch(alloc, file, numbers::four(&head, 0) as usize)?;
    let input = fetched::fetch(alloc, file, numbers::four(&head, 4) as usize)?;
    let owed = fetched::fetch(alloc, file, numbers::four(&head, 8) as usize)?;
    Ok(Some(agrees(&text, &input, &owed)))
}
