// The cases of data/images, as the second simulator packs them: the length of an image in four bytes, whether it passes, and its bytes.
use crate::fetched;
use image_records::numbers;
use std::alloc::Global;
use std::io;
use std::io::Read;

// Whether an image passes exactly if it should.
fn agrees(image: &[u8], expected: u8) -> bool {
    expected == u8::from(call_check::passes(image))
}

// Whether the next case agrees; none at the end.
pub fn next(alloc: Global, file: &mut impl Read) -> io::Result<Option<bool>> {
    let mut head = [0u8; 5];
    if !fetched::filled(file, &mut head)? {
        return Ok(None);
    }
    let image = fetched::fetch(alloc, file, numbers::four(&head, 0) as usize)?;
    Ok(Some(agrees(&image, head[4])))
}
