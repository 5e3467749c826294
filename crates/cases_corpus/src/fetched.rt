// Bytes of a file.
use std::alloc::Global;
use std::io;
use std::io::{ErrorKind, Read};

// What no part of a case passes.
pub const MOST: usize = 65536;

// Fills a buffer; whether the file had as many bytes.
pub fn filled(file: &mut impl Read, buffer: &mut [u8]) -> io::Result<bool> {
    match file.read_exact(buffer) {
        Ok(()) => Ok(true),
        Err(e) if e.kind() == ErrorKind::UnexpectedEof => Ok(false),
        Err(e) => Err(e),
    }
}

// So many bytes, fewer where the file ends before them, and none where they are too many.
pub fn fetch(alloc: Global, file: &mut impl Read, n: usize) -> io::Result<Vec<u8>> {
    let mut bytes = Vec::new(alloc);
    if n <= MOST {
        file.take(n as u64).read_to_end(&mut bytes)?;
    }
    Ok(bytes)
}
