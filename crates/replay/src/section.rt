// Several lists in one file: before each stands how many bytes it has, in four bytes, the highest first.
use crate::record::read_full;
use std::io;
use std::io::{Read, Take};

// The next list of the file, as a reader of its own that ends where the list does. The list before must have been read to its end: a
// malformed one is said, and what follows it in the file is misread.
pub fn section<R: Read>(from: &mut R) -> io::Result<Take<&mut R>> {
    let mut length = [0u8; 4];
    read_full(from, &mut length)?;
    Ok(from.take(u64::from(u32::from_be_bytes(length))))
}
