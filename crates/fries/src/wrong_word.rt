// The word of the call that is no text.
use std::alloc::{AllocError, Global};
use std::env::FillError;
use std::rt::Env;

/// How many bytes of a word are read at first.
const FIRST_SIZE: usize = 4096;

/// The place of the first word that isn't UTF-8. The name of the program is word 0. If all words
/// are, it is the place after the last one.
///
/// # Errors
///
/// Out of memory.
pub fn place_of_wrong_word<E: Env>(rt: &E, alloc: Global) -> Result<usize, AllocError> {
    for place in 0..usize::MAX {
        if !is_text(rt, alloc, place)? {
            return Ok(place);
        }
    }
    Ok(usize::MAX)
}

// Whether there is a word at a place, and it is UTF-8. It is read again with more room until it is
// whole.
fn is_text<E: Env>(rt: &E, alloc: Global, place: usize) -> Result<bool, AllocError> {
    let mut size = FIRST_SIZE;
    for _ in 0..usize::BITS {
        let mut room = vec![in alloc; 0u8; size]?;
        match rt.arg(place, room.as_mut_slice()) {
            Ok(length) => return Ok(is_utf8(room.as_slice(), length)),
            Err(FillError::NotPresent) => return Ok(false),
            Err(FillError::TooLong) => size = size.saturating_mul(2),
        }
    }
    Err(AllocError)
}

fn is_utf8(room: &[u8], length: usize) -> bool {
    match room.get(..length) {
        Some(word) => std::str::from_utf8(word).is_ok(),
        None => false,
    }
}
