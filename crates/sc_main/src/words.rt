//! The words that the process was started with.
use sc_entry::{ByteText, NoMemory};
use std::alloc::Global;
use std::env::{Env, FillError};

/// The bytes that a word is given room for at first.
const ROOM: usize = 256;

/// The words, the program's name first. A word is bytes, and need not be UTF-8.
///
/// # Errors
///
/// `NoMemory` where there is none for all of them.
pub fn read_words<V: Env>(alloc: Global, env: &V) -> Result<Vec<ByteText>, NoMemory> {
    let mut words = Vec::new(alloc);
    for number in 0..usize::MAX {
        let Some(word) = word_at(alloc, env, number)? else {
            break;
        };
        words.push(word)?;
    }
    Ok(words)
}

/// The word of that number; none behind the last.
fn word_at<V: Env>(alloc: Global, env: &V, number: usize) -> Result<Option<ByteText>, NoMemory> {
    let mut room = ROOM;
    for _ in 0..usize::BITS {
        let mut bytes = vec![in alloc; 0u8; room]?;
        match env.arg(number, &mut bytes) {
            Ok(length) => {
                bytes.truncate(length);
                return Ok(Some(ByteText::from_vec(bytes)));
            }
            Err(FillError::NotPresent) => return Ok(None),
            Err(FillError::TooLong) => room = room.saturating_add(room),
        }
    }
    Err(NoMemory)
}
