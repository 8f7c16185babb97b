//! The words with which the machine started the program.

use std::alloc::{AllocError, Global};
use std::env::{Env, FillError};

// What the machine has at a place of its words.
enum Word {
    Text(String),
    // bytes that are not UTF-8
    Bytes,
    Absent,
}

// The room that a word is first given; it is doubled until the word fits.
const FIRST_ROOM: usize = 256;

// The bytes of a word that fits this room.
fn fill<R: Env>(
    alloc: Global,
    rt: &R,
    place: usize,
    room: usize,
) -> Result<Result<Vec<u8>, FillError>, AllocError> {
    let mut bytes = vec![in alloc; 0u8; room]?;
    match rt.arg(place, &mut bytes) {
        Ok(length) => {
            bytes.truncate(length);
            Ok(Ok(bytes))
        }
        Err(why) => Ok(Err(why)),
    }
}

// The word at a place, which the program's name has as 0.
fn read_at<R: Env>(alloc: Global, rt: &R, place: usize) -> Result<Word, AllocError> {
    let mut room = FIRST_ROOM;
    for _ in 0..usize::BITS {
        match fill(alloc, rt, place, room)? {
            Ok(bytes) => return Ok(text(bytes)),
            Err(FillError::NotPresent) => return Ok(Word::Absent),
            Err(FillError::TooLong) => room = room.saturating_mul(2),
        }
    }
    Err(AllocError)
}

fn text(bytes: Vec<u8>) -> Word {
    match String::from_utf8(bytes) {
        Ok(text) => Word::Text(text),
        Err(_) => Word::Bytes,
    }
}

/// The words behind the program's name, one by one, so that the name itself need not be text. Where one of them isn't
/// UTF-8 there are none: no command has such a word.
pub fn machine_words<R: Env>(alloc: Global, rt: &R) -> Result<Vec<String>, AllocError> {
    let mut words = Vec::new(alloc);
    for place in 1..usize::MAX {
        match read_at(alloc, rt, place)? {
            Word::Text(text) => words.push(text)?,
            Word::Bytes => return Ok(Vec::new(alloc)),
            Word::Absent => break,
        }
    }
    Ok(words)
}
