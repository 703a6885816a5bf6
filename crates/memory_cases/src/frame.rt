//! The verbs of a frame.

use crate::answers::{Answer, OK, of_byte, of_count, of_memory, of_number, of_word};
use crate::words::Words;
use mm_frames::Frame;
use std::alloc::Global;
use std::boxed::Box;

fn write_byte(alloc: Global, frame: &mut Frame, words: &mut Words<'_>) -> Option<Answer> {
    let offset = words.count()?;
    let value = words.byte()?;
    if offset >= 4096 {
        return None;
    }
    Some(of_memory(frame.write_byte(alloc, offset, value)))
}

fn write_number(alloc: Global, frame: &mut Frame, words: &mut Words<'_>) -> Option<Answer> {
    let offset = words.count()?;
    let width = words.byte()?;
    let value = words.number()?;
    // Where there is a number, there is room for one.
    let _ = frame.number(offset, width)?;
    Some(of_memory(frame.write_number(alloc, offset, width, value)))
}

fn put_number(frame: &mut Frame, words: &mut Words<'_>) -> Option<Answer> {
    let offset = words.count()?;
    let width = words.byte()?;
    let value = words.number()?;
    Some(Answer::Truth(frame.put_number(offset, width, value)))
}

/// Takes the decoded words out, looks at one and at whether any are left, and puts them back.
fn take_row(frame: &mut Frame, words: &mut Words<'_>) -> Option<Answer> {
    let index = words.count()?;
    let Some(row) = frame.take_row() else {
        return Some(Answer::Word("none"));
    };
    let word = row.as_slice().get(index).copied();
    let is_left = frame.row().is_some();
    frame.put_row(row);
    if is_left {
        return Some(Answer::Word("left"));
    }
    Some(of_word(word))
}

fn number(frame: &Frame, words: &mut Words<'_>) -> Option<Answer> {
    let offset = words.count()?;
    let width = words.byte()?;
    Some(of_number(frame.number(offset, width)))
}

/// A decoded word, by its index.
fn decoded(frame: &Frame, words: &mut Words<'_>) -> Option<Answer> {
    let index = words.count()?;
    match frame.row() {
        Some(row) => Some(of_word(row.get(index).copied())),
        None => Some(Answer::Word("none")),
    }
}

/// A look at a frame.
#[rattlefmt::skip]
fn look(frame: &Frame, verb: &str, words: &mut Words<'_>) -> Option<Answer> {
    match verb {
        "is_own" => Some(Answer::Truth(frame.is_own())),
        "byte" => Some(of_byte(frame.byte(words.count()?))),
        "number" => number(frame, words),
        "word" => Some(of_number(frame.word(words.count()?).map(u64::from))),
        "row_len" => Some(of_count(frame.row().map(|row| row.len()))),
        "decoded" => decoded(frame, words),
        _ => None,
    }
}

/// Does a verb of a frame.
#[rattlefmt::skip]
pub fn do_frame(alloc: Global, frame: &mut Frame, verb: &str, words: &mut Words<'_>) -> Option<Answer> {
    match verb {
        "own" => Some(of_memory(frame.own(alloc))),
        "write_byte" => write_byte(alloc, frame, words),
        "write_number" => write_number(alloc, frame, words),
        "put_number" => put_number(frame, words),
        "decode" => Some(Answer::Truth(frame.decode(alloc))),
        "take_row" => take_row(frame, words),
        "drop_row" => { frame.drop_row(); Some(Answer::Silent) }
        "drop" => { *frame = Frame::zero(); Some(Answer::Silent) }
        _ => look(frame, verb, words),
    }
}

/// A frame of a page's bytes, in the place of another.
fn of_bytes(alloc: Global, frame: &mut Frame, run: &[u8]) -> Option<Answer> {
    if run.len() != 4096 {
        return None;
    }
    let mut bytes = [0; 4096];
    bytes.copy_from_slice(run);
    let bytes = Box::new(alloc, bytes).ok()?;
    *frame = Frame::of_bytes(bytes);
    Some(OK)
}

fn write_bytes(alloc: Global, frame: &mut Frame, offset: usize, run: &[u8]) -> Option<Answer> {
    if offset > 4096 || run.len() > 4096 - offset {
        return None;
    }
    Some(of_memory(frame.write_bytes(alloc, offset, run)))
}

/// Does a verb of a frame that has a run of bytes, and an offset.
pub fn do_frame_run(
    alloc: Global,
    frame: &mut Frame,
    verb: &str,
    offset: usize,
    run: &[u8],
) -> Option<Answer> {
    match verb {
        "of_bytes" => of_bytes(alloc, frame, run),
        "write_bytes" => write_bytes(alloc, frame, offset, run),
        "put_bytes" => Some(Answer::Truth(frame.put_bytes(offset, run))),
        _ => None,
    }
}
