//! The verbs of the pages of a shared area.

use crate::answers::{Answer, of_byte, of_memory, of_number};
use crate::words::Words;
use mm_frames::Frames;
use mm_space::SharedArea;
use rv_atomic::AreaReservations;
use std::alloc::Global;

/// So many pages that nobody has written, in the place of others.
fn zeros(alloc: Global, area: &mut SharedArea, words: &mut Words<'_>) -> Option<Answer> {
    let frames = Frames::zeros(alloc, words.count()?).ok()?;
    *area = SharedArea {
        frames,
        reservations: AreaReservations::new(alloc),
    };
    Some(Answer::Silent)
}

fn own(alloc: Global, frames: &mut Frames, words: &mut Words<'_>) -> Option<Answer> {
    let page = words.count()?;
    if page >= frames.len() {
        return None;
    }
    Some(of_memory(frames.own(alloc, page)))
}

fn write_byte(alloc: Global, frames: &mut Frames, words: &mut Words<'_>) -> Option<Answer> {
    let page = words.count()?;
    let offset = words.count()?;
    let value = words.byte()?;
    if page >= frames.len() || offset >= 4096 {
        return None;
    }
    Some(of_memory(frames.write_byte(alloc, page, offset, value)))
}

fn write_number(alloc: Global, frames: &mut Frames, words: &mut Words<'_>) -> Option<Answer> {
    let page = words.count()?;
    let offset = words.count()?;
    let width = words.byte()?;
    let value = words.number()?;
    // Where there is a number, there is room for one.
    let _ = frames.number(page, offset, width)?;
    let done = frames.write_number(alloc, page, offset, width, value);
    Some(of_memory(done))
}

fn put_number(frames: &mut Frames, words: &mut Words<'_>) -> Option<Answer> {
    let page = words.count()?;
    let offset = words.count()?;
    let width = words.byte()?;
    let value = words.number()?;
    let done = frames.put_number(page, offset, width, value);
    Some(Answer::Truth(done))
}

fn byte(frames: &Frames, words: &mut Words<'_>) -> Option<Answer> {
    let page = words.count()?;
    let offset = words.count()?;
    Some(of_byte(frames.byte(page, offset)))
}

fn number(frames: &Frames, words: &mut Words<'_>) -> Option<Answer> {
    let page = words.count()?;
    let offset = words.count()?;
    let width = words.byte()?;
    Some(of_number(frames.number(page, offset, width)))
}

/// Whether a task has reserved a granule.
fn holds(area: &SharedArea, words: &mut Words<'_>) -> Option<Answer> {
    let place = words.place()?;
    Some(Answer::Truth(area.reservations.holds(place.task, place.at)))
}

/// A look at an area.
#[rattlefmt::skip]
pub fn look_at_area(area: &SharedArea, verb: &str, words: &mut Words<'_>) -> Option<Answer> {
    match verb {
        "len" => Some(Answer::Count(area.frames.len() as u64)),
        "is_empty" => Some(Answer::Truth(area.frames.is_empty())),
        "byte" => byte(&area.frames, words),
        "number" => number(&area.frames, words),
        "reservations" => Some(Answer::Count(area.reservations.len() as u64)),
        "holds" => holds(area, words),
        _ => None,
    }
}

/// Has a task reserve a granule.
fn reserve(area: &mut SharedArea, words: &mut Words<'_>) -> Option<Answer> {
    let place = words.place()?;
    let done = area.reservations.reserve(place.task, place.at);
    Some(of_memory(done))
}

/// Does a verb of an area's pages.
#[rattlefmt::skip]
pub fn do_pages(alloc: Global, area: &mut SharedArea, verb: &str, words: &mut Words<'_>) -> Option<Answer> {
    match verb {
        "zeros" => zeros(alloc, area, words),
        "own" => own(alloc, &mut area.frames, words),
        "write_byte" => write_byte(alloc, &mut area.frames, words),
        "write_number" => write_number(alloc, &mut area.frames, words),
        "put_number" => put_number(&mut area.frames, words),
        "reserve" => reserve(area, words),
        _ => look_at_area(area, verb, words),
    }
}

fn write_bytes(
    alloc: Global,
    frames: &mut Frames,
    page: usize,
    offset: usize,
    run: &[u8],
) -> Option<Answer> {
    if page >= frames.len() || offset > 4096 || run.len() > 4096 - offset {
        return None;
    }
    Some(of_memory(frames.write_bytes(alloc, page, offset, run)))
}

/// Does a verb of pages that has a page, an offset and a run of bytes.
pub fn do_pages_run(
    alloc: Global,
    frames: &mut Frames,
    verb: &str,
    (page, offset): (usize, usize),
    run: &[u8],
) -> Option<Answer> {
    match verb {
        "write_bytes" => write_bytes(alloc, frames, page, offset, run),
        "put_bytes" => Some(Answer::Truth(frames.put_bytes(page, offset, run))),
        _ => None,
    }
}
