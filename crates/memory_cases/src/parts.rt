//! Lines that speak to frames, to the pages of shared areas, and to areas.

use crate::answers::{Answer, tell, tell_bytes};
use crate::areas::{do_areas, do_areas_run};
use crate::block::Block;
use crate::frame::{do_frame, do_frame_run};
use crate::pages::{do_pages, do_pages_run};
use crate::runs::fill_pages;
use crate::words::{Words, read_run};
use mm_areas::Areas;
use mm_frames::Frame;
use mm_space::SharedArea;
use read_cases::Bad;
use rv_atomic::AreaReservations;
use std::alloc::Global;

/// Tells an answer, where there is one.
pub fn tell_some(came: &mut String, answer: Option<Answer>) -> Result<bool, Bad> {
    match answer {
        Some(answer) => {
            tell(came, answer)?;
            Ok(true)
        }
        None => Ok(false),
    }
}

/// Whether a verb of a part has a run of bytes behind its numbers.
fn has_run(verb: &str) -> bool {
    matches!(verb, "of_bytes" | "write_bytes" | "put_bytes")
}

/// Another holder of the pages of an area, or a copy of the area.
fn shared(alloc: Global, area: &mut SharedArea, verb: &str) -> Result<SharedArea, Bad> {
    if verb == "copy" {
        return Ok(area.copy(alloc)?);
    }
    let frames = area.frames.share(alloc)?;
    Ok(SharedArea {
        frames,
        reservations: AreaReservations::new(alloc),
    })
}

/// A frame of one of an area's pages.
fn shared_page(
    alloc: Global,
    area: &mut SharedArea,
    words: &mut Words<'_>,
) -> Result<Option<Frame>, Bad> {
    match words.count() {
        Some(page) if page < area.frames.len() => Ok(Some(area.frames.share_page(alloc, page)?)),
        _ => Ok(None),
    }
}

/// Does a verb of an area's pages that has a run of bytes.
fn run_into_pages(
    alloc: Global,
    area: &mut SharedArea,
    verb: &str,
    words: &mut Words<'_>,
    run: &mut Vec<u8>,
) -> Result<Option<Answer>, Bad> {
    if verb == "pattern" {
        let at = words.number().unwrap_or(0);
        return fill_pages(alloc, &mut area.frames, at, run);
    }
    let (Some(page), Some(offset)) = (words.count(), words.count()) else {
        return Ok(None);
    };
    if !read_run(run, words.left)? {
        return Ok(None);
    }
    let frames = &mut area.frames;
    Ok(do_pages_run(alloc, frames, verb, (page, offset), run))
}

fn run_into_frame(
    alloc: Global,
    frame: &mut Frame,
    verb: &str,
    words: &mut Words<'_>,
    run: &mut Vec<u8>,
) -> Result<Option<Answer>, Bad> {
    let Some(offset) = words.count() else {
        return Ok(None);
    };
    if !read_run(run, words.left)? {
        return Ok(None);
    }
    Ok(do_frame_run(alloc, frame, verb, offset, run))
}

fn run_into_areas(
    alloc: Global,
    areas: &mut Areas,
    verb: &str,
    words: &mut Words<'_>,
    run: &mut Vec<u8>,
) -> Result<Option<Answer>, Bad> {
    let (Some(page), Some(offset)) = (words.number(), words.count()) else {
        return Ok(None);
    };
    if !read_run(run, words.left)? {
        return Ok(None);
    }
    Ok(do_areas_run(alloc, areas, verb, (page, offset), run))
}

/// Tells bytes of a frame from an offset on.
fn tell_slice(bytes: Option<&[u8]>, words: &mut Words<'_>, came: &mut String) -> Result<bool, Bad> {
    let (Some(bytes), Some(from)) = (bytes, words.count()) else {
        return tell_some(came, Some(Answer::Word("none")));
    };
    match bytes.get(from..) {
        Some(tail) => tell_bytes(came, tail)?,
        None => came.push_str("none")?,
    }
    Ok(true)
}

impl Block {
    /// Does a verb of a frame.
    pub fn speak_to_frame(
        &mut self,
        number: usize,
        words: &mut Words<'_>,
        came: &mut String,
    ) -> Result<bool, Bad> {
        let (Some(verb), Some(frame)) = (words.word(), self.frames.get_mut(number)) else {
            return Ok(false);
        };
        if verb == "share" {
            let other = frame.share(self.alloc)?;
            self.frames.push(other)?;
            return Ok(true);
        }
        if verb == "as_slice" {
            return tell_slice(Some(frame.as_slice()), words, came);
        }
        let answer = if has_run(verb) {
            run_into_frame(self.alloc, frame, verb, words, &mut self.run)?
        } else {
            do_frame(self.alloc, frame, verb, words)
        };
        tell_some(came, answer)
    }

    /// Makes another holder of an area's pages, or of one of them.
    fn share_pages(
        &mut self,
        number: usize,
        verb: &str,
        words: &mut Words<'_>,
    ) -> Result<bool, Bad> {
        let Some(area) = self.pages.get_mut(number) else {
            return Ok(false);
        };
        if verb != "share_page" {
            let other = shared(self.alloc, area, verb)?;
            self.pages.push(other)?;
            return Ok(true);
        }
        match shared_page(self.alloc, area, words)? {
            Some(frame) => {
                self.frames.push(frame)?;
                Ok(true)
            }
            None => Ok(false),
        }
    }

    /// Does a verb of an area's pages.
    pub fn speak_to_pages(
        &mut self,
        number: usize,
        words: &mut Words<'_>,
        came: &mut String,
    ) -> Result<bool, Bad> {
        let Some(verb) = words.word() else {
            return Ok(false);
        };
        if matches!(verb, "share" | "copy" | "share_page") {
            return self.share_pages(number, verb, words);
        }
        let Some(area) = self.pages.get_mut(number) else {
            return Ok(false);
        };
        if verb == "as_slice" {
            let page = words.count().unwrap_or(0);
            return tell_slice(area.frames.as_slice(page), words, came);
        }
        let answer = if has_run(verb) || verb == "pattern" {
            run_into_pages(self.alloc, area, verb, words, &mut self.run)?
        } else {
            do_pages(self.alloc, area, verb, words)
        };
        tell_some(came, answer)
    }

    /// Does a verb of areas.
    pub fn speak_to_areas(
        &mut self,
        number: usize,
        words: &mut Words<'_>,
        came: &mut String,
    ) -> Result<bool, Bad> {
        let (Some(verb), Some(areas)) = (words.word(), self.areas.get_mut(number)) else {
            return Ok(false);
        };
        if verb == "fork" {
            let child = areas.fork(self.alloc)?;
            self.areas.push(child)?;
            return Ok(true);
        }
        let answer = if has_run(verb) {
            run_into_areas(self.alloc, areas, verb, words, &mut self.run)?
        } else {
            do_areas(self.alloc, areas, verb, words)
        };
        tell_some(came, answer)
    }
}
