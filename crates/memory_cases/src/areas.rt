//! The verbs of areas.

use crate::answers::{
    Answer, of_break, of_mapping, of_memory, of_protection, of_unmapping, of_word,
};
use crate::looks::look;
use crate::words::Words;
use mm_areas::{Areas, Backing, Content, Page, Rights};
use mm_frames::Frame;
use sn_base::Memory;
use std::alloc::Global;

/// Maps: an address, a length, rights, and what the pages have.
fn map(alloc: Global, areas: &mut Areas, words: &mut Words<'_>) -> Option<Answer> {
    let at = words.asked()?;
    let length = words.number()?;
    let rights = words.rights()?;
    let backing = words.backing()?;
    Some(of_mapping(areas.map(alloc, at, length, rights, backing)))
}

/// Maps so many pages, each so many bytes behind the one before.
fn scatter(alloc: Global, areas: &mut Areas, words: &mut Words<'_>) -> Option<Answer> {
    let first = words.number()?;
    let step = words.number()?;
    let count = words.number()?;
    for index in 0..count {
        let at = first.wrapping_add(step.wrapping_mul(index));
        areas
            .map(alloc, Some(at), 1, Rights::READ, Backing::Zeros)
            .ok()?;
    }
    Some(Answer::Silent)
}

fn protect(areas: &mut Areas, words: &mut Words<'_>) -> Option<Answer> {
    let at = words.number()?;
    let length = words.number()?;
    let rights = words.rights()?;
    Some(of_protection(areas.protect(at, length, rights)))
}

fn unmap(areas: &mut Areas, words: &mut Words<'_>) -> Option<Answer> {
    let at = words.number()?;
    let length = words.number()?;
    Some(of_unmapping(areas.unmap(at, length)))
}

fn put_number(areas: &mut Areas, words: &mut Words<'_>) -> Option<Answer> {
    let page = words.number()?;
    let offset = words.count()?;
    let width = words.byte()?;
    let value = words.number()?;
    let done = areas.put_number(page, offset, width, value);
    Some(Answer::Truth(done))
}

/// A number by a hint: the hint, the page, the offset, the width, the number and the right.
fn put_number_near(areas: &mut Areas, words: &mut Words<'_>) -> Option<Answer> {
    let hint = words.count()?;
    let page = words.number()?;
    let offset = words.count()?;
    let width = words.byte()?;
    let value = words.number()?;
    let right = words.rights()?;
    let done = areas.put_number_near(hint, page, offset, width, value, right);
    Some(Answer::Truth(done))
}

fn write_number(alloc: Global, areas: &mut Areas, words: &mut Words<'_>) -> Option<Answer> {
    let page = words.number()?;
    let offset = words.count()?;
    let width = words.byte()?;
    let value = words.number()?;
    // Where there is a number, there is room for one.
    let _ = areas.number(page, offset, width)?;
    let done = areas.write_number(alloc, page, offset, width, value);
    Some(of_memory(done))
}

fn decode(alloc: Global, areas: &mut Areas, words: &mut Words<'_>) -> Option<Answer> {
    let hint = words.count()?;
    let page = words.number()?;
    let right = words.rights()?;
    Some(Answer::Truth(areas.decode(alloc, hint, page, right)))
}

/// Takes the decoded words of a page out, looks at one and at whether any are left, and puts them back.
fn take_row(areas: &mut Areas, words: &mut Words<'_>) -> Option<Answer> {
    let hint = words.count()?;
    let page = words.number()?;
    let index = words.count()?;
    let Some(row) = areas.take_row(hint, page) else {
        return Some(Answer::Word("none"));
    };
    let word = row.as_slice().get(index).copied();
    let is_left = areas.row(page).is_some();
    areas.put_row(hint, page, row);
    if is_left {
        return Some(Answer::Word("left"));
    }
    Some(of_word(word))
}

fn drop_row(areas: &mut Areas, words: &mut Words<'_>) -> Option<Answer> {
    areas.drop_row(words.number()?);
    Some(Answer::Silent)
}

/// New areas, whose break begins at an address.
fn renew(alloc: Global, areas: &mut Areas, words: &mut Words<'_>) -> Option<Answer> {
    *areas = Areas::new(alloc, words.number()?);
    Some(Answer::Silent)
}

/// New areas with one page laid, which nobody has written.
#[tactic(auto, using(mm_areas::proofs::PlaceLaws::len_laid_few, mm_areas::proofs::RegionLaws::len_of_none))]
fn laid(alloc: Global, first: u64, rights: Rights) -> Result<Areas, Memory> {
    let mut areas = Areas::new(alloc, 4096);
    let mut pages = Vec::new(alloc);
    pages.push(Page {
        rights,
        content: Content::Private(Frame::zero()),
    })?;
    areas.lay(first.min(1 << 20), pages)?;
    Ok(areas)
}

fn lay(alloc: Global, areas: &mut Areas, words: &mut Words<'_>) -> Option<Answer> {
    let first = words.number()?;
    let rights = words.rights()?;
    *areas = laid(alloc, first, rights).ok()?;
    Some(Answer::Silent)
}

/// Does a verb that changes the bytes of pages, or their decoded words.
#[rattlefmt::skip]
fn change_bytes(alloc: Global, areas: &mut Areas, verb: &str, words: &mut Words<'_>) -> Option<Answer> {
    match verb {
        "own" => Some(of_memory(areas.own(alloc, words.number()?))),
        "put_number" => put_number(areas, words),
        "put_number_near" => put_number_near(areas, words),
        "write_number" => write_number(alloc, areas, words),
        "decode" => decode(alloc, areas, words),
        "take_row" => take_row(areas, words),
        "drop_row" => drop_row(areas, words),
        _ => look(areas, verb, words),
    }
}

/// Does a verb of areas.
#[rattlefmt::skip]
pub fn do_areas(alloc: Global, areas: &mut Areas, verb: &str, words: &mut Words<'_>) -> Option<Answer> {
    match verb {
        "new" => renew(alloc, areas, words),
        "lay" => lay(alloc, areas, words),
        "map" => map(alloc, areas, words),
        "scatter" => scatter(alloc, areas, words),
        "unmap" => unmap(areas, words),
        "protect" => protect(areas, words),
        "brk" => Some(of_break(areas.brk(alloc, words.number()?))),
        _ => change_bytes(alloc, areas, verb, words),
    }
}

fn write_bytes(
    alloc: Global,
    areas: &mut Areas,
    (page, offset): (u64, usize),
    run: &[u8],
) -> Option<Answer> {
    // Where there is a byte, the page is private, and the offset inside it.
    let _ = areas.number(page, offset, 1)?;
    if run.len() > 4096 - offset {
        return None;
    }
    Some(of_memory(areas.write_bytes(alloc, page, offset, run)))
}

/// Does a verb of areas that has a page, an offset and a run of bytes.
pub fn do_areas_run(
    alloc: Global,
    areas: &mut Areas,
    verb: &str,
    (page, offset): (u64, usize),
    run: &[u8],
) -> Option<Answer> {
    match verb {
        "write_bytes" => write_bytes(alloc, areas, (page, offset), run),
        "put_bytes" => Some(Answer::Truth(areas.put_bytes(page, offset, run))),
        _ => None,
    }
}
