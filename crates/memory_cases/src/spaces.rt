//! The verbs of what is mapped in an address space, and of the words of its pages.

use crate::answers::{
    Answer, of_break, of_count, of_mapping, of_protection, of_unmapping, of_word,
};
use crate::looks::look;
use crate::words::Words;
use mm_space::Space;
use rv_table::Instr;
use std::alloc::Global;

/// Maps: an address, a length, rights, and what the pages have.
fn map(alloc: Global, space: &mut Space, words: &mut Words<'_>) -> Option<Answer> {
    let at = words.asked()?;
    let length = words.number()?;
    let rights = words.rights()?;
    let backing = words.backing()?;
    Some(of_mapping(space.map(alloc, at, length, rights, backing)))
}

fn unmap(space: &mut Space, words: &mut Words<'_>) -> Option<Answer> {
    let at = words.number()?;
    let length = words.number()?;
    Some(of_unmapping(space.unmap(at, length)))
}

fn protect(space: &mut Space, words: &mut Words<'_>) -> Option<Answer> {
    let at = words.number()?;
    let length = words.number()?;
    let rights = words.rights()?;
    Some(of_protection(space.protect(at, length, rights)))
}

fn instr_at(space: &Space, page: u64, index: usize) -> Option<Instr> {
    space.words(page)?.get(index).copied()
}

/// The instruction that a word of a page is, by its index, where the page's words are there.
fn word(space: &Space, words: &mut Words<'_>) -> Option<Answer> {
    let page = words.number()?;
    let index = words.count()?;
    Some(of_word(instr_at(space, page, index)))
}

/// How many of so many pages have their words there.
fn decoded(space: &Space, first: u64, count: u64) -> u64 {
    let mut there = 0_u64;
    for page in first..first.saturating_add(count) {
        if space.words(page).is_some() {
            there = there.saturating_add(1);
        }
    }
    there
}

fn count_decoded(space: &Space, words: &mut Words<'_>) -> Option<Answer> {
    let first = words.number()?;
    let count = words.number()?;
    Some(Answer::Count(decoded(space, first, count)))
}

/// Decodes so many pages one after another, and tells how many have their words there at most meanwhile.
fn decode_each(alloc: Global, space: &mut Space, words: &mut Words<'_>) -> Option<Answer> {
    let first = words.number()?;
    let count = words.number()?;
    let mut most = 0_u64;
    for page in first..first.saturating_add(count) {
        if !space.decode(alloc, page) || space.words(page).is_none() {
            return Some(Answer::Word("undecoded"));
        }
        most = most.max(decoded(space, first, count));
    }
    Some(Answer::Count(most))
}

/// Takes the words of a page out, decodes another, and puts the words back: whether the first was without its words
/// meanwhile, and the other was decoded.
fn take_words(alloc: Global, space: &mut Space, words: &mut Words<'_>) -> Option<Answer> {
    let page = words.number()?;
    let other = words.number()?;
    let row = space.take_words(page);
    let is_taken = space.words(page).is_none();
    let is_decoded = space.decode(alloc, other);
    if let Some(row) = row {
        space.put_words(page, row);
    }
    Some(Answer::Truth(is_taken && is_decoded))
}

/// Does a verb of the decoded words of pages.
#[rattlefmt::skip]
fn do_words(alloc: Global, space: &mut Space, verb: &str, words: &mut Words<'_>) -> Option<Answer> {
    match verb {
        "decode" => Some(Answer::Truth(space.decode(alloc, words.number()?))),
        "words" => Some(of_count(space.words(words.number()?).map(|row| row.len()))),
        "word" => word(space, words),
        "take_words" => take_words(alloc, space, words),
        "decode_each" => decode_each(alloc, space, words),
        "count_decoded" => count_decoded(space, words),
        _ => look(space.areas(), verb, words),
    }
}

/// Does a verb of an address space.
#[rattlefmt::skip]
pub fn do_space(alloc: Global, space: &mut Space, verb: &str, words: &mut Words<'_>) -> Option<Answer> {
    match verb {
        "map" => map(alloc, space, words),
        "unmap" => unmap(space, words),
        "protect" => protect(space, words),
        "brk" => Some(of_break(space.brk(alloc, words.number()?))),
        _ => do_words(alloc, space, verb, words),
    }
}
