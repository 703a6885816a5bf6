//! What is seen of areas, and of the areas of an address space.

use crate::answers::{
    Answer, of_byte, of_count, of_number, of_place, of_rights, of_shared, of_word,
};
use crate::words::Words;
use mm_areas::{Areas, Content, Rights, SharedPage};

/// The rights of a page, where it is mapped.
fn rights(areas: &Areas, page: u64) -> Option<Rights> {
    Some(areas.page(page)?.rights)
}

/// The same of a page that is looked for from a hint on.
fn rights_from(areas: &Areas, words: &mut Words<'_>) -> Option<Answer> {
    let hint = words.count()?;
    let number = words.number()?;
    let page = areas.page_from(hint, number);
    Some(of_rights(page.map(|page| page.rights)))
}

/// The page of a shared area that a page is, where it is one.
fn content(areas: &Areas, page: u64) -> Option<SharedPage> {
    match &areas.page(page)?.content {
        Content::Private(_) => None,
        Content::Shared(shared) => Some(*shared),
    }
}

fn place_of(areas: &Areas, words: &mut Words<'_>) -> Option<Answer> {
    let at = words.asked()?;
    let length = words.number()?;
    Some(of_place(areas.place_of(at, length)))
}

fn byte(areas: &Areas, words: &mut Words<'_>) -> Option<Answer> {
    let page = words.number()?;
    let offset = words.count()?;
    Some(of_byte(areas.byte(page, offset)))
}

fn number(areas: &Areas, words: &mut Words<'_>) -> Option<Answer> {
    let page = words.number()?;
    let offset = words.count()?;
    let width = words.byte()?;
    Some(of_number(areas.number(page, offset, width)))
}

/// A number by a hint: the hint, the page, the offset, the width and the right.
fn number_near(areas: &Areas, words: &mut Words<'_>) -> Option<Answer> {
    let hint = words.count()?;
    let page = words.number()?;
    let offset = words.count()?;
    let width = words.byte()?;
    let right = words.rights()?;
    let found = areas.number_near(hint, page, offset, width, right);
    Some(of_number(found))
}

fn has_room_near(areas: &Areas, words: &mut Words<'_>) -> Option<Answer> {
    let hint = words.count()?;
    let page = words.number()?;
    let offset = words.count()?;
    let width = words.byte()?;
    let right = words.rights()?;
    let has_room = areas.has_room_near(hint, page, offset, width, right);
    Some(Answer::Truth(has_room))
}

fn hint_from(areas: &Areas, words: &mut Words<'_>) -> Option<Answer> {
    let hint = words.count()?;
    let page = words.number()?;
    Some(Answer::Count(areas.hint_from(hint, page) as u64))
}

/// A decoded word of a page, by its index.
fn decoded(areas: &Areas, words: &mut Words<'_>) -> Option<Answer> {
    let page = words.number()?;
    let index = words.count()?;
    match areas.row(page) {
        Some(row) => Some(of_word(row.get(index).copied())),
        None => Some(Answer::Word("none")),
    }
}

/// A look at the bytes of pages.
#[rattlefmt::skip]
fn look_into(areas: &Areas, verb: &str, words: &mut Words<'_>) -> Option<Answer> {
    match verb {
        "byte" => byte(areas, words),
        "number" => number(areas, words),
        "number_near" => number_near(areas, words),
        "has_room_near" => has_room_near(areas, words),
        "hint" => Some(Answer::Count(areas.hint(words.number()?) as u64)),
        "hint_from" => hint_from(areas, words),
        "row_len" => Some(of_count(areas.row(words.number()?).map(|row| row.len()))),
        "decoded" => decoded(areas, words),
        _ => None,
    }
}

/// A look at what is mapped.
#[rattlefmt::skip]
pub fn look(areas: &Areas, verb: &str, words: &mut Words<'_>) -> Option<Answer> {
    match verb {
        "len" => Some(Answer::Count(areas.len())),
        "start" => Some(Answer::Number(areas.start())),
        "program_break" => Some(Answer::Number(areas.program_break())),
        "rights" => Some(of_rights(rights(areas, words.number()?))),
        "rights_from" => rights_from(areas, words),
        "content" => Some(of_shared(content(areas, words.number()?))),
        "place_of" => place_of(areas, words),
        "is_own" => Some(Answer::Truth(areas.is_own(words.number()?))),
        _ => look_into(areas, verb, words),
    }
}
