//! The verbs of loads, stores and reservations in an address space.

ghost use Rattle.rv_table.specs.Words.{IsWidth};

use crate::answers::{Answer, of_access, of_load, of_memory, of_number, of_truth, tell};
use crate::hands::Hands;
use crate::words::{Words, place_of};
use mm_space::Space;
use read_cases::{Bad, number};
use std::alloc::Global;

/// Which byte of a shared area lies at an address, as the area and its page there.
fn area_byte(space: &Space, at: u64, came: &mut String) -> Result<(), Bad> {
    if !came.is_empty() {
        came.push(' ')?;
    }
    match space.area_byte(at) {
        Some(byte) => write!(
            came,
            "{}:{}+{:#x}",
            byte.name.place, byte.name.index, byte.offset
        )?,
        None => came.push_str("none")?,
    }
    Ok(())
}

/// Ends a task's reservation, and tells whether it had it.
fn take(space: &mut Space, hands: &mut Hands, word: &str, width: u8) -> Option<Answer> {
    let place = place_of(word)?;
    let held = space.take(&mut hands.handed, place.task, place.at, width);
    Some(Answer::Truth(held))
}

fn reserve(space: &mut Space, hands: &mut Hands, word: &str, width: u8) -> Option<Answer> {
    let place = place_of(word)?;
    match space.reserve(&mut hands.handed, place.task, place.at, width) {
        Ok(()) => Some(Answer::Silent),
        Err(err) => Some(of_memory(Err(err))),
    }
}

fn fetch(space: &Space, hands: &Hands, word: &str) -> Option<Answer> {
    let found = space.fetch(&hands.handed, number(word)?);
    Some(of_load(found.map(u64::from)))
}

/// Asks something of one place.
#[rattlefmt::skip]
fn ask(space: &mut Space, hands: &mut Hands, verb: &str, width: u8, word: &str) -> Option<Answer>
    requires { IsWidth width }
{
    match verb {
        "load" => Some(of_load(space.load(&hands.handed, number(word)?, width))),
        "load_near" => Some(of_number(space.load_near(&mut hands.hints, number(word)?, width))),
        "fetch" => fetch(space, hands, word),
        "reserve" => reserve(space, hands, word, width),
        "take" => take(space, hands, word, width),
        "is_own" => Some(Answer::Truth(space.areas().is_own(number(word)?))),
        _ => None,
    }
}

/// Asks the same of each place that is left.
fn ask_each(
    space: &mut Space,
    hands: &mut Hands,
    verb: &str,
    width: u8,
    words: &mut Words<'_>,
    came: &mut String,
) -> Result<(), Bad>
    requires { IsWidth width }
{
    for word in words.left.split(' ') {
        match ask(space, hands, verb, width, word) {
            Some(answer) => tell(came, answer)?,
            None => tell(came, Answer::Word("unread"))?,
        }
    }
    Ok(())
}

/// Asks which byte of an area lies at each address that is left.
fn area_bytes(space: &Space, words: &mut Words<'_>, came: &mut String) -> Result<(), Bad> {
    for word in words.left.split(' ') {
        match number(word) {
            Some(at) => area_byte(space, at, came)?,
            None => tell(came, Answer::Word("unread"))?,
        }
    }
    Ok(())
}

/// Does a verb that asks something of several places, where it is one.
pub fn do_places(
    space: &mut Space,
    hands: &mut Hands,
    verb: &str,
    words: &mut Words<'_>,
    came: &mut String,
) -> Result<bool, Bad> {
    match verb {
        "load" | "load_near" | "reserve" | "take" => match words.width() {
            Some(width) => ask_each(space, hands, verb, width, words, came)?,
            None => return Ok(false),
        },
        "fetch" | "is_own" => ask_each(space, hands, verb, 8, words, came)?,
        "area_byte" => area_bytes(space, words, came)?,
        _ => return Ok(false),
    }
    Ok(true)
}

fn store(
    alloc: Global,
    space: &mut Space,
    hands: &mut Hands,
    words: &mut Words<'_>,
) -> Option<Answer> {
    let place = words.place()?;
    let width = words.width()?;
    let value = words.number()?;
    let done = space.store(alloc, &mut hands.handed, place.task, place.at, width, value);
    Some(of_access(done))
}

fn store_near(space: &mut Space, hands: &mut Hands, words: &mut Words<'_>) -> Option<Answer> {
    let place = words.place()?;
    let width = words.width()?;
    let value = words.number()?;
    let done = space.store_near(&mut hands.hints, place.task, place.at, width, value);
    Some(Answer::Truth(done))
}

fn conditional_near(space: &mut Space, hands: &mut Hands, words: &mut Words<'_>) -> Option<Answer> {
    let place = words.place()?;
    let width = words.width()?;
    let value = words.number()?;
    let told = space.conditional_near(&mut hands.hints, place.task, place.at, width, value);
    Some(of_truth(told))
}

/// Whether so many bytes may be written.
fn writable(
    alloc: Global,
    space: &mut Space,
    hands: &mut Hands,
    words: &mut Words<'_>,
) -> Option<Answer> {
    let at = words.number()?;
    let count = words.byte()?;
    let done = space.writable(alloc, &mut hands.handed, at, count);
    Some(of_access(done))
}

/// Whether so many bytes may be accessed by a right.
fn allowed(space: &Space, hands: &Hands, words: &mut Words<'_>) -> Option<Answer> {
    let right = words.rights()?;
    let at = words.number()?;
    let count = words.count()?;
    Some(of_access(space.allowed(&hands.handed, right, at, count)))
}

/// Does a verb of an access.
#[rattlefmt::skip]
pub fn do_access(
    alloc: Global,
    space: &mut Space,
    hands: &mut Hands,
    verb: &str,
    words: &mut Words<'_>,
) -> Option<Answer> {
    match verb {
        "store" => store(alloc, space, hands, words),
        "store_near" => store_near(space, hands, words),
        "conditional_near" => conditional_near(space, hands, words),
        "writable" => writable(alloc, space, hands, words),
        "allowed" => allowed(space, hands, words),
        _ => None,
    }
}
