//! Numbers as cases write them: sums and differences of numbers and names, and these with `|` between them. `@` is the
//! number that a case is done for, of those of a row (`each`).

use crate::flags::named;
use read_cases::number;

/// A number, or what a name stands for.
fn term(text: &str, each: u64) -> Option<u64> {
    if text == "@" {
        return Some(each);
    }
    match number(text) {
        Some(value) => Some(value),
        None => named(text),
    }
}

/// A term, or one less another; the first may be left out.
fn difference(text: &str, each: u64) -> Option<u64> {
    match text.split_once('-') {
        Some(("", less)) => Some(0_u64.wrapping_sub(term(less, each)?)),
        Some((more, less)) => Some(term(more, each)?.wrapping_sub(term(less, each)?)),
        None => term(text, each),
    }
}

fn sum(text: &str, each: u64) -> Option<u64> {
    let mut total = 0_u64;
    for part in text.split('+') {
        total = total.wrapping_add(difference(part, each)?);
    }
    Some(total)
}

/// A number of a case.
pub fn value(text: &str, each: u64) -> Option<u64> {
    let mut all = 0_u64;
    for part in text.split('|') {
        all |= sum(part, each)?;
    }
    Some(all)
}

/// A number below 2^32.
pub fn small(text: &str) -> Option<u32> {
    u32::try_from(value(text, 0)?).ok()
}

/// Two numbers with a space between them.
pub fn pair(text: &str) -> Option<(u64, u64)> {
    let (first, second) = text.split_once(' ')?;
    Some((value(first, 0)?, value(second, 0)?))
}

/// A name: a place and an index with a point between them.
pub fn name(text: &str) -> Option<(u64, u32)> {
    let (place, index) = text.split_once('.')?;
    Some((value(place, 0)?, small(index)?))
}
