//! Numbers, names and bytes in cases and in what they come to.

use read_cases::{Bad, add_bytes, number, parted};
use sn_base::Made;

/// So many bytes are told one by one; of more, it is told how they go on.
const FEW: usize = 24;

/// A number of 32 bits.
pub fn small(text: &str) -> Option<u32> {
    u32::try_from(number(text)?).ok()
}

/// A count or an index.
pub fn count(text: &str) -> Option<usize> {
    usize::try_from(number(text)?).ok()
}

/// A number of 32 bits in octal.
pub fn octal(text: &str) -> Option<u32> {
    u32::from_str_radix(text, 8).ok()
}

/// Two numbers between a space.
pub fn two(text: &str) -> Option<(u64, u64)> {
    let (first, second) = text.split_once(' ')?;
    Some((number(first)?, number(second)?))
}

/// The name of a made thing: its place, a dot, and its index.
pub fn made(text: &str) -> Option<Made> {
    let (place, index) = text.split_once('.')?;
    Some(Made {
        place: number(place)?,
        index: small(index)?,
    })
}

/// Tells a number, or `none`.
pub fn tell_number(came: &mut String, number: Option<u64>) -> Result<(), Bad> {
    match number {
        Some(number) => write!(came, "{number}")?,
        None => came.push_str("none")?,
    }
    Ok(())
}

/// Tells whether something is so.
pub fn tell_bool(came: &mut String, is_so: bool) -> Result<(), Bad> {
    came.push_str(if is_so { "true" } else { "false" })?;
    Ok(())
}

/// Puts a space behind what came, if anything did.
pub fn space(came: &mut String) -> Result<(), Bad> {
    if !came.is_empty() {
        came.push_str(" ")?;
    }
    Ok(())
}

/// Adds so many bytes that count up to 99 and begin at 0 then, which are the last two decimal digits of their places;
/// whether it is said how many.
pub fn add_numbered(bytes: &mut Vec<u8>, text: &str) -> Result<bool, Bad> {
    let Some(count) = number(text) else {
        return Ok(false);
    };
    for at in 0..count {
        bytes.push((at % 100) as u8)?;
    }
    Ok(true)
}

/// Adds a byte so many times: the count, and two hexadecimal digits.
fn add_fill(bytes: &mut Vec<u8>, text: &str) -> Result<bool, Bad> {
    let (times, byte) = parted(text);
    let (Some(times), Ok(byte)) = (number(times), u8::from_str_radix(byte, 16)) else {
        return Ok(false);
    };
    for _ in 0..times {
        bytes.push(byte)?;
    }
    Ok(true)
}

/// Adds the bytes that a text has; whether it has some: `none`, pairs of hexadecimal digits between spaces,
/// `fill COUNT PAIR`, or `numbered COUNT`, which count from 0 to 99 and then anew.
pub fn add_noted(bytes: &mut Vec<u8>, text: &str) -> Result<bool, Bad> {
    match parted(text) {
        ("none", "") => Ok(true),
        ("fill", rest) => add_fill(bytes, rest),
        ("numbered", rest) => add_numbered(bytes, rest),
        _ => add_bytes(bytes, text),
    }
}

/// Adds the characters of a text, in which `\0` is a byte 0, and behind whose `*` it is said how often the last one
/// before it stands there; whether that is a number.
pub fn add_text(bytes: &mut Vec<u8>, text: &str) -> Result<bool, Bad> {
    let Some((front, times)) = text.split_once('*') else {
        add_characters(bytes, text)?;
        return Ok(true);
    };
    let Some(times) = number(times) else {
        return Ok(false);
    };
    add_characters(bytes, front)?;
    let Some(last) = bytes.last().copied() else {
        return Ok(false);
    };
    for _ in 1..times {
        bytes.push(last)?;
    }
    Ok(true)
}

fn add_characters(bytes: &mut Vec<u8>, text: &str) -> Result<(), Bad> {
    for (at, piece) in text.split("\\0").enumerate() {
        if at > 0 {
            bytes.push(0)?;
        }
        bytes.extend_from_slice(piece.as_bytes())?;
    }
    Ok(())
}

/// Tells bytes as pairs of hexadecimal digits.
fn tell_pairs(came: &mut String, bytes: &[u8]) -> Result<(), Bad> {
    if bytes.is_empty() {
        came.push_str("none")?;
    }
    for (at, byte) in bytes.iter().enumerate() {
        if at > 0 {
            came.push_str(" ")?;
        }
        write!(came, "{byte:02x}")?;
    }
    Ok(())
}

/// How many bytes at the front count up from the first one.
fn numbered_front(bytes: &[u8], first: u8) -> usize {
    let mut expected = first;
    for (at, byte) in bytes.iter().enumerate() {
        if *byte != expected {
            return at;
        }
        expected = expected.wrapping_add(1) % 100;
    }
    bytes.len()
}

/// Tells bytes of which there are many: as one that stands there so often, or as others.
fn tell_fill(came: &mut String, bytes: &[u8], first: u8) -> Result<(), Bad> {
    let count = bytes.len();
    if bytes.iter().all(|byte| *byte == first) {
        write!(came, "fill {count} {first:02x}")?;
    } else {
        write!(came, "{count} others")?;
    }
    Ok(())
}

/// Tells many bytes: those at the front that count up, and those behind them.
fn tell_many(came: &mut String, bytes: &[u8], first: u8) -> Result<(), Bad> {
    let (front, rest) = bytes.split_at(numbered_front(bytes, first).min(bytes.len()));
    if front.len() == 1 && rest.iter().all(|byte| *byte == first) {
        return tell_fill(came, bytes, first);
    }
    write!(came, "numbered {} from {first}", front.len())?;
    let Some(behind) = rest.first() else {
        return Ok(());
    };
    came.push_str(", ")?;
    tell_fill(came, rest, *behind)
}

/// Tells bytes.
pub fn tell_bytes(came: &mut String, bytes: &[u8]) -> Result<(), Bad> {
    match bytes.first() {
        Some(first) if bytes.len() > FEW => tell_many(came, bytes, *first),
        _ => tell_pairs(came, bytes),
    }
}
