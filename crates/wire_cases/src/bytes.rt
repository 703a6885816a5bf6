//! Bytes in words of hexadecimal digits, and by names.

use crate::worked::worked;
use read_cases::{Bad, number};

/// Adds the bytes of pairs of digits; whether each is one.
fn add_pairs(bytes: &mut Vec<u8>, word: &str) -> Result<bool, Bad> {
    let mut rest = word;
    for _ in 0..word.len() {
        let Some((pair, more)) = rest.split_at_checked(2) else {
            break;
        };
        match u8::from_str_radix(pair, 16) {
            Ok(byte) => bytes.push(byte)?,
            Err(_) => return Ok(false),
        }
        rest = more;
    }
    Ok(rest.is_empty())
}

/// Adds a byte so many times; whether both are numbers.
fn add_run(bytes: &mut Vec<u8>, byte: &str, count: &str) -> Result<bool, Bad> {
    let (Ok(byte), Some(count)) = (u8::from_str_radix(byte, 16), number(count)) else {
        return Ok(false);
    };
    for _ in 0..count {
        bytes.push(byte)?;
    }
    Ok(true)
}

/// Adds the bytes of a word of pairs, or those that have its name; whether it is one.
fn add_word(bytes: &mut Vec<u8>, word: &str) -> Result<bool, Bad> {
    match worked(word) {
        Some(named) => {
            bytes.extend_from_slice(named)?;
            Ok(true)
        }
        None => add_pairs(bytes, word),
    }
}

/// Adds the bytes of words between single spaces; whether each is such a word.
pub fn add_all(bytes: &mut Vec<u8>, text: &str) -> Result<bool, Bad> {
    for word in text.split(' ') {
        let is_one = match word.split_once('*') {
            Some((byte, count)) => add_run(bytes, byte, count)?,
            None => add_word(bytes, word)?,
        };
        if !is_one {
            return Ok(false);
        }
    }
    Ok(true)
}
