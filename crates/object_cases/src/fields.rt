//! Little-endian fields in the bytes of a block.
//!
//! - `put WIDTH NUMBER` adds a field of 8, 16, 32 or 64 bits;
//! - `get WIDTH PLACE`: the number in the field at a place, or `none`.

use crate::notation::count;
use read_cases::{Bad, number, parted};
use sn_base::List;
use sn_bytes::{put_u8, put_u16, put_u32, put_u64, u8_at, u16_at, u32_at, u64_at};

/// Adds a field; whether there is such a field, and it has room for the number.
fn put(bytes: &mut List<u8>, width: &str, number: u64) -> Result<bool, Bad> {
    let byte = u8::try_from(number).ok();
    let half = u16::try_from(number).ok();
    let word = u32::try_from(number).ok();
    match (width, byte, half, word) {
        ("8", Some(byte), _, _) => put_u8(bytes, byte)?,
        ("16", _, Some(half), _) => put_u16(bytes, half)?,
        ("32", _, _, Some(word)) => put_u32(bytes, word)?,
        ("64", _, _, _) => put_u64(bytes, number)?,
        _ => return Ok(false),
    }
    Ok(true)
}

/// The number in a field.
fn get(bytes: &[u8], width: &str, place: usize) -> Option<u64> {
    match width {
        "8" => u8_at(bytes, place).map(u64::from),
        "16" => u16_at(bytes, place).map(u64::from),
        "32" => u32_at(bytes, place).map(u64::from),
        _ => u64_at(bytes, place),
    }
}

fn tell_field(bytes: &[u8], width: &str, place: &str, came: &mut String) -> Result<bool, Bad> {
    let Some(place) = count(place) else {
        return Ok(false);
    };
    match get(bytes, width, place) {
        Some(number) => write!(came, "{number:#x}")?,
        None => came.push_str("none")?,
    }
    Ok(true)
}

/// Does a case; whether it is one.
pub fn do_field(
    bytes: &mut List<u8>,
    verb: &str,
    text: &str,
    came: &mut String,
) -> Result<bool, Bad> {
    let (width, value) = parted(text);
    if verb == "get" {
        return tell_field(bytes.as_slice(), width, value, came);
    }
    match number(value) {
        Some(number) => put(bytes, width, number),
        None => Ok(false),
    }
}
