//! Words and numbers of cases.

use crate::bad::Bad;

/// A number in decimal, or in hexadecimal behind `0x`.
pub fn number(text: &str) -> Option<u64> {
    match text.strip_prefix("0x") {
        Some(digits) => u64::from_str_radix(digits, 16).ok(),
        None => u64::from_str_radix(text, 10).ok(),
    }
}

/// The first word of a text, and what stands behind the space.
pub fn parted(text: &str) -> (&str, &str) {
    match text.split_once(' ') {
        Some(parts) => parts,
        None => (text, ""),
    }
}

/// Adds bytes of two hexadecimal digits each, between single spaces; whether each is one.
pub fn add_bytes(bytes: &mut Vec<u8>, text: &str) -> Result<bool, Bad> {
    if text.is_empty() {
        return Ok(true);
    }
    for word in text.split(' ') {
        match u8::from_str_radix(word, 16) {
            Ok(byte) => bytes.push(byte)?,
            Err(_) => return Ok(false),
        }
    }
    Ok(true)
}
