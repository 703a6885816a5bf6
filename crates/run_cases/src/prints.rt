//! Bytes as text.

use std::alloc::AllocError;

/// A space behind what stands there, if anything does.
pub fn separate(text: &mut String) -> Result<(), AllocError> {
    if text.is_empty() {
        return Ok(());
    }
    text.push(' ')
}

/// Bytes: those that print as they are, but for the backslash, a newline as `\n`, and the others as `\xNN`.
pub fn print_bytes(text: &mut String, bytes: &[u8]) -> Result<(), AllocError> {
    for byte in bytes {
        match *byte {
            32..=91 | 93..=126 => text.push(char::from(*byte))?,
            b'\n' => text.push_str("\\n")?,
            _ => write!(text, "\\x{byte:02x}")?,
        }
    }
    Ok(())
}

/// The line of bytes from a place on, behind a space, and the place behind it; a backslash ends one that no newline
/// ends.
pub fn print_line(text: &mut String, bytes: &[u8], place: usize) -> Result<usize, AllocError> {
    let Some(rest) = bytes.get(place..) else {
        text.push_str("none")?;
        return Ok(place);
    };
    text.push_str(" ")?;
    match rest.iter().position(|byte| *byte == b'\n') {
        Some(length) if length <= rest.len() => {
            print_bytes(text, &rest[..length])?;
            Ok(place.saturating_add(length).saturating_add(1))
        }
        _ => {
            print_bytes(text, rest)?;
            text.push_str("\\")?;
            Ok(bytes.len())
        }
    }
}
