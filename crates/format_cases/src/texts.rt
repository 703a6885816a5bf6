//! Texts in short: repeated ones, and those with newlines or numbers in them.

use read_cases::{Bad, number, parted};

/// Adds a text, in which `\n` is a newline.
pub fn add_text(bytes: &mut Vec<u8>, text: &str) -> Result<(), Bad> {
    for (index, line) in text.split("\\n").enumerate() {
        if index != 0 {
            bytes.push(b'\n')?;
        }
        bytes.extend_from_slice(line.as_bytes())?;
    }
    Ok(())
}

/// `N BYTE`: adds a byte of two hexadecimal digits so many times. Whether it is that.
pub fn add_filled(bytes: &mut Vec<u8>, text: &str) -> Result<bool, Bad> {
    let (count, byte) = parted(text);
    let (Some(count), Ok(byte)) = (number(count), u8::from_str_radix(byte, 16)) else {
        return Ok(false);
    };
    for _ in 0..count {
        bytes.push(byte)?;
    }
    Ok(true)
}

/// `N TEXT`: adds a text so many times. Whether it is that.
pub fn add_times(bytes: &mut Vec<u8>, text: &str) -> Result<bool, Bad> {
    let (count, text) = parted(text);
    let Some(count) = number(count) else {
        return Ok(false);
    };
    for _ in 0..count {
        add_text(bytes, text)?;
    }
    Ok(true)
}

/// Adds a text, in which a number stands in the place of each `#`.
fn add_numbered(bytes: &mut Vec<u8>, text: &str, digits: &str) -> Result<(), Bad> {
    for (index, part) in text.split('#').enumerate() {
        if index != 0 {
            bytes.extend_from_slice(digits.as_bytes())?;
        }
        add_text(bytes, part)?;
    }
    Ok(())
}

/// `FROM TO TEXT`: adds a text for each of these numbers, TO with them. Whether it is that.
pub fn add_each(bytes: &mut Vec<u8>, text: &str, digits: &mut String) -> Result<bool, Bad> {
    let (from, rest) = parted(text);
    let (to, text) = parted(rest);
    let (Some(from), Some(to)) = (number(from), number(to)) else {
        return Ok(false);
    };
    for number in from..=to {
        digits.clear();
        write!(digits, "{number}")?;
        add_numbered(bytes, text, digits.as_str())?;
    }
    Ok(true)
}
