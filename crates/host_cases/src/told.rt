//! What calls answered, as text.

use host_node::{Attr, HostErr, Kind, Listing};
use read_cases::Bad;

fn kind_word(kind: Kind) -> &'static str {
    match kind {
        Kind::Dir => "dir",
        Kind::File => "file",
        Kind::Link => "link",
    }
}

/// `dir`, `file` or `link`.
pub fn tell_kind(came: &mut String, kind: Kind) -> Result<(), Bad> {
    came.push_str(kind_word(kind))?;
    Ok(())
}

/// The kind, the permission bits in octal, and the size.
pub fn tell_attr(came: &mut String, attr: &Attr) -> Result<(), Bad> {
    let kind = kind_word(attr.kind);
    let mode = attr.mode;
    let size = attr.size;
    write!(came, "{kind} {mode:o} {size}")?;
    Ok(())
}

/// `failed`, or `memory` where there was none.
pub fn tell_refusal(came: &mut String, refusal: HostErr) -> Result<(), Bad> {
    came.push_str(match refusal {
        HostErr::Failed => "failed",
        HostErr::Memory => "memory",
    })?;
    Ok(())
}

/// Bytes: those that print as they are, but for the backslash and a space, and the others as `\xNN`.
pub fn tell_bytes(came: &mut String, bytes: &[u8]) -> Result<(), Bad> {
    for byte in bytes {
        match *byte {
            33..=91 | 93..=126 => came.push(char::from(*byte))?,
            _ => write!(came, "\\x{byte:02x}")?,
        }
    }
    Ok(())
}

/// The same behind a space, where there are any.
pub fn tell_content(came: &mut String, bytes: &[u8]) -> Result<(), Bad> {
    if bytes.is_empty() {
        return Ok(());
    }
    came.push(' ')?;
    tell_bytes(came, bytes)
}

/// The entries, a name behind its kind, each but the first behind a comma; `nothing` where there are none.
pub fn tell_listing(came: &mut String, listing: &Listing) -> Result<(), Bad> {
    if listing.is_empty() {
        came.push_str("nothing")?;
    }
    let mut sign = "";
    for entry in listing.entries() {
        came.push_str(sign)?;
        came.push_str(kind_word(entry.kind))?;
        came.push(' ')?;
        tell_bytes(came, entry.name.as_bytes())?;
        sign = ", ";
    }
    Ok(())
}
