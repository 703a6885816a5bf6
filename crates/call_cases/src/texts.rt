//! What came, as text.

use fd_table::Descriptor;
use read_cases::Bad;
use sn_base::Made;

/// The name of an error, of those that calls reply.
fn error_name(reply: i64) -> Option<&'static str> {
    match reply {
        -5 => Some("EIO"),
        -9 => Some("EBADF"),
        -10 => Some("ECHILD"),
        -11 => Some("EAGAIN"),
        -12 => Some("ENOMEM"),
        -14 => Some("EFAULT"),
        -19 => Some("ENODEV"),
        -22 => Some("EINVAL"),
        -24 => Some("EMFILE"),
        -25 => Some("ENOTTY"),
        -28 => Some("ENOSPC"),
        -29 => Some("ESPIPE"),
        -32 => Some("EPIPE"),
        -38 => Some("ENOSYS"),
        _ => None,
    }
}

/// A number: in decimal, or from 65,536 on in hexadecimal.
pub fn tell_number(came: &mut String, value: u64) -> Result<(), Bad> {
    if value < 65_536 {
        write!(came, "{value}")?;
    } else {
        write!(came, "0x{value:x}")?;
    }
    Ok(())
}

/// A reply: a number, or an error's name.
pub fn tell_reply(came: &mut String, reply: i64) -> Result<(), Bad> {
    if let Some(name) = error_name(reply) {
        came.push_str(name)?;
        return Ok(());
    }
    match u64::try_from(reply) {
        Ok(value) => tell_number(came, value),
        Err(_) => {
            write!(came, "{reply}")?;
            Ok(())
        }
    }
}

/// So many bytes that are the same, behind a space where something is before them.
fn tell_alike(came: &mut String, byte: u8, count: u64) -> Result<(), Bad> {
    if count >= 8 {
        let space = if came.is_empty() { "" } else { " " };
        write!(came, "{space}{byte:02x}*{count}")?;
        return Ok(());
    }
    for _ in 0..count {
        let space = if came.is_empty() { "" } else { " " };
        write!(came, "{space}{byte:02x}")?;
    }
    Ok(())
}

/// Bytes in hexadecimal, with spaces between them; `HH*N` stands for eight and more of the same.
pub fn tell_bytes(came: &mut String, bytes: &[u8]) -> Result<(), Bad> {
    let mut last = 0;
    let mut count = 0_u64;
    for byte in bytes {
        if *byte != last {
            tell_alike(came, last, count)?;
            last = *byte;
            count = 0;
        }
        count = count.wrapping_add(1);
    }
    tell_alike(came, last, count)?;
    if bytes.is_empty() {
        came.push_str("none")?;
    }
    Ok(())
}

/// A truth.
pub fn tell_truth(came: &mut String, is_so: bool) -> Result<(), Bad> {
    came.push_str(if is_so { "true" } else { "false" })?;
    Ok(())
}

/// A name: its place and its index.
pub fn tell_name(came: &mut String, name: Made) -> Result<(), Bad> {
    write!(came, "{}.{}", name.place, name.index)?;
    Ok(())
}

/// What a number of a table stands for.
pub fn tell_descriptor(came: &mut String, descriptor: Descriptor) -> Result<(), Bad> {
    tell_name(came, descriptor.description)?;
    if descriptor.cloexec {
        came.push_str(" cloexec")?;
    }
    Ok(())
}
