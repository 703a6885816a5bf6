//! Parts of messages as words.

use lisafs_wire::{Access, FileAttr, FileKind, Removal, WalkEnd};
use read_cases::Bad;

/// A name by its letters, and each other byte as `\xNN`.
pub fn put_name(text: &mut String, name: &[u8]) -> Result<(), Bad> {
    for byte in name {
        match *byte {
            33..=43 | 45..=91 | 94..=126 => text.push(char::from(*byte))?,
            other => write!(text, "\\x{other:02x}")?,
        }
    }
    Ok(())
}

/// How many bytes there are, and the first sixteen of them.
pub fn put_bytes(text: &mut String, bytes: &[u8]) -> Result<(), Bad> {
    write!(text, "{}:", bytes.len())?;
    for byte in bytes.iter().take(16) {
        write!(text, "{byte:02x}")?;
    }
    Ok(())
}

pub fn kind(kind: FileKind) -> &'static str {
    match kind {
        FileKind::Directory => "directory",
        FileKind::File => "file",
        FileKind::Link => "link",
    }
}

pub fn access(access: Access) -> &'static str {
    match access {
        Access::Read => "read",
        Access::Write => "write",
        Access::ReadWrite => "both",
    }
}

pub fn removal(removal: Removal) -> &'static str {
    match removal {
        Removal::NoDirectory => "other",
        Removal::OnlyDirectory => "directory",
    }
}

pub fn end(end: WalkEnd) -> &'static str {
    match end {
        WalkEnd::All => "all",
        WalkEnd::Missing => "missing",
        WalkEnd::Link => "link",
    }
}

/// A kind, permission bits in octal, and a size.
pub fn put_attr(text: &mut String, attr: &FileAttr) -> Result<(), Bad> {
    write!(text, " {} {:o} {}", kind(attr.kind), attr.mode, attr.size)?;
    Ok(())
}
