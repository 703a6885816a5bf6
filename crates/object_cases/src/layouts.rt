//! Records of stat, dirent and iovec in the bytes of a block.
//!
//! - `stat DEV INO KIND PERMISSIONS LINKS SIZE`: the bytes become those of the record, `put_stat ..` adds them;
//! - `dirent INO NEXT KIND NAME` adds a record; `dirent_length N`: how many bytes that of a name of N bytes has;
//! - `iovec_bytes COUNT`: how many bytes so many records take; `iovecs COUNT`: how many buffers the first so many
//!   bytes have, `iovec INDEX`: one of them, `total`: their sum; `total_of LENGTH LENGTH`: that of two. Faults are
//!   `count`, `sum` and `none`.
//!
//! A kind is `directory`, `file`, `link`, `pipe` or `console`. Permissions are octal.

use crate::notation::{add_text, count, small, tell_number, two};
use crate::records::Records;
use read_cases::{Bad, number, parted};
use sn_base::List;
use sn_text::NAME_MAX;
use stat_layout::{
    Dirent, FileKind, IoVec, IoVecErr, Stat, dirent_length, iovec_bytes, iovecs, put_dirent,
    put_stat, stat_bytes, total,
};
use std::alloc::Global;

fn kind_of(text: &str) -> Option<FileKind> {
    match text {
        "directory" => Some(FileKind::Directory),
        "file" => Some(FileKind::File),
        "link" => Some(FileKind::Link),
        "pipe" => Some(FileKind::Pipe),
        "console" => Some(FileKind::Console),
        _ => None,
    }
}

fn stat_of(text: &str) -> Option<Stat> {
    let (dev, rest) = parted(text);
    let (ino, rest) = parted(rest);
    let (kind, rest) = parted(rest);
    let (permissions, rest) = parted(rest);
    let (nlink, size) = parted(rest);
    Some(Stat {
        dev: number(dev)?,
        ino: number(ino)?,
        kind: kind_of(kind)?,
        permissions: u16::from_str_radix(permissions, 8).ok()?,
        nlink: small(nlink)?,
        size: number(size)?,
    })
}

/// Puts a record of stat in the place of the bytes, or behind them.
fn do_stat(alloc: Global, records: &mut Records, text: &str, is_added: bool) -> Result<bool, Bad> {
    let Some(stat) = stat_of(text) else {
        return Ok(false);
    };
    if stat.permissions > 0o777 {
        return Ok(false);
    }
    if is_added {
        put_stat(&mut records.bytes, &stat)?;
    } else {
        records.bytes = List::from_slice(alloc, &stat_bytes(&stat))?;
    }
    Ok(true)
}

/// Adds the record of an entry, whose name is in a buffer.
fn add_dirent(bytes: &mut List<u8>, name: &[u8], text: &str) -> Result<bool, Bad> {
    let (ino, rest) = parted(text);
    let (next, rest) = parted(rest);
    let (kind, _) = parted(rest);
    let (Some(ino), Some(next), Some(kind)) = (number(ino), number(next), kind_of(kind)) else {
        return Ok(false);
    };
    if name.len() > NAME_MAX {
        return Ok(false);
    }
    let entry = Dirent {
        ino,
        next,
        kind,
        name,
    };
    put_dirent(bytes, &entry)?;
    Ok(true)
}

fn do_dirent(records: &mut Records, text: &str) -> Result<bool, Bad> {
    let Some((_, name)) = text.rsplit_once(' ') else {
        return Ok(false);
    };
    records.noted.clear();
    if !add_text(&mut records.noted, name)? {
        return Ok(false);
    }
    add_dirent(&mut records.bytes, records.noted.as_slice(), text)
}

fn do_dirent_length(text: &str, came: &mut String) -> Result<bool, Bad> {
    let Some(length) = count(text) else {
        return Ok(false);
    };
    if length > NAME_MAX {
        return Ok(false);
    }
    write!(came, "{}", dirent_length(length))?;
    Ok(true)
}

fn tell_fault(came: &mut String, fault: IoVecErr) -> Result<(), Bad> {
    came.push_str(match fault {
        IoVecErr::Count => "count",
        IoVecErr::Sum => "sum",
        IoVecErr::Memory => return Err(Bad::Memory),
    })?;
    Ok(())
}

fn do_iovec_bytes(text: &str, came: &mut String) -> Result<bool, Bad> {
    let Some(records) = number(text) else {
        return Ok(false);
    };
    match iovec_bytes(records) {
        Ok(bytes) => write!(came, "{bytes}")?,
        Err(fault) => tell_fault(came, fault)?,
    }
    Ok(true)
}

fn do_total_of(text: &str, came: &mut String) -> Result<bool, Bad> {
    let Some((first, second)) = two(text) else {
        return Ok(false);
    };
    let buffers = [first, second].map(|length| IoVec { base: 0, length });
    tell_number(came, total(&buffers))?;
    Ok(true)
}

/// Reads buffers out of the first so many bytes, and tells how many they are.
fn do_iovecs(
    alloc: Global,
    records: &mut Records,
    text: &str,
    came: &mut String,
) -> Result<bool, Bad> {
    let Some(length) = count(text) else {
        return Ok(false);
    };
    let Some(bytes) = records.bytes.as_slice().get(..length) else {
        return Ok(false);
    };
    match iovecs(alloc, bytes) {
        Ok(buffers) => {
            write!(came, "{}", buffers.len())?;
            records.buffers = buffers;
        }
        Err(fault) => tell_fault(came, fault)?,
    }
    Ok(true)
}

fn tell_buffer(buffers: &List<IoVec>, text: &str, came: &mut String) -> Result<bool, Bad> {
    let Some(index) = count(text) else {
        return Ok(false);
    };
    match buffers.get(index) {
        Some(buffer) => write!(came, "{:#x}:{}", buffer.base, buffer.length)?,
        None => came.push_str("none")?,
    }
    Ok(true)
}

/// Does a case of buffers that are read out of the bytes.
pub fn do_vector(
    alloc: Global,
    records: &mut Records,
    verb: &str,
    text: &str,
    came: &mut String,
) -> Result<bool, Bad> {
    match verb {
        "iovecs" => do_iovecs(alloc, records, text, came),
        "iovec" => tell_buffer(&records.buffers, text, came),
        _ => {
            tell_number(came, total(records.buffers.as_slice()))?;
            Ok(true)
        }
    }
}

/// Does a case of records; whether it is one.
pub fn do_layout(
    alloc: Global,
    records: &mut Records,
    verb: &str,
    text: &str,
    came: &mut String,
) -> Result<bool, Bad> {
    match verb {
        "stat" => do_stat(alloc, records, text, false),
        "put_stat" => do_stat(alloc, records, text, true),
        "dirent" => do_dirent(records, text),
        "dirent_length" => do_dirent_length(text, came),
        "iovec_bytes" => do_iovec_bytes(text, came),
        "total_of" => do_total_of(text, came),
        _ => Ok(false),
    }
}
