//! Messages as lines: the name of each, and what its fields have, in their order.

use crate::words::{access, end, kind, put_attr, put_bytes, put_name, removal};
use lisafs_wire::{
    Answer, DecodeError, FileAttr, ListedName, PlainAnswer, Request, WalkedNode, WireFault,
};
use read_cases::Bad;
use sn_text::Name;

/// A fault by its name.
pub fn fault(kind: WireFault) -> &'static str {
    match kind {
        WireFault::Short => "Short",
        WireFault::Length => "Length",
        WireFault::Unknown => "Unknown",
        WireFault::Field => "Field",
        WireFault::Trailing => "Trailing",
    }
}

/// Why a message wasn't read, by its name.
pub fn error(error: DecodeError) -> &'static str {
    match error {
        DecodeError::Fault(kind) => fault(kind),
        DecodeError::Memory => "Memory",
    }
}

/// A word, a number, and a name.
fn named(text: &mut String, front: &str, name: &Name) -> Result<(), Bad> {
    write!(text, "{front} ")?;
    put_name(text, name.as_bytes())
}

fn put_names(text: &mut String, names: &[Name]) -> Result<(), Bad> {
    for name in names {
        text.push(' ')?;
        put_name(text, name.as_bytes())?;
    }
    Ok(())
}

fn with_bytes(text: &mut String, bytes: &[u8]) -> Result<(), Bad> {
    text.push(' ')?;
    put_bytes(text, bytes)
}

fn with_name(text: &mut String, name: &Name) -> Result<(), Bad> {
    named(text, "", name)
}

/// A request whose fields are numbers.
fn put_numbers(text: &mut String, request: &Request<'_>) -> Result<(), Bad> {
    match request {
        Request::Mount { version } => write!(text, "Mount {version}")?,
        Request::FStat { fd } => write!(text, "FStat {}", fd.number)?,
        Request::SetStat { fd, size } => write!(text, "SetStat {} {size}", fd.number)?,
        Request::OpenAt { fd, access: way } => {
            write!(text, "OpenAt {} {}", fd.number, access(*way))?
        }
        Request::Close { fd } => write!(text, "Close {}", fd.number)?,
        Request::PRead { fd, offset, count } => {
            write!(text, "PRead {} {offset} {count}", fd.number)?
        }
        Request::ReadLinkAt { fd } => write!(text, "ReadLinkAt {}", fd.number)?,
        Request::Getdents64 { fd, start } => write!(text, "Getdents64 {} {start}", fd.number)?,
        _ => (),
    }
    Ok(())
}

/// A request.
pub fn put_request(text: &mut String, request: &Request<'_>) -> Result<(), Bad> {
    match request {
        Request::Walk { fd, names } => {
            write!(text, "Walk {}", fd.number)?;
            put_names(text, names.as_slice())
        }
        Request::OpenCreateAt {
            fd,
            mode,
            access: way,
            name,
        } => {
            write!(text, "OpenCreateAt {} {mode:o} {}", fd.number, access(*way))?;
            with_name(text, name)
        }
        Request::PWrite { fd, offset, bytes } => {
            write!(text, "PWrite {} {offset}", fd.number)?;
            with_bytes(text, bytes)
        }
        Request::MkdirAt { fd, mode, name } => {
            write!(text, "MkdirAt {} {mode:o}", fd.number)?;
            with_name(text, name)
        }
        Request::SymlinkAt {
            fd,
            name,
            text: target,
        } => {
            write!(text, "SymlinkAt {}", fd.number)?;
            with_name(text, name)?;
            with_bytes(text, target)
        }
        Request::UnlinkAt {
            fd,
            victim,
            removal: what,
            name,
        } => {
            write!(
                text,
                "UnlinkAt {} {} {}",
                fd.number,
                victim.number,
                removal(*what)
            )?;
            with_name(text, name)
        }
        Request::RenameAt {
            fd,
            directory,
            victim,
            old,
            new,
        } => {
            write!(
                text,
                "RenameAt {} {} {}",
                fd.number, directory.number, victim.number
            )?;
            with_name(text, old)?;
            with_name(text, new)
        }
        others => put_numbers(text, others),
    }
}

fn put_nodes(text: &mut String, nodes: &[WalkedNode]) -> Result<(), Bad> {
    for node in nodes {
        write!(text, " {}", node.fd.number)?;
        put_attr(text, &node.attr)?;
    }
    Ok(())
}

fn put_listed(text: &mut String, names: &[ListedName]) -> Result<(), Bad> {
    for listed in names {
        write!(text, " {}", kind(listed.kind))?;
        with_name(text, &listed.name)?;
    }
    Ok(())
}

/// A node that was made.
fn put_made(text: &mut String, name: &str, fd: u64, attr: &FileAttr) -> Result<(), Bad> {
    write!(text, "{name} {fd}")?;
    put_attr(text, attr)
}

/// An answer with no field, or with a number alone.
fn put_short(text: &mut String, answer: &PlainAnswer<'_>) -> Result<(), Bad> {
    match answer {
        PlainAnswer::Error { errno } => write!(text, "Error {errno}")?,
        PlainAnswer::SetStat => write!(text, "SetStat")?,
        PlainAnswer::OpenAt { fd } => write!(text, "OpenAt {}", fd.number)?,
        PlainAnswer::Close => write!(text, "Close")?,
        PlainAnswer::PWrite { count } => write!(text, "PWrite {count}")?,
        PlainAnswer::UnlinkAt => write!(text, "UnlinkAt")?,
        PlainAnswer::RenameAt => write!(text, "RenameAt")?,
        _ => (),
    }
    Ok(())
}

/// An answer without lists.
pub fn put_plain_answer(text: &mut String, answer: &PlainAnswer<'_>) -> Result<(), Bad> {
    match answer {
        PlainAnswer::Mount { version, fd, attr } => {
            write!(text, "Mount {version} {}", fd.number)?;
            put_attr(text, attr)
        }
        PlainAnswer::FStat { attr } => {
            write!(text, "FStat")?;
            put_attr(text, attr)
        }
        PlainAnswer::OpenCreateAt { fd, opened, attr } => {
            write!(text, "OpenCreateAt {} {}", fd.number, opened.number)?;
            put_attr(text, attr)
        }
        PlainAnswer::PRead { bytes } => {
            write!(text, "PRead")?;
            with_bytes(text, bytes)
        }
        PlainAnswer::MkdirAt { fd, attr } => put_made(text, "MkdirAt", fd.number, attr),
        PlainAnswer::SymlinkAt { fd, attr } => put_made(text, "SymlinkAt", fd.number, attr),
        PlainAnswer::ReadLinkAt { text: target } => {
            write!(text, "ReadLinkAt")?;
            with_bytes(text, target)
        }
        others => put_short(text, others),
    }
}

/// An answer.
pub fn put_answer(text: &mut String, answer: &Answer<'_>) -> Result<(), Bad> {
    match answer {
        Answer::Plain(answer) => put_plain_answer(text, answer),
        Answer::Walk { end: how, nodes } => {
            write!(text, "Walk {}", end(*how))?;
            put_nodes(text, nodes.as_slice())
        }
        Answer::Getdents64 { is_last, names } => {
            write!(text, "Getdents64 {is_last}")?;
            put_listed(text, names.as_slice())
        }
    }
}
