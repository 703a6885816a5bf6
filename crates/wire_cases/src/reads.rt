//! What a client reads of answers, as lines: a value by its parts, an errno, or a mismatch.

use crate::words::{end, kind, put_attr, put_bytes, put_name};
use lisafs_session::{ControlFd, ListError, Listed, Made, OpenFd, Refusal, Walked};
use lisafs_wire::FileAttr;
use read_cases::Bad;
use std::alloc::Global;

fn put_refusal(text: &mut String, refusal: Refusal) -> Result<(), Bad> {
    match refusal {
        Refusal::Errno(errno) => write!(text, "errno {errno}")?,
        Refusal::Mismatch => text.push_str("mismatch")?,
    }
    Ok(())
}

fn put_list_error(text: &mut String, e: ListError) -> Result<(), Bad> {
    match e {
        ListError::Refused(refusal) => put_refusal(text, refusal),
        ListError::Memory => Ok(text.push_str("memory")?),
    }
}

fn put_done(text: &mut String, read: Result<(), Refusal>) -> Result<(), Bad> {
    match read {
        Ok(()) => Ok(text.push_str("done")?),
        Err(refusal) => put_refusal(text, refusal),
    }
}

fn put_read(text: &mut String, read: Result<&[u8], Refusal>) -> Result<(), Bad> {
    match read {
        Ok(bytes) => put_bytes(text, bytes),
        Err(refusal) => put_refusal(text, refusal),
    }
}

fn put_stat(text: &mut String, read: Result<FileAttr, Refusal>) -> Result<(), Bad> {
    match read {
        Ok(attr) => {
            text.push_str("attr")?;
            put_attr(text, &attr)
        }
        Err(refusal) => put_refusal(text, refusal),
    }
}

fn put_made(text: &mut String, read: Result<Made, Refusal>) -> Result<(), Bad> {
    match read {
        Ok(made) => {
            write!(text, "node {}", made.node.fd.number)?;
            put_attr(text, &made.attr)
        }
        Err(refusal) => put_refusal(text, refusal),
    }
}

fn put_walked(text: &mut String, walked: &Walked) -> Result<(), Bad> {
    text.push_str(end(walked.end))?;
    for node in walked.nodes.as_slice() {
        write!(text, " {}", node.fd.number)?;
        put_attr(text, &node.attr)?;
    }
    Ok(())
}

fn put_listed(text: &mut String, part: &Listed) -> Result<(), Bad> {
    text.push_str(if part.is_last { "last" } else { "more" })?;
    for listed in part.names.as_slice() {
        write!(text, " {} ", kind(listed.kind))?;
        put_name(text, listed.name.as_bytes())?;
    }
    Ok(())
}

fn tell_mount(text: &mut String, bytes: &[u8]) -> Result<(), Bad> {
    match ControlFd::read_mount(bytes) {
        Ok(mounted) => {
            write!(
                text,
                "version {} node {}",
                mounted.version, mounted.root.fd.number
            )?;
            put_attr(text, &mounted.attr)
        }
        Err(refusal) => put_refusal(text, refusal),
    }
}

fn tell_open(text: &mut String, bytes: &[u8]) -> Result<(), Bad> {
    match ControlFd::read_open(bytes) {
        Ok(opened) => Ok(write!(text, "opened {}", opened.fd.number)?),
        Err(refusal) => put_refusal(text, refusal),
    }
}

fn tell_create(text: &mut String, bytes: &[u8]) -> Result<(), Bad> {
    match ControlFd::read_create(bytes) {
        Ok(made) => {
            write!(
                text,
                "node {} opened {}",
                made.node.fd.number, made.opened.fd.number
            )?;
            put_attr(text, &made.attr)
        }
        Err(refusal) => put_refusal(text, refusal),
    }
}

fn tell_pwrite(text: &mut String, size: u32, bytes: &[u8]) -> Result<(), Bad> {
    match OpenFd::read_pwrite(size, bytes) {
        Ok(count) => Ok(write!(text, "count {count}")?),
        Err(refusal) => put_refusal(text, refusal),
    }
}

fn tell_walk(alloc: Global, text: &mut String, asked: usize, bytes: &[u8]) -> Result<(), Bad> {
    match ControlFd::read_walk(alloc, asked, bytes) {
        Ok(walked) => put_walked(text, &walked),
        Err(e) => put_list_error(text, e),
    }
}

fn tell_list(alloc: Global, text: &mut String, bytes: &[u8]) -> Result<(), Bad> {
    match OpenFd::read_list(alloc, bytes) {
        Ok(part) => put_listed(text, &part),
        Err(e) => put_list_error(text, e),
    }
}

/// What is read of the bytes as the answer to an operation, which asked for so much.
#[rattlefmt::skip]
pub fn tell_read(alloc: Global, text: &mut String, operation: &str, asked: u32, bytes: &[u8]) -> Result<(), Bad> {
    match operation {
        "mount" => tell_mount(text, bytes),
        "stat" => put_stat(text, ControlFd::read_stat(bytes)),
        "set_size" => put_done(text, OpenFd::read_set_size(bytes)),
        "walk" => tell_walk(alloc, text, asked as usize, bytes),
        "open" => tell_open(text, bytes),
        "create" => tell_create(text, bytes),
        "close" => put_done(text, ControlFd::read_close(bytes)),
        "close_opened" => put_done(text, OpenFd::read_close(bytes)),
        "pread" => put_read(text, OpenFd::read_pread(asked, bytes)),
        "pwrite" => tell_pwrite(text, asked, bytes),
        "make_dir" => put_made(text, ControlFd::read_make_dir(bytes)),
        "make_link" => put_made(text, ControlFd::read_make_link(bytes)),
        "link_text" => put_read(text, ControlFd::read_link_text(bytes)),
        "unlink" => put_done(text, ControlFd::read_unlink(bytes)),
        "rename" => put_done(text, ControlFd::read_rename(bytes)),
        "list" => tell_list(alloc, text, bytes),
        _ => Ok(text.push_str("unread")?),
    }
}
