//! What cases make in the machine's folder, and what stands there.

use crate::made::Made;
use crate::names::{MADE, bytes_of};
use crate::told::{tell_attr, tell_content};
use host_node::{Attr, Kind};
use read_cases::Bad;
use sn_text::Folder;
use std::alloc::Global;
use std::fs;
use std::fs::{Metadata, Permissions};
use std::os::unix::fs::{PermissionsExt, symlink};

/// The path of a folder, from where the program runs.
fn path_of(alloc: Global, folder: &Folder) -> Result<String, Bad> {
    let mut path = String::from_str(alloc, ".")?;
    for name in folder.route().names() {
        let Ok(text) = str::from_utf8(name.as_bytes()) else {
            return Err(Bad::Setup);
        };
        path.push('/')?;
        path.push_str(text)?;
    }
    Ok(path)
}

/// Removes all that cases made.
pub fn clear(rt: &HostRuntime) -> &'static str {
    match fs::remove_dir_all(rt, MADE) {
        Ok(()) => "gone",
        Err(_) => "nothing",
    }
}

/// Makes the folder of all that cases make anew.
pub fn begin(rt: &HostRuntime) -> Result<(), Bad> {
    clear(rt);
    fs::create_dir(rt, MADE)?;
    Ok(())
}

fn make_file(rt: &HostRuntime, path: &str, text: &str) -> Result<(), Bad> {
    let bytes = bytes_of(rt.alloc(), text)?;
    fs::write(rt, path, bytes.as_slice())?;
    Ok(())
}

fn make_link(rt: &HostRuntime, path: &str, text: &str) -> Result<(), Bad> {
    symlink(rt, text, path)?;
    Ok(())
}

fn set_mode(rt: &HostRuntime, path: &str, mode: u32) -> Result<(), Bad> {
    fs::set_permissions(rt, path, Permissions::from_mode(mode))?;
    Ok(())
}

fn make_at(rt: &HostRuntime, path: &str, made: Made<'_>) -> Result<(), Bad> {
    match made {
        Made::Directory(mode) => {
            fs::create_dir(rt, path)?;
            set_mode(rt, path, mode)
        }
        Made::File(mode, text) => {
            make_file(rt, path, text)?;
            set_mode(rt, path, mode)
        }
        Made::Link(text) => make_link(rt, path, text),
    }
}

/// Makes a directory, a file or a link where a folder's names lead.
pub fn make(rt: &HostRuntime, folder: &Folder, made: Made<'_>) -> Result<(), Bad> {
    let path = path_of(rt.alloc(), folder)?;
    make_at(rt, path.as_str(), made)
}

/// What a look at a file of the machine tells, with its own permission bits.
fn attr_of(metadata: &Metadata) -> Attr {
    let kind = if metadata.is_dir() {
        Kind::Dir
    } else if metadata.is_symlink() {
        Kind::Link
    } else {
        Kind::File
    };
    Attr {
        kind,
        mode: metadata.permissions().mode() & 0o777,
        size: if kind == Kind::Dir { 0 } else { metadata.len() },
    }
}

fn see_at(rt: &HostRuntime, path: &str, came: &mut String) -> Result<(), Bad> {
    let Ok(metadata) = fs::symlink_metadata(rt, path) else {
        return Ok(came.push_str("nothing")?);
    };
    let attr = attr_of(&metadata);
    tell_attr(came, &attr)?;
    if attr.kind != Kind::File {
        return Ok(());
    }
    tell_content(came, fs::read(rt, path)?.as_slice())
}

/// What stands where a folder's names lead: kind, permission bits, size, and what a file holds.
pub fn see(rt: &HostRuntime, folder: &Folder, came: &mut String) -> Result<(), Bad> {
    let path = path_of(rt.alloc(), folder)?;
    see_at(rt, path.as_str(), came)
}
