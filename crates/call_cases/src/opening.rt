//! The opening of a guest: its mounts, its trees, and the record of what the opening drew and met.

use crate::instructions::CODE;
use crate::setup::{Setup, Stands};
use host_node::Tree;
use kernel_model::Opening;
use mount_file::{MOST_TASKS, Mount, Mounts};
use plain_kernel::{OpeningErr, Plain};
use read_cases::Bad;
use sn_base::{List, Memory};
use sn_text::{Folder, Name, Route, Text, name_of};
use sn_vectors::image_of;
use std::alloc::Global;
use std::mem;

fn named(alloc: Global, text: &[u8]) -> Result<Name, Bad> {
    name_of(alloc, text).map_err(|_| Bad::Setup)
}

/// A mount of the folder `srv`, at a name or at `/`.
fn mount_at(alloc: Global, at: &[u8]) -> Result<Mount, Bad> {
    let mut route = Route::new(alloc);
    route.push(named(alloc, b"srv")?)?;
    let at = if at == b"/".as_slice() {
        None
    } else {
        Some(named(alloc, at)?)
    };
    Ok(Mount {
        at,
        folder: Folder::new(false, route),
        write: false,
    })
}

/// The mounts that a setup names, or the one at `/`.
fn mounts_of(alloc: Global, names: &[u8]) -> Result<List<Mount>, Bad> {
    let mut mounts = List::new(alloc);
    if names.is_empty() {
        mounts.push(mount_at(alloc, b"/")?)?;
        return Ok(mounts);
    }
    for name in names.split(|byte| *byte == b' ') {
        mounts.push(mount_at(alloc, name)?)?;
    }
    Ok(mounts)
}

/// The bytes of the guest's file.
fn bytes_of(alloc: Global, setup: &Setup) -> Result<List<u8>, Bad> {
    if setup.stands == Stands::Empty {
        return Ok(List::new(alloc));
    }
    if !setup.file.is_empty() {
        return Ok(List::from_slice(alloc, setup.file.as_slice())?);
    }
    let image = if setup.words.is_empty() {
        image_of(alloc, &CODE)?
    } else {
        image_of(alloc, setup.words.as_slice())?
    };
    Ok(List::from_vec(image))
}

/// The node `init`.
fn init_of(alloc: Global, setup: &Setup) -> Result<Tree, Bad> {
    match setup.stands {
        Stands::Link => Ok(Tree::link(Text::from_slice(alloc, b"exit")?)),
        Stands::Shut => Ok(Tree::file(0o644, bytes_of(alloc, setup)?)),
        _ => Ok(Tree::file(0o755, bytes_of(alloc, setup)?)),
    }
}

/// A root, with the guest under `init` where it is that of `/`.
fn root_of(alloc: Global, setup: &Setup, is_root: bool) -> Result<Tree, Bad> {
    let mut root = Tree::directory(alloc, 0o755);
    if is_root && setup.stands != Stands::Nothing {
        root.put(named(alloc, b"init")?, init_of(alloc, setup)?)
            .map_err(|_| Bad::Setup)?;
    }
    Ok(root)
}

fn trees_of(alloc: Global, setup: &Setup, mounts: &[Mount]) -> Result<List<Tree>, Bad> {
    let mut trees = List::new(alloc);
    for mount in mounts {
        trees.push(root_of(alloc, setup, mount.at.is_none())?)?;
    }
    Ok(trees)
}

/// So many roots, by their numbers from 1 on.
fn roots_of(alloc: Global, count: u64) -> Result<List<u64>, Memory> {
    let mut roots = List::new(alloc);
    for number in 0..count {
        roots.push(number.wrapping_add(1))?;
    }
    Ok(roots)
}

/// The opening itself. What comes out says nothing of how it came to be.
fn open_at(
    alloc: Global,
    mounts: &Mounts,
    trees: &List<Tree>,
    record: &Opening,
) -> Result<Result<Plain, OpeningErr>, Bad> {
    if mounts.tasks.len() > MOST_TASKS {
        return Err(Bad::Setup);
    }
    Ok(Plain::opening(alloc, mounts, trees, record))
}

/// The mount file of a setup, which gives its tasks up.
fn mount_file_of(alloc: Global, setup: &mut Setup) -> Result<Mounts, Bad> {
    let programs = mem::replace(&mut setup.programs, List::new(alloc));
    Ok(Mounts {
        entries: 100,
        seed: List::from_slice(alloc, setup.seed.as_slice())?,
        mounts: mounts_of(alloc, setup.mounts.as_slice())?,
        tasks: programs,
    })
}

/// The record of its opening.
fn record_of(alloc: Global, setup: &mut Setup) -> Result<Opening, Bad> {
    let mounts = mounts_of(alloc, setup.mounts.as_slice())?;
    let count = setup.roots.unwrap_or(mounts.len() as u64);
    let opened = mem::replace(&mut setup.opened, List::new(alloc));
    Ok(Opening {
        mounts,
        roots: roots_of(alloc, count)?,
        tasks: opened,
    })
}

/// Opens a guest.
pub fn open(alloc: Global, setup: &mut Setup) -> Result<Result<Plain, OpeningErr>, Bad> {
    if setup.programs.is_empty() {
        let _ = setup.add_one(alloc, "/init")?;
        let _ = setup.set(alloc, "draws", "1 init 2")?;
    }
    let mounts = mount_file_of(alloc, setup)?;
    let trees = trees_of(alloc, setup, mounts.mounts.as_slice())?;
    let record = record_of(alloc, setup)?;
    open_at(alloc, &mounts, &trees, &record)
}
