//! The mounts of a view of files.
//!
//! - `mounts at PLACE..` makes the block's mounts, in order: `/`, or a name in it, just one of them `/`;
//! - `mounts cross MOUNT NAME`: the mount whose root a walk comes to by that name in the root of a mount, or `none`;
//! - `mounts up MOUNT`: the mount to whose root `..` leads from the root of a mount.

ghost use Rattle.std.specs.Prelude.{◌≡◌, length, filter, is_none};

use crate::notation::{small, tell_number};
use mount_tree::MountTree;
use read_cases::{Bad, parted};
use sn_text::{Name, NameFault, name_of};
use std::alloc::Global;

/// The mounts of a block.
#[derive(Drop)]
pub struct MountsOfBlock {
    tree: MountTree,
}

/// How many of these places are `/`.
fn count_roots(places: &[Option<Name>]) -> usize
    ensures { result ≡ length (filter is_none places.now) }
{
    places.iter().filter(|place| place.is_none()).count()
}

/// The places of a case; whether each is one.
fn push_places(alloc: Global, places: &mut Vec<Option<Name>>, words: &str) -> Result<bool, Bad> {
    for word in words.split(' ') {
        if word == "/" {
            places.push(None)?;
            continue;
        }
        match name_of(alloc, word.as_bytes()) {
            Ok(name) => places.push(Some(name))?,
            Err(NameFault::Memory) => return Err(Bad::Memory),
            Err(_) => return Ok(false),
        }
    }
    Ok(true)
}

/// The mounts at these places, where just one is `/`.
fn tree_of(places: Vec<Option<Name>>) -> Option<MountTree> {
    if count_roots(places.as_slice()) == 1 && places.len() <= u32::MAX as usize {
        Some(MountTree::new(places))
    } else {
        None
    }
}

/// The mount at `/` alone.
fn root_alone(alloc: Global) -> Result<MountTree, Bad> {
    let mut places = Vec::new(alloc);
    places.push(None)?;
    tree_of(places).ok_or(Bad::Setup)
}

impl MountsOfBlock {
    /// The mount at `/` alone.
    pub fn new(alloc: Global) -> Result<MountsOfBlock, Bad> {
        Ok(MountsOfBlock {
            tree: root_alone(alloc)?,
        })
    }

    fn put(&mut self, alloc: Global, words: &str) -> Result<bool, Bad> {
        let mut places = Vec::new(alloc);
        if !push_places(alloc, &mut places, words)? {
            return Ok(false);
        }
        match tree_of(places) {
            Some(tree) => self.tree = tree,
            None => return Ok(false),
        }
        Ok(true)
    }

    fn cross(&self, alloc: Global, words: &str, came: &mut String) -> Result<bool, Bad> {
        let (mount, name) = parted(words);
        let Some(mount) = small(mount) else {
            return Ok(false);
        };
        match name_of(alloc, name.as_bytes()) {
            Ok(name) => tell_number(came, self.tree.cross(mount, &name).map(u64::from))?,
            Err(NameFault::Memory) => return Err(Bad::Memory),
            Err(_) => return Ok(false),
        }
        Ok(true)
    }

    fn up(&self, word: &str, came: &mut String) -> Result<bool, Bad> {
        let Some(mount) = small(word) else {
            return Ok(false);
        };
        write!(came, "{}", self.tree.up(mount))?;
        Ok(true)
    }

    /// Does a case on the mounts; whether it is one.
    pub fn do_case(&mut self, alloc: Global, case: &str, came: &mut String) -> Result<bool, Bad> {
        let (verb, rest) = parted(case);
        match verb {
            "at" => self.put(alloc, rest),
            "cross" => self.cross(alloc, rest, came),
            "up" => self.up(rest, came),
            _ => Ok(false),
        }
    }
}
