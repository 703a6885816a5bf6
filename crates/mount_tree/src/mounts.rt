//! Mounts by their numbers.

ghost use Rattle.std.specs.Prelude.{◌≡◌, ◌<◌, ◌+◌, ◌^◌, Some, length, is_none, position};
ghost use Rattle.std.specs.Option.{IfSome};
ghost use Rattle.mount_tree.specs.Mounts.{HasOneRoot, above, crossed, is_at_name, root_mount};

use sn_text::{Name, is_same_name};
use std::marker::Model;

/// Mounts, each at `/` or at a name in it, just one of them at `/`. Contracts see the list of these places, in the
/// order of the mounts, which count from 1.
#[derive(Drop)]
pub struct MountTree {
    places: Vec<Option<Name>>,
    root: u32,
}

impl Model for MountTree {
    ghost use Rattle.std.specs.Prelude.{◌≡◌, ◌<◌, ◌^◌, Some, length};
    ghost use Rattle.mount_tree.specs.Mounts.{HasOneRoot, Places, root_mount};

    ghost Value = { Places };

    ghost view = { λ a. a.places.items };

    ghost invariant = { λ a. (root_mount a.places.items ≡ Some a.root) × (length a.places.items < 2 ^ 32) };
}

impl MountTree {
    /// The mounts at these places, of which `None` is `/`. It takes no memory.
    #[tactic(auto, using(crate::proofs::Roots::has_root))]
    pub fn new(places: Vec<Option<Name>>) -> MountTree
        requires one_root { HasOneRoot places.items }
        requires fits { length places.items < 2 ^ 32 }
        ensures places { result ≡ places.items }
    {
        let root = number_of(root_place(&places).unwrap_or(0));
        MountTree { places, root }
    }

    /// The mount whose root a walk comes to by a name in the root directory of a mount, where that is a mount point.
    ///
    /// path_resolution(7), mount points.
    pub fn cross(&self, mount: u32, name: &Name) -> Option<u32>
        ensures { result ≡ crossed self.now mount name.now }
    {
        if mount != self.root {
            return None;
        }
        match place_named(&self.places, name) {
            Some(place) => Some(number_of(place)),
            None => None,
        }
    }

    /// The mount to whose root `..` leads from the root directory of a mount: that at `/`, also from there.
    ///
    /// path_resolution(7): the parent of the root directory is the root directory.
    pub fn up(&self, _mount: u32) -> u32
        ensures { above self.now _mount ≡ Some result }
    {
        self.root
    }
}

/// The place of the first mount at `/`.
fn root_place(places: &[Option<Name>]) -> Option<usize>
    ensures { result ≡ position is_none places.now }
{
    places.iter().position(|place| place.is_none())
}

/// The place of the first mount at a name in `/`.
fn place_named(places: &[Option<Name>], name: &Name) -> Option<usize>
    ensures { result ≡ position (is_at_name name.now) places.now }
{
    places.iter().position(|place| is_at_name(place, name))
}

/// Whether a mount lies at a name in `/`.
fn is_at_name(place: &Option<Name>, name: &Name) -> bool
    ensures { result ≡ is_at_name name.now place.now }
{
    match place {
        Some(other) => is_same_name(name, other),
        None => false,
    }
}

/// The number of a mount by its place.
fn number_of(place: usize) -> u32
    requires { place + 1 < 2 ^ 32 }
    ensures { result ≡ place + 1 }
{
    place as u32 + 1
}
