//! The mounts of one view of files: which file system a walk enters at a mount point, and which it comes back to.
//!
//! A caller sees a `MountTree` as the list of the mount points in the order of the mounts: `None` is the directory `/`,
//! and a name is that name in `/`. Mounts count from 1 in that order. They are made once, and never change.
//!
//! Proved, of any mount points of which just one is `/`: `cross` answers the mount whose root a walk comes to by a name
//! in the root of a mount, where that name is a mount point (`crossed`), and `up` the one to whose root `..` leads from
//! the root of a mount, which is the mount at `/` from each, and from itself (`above`). Where two lie at one name, the
//! first counts. `new` has just the places that it is given (`places`). None of them takes memory.
//!
//! Not said: that a name of a mount point is there in `/` otherwise, and what the mounted file systems hold. A mount
//! has no number but that of its place in the list; a number that no mount has is crossed to nothing (`crossed`).
//!
//! Standard: mount(2) and path_resolution(7) of Linux. That mounts lie in `/` alone is a choice of this project.
//! No locks.
#![tactic(auto)]

mod mounts;

pub use mounts::MountTree;
