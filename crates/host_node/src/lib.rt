//! The traits of a host, the trusted world of files behind the gofers, and a host's tree in memory.
//!
//! A `HostWorld` grants folders. A `HostNode` is a directory, a file or a link below one, and its holder
//! owns it: what a node lends stands as lent in its parent until it is taken back, so no two holders have
//! one file. A caller sees of each object how many calls failed (`count`) and, where the object tells it,
//! the tree of files that it has (`told`, a `Shape` of specs/Tree.antt, or `None`). A `Tree` is such a tree
//! in memory, and a `Listing` the entries of a directory.
//!
//! Proved of a `Tree`: each call gives exactly the definition of its clause `value`, `ok`, `after` or `tree`;
//! a refused call leaves the tree, and the listing, as they were (`err`); modes are at most 0o777, a link's
//! text is at most 65,536 bytes, and entries are listed in the order of their names, each once (`ordered`).
//! Of the traits, each form proves: a call fails only where its object's count rose, and a count rises in no
//! other call (`faults`); a call changes no more of what is told than its clause `tells` says, on any answer.
//! The files of proofs/ have what callers need of that: a child that comes back as it was lent leaves the
//! directory as it was, and so does a folder that was granted.
//!
//! Not said: what a host that tells nothing has; times, owners, and files of other types.
//!
//! Standard: POSIX.1-2017 and Linux man-pages, inode(7), stat(2), open(2), pread(2), readdir(3), symlink(7).
#![tactic(auto)]

mod error;
mod kind;
mod listing;
mod node;
mod tree;
mod world;

pub use error::HostErr;
pub use kind::{Attr, Kind};
pub use listing::{Listed, Listing};
pub use node::HostNode;
pub use tree::{LONGEST_LINK, Tree};
pub use world::HostWorld;
