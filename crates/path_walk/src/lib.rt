//! Walks along paths: from a node, part by part, over any tree of files that answers questions about its nodes.
//!
//! A caller sees a node as its mount and its inode number (`NodeId`), and who answers the questions as the trees that
//! its answers can stand for (`Dirs`). What a walk comes to is a node, a directory and a last name, what stands in the
//! place of a name (`Found`), or an errno.
//!
//! Defined in `specs/`: a walk as a tree of questions (`Walk`), what it comes to in a tree of files (`come_to`), and
//! the walk by a path (`walk_by_path`). Links are counted once for a whole path. The errors of a part come in the order
//! ENOTDIR, EACCES, ENAMETOOLONG, ENOENT, and of a link ELOOP before what its text is refused for.
//!
//! Proved: the move by one part of a path, over any that answers its questions, is that of the definition in each tree
//! that the answers can stand for (`moves`); a failure is a rise of the count (`faults`). The walk along a whole path
//! is defined, and no function of this crate does it yet.
//!
//! Asked of who answers (`Dirs`): an answer holds in each tree that the answers can stand for from then on (`child`,
//! `text`), want of memory leaves these trees as they were (`memory`), and a failure is a rise of the count (`faults`).
//!
//! Not said: where a caller starts, and what it does with the last name.
//!
//! Standard: path_resolution(7), symlink(7) and open(2) of Linux; POSIX.1-2017, Base Definitions, Pathname Resolution.
//! No locks.
#![tactic(auto)]

mod dirs;
mod error;
mod left;
mod moves;
mod names;
mod node;
mod parts;
mod path;
mod texts;

pub use dirs::Dirs;
pub use error::{DirErr, WalkErr};
pub use node::{Found, NoName, NodeId, Want};
pub use path::{MOST_LINKS, PATH_MAX};
