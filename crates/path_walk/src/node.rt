//! Nodes by their numbers, and what a walk is to come to.

use sn_text::Name;

/// A file, a directory or a link of the mounted file systems: the number of its mount, from 1, and its inode number
/// there. The root directory of a mount has the number of that mount.
#[derive(Clone, Copy, Debug, PartialEq, Eq)]
pub struct NodeId {
    pub mount: u32,
    pub ino: u64,
}

/// What a call wants of its path.
#[derive(Clone, Copy, Debug, PartialEq, Eq)]
pub enum Want {
    /// The node that the path names, as stat(2) does.
    Node,
    /// The directory in which the last part of the path stands, and that part, as mkdir(2) and unlink(2) do.
    Parent,
    /// The node, or where it would be made, as open(2) with `O_CREAT` does.
    Make,
}

/// What stands in the place of a last name where a path has none.
#[derive(Clone, Copy, Debug, PartialEq, Eq)]
pub enum NoName {
    /// The last part is `.`.
    Dot,
    /// The last part is `..`.
    DotDot,
    /// The path is one of slashes alone.
    Root,
}

/// What a walk found.
#[derive(Debug, Drop)]
pub enum Found {
    /// The node that the path names.
    Node(NodeId),
    /// A directory, the last name of the path, and whether a slash follows it.
    Last {
        dir: NodeId,
        name: Name,
        slash: bool,
    },
    /// The last part of the path is no name.
    NoName(NoName),
}
