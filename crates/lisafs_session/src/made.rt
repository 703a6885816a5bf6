//! What an answer tells of nodes that were found or made.

use crate::control_fd::ControlFd;
use crate::open_fd::OpenFd;
use lisafs_wire::{FileAttr, ListedName, WalkEnd, WalkedNode};
use sn_base::List;

/// The root of a mount: the version that the server speaks, and the node.
#[derive(Clone, Copy, Debug, PartialEq, Eq)]
pub struct Mounted {
    pub version: u32,
    pub root: ControlFd,
    pub attr: FileAttr,
}

/// A node that was made, and what is known of it.
#[derive(Clone, Copy, Debug, PartialEq, Eq)]
pub struct Made {
    pub node: ControlFd,
    pub attr: FileAttr,
}

/// A file that was made and opened, and what is known of it.
#[derive(Clone, Copy, Debug, PartialEq, Eq)]
pub struct Created {
    pub node: ControlFd,
    pub opened: OpenFd,
    pub attr: FileAttr,
}

/// How a walk ended, and the nodes that it found, in order.
#[derive(Drop)]
pub struct Walked {
    pub end: WalkEnd,
    pub nodes: List<WalkedNode>,
}

/// A part of a directory's names, in order, and whether it is the last.
#[derive(Drop)]
pub struct Listed {
    pub is_last: bool,
    pub names: List<ListedName>,
}
