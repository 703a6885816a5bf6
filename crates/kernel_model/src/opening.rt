//! What calls and opening execves drew and met, and the record of an opening.

use mount_file::Mount;
use sn_base::List;
use sn_text::{Name, Text};

/// A fresh inode number, keyed by the directory's number and the child's name.
#[derive(Drop)]
pub struct Fresh {
    pub dir: u64,
    pub name: Name,
    pub ino: u64,
}

/// By how much the count of faults of the node of that number rose.
#[derive(Clone, Copy, Debug, Drop, PartialEq, Eq)]
pub struct Rise {
    pub ino: u64,
    pub count: u64,
}

/// What a call drew and met: fresh inode numbers ascending, and rises ascending by node, each node once.
#[derive(Drop)]
pub struct Given {
    pub fresh: List<Fresh>,
    pub rises: List<Rise>,
}

/// An opening task: its arguments, and what its opening execve drew and met.
#[derive(Drop)]
pub struct OpenedTask {
    pub words: List<Text>,
    pub given: Given,
}

/// The record of an opening: mounts and the numbers of their roots in order of the mount file, and the tasks.
#[derive(Drop)]
pub struct Opening {
    pub mounts: List<Mount>,
    pub roots: List<u64>,
    pub tasks: List<OpenedTask>,
}

/// The rises of a task's calls that reached no entry, with the fresh numbers of nodes that no entry numbers.
#[derive(Drop)]
pub struct LeftRise {
    pub task: u32,
    pub given: Given,
}

/// What a run leaves beside its trace: rises that reached no entry, and numbers drawn that stand in no `Given`.
#[derive(Drop)]
pub struct Left {
    pub rises: List<LeftRise>,
    pub lent: List<Fresh>,
}
