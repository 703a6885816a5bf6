//! Open file descriptions: what an open file is, and how it is open.

ghost use Rattle.std.specs.Prelude.{◌≡◌};

use crate::{AccessMode, OpenFlags};
use bitflags::Flags;
use sn_base::Made;

/// The two ends of a pipe.
#[derive(Clone, Copy, Debug, PartialEq, Eq)]
pub enum PipeSide {
    Read,
    Write,
}

/// What is open.
#[derive(Clone, Copy, Debug, PartialEq, Eq)]
pub enum Object {
    /// A node of the tree, by its inode number.
    Node(u64),
    /// An end of a pipe.
    PipeEnd { pipe: Made, end: PipeSide },
    /// The console, which takes what is written to it.
    Console,
    /// An input that is at its end from the beginning.
    EmptyInput,
}

/// An open file description. Descriptors that were duplicated share one.
///
/// open(2), Open file descriptions.
#[derive(Clone, Copy, Debug, PartialEq, Eq)]
pub struct Description {
    pub object: Object,
    pub access: AccessMode,
    /// Whether each write goes to the end: O_APPEND.
    pub append: bool,
    /// Whether no call waits: O_NONBLOCK.
    pub nonblock: bool,
    /// Where the next read or write begins.
    pub position: u64,
}

impl Description {
    ghost use Rattle.fd_table.specs.Descriptions.{status_flags, with_status};

    /// The access mode and the status flags, as fcntl(2) answers them to F_GETFL.
    pub fn status_flags(&self) -> u32
        ensures { result ≡ status_flags self.now }
    {
        let mut flags = OpenFlags::from_bits_retain(self.access.number());
        flags.set(OpenFlags::APPEND, self.append);
        flags.set(OpenFlags::NONBLOCK, self.nonblock);
        flags.bits()
    }

    /// Sets the status flags, as fcntl(2) does at F_SETFL. Other bits, the access mode among them, aren't looked at.
    pub fn set_status(&mut self, flags: u32)
        ensures { self.new ≡ with_status self.old flags }
    {
        let flags = OpenFlags::from_bits_retain(flags);
        self.append = flags.contains(OpenFlags::APPEND);
        self.nonblock = flags.contains(OpenFlags::NONBLOCK);
    }
}
