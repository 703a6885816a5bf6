//! What a server answers.

ghost use Rattle.std.specs.Prelude.{◌≡◌};
ghost use Rattle.lisafs_wire.specs.Messages.{end_number, plain_answered};

use crate::attr::{FileAttr, FileKind};
use crate::fd::Fd;
use sn_base::List;
use sn_text::Name;

/// How a walk ended: all names were found, a name is missing, or a symbolic link was met, which is the last node.
#[derive(Clone, Copy, Debug, PartialEq, Eq)]
pub enum WalkEnd {
    All,
    Missing,
    Link,
}

impl WalkEnd {
    /// The number that stands for it.
    pub fn number(&self) -> u8
        ensures { result ≡ end_number self.now }
    {
        match self {
            WalkEnd::All => 0,
            WalkEnd::Missing => 1,
            WalkEnd::Link => 2,
        }
    }
}

/// A node that a walk found: its control FD, and what is known of it.
#[derive(Clone, Copy, Debug, PartialEq, Eq)]
pub struct WalkedNode {
    pub fd: Fd,
    pub attr: FileAttr,
}

/// A name of a directory, and the kind of what it names.
#[derive(Drop)]
pub struct ListedName {
    pub kind: FileKind,
    pub name: Name,
}

/// An answer of a server without lists: an error, by its errno, or that to the request of the same name.
#[derive(Clone, Copy)]
pub enum PlainAnswer<'a> {
    Error {
        errno: u32,
    },
    Mount {
        version: u32,
        fd: Fd,
        attr: FileAttr,
    },
    FStat {
        attr: FileAttr,
    },
    SetStat,
    OpenAt {
        fd: Fd,
    },
    OpenCreateAt {
        fd: Fd,
        opened: Fd,
        attr: FileAttr,
    },
    Close,
    PRead {
        bytes: &'a [u8],
    },
    PWrite {
        count: u32,
    },
    MkdirAt {
        fd: Fd,
        attr: FileAttr,
    },
    SymlinkAt {
        fd: Fd,
        attr: FileAttr,
    },
    ReadLinkAt {
        text: &'a [u8],
    },
    UnlinkAt,
    RenameAt,
}

impl PlainAnswer<'_> {
    /// The number of its message.
    #[rattlefmt::skip]
    pub fn number(&self) -> u16
        ensures { result ≡ (plain_answered self.now).number }
    {
        match self {
            PlainAnswer::Error { .. } => 0x8000,
            PlainAnswer::Mount { .. } => 0x8001,
            PlainAnswer::FStat { .. } => 0x8002,
            PlainAnswer::SetStat => 0x8003,
            PlainAnswer::OpenAt { .. } => 0x8005,
            PlainAnswer::OpenCreateAt { .. } => 0x8006,
            PlainAnswer::Close => 0x8007,
            PlainAnswer::PRead { .. } => 0x8009,
            PlainAnswer::PWrite { .. } => 0x800a,
            PlainAnswer::MkdirAt { .. } => 0x800b,
            PlainAnswer::SymlinkAt { .. } => 0x800c,
            PlainAnswer::ReadLinkAt { .. } => 0x800d,
            PlainAnswer::UnlinkAt => 0x800e,
            PlainAnswer::RenameAt => 0x800f,
        }
    }
}

/// An answer of a server: one without lists, or that to a `Walk` or a `Getdents64`.
#[derive(Drop)]
pub enum Answer<'a> {
    Plain(PlainAnswer<'a>),
    Walk {
        end: WalkEnd,
        nodes: List<WalkedNode>,
    },
    Getdents64 {
        is_last: bool,
        names: List<ListedName>,
    },
}
