//! What a client asks.

ghost use Rattle.std.specs.Prelude.{◌≡◌};
ghost use Rattle.lisafs_wire.specs.Messages.{access_number, asked, decoded, removal_number};

use crate::fd::Fd;
use sn_base::List;
use sn_text::Name;

/// How a file is opened.
#[derive(Clone, Copy, Debug, PartialEq, Eq)]
pub enum Access {
    Read,
    Write,
    ReadWrite,
}

impl Access {
    /// The number that stands for it: O_RDONLY, O_WRONLY or O_RDWR of open(2).
    pub fn number(&self) -> u32
        ensures { result ≡ access_number self.now }
    {
        match self {
            Access::Read => 0,
            Access::Write => 1,
            Access::ReadWrite => 2,
        }
    }
}

/// What may be removed: anything but a directory, or a directory alone.
#[derive(Clone, Copy, Debug, PartialEq, Eq)]
pub enum Removal {
    NoDirectory,
    OnlyDirectory,
}

impl Removal {
    /// The number that stands for it: 0, or AT_REMOVEDIR of unlinkat(2).
    pub fn number(&self) -> u32
        ensures { result ≡ removal_number self.now }
    {
        match self {
            Removal::NoDirectory => 0,
            Removal::OnlyDirectory => 512,
        }
    }
}

/// A request of a client, by the FDs that the server gave it, with names and data that lie elsewhere.
#[derive(Clone, Copy)]
pub enum RequestRef<'a> {
    Mount {
        version: u32,
    },
    FStat {
        fd: Fd,
    },
    SetStat {
        fd: Fd,
        size: u64,
    },
    Walk {
        fd: Fd,
        names: &'a [Name],
    },
    OpenAt {
        fd: Fd,
        access: Access,
    },
    OpenCreateAt {
        fd: Fd,
        mode: u32,
        access: Access,
        name: &'a Name,
    },
    Close {
        fd: Fd,
    },
    PRead {
        fd: Fd,
        offset: u64,
        count: u32,
    },
    PWrite {
        fd: Fd,
        offset: u64,
        bytes: &'a [u8],
    },
    MkdirAt {
        fd: Fd,
        mode: u32,
        name: &'a Name,
    },
    SymlinkAt {
        fd: Fd,
        name: &'a Name,
        text: &'a [u8],
    },
    ReadLinkAt {
        fd: Fd,
    },
    UnlinkAt {
        fd: Fd,
        victim: Fd,
        removal: Removal,
        name: &'a Name,
    },
    RenameAt {
        fd: Fd,
        directory: Fd,
        victim: Fd,
        old: &'a Name,
        new: &'a Name,
    },
    Getdents64 {
        fd: Fd,
        start: u32,
    },
}

/// A request that was read, with names of its own. Data stands in the bytes that were read.
#[derive(Drop)]
pub enum Request<'a> {
    Mount {
        version: u32,
    },
    FStat {
        fd: Fd,
    },
    SetStat {
        fd: Fd,
        size: u64,
    },
    Walk {
        fd: Fd,
        names: List<Name>,
    },
    OpenAt {
        fd: Fd,
        access: Access,
    },
    OpenCreateAt {
        fd: Fd,
        mode: u32,
        access: Access,
        name: Name,
    },
    Close {
        fd: Fd,
    },
    PRead {
        fd: Fd,
        offset: u64,
        count: u32,
    },
    PWrite {
        fd: Fd,
        offset: u64,
        bytes: &'a [u8],
    },
    MkdirAt {
        fd: Fd,
        mode: u32,
        name: Name,
    },
    SymlinkAt {
        fd: Fd,
        name: Name,
        text: &'a [u8],
    },
    ReadLinkAt {
        fd: Fd,
    },
    UnlinkAt {
        fd: Fd,
        victim: Fd,
        removal: Removal,
        name: Name,
    },
    RenameAt {
        fd: Fd,
        directory: Fd,
        victim: Fd,
        old: Name,
        new: Name,
    },
    Getdents64 {
        fd: Fd,
        start: u32,
    },
}

impl Request<'_> {
    /// The request with its names lent.
    #[rattlefmt::skip]
    pub fn lend(&self) -> RequestRef<'_>
        ensures { asked result ≡ decoded self.now }
    {
        match self {
            Request::Mount { version } => RequestRef::Mount { version: *version },
            Request::FStat { fd } => RequestRef::FStat { fd: *fd },
            Request::SetStat { fd, size } => RequestRef::SetStat { fd: *fd, size: *size },
            Request::Walk { fd, names } => RequestRef::Walk { fd: *fd, names: names.as_slice() },
            Request::OpenAt { fd, access } => RequestRef::OpenAt { fd: *fd, access: *access },
            Request::OpenCreateAt { fd, mode, access, name } =>
                RequestRef::OpenCreateAt { fd: *fd, mode: *mode, access: *access, name },
            Request::Close { fd } => RequestRef::Close { fd: *fd },
            Request::PRead { fd, offset, count } => RequestRef::PRead { fd: *fd, offset: *offset, count: *count },
            Request::PWrite { fd, offset, bytes } => RequestRef::PWrite { fd: *fd, offset: *offset, bytes },
            Request::MkdirAt { fd, mode, name } => RequestRef::MkdirAt { fd: *fd, mode: *mode, name },
            Request::SymlinkAt { fd, name, text } => RequestRef::SymlinkAt { fd: *fd, name, text },
            Request::ReadLinkAt { fd } => RequestRef::ReadLinkAt { fd: *fd },
            Request::UnlinkAt { fd, victim, removal, name } =>
                RequestRef::UnlinkAt { fd: *fd, victim: *victim, removal: *removal, name },
            Request::RenameAt { fd, directory, victim, old, new } =>
                RequestRef::RenameAt { fd: *fd, directory: *directory, victim: *victim, old, new },
            Request::Getdents64 { fd, start } => RequestRef::Getdents64 { fd: *fd, start: *start },
        }
    }
}
