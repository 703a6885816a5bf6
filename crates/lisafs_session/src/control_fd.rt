//! Control FDs: what is asked of a node, and what is read of the answers.

ghost use Rattle.std.specs.Prelude.{◌≡◌, ◌↔◌, ◌≤◌, ◌<◌, ◌^◌, true, ◌++◌, length, IfOk, OnOk, OnErr};
ghost use Rattle.lisafs_wire.specs.declared.answer.PlainAnswer.TheVariants as answers;
ghost use Rattle.lisafs_wire.specs.declared.request.Request.TheVariants as asks;
ghost use Rattle.lisafs_wire.specs.Messages.{lent, plain_answered};
ghost use Rattle.lisafs_session.specs.Operations.{close, create, link_text, make_dir, make_link, mount};
ghost use Rattle.lisafs_session.specs.Operations.{opening, rename, stat, unlink};
ghost use Rattle.lisafs_session.specs.Replies.{HasNoReply, TellsErrno, is_mismatch};
ghost use Rattle.lisafs_session.specs.Spelled.{Spells, fd_or_none, request_bytes};

use crate::made::{Created, Made, Mounted};
use crate::names::{know_name, know_names};
use crate::open_fd::OpenFd;
use crate::refusal::Refusal;
use crate::reply::reply;
use lisafs_wire::{
    ALL_MODE_BITS, Access, Fd, FileAttr, MOST_DATA, MOST_NAMES, PlainAnswer, Removal, RequestRef,
    encode,
};
use sn_base::{List, Memory};
use sn_text::Name;

/// The FD of a node. What asks puts the request's bytes at the end of the caller's; an `Err` leaves these as they were.
#[derive(Clone, Copy, Debug, PartialEq, Eq)]
pub struct ControlFd {
    pub fd: Fd,
}

/// The FD of a node, or that of none.
fn fd_of(node: Option<ControlFd>) -> Fd
    ensures known { result ≡ fd_or_none node }
    ensures fits { result.number < 2 ^ 64 }
{
    match node {
        Some(node) => node.fd,
        None => Fd { number: 0 },
    }
}

impl ControlFd {
    /// Asks for the root of a mount, by the version of the messages that are to be spoken.
    pub fn ask_mount(version: u32, out: &mut List<u8>) -> Result<(), Memory>
        ensures ok { OnOk result (out.new ≡ out.old ++ request_bytes (asks.Mount version)) }
        ensures err { OnErr result (out.new ≡ out.old) }
    {
        encode(out, &RequestRef::Mount { version })
    }

    /// The root of the mount.
    pub fn read_mount(bytes: &[u8]) -> Result<Mounted, Refusal>
        ensures value { IfOk result (λ m.
            Spells bytes.now (plain_answered (answers.Mount m.version m.root.fd m.attr))) }
        ensures errno { TellsErrno bytes.now result }
        ensures mismatch { (is_mismatch result ≡ true) ↔ HasNoReply mount bytes.now }
    {
        match reply(1, bytes)? {
            PlainAnswer::Mount { version, fd, attr } => Ok(Mounted {
                version,
                root: ControlFd { fd },
                attr,
            }),
            _ => Err(Refusal::Mismatch),
        }
    }

    /// Asks what is known of the node.
    pub fn ask_stat(self, out: &mut List<u8>) -> Result<(), Memory>
        ensures ok { OnOk result (out.new ≡ out.old ++ request_bytes (asks.FStat self.fd)) }
        ensures err { OnErr result (out.new ≡ out.old) }
    {
        encode(out, &RequestRef::FStat { fd: self.fd })
    }

    /// What is known of the node.
    pub fn read_stat(bytes: &[u8]) -> Result<FileAttr, Refusal>
        ensures value { IfOk result (λ attr. Spells bytes.now (plain_answered (answers.FStat attr))) }
        ensures errno { TellsErrno bytes.now result }
        ensures mismatch { (is_mismatch result ≡ true) ↔ HasNoReply stat bytes.now }
    {
        match reply(2, bytes)? {
            PlainAnswer::FStat { attr } => Ok(attr),
            _ => Err(Refusal::Mismatch),
        }
    }

    /// Asks for the nodes along names, from this directory on.
    pub fn ask_walk(self, names: &[Name], out: &mut List<u8>) -> Result<(), Memory>
        requires some { 1 ≤ length names.now }
        requires most { length names.now ≤ MOST_NAMES }
        ensures ok { OnOk result (out.new ≡ out.old ++ request_bytes (asks.Walk self.fd names.now)) }
        ensures err { OnErr result (out.new ≡ out.old) }
    {
        know_names(names);
        encode(out, &RequestRef::Walk { fd: self.fd, names })
    }

    /// Asks for the file to be opened.
    pub fn ask_open(self, access: Access, out: &mut List<u8>) -> Result<(), Memory>
        ensures ok { OnOk result (out.new ≡ out.old ++ request_bytes (asks.OpenAt self.fd access)) }
        ensures err { OnErr result (out.new ≡ out.old) }
    {
        encode(
            out,
            &RequestRef::OpenAt {
                fd: self.fd,
                access,
            },
        )
    }

    /// The opened file.
    pub fn read_open(bytes: &[u8]) -> Result<OpenFd, Refusal>
        ensures value { IfOk result (λ opened. Spells bytes.now (plain_answered (answers.OpenAt opened.fd))) }
        ensures errno { TellsErrno bytes.now result }
        ensures mismatch { (is_mismatch result ≡ true) ↔ HasNoReply opening bytes.now }
    {
        match reply(5, bytes)? {
            PlainAnswer::OpenAt { fd } => Ok(OpenFd { fd }),
            _ => Err(Refusal::Mismatch),
        }
    }

    /// Asks for a file to be made in this directory, and opened.
    pub fn ask_create(
        self,
        mode: u32,
        access: Access,
        name: &Name,
        out: &mut List<u8>,
    ) -> Result<(), Memory>
        requires { mode ≤ ALL_MODE_BITS }
        ensures ok { OnOk result (out.new ≡ out.old ++ request_bytes (asks.OpenCreateAt self.fd mode access name.now)) }
        ensures err { OnErr result (out.new ≡ out.old) }
    {
        know_name(name);
        encode(
            out,
            &RequestRef::OpenCreateAt {
                fd: self.fd,
                mode,
                access,
                name,
            },
        )
    }

    /// The file that was made and opened.
    pub fn read_create(bytes: &[u8]) -> Result<Created, Refusal>
        ensures value { IfOk result (λ made.
            Spells bytes.now (plain_answered (answers.OpenCreateAt made.node.fd made.opened.fd made.attr))) }
        ensures errno { TellsErrno bytes.now result }
        ensures mismatch { (is_mismatch result ≡ true) ↔ HasNoReply create bytes.now }
    {
        match reply(6, bytes)? {
            PlainAnswer::OpenCreateAt { fd, opened, attr } => Ok(Created {
                node: ControlFd { fd },
                opened: OpenFd { fd: opened },
                attr,
            }),
            _ => Err(Refusal::Mismatch),
        }
    }

    /// Asks for the FD to be closed.
    pub fn ask_close(self, out: &mut List<u8>) -> Result<(), Memory>
        ensures ok { OnOk result (out.new ≡ out.old ++ request_bytes (asks.Close self.fd)) }
        ensures err { OnErr result (out.new ≡ out.old) }
    {
        encode(out, &RequestRef::Close { fd: self.fd })
    }

    /// Whether it was closed.
    pub fn read_close(bytes: &[u8]) -> Result<(), Refusal>
        ensures value { OnOk result (Spells bytes.now (plain_answered answers.Close)) }
        ensures errno { TellsErrno bytes.now result }
        ensures mismatch { (is_mismatch result ≡ true) ↔ HasNoReply close bytes.now }
    {
        match reply(7, bytes)? {
            PlainAnswer::Close => Ok(()),
            _ => Err(Refusal::Mismatch),
        }
    }

    /// Asks for a directory to be made in this one.
    pub fn ask_make_dir(self, mode: u32, name: &Name, out: &mut List<u8>) -> Result<(), Memory>
        requires { mode ≤ ALL_MODE_BITS }
        ensures ok { OnOk result (out.new ≡ out.old ++ request_bytes (asks.MkdirAt self.fd mode name.now)) }
        ensures err { OnErr result (out.new ≡ out.old) }
    {
        know_name(name);
        encode(
            out,
            &RequestRef::MkdirAt {
                fd: self.fd,
                mode,
                name,
            },
        )
    }

    /// The directory that was made.
    pub fn read_make_dir(bytes: &[u8]) -> Result<Made, Refusal>
        ensures value { IfOk result (λ made.
            Spells bytes.now (plain_answered (answers.MkdirAt made.node.fd made.attr))) }
        ensures errno { TellsErrno bytes.now result }
        ensures mismatch { (is_mismatch result ≡ true) ↔ HasNoReply make_dir bytes.now }
    {
        match reply(11, bytes)? {
            PlainAnswer::MkdirAt { fd, attr } => Ok(Made {
                node: ControlFd { fd },
                attr,
            }),
            _ => Err(Refusal::Mismatch),
        }
    }

    /// Asks for a symbolic link with that text to be made in this directory.
    pub fn ask_make_link(self, name: &Name, text: &[u8], out: &mut List<u8>) -> Result<(), Memory>
        requires { length text.now ≤ MOST_DATA }
        ensures ok { OnOk result (out.new ≡
            out.old ++ request_bytes (asks.SymlinkAt self.fd name.now (lent text.now))) }
        ensures err { OnErr result (out.new ≡ out.old) }
    {
        know_name(name);
        encode(
            out,
            &RequestRef::SymlinkAt {
                fd: self.fd,
                name,
                text,
            },
        )
    }

    /// The link that was made.
    pub fn read_make_link(bytes: &[u8]) -> Result<Made, Refusal>
        ensures value { IfOk result (λ made.
            Spells bytes.now (plain_answered (answers.SymlinkAt made.node.fd made.attr))) }
        ensures errno { TellsErrno bytes.now result }
        ensures mismatch { (is_mismatch result ≡ true) ↔ HasNoReply make_link bytes.now }
    {
        match reply(12, bytes)? {
            PlainAnswer::SymlinkAt { fd, attr } => Ok(Made {
                node: ControlFd { fd },
                attr,
            }),
            _ => Err(Refusal::Mismatch),
        }
    }

    /// Asks for the text of the symbolic link.
    pub fn ask_link_text(self, out: &mut List<u8>) -> Result<(), Memory>
        ensures ok { OnOk result (out.new ≡ out.old ++ request_bytes (asks.ReadLinkAt self.fd)) }
        ensures err { OnErr result (out.new ≡ out.old) }
    {
        encode(out, &RequestRef::ReadLinkAt { fd: self.fd })
    }

    /// The text of the link, where it lies in the bytes.
    pub fn read_link_text(bytes: &[u8]) -> Result<&[u8], Refusal>
        ensures value { IfOk result (λ text. Spells bytes.now (plain_answered (answers.ReadLinkAt text))) }
        ensures errno { TellsErrno bytes.now result }
        ensures mismatch { (is_mismatch result ≡ true) ↔ HasNoReply link_text bytes.now }
    {
        match reply(13, bytes)? {
            PlainAnswer::ReadLinkAt { text } => Ok(text),
            _ => Err(Refusal::Mismatch),
        }
    }

    /// Asks for a name of this directory, and the victim, which is the node of that name, to be removed.
    pub fn ask_unlink(
        self,
        victim: ControlFd,
        removal: Removal,
        name: &Name,
        out: &mut List<u8>,
    ) -> Result<(), Memory>
        ensures ok { OnOk result (out.new ≡
            out.old ++ request_bytes (asks.UnlinkAt self.fd victim.fd removal name.now)) }
        ensures err { OnErr result (out.new ≡ out.old) }
    {
        know_name(name);
        let fd = self.fd;
        let victim = victim.fd;
        encode(
            out,
            &RequestRef::UnlinkAt {
                fd,
                victim,
                removal,
                name,
            },
        )
    }

    /// Whether it was removed.
    pub fn read_unlink(bytes: &[u8]) -> Result<(), Refusal>
        ensures value { OnOk result (Spells bytes.now (plain_answered answers.UnlinkAt)) }
        ensures errno { TellsErrno bytes.now result }
        ensures mismatch { (is_mismatch result ≡ true) ↔ HasNoReply unlink bytes.now }
    {
        match reply(14, bytes)? {
            PlainAnswer::UnlinkAt => Ok(()),
            _ => Err(Refusal::Mismatch),
        }
    }

    /// Asks for a name of this directory to become one of another; the victim is the node that has that name, if any.
    pub fn ask_rename(
        self,
        directory: ControlFd,
        victim: Option<ControlFd>,
        old: &Name,
        new: &Name,
        out: &mut List<u8>,
    ) -> Result<(), Memory>
        ensures ok { OnOk result (out.new ≡ out.old ++
            request_bytes (asks.RenameAt self.fd directory.fd (fd_or_none victim) old.now new.now)) }
        ensures err { OnErr result (out.new ≡ out.old) }
    {
        know_name(old);
        know_name(new);
        let fd = self.fd;
        let directory = directory.fd;
        let victim = fd_of(victim);
        encode(
            out,
            &RequestRef::RenameAt {
                fd,
                directory,
                victim,
                old,
                new,
            },
        )
    }

    /// Whether it was renamed.
    pub fn read_rename(bytes: &[u8]) -> Result<(), Refusal>
        ensures value { OnOk result (Spells bytes.now (plain_answered answers.RenameAt)) }
        ensures errno { TellsErrno bytes.now result }
        ensures mismatch { (is_mismatch result ≡ true) ↔ HasNoReply rename bytes.now }
    {
        match reply(15, bytes)? {
            PlainAnswer::RenameAt => Ok(()),
            _ => Err(Refusal::Mismatch),
        }
    }
}
