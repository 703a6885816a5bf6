//! Open FDs: what is asked of an opened file or directory, and what is read of the answers.

ghost use Rattle.std.specs.Prelude.{◌≡◌, ◌↔◌, ◌≤◌, true, ◌++◌, length, IfOk, OnOk, OnErr};
ghost use Rattle.lisafs_wire.specs.declared.answer.PlainAnswer.TheVariants as answers;
ghost use Rattle.lisafs_wire.specs.declared.request.Request.TheVariants as asks;
ghost use Rattle.lisafs_wire.specs.Messages.{lent, plain_answered};
ghost use Rattle.lisafs_session.specs.Operations.{close, pread, pwrite, set_size};
ghost use Rattle.lisafs_session.specs.Replies.{HasNoReply, TellsErrno, is_mismatch};
ghost use Rattle.lisafs_session.specs.Spelled.{Spells, request_bytes};

use crate::refusal::Refusal;
use crate::reply::reply;
use lisafs_wire::{Fd, MOST_DATA, PlainAnswer, RequestRef, encode};
use sn_base::{List, Memory};

/// The FD of an opened file or directory. What asks puts the request's bytes at the end of the caller's; an `Err`
/// leaves these as they were.
#[derive(Clone, Copy, Debug, PartialEq, Eq)]
pub struct OpenFd {
    pub fd: Fd,
}

impl OpenFd {
    /// Asks for the file to get that size.
    pub fn ask_set_size(self, size: u64, out: &mut List<u8>) -> Result<(), Memory>
        ensures ok { OnOk result (out.new ≡ out.old ++ request_bytes (asks.SetStat self.fd size)) }
        ensures err { OnErr result (out.new ≡ out.old) }
    {
        encode(out, &RequestRef::SetStat { fd: self.fd, size })
    }

    /// Whether it has that size.
    pub fn read_set_size(bytes: &[u8]) -> Result<(), Refusal>
        ensures value { OnOk result (Spells bytes.now (plain_answered answers.SetStat)) }
        ensures errno { TellsErrno bytes.now result }
        ensures mismatch { (is_mismatch result ≡ true) ↔ HasNoReply set_size bytes.now }
    {
        match reply(3, bytes)? {
            PlainAnswer::SetStat => Ok(()),
            _ => Err(Refusal::Mismatch),
        }
    }

    /// Asks for so many bytes at an offset.
    pub fn ask_pread(self, offset: u64, count: u32, out: &mut List<u8>) -> Result<(), Memory>
        requires { count ≤ MOST_DATA }
        ensures ok { OnOk result (out.new ≡ out.old ++ request_bytes (asks.PRead self.fd offset count)) }
        ensures err { OnErr result (out.new ≡ out.old) }
    {
        encode(
            out,
            &RequestRef::PRead {
                fd: self.fd,
                offset,
                count,
            },
        )
    }

    /// The bytes that were read, where they lie in the answer: no more than were asked for.
    #[tactic(auto, using(crate::proofs::Sole::no_read))]
    pub fn read_pread(count: u32, bytes: &[u8]) -> Result<&[u8], Refusal>
        ensures value { IfOk result (λ read. Spells bytes.now (plain_answered (answers.PRead read))) }
        ensures most { IfOk result (λ read. length read.now ≤ count) }
        ensures errno { TellsErrno bytes.now result }
        ensures mismatch { (is_mismatch result ≡ true) ↔ HasNoReply (pread count) bytes.now }
    {
        match reply(9, bytes)? {
            PlainAnswer::PRead { bytes: read } => {
                if read.len() > count as usize {
                    return Err(Refusal::Mismatch);
                }
                Ok(read)
            }
            _ => Err(Refusal::Mismatch),
        }
    }

    /// Asks for bytes to be written at an offset.
    pub fn ask_pwrite(self, offset: u64, bytes: &[u8], out: &mut List<u8>) -> Result<(), Memory>
        requires { length bytes.now ≤ MOST_DATA }
        ensures ok { OnOk result (out.new ≡ out.old ++ request_bytes (asks.PWrite self.fd offset (lent bytes.now))) }
        ensures err { OnErr result (out.new ≡ out.old) }
    {
        encode(
            out,
            &RequestRef::PWrite {
                fd: self.fd,
                offset,
                bytes,
            },
        )
    }

    /// How many bytes were written: no more than were handed over.
    #[tactic(auto, using(crate::proofs::Sole::no_write))]
    pub fn read_pwrite(size: u32, bytes: &[u8]) -> Result<u32, Refusal>
        ensures value { IfOk result (λ count. Spells bytes.now (plain_answered (answers.PWrite count))) }
        ensures most { IfOk result (λ count. count ≤ size) }
        ensures errno { TellsErrno bytes.now result }
        ensures mismatch { (is_mismatch result ≡ true) ↔ HasNoReply (pwrite size) bytes.now }
    {
        match reply(10, bytes)? {
            PlainAnswer::PWrite { count } => {
                if count > size {
                    return Err(Refusal::Mismatch);
                }
                Ok(count)
            }
            _ => Err(Refusal::Mismatch),
        }
    }

    /// Asks for the names of the directory, from that place on.
    pub fn ask_list(self, start: u32, out: &mut List<u8>) -> Result<(), Memory>
        ensures ok { OnOk result (out.new ≡ out.old ++ request_bytes (asks.Getdents64 self.fd start)) }
        ensures err { OnErr result (out.new ≡ out.old) }
    {
        encode(out, &RequestRef::Getdents64 { fd: self.fd, start })
    }

    /// Asks for the FD to be closed.
    pub fn ask_close(self, out: &mut List<u8>) -> Result<(), Memory>
        ensures ok { OnOk result (out.new ≡ out.old ++ request_bytes (asks.Close self.fd)) }
        ensures err { OnErr result (out.new ≡ out.old) }
    {
        encode(out, &RequestRef::Close { fd: self.fd })
    }

    /// Whether it was closed.
    pub fn read_close(bytes: &[u8]) -> Result<(), Refusal>
        ensures value { OnOk result (Spells bytes.now (plain_answered answers.Close)) }
        ensures errno { TellsErrno bytes.now result }
        ensures mismatch { (is_mismatch result ≡ true) ↔ HasNoReply close bytes.now }
    {
        match reply(7, bytes)? {
            PlainAnswer::Close => Ok(()),
            _ => Err(Refusal::Mismatch),
        }
    }
}
