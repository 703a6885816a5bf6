//! What a call tells of an entry of a directory, as the bytes of struct linux_dirent64.

ghost use Rattle.std.specs.Prelude.{◌≡◌, ◌+◌, ◌%◌, ◌<◌, ◌≤◌, ◌++◌, length, take, drop, OnOk, OnErr};
ghost use Rattle.sn_text.specs.declared.fault.TheConstants.{NAME_MAX};
ghost use Rattle.stat_layout.specs.Dirents.{DirEntry, HasDirentFields, dirent_length, dirent_record};

use crate::kind::FileKind;
use crate::place::{place, place_u8, place_u16, place_u64};
use sn_base::{List, Memory};
use std::marker::Model;

/// What a call tells of an entry of a directory. Contracts see it with the bytes of its name.
///
/// getdents64(2), struct linux_dirent64.
#[derive(Debug, Drop)]
pub struct Dirent<'a> {
    /// The number of the node: `d_ino`.
    pub ino: u64,
    /// The position of the entry behind it: `d_off`.
    pub next: u64,
    /// The type of the node: `d_type`.
    pub kind: FileKind,
    /// At most `NAME_MAX` bytes: `d_name`.
    pub name: &'a [u8],
}

impl<'a> Model for Dirent<'a> {
    ghost use Rattle.stat_layout.specs.Dirents.{DirEntry};

    ghost Value = { DirEntry };

    ghost view = { λ a. record { ino = a.ino; next = a.next; kind = a.kind; name = a.name.now } };
}

/// Where the name begins.
const NAME_OFFSET: usize = 19;

/// The length of the longest record.
const LONGEST: usize = 280;

/// How many bytes the record of a name takes.
pub fn dirent_length(name_length: usize) -> usize
    requires { name_length ≤ NAME_MAX }
    ensures value { result ≡ dirent_length name_length }
    ensures multiple { result % 8 ≡ 0 }
    ensures room { 19 + name_length + 1 ≤ result }
    ensures least { result < 19 + name_length + 1 + 8 }
{
    (NAME_OFFSET + name_length + 1).next_multiple_of(8)
}

/// Adds the record of an entry at the end. An `Err` leaves the bytes as they were.
#[tactic(auto, using(crate::proofs::FieldsRead::fields_added))]
pub fn put_dirent(out: &mut List<u8>, entry: &Dirent<'_>) -> Result<(), Memory>
    requires { length entry.now.name ≤ NAME_MAX }
    ensures ok { OnOk result (out.new ≡ out.old ++ dirent_record entry.now) }
    ensures length { OnOk result (length out.new ≡ length out.old + dirent_length (length entry.now.name)) }
    ensures fields { OnOk result (HasDirentFields entry.now (drop (length out.old) out.new)) }
    ensures err { OnErr result (out.new ≡ out.old) }
{
    let length = dirent_length(entry.name.len());
    let record = longest_record(entry.ino, entry.next, entry.kind, entry.name);
    out.extend_from_slice(&record[..length])
}

/// The record of an entry, and zeros behind it.
#[tactic(auto, using(crate::proofs::Layouts::dirent_laid_out, crate::proofs::FieldsRead::dirent_fields))]
fn longest_record(ino: u64, next: u64, kind: FileKind, name: &[u8]) -> [u8; LONGEST]
    requires { length name.now ≤ NAME_MAX }
    ensures record { let entry : DirEntry = record { ino = ino; next = next; kind = kind; name = name.now } in
        take (dirent_length (length name.now)) result ≡ dirent_record entry }
    ensures fields { let entry : DirEntry = record { ino = ino; next = next; kind = kind; name = name.now } in
        HasDirentFields entry (dirent_record entry) }
{
    let length = dirent_length(name.len()) as u16;
    let mut bytes = [0; LONGEST];
    place_u64(&mut bytes, 0, ino);
    place_u64(&mut bytes, 8, next);
    place_u16(&mut bytes, 16, length);
    place_u8(&mut bytes, 18, kind.entry_type());
    place(&mut bytes, NAME_OFFSET, name);
    bytes
}
