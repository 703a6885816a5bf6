//! Messages put at the end of bytes.

ghost use Rattle.std.specs.Prelude.{◌≡◌, ◌<◌, ◌≤◌, ◌+◌, ◌-◌, ◌^◌, ◌∷◌, [], ◌++◌, length, map, take, drop, OnOk, OnErr};
ghost use Rattle.sn_bytes.specs.Fields.{little_bytes};
ghost use Rattle.lisafs_wire.specs.Fields.{Name as NameField};
ghost use Rattle.lisafs_wire.specs.Grammar.{answer_table, attr, fd, kind, request_table};
ghost use Rattle.lisafs_wire.specs.Messages.{answered, asked, listed_group, name_group, node_group, plain_answered};
ghost use Rattle.lisafs_wire.specs.Pieces.{DoAllFit, Grows, pieces_bytes, unsized};
ghost use Rattle.lisafs_wire.specs.Spelling.{IsMessageOf, spelled_groups, spelling};

use crate::answer::{Answer, ListedName, PlainAnswer, WalkedNode};
use crate::patch::put_over;
use crate::piece::Piece::{Byte, Data, DoubleWord, Name, Word};
use crate::piece::{Piece, put, put_all};
use crate::request::RequestRef;
use sn_base::{List, Memory};
use sn_bytes::{put_u16, put_u32};
use sn_text::Name as FileName;

/// Puts a header whose length isn't there yet.
#[tactic(auto, using(crate::proofs::Growth::grown, crate::proofs::Growth::grown_behind))]
fn put_header(out: &mut List<u8>, number: u16) -> Result<(), Memory>
    ensures ok { OnOk result (out.new ≡ out.old ++ (little_bytes 4 0 ++ little_bytes 2 number ++ little_bytes 2 0)) }
    ensures err { OnErr result (Grows out.old out.new) }
{
    put_u32(out, 0)?;
    put_u16(out, number)?;
    put_u16(out, 0)
}

/// Puts such a header and fields.
#[tactic(auto, using(crate::proofs::Growth::grown, crate::proofs::Growth::grown_behind))]
fn put_fields(out: &mut List<u8>, number: u16, pieces: &[Piece<'_>]) -> Result<(), Memory>
    requires { DoAllFit pieces.now }
    ensures ok { OnOk result (out.new ≡
        out.old ++ ((little_bytes 4 0 ++ little_bytes 2 number ++ little_bytes 2 0) ++ pieces_bytes pieces.now)) }
    ensures err { OnErr result (Grows out.old out.new) }
{
    put_header(out, number)?;
    put_all(out, pieces)
}

/// Puts so many names.
#[tactic(auto, using(crate::proofs::Growth::grown, crate::proofs::Growth::grown_behind))]
fn put_names(out: &mut List<u8>, names: &[FileName]) -> Result<(), Memory>
    ensures ok { OnOk result (out.new ≡ out.old ++ spelled_groups (NameField ∷ []) (map name_group names.now)) }
    ensures err { OnErr result (Grows out.old out.new) }
{
    match names {
        [] => Ok(()),
        [name, rest @ ..] => {
            put(out, Name(name))?;
            put_names(out, rest)
        }
    }
}

/// Puts a request whose length isn't there yet.
#[tactic(auto, using(crate::proofs::Growth::grown, crate::proofs::Growth::grown_behind))]
#[rattlefmt::skip]
fn put_request(out: &mut List<u8>, request: &RequestRef<'_>) -> Result<(), Memory>
    requires { IsMessageOf request_table (asked request.now) }
    ensures ok { OnOk result (out.new ≡ out.old ++ unsized request_table (asked request.now)) }
    ensures err { OnErr result (Grows out.old out.new) }
{
    match request {
        RequestRef::Mount { version } => put_fields(out, 1, &[Word(*version)]),
        RequestRef::FStat { fd } => put_fields(out, 2, &[DoubleWord(fd.number)]),
        RequestRef::SetStat { fd, size } => put_fields(out, 3, &[DoubleWord(fd.number), DoubleWord(*size)]),
        RequestRef::Walk { fd, names } => {
            put_fields(out, 4, &[DoubleWord(fd.number)])?;
            put_u16(out, names.len() as u16)?;
            put_names(out, names)
        }
        RequestRef::OpenAt { fd, access } => put_fields(out, 5, &[DoubleWord(fd.number), Word(access.number())]),
        RequestRef::OpenCreateAt { fd, mode, access, name } =>
            put_fields(out, 6, &[DoubleWord(fd.number), Word(*mode), Word(access.number()), Name(name)]),
        RequestRef::Close { fd } => put_fields(out, 7, &[DoubleWord(fd.number)]),
        RequestRef::PRead { fd, offset, count } =>
            put_fields(out, 9, &[DoubleWord(fd.number), DoubleWord(*offset), Word(*count)]),
        RequestRef::PWrite { fd, offset, bytes } =>
            put_fields(out, 10, &[DoubleWord(fd.number), DoubleWord(*offset), Data(bytes)]),
        RequestRef::MkdirAt { fd, mode, name } =>
            put_fields(out, 11, &[DoubleWord(fd.number), Word(*mode), Name(name)]),
        RequestRef::SymlinkAt { fd, name, text } =>
            put_fields(out, 12, &[DoubleWord(fd.number), Name(name), Data(text)]),
        RequestRef::ReadLinkAt { fd } => put_fields(out, 13, &[DoubleWord(fd.number)]),
        RequestRef::UnlinkAt { fd, victim, removal, name } => put_fields(
            out, 14, &[DoubleWord(fd.number), DoubleWord(victim.number), Word(removal.number()), Name(name)]),
        RequestRef::RenameAt { fd, directory, victim, old, new } => put_fields(
            out, 15, &[
                DoubleWord(fd.number), DoubleWord(directory.number), DoubleWord(victim.number), Name(old), Name(new)]),
        RequestRef::Getdents64 { fd, start } => put_fields(out, 16, &[DoubleWord(fd.number), Word(*start)]),
    }
}

/// Puts so many walked nodes.
#[tactic(auto, using(crate::proofs::Growth::grown, crate::proofs::Growth::grown_behind))]
fn put_nodes(out: &mut List<u8>, nodes: &[WalkedNode]) -> Result<(), Memory>
    ensures ok { OnOk result (out.new ≡ out.old ++ spelled_groups (fd ∷ attr) (map node_group nodes.now)) }
    ensures err { OnErr result (Grows out.old out.new) }
{
    match nodes {
        [] => Ok(()),
        [node, rest @ ..] => {
            put_all(
                out,
                &[
                    DoubleWord(node.fd.number),
                    Byte(node.attr.kind.number()),
                    Word(node.attr.mode),
                    DoubleWord(node.attr.size),
                ],
            )?;
            put_nodes(out, rest)
        }
    }
}

/// Puts so many listed names.
#[tactic(auto, using(crate::proofs::Growth::grown, crate::proofs::Growth::grown_behind))]
fn put_listed(out: &mut List<u8>, names: &[ListedName]) -> Result<(), Memory>
    ensures ok { OnOk result (out.new ≡
        out.old ++ spelled_groups (kind ∷ NameField ∷ []) (map listed_group names.now)) }
    ensures err { OnErr result (Grows out.old out.new) }
{
    match names {
        [] => Ok(()),
        [listed, rest @ ..] => {
            put_all(out, &[Byte(listed.kind.number()), Name(&listed.name)])?;
            put_listed(out, rest)
        }
    }
}

/// Puts an answer without lists whose length isn't there yet.
#[tactic(auto, using(crate::proofs::Growth::grown, crate::proofs::Growth::grown_behind))]
#[rattlefmt::skip]
fn put_plain_answer(out: &mut List<u8>, answer: &PlainAnswer<'_>) -> Result<(), Memory>
    requires { IsMessageOf answer_table (plain_answered answer.now) }
    ensures ok { OnOk result (out.new ≡ out.old ++ unsized answer_table (plain_answered answer.now)) }
    ensures err { OnErr result (Grows out.old out.new) }
{
    match answer {
        PlainAnswer::Error { errno } => put_fields(out, 0x8000, &[Word(*errno)]),
        PlainAnswer::Mount { version, fd, attr } => put_fields(
            out, 0x8001, &[
                Word(*version), DoubleWord(fd.number), Byte(attr.kind.number()), Word(attr.mode),
                DoubleWord(attr.size)]),
        PlainAnswer::FStat { attr } =>
            put_fields(out, 0x8002, &[Byte(attr.kind.number()), Word(attr.mode), DoubleWord(attr.size)]),
        PlainAnswer::SetStat => put_fields(out, 0x8003, &[]),
        PlainAnswer::OpenAt { fd } => put_fields(out, 0x8005, &[DoubleWord(fd.number)]),
        PlainAnswer::OpenCreateAt { fd, opened, attr } => put_fields(
            out, 0x8006, &[
                DoubleWord(fd.number), DoubleWord(opened.number), Byte(attr.kind.number()), Word(attr.mode),
                DoubleWord(attr.size)]),
        PlainAnswer::Close => put_fields(out, 0x8007, &[]),
        PlainAnswer::PRead { bytes } => put_fields(out, 0x8009, &[Data(bytes)]),
        PlainAnswer::PWrite { count } => put_fields(out, 0x800a, &[Word(*count)]),
        PlainAnswer::MkdirAt { fd, attr } => put_fields(
            out, 0x800b, &[
                DoubleWord(fd.number), Byte(attr.kind.number()), Word(attr.mode), DoubleWord(attr.size)]),
        PlainAnswer::SymlinkAt { fd, attr } => put_fields(
            out, 0x800c, &[
                DoubleWord(fd.number), Byte(attr.kind.number()), Word(attr.mode), DoubleWord(attr.size)]),
        PlainAnswer::ReadLinkAt { text } => put_fields(out, 0x800d, &[Data(text)]),
        PlainAnswer::UnlinkAt => put_fields(out, 0x800e, &[]),
        PlainAnswer::RenameAt => put_fields(out, 0x800f, &[]),
    }
}

/// Puts an answer whose length isn't there yet.
#[tactic(auto, using(crate::proofs::Growth::grown, crate::proofs::Growth::grown_behind))]
fn put_answer(out: &mut List<u8>, answer: &Answer<'_>) -> Result<(), Memory>
    requires { IsMessageOf answer_table (answered answer.now) }
    ensures ok { OnOk result (out.new ≡ out.old ++ unsized answer_table (answered answer.now)) }
    ensures err { OnErr result (Grows out.old out.new) }
{
    match answer {
        Answer::Plain(answer) => put_plain_answer(out, answer),
        Answer::Walk { end, nodes } => {
            put_fields(out, 0x8004, &[Byte(end.number())])?;
            put_u16(out, nodes.len() as u16)?;
            put_nodes(out, nodes.as_slice())
        }
        Answer::Getdents64 { is_last, names } => {
            put_fields(out, 0x8010, &[Byte(u8::from(*is_last))])?;
            put_u16(out, names.len() as u16)?;
            put_listed(out, names.as_slice())
        }
    }
}

/// Puts the length of a message that was put behind so many bytes.
fn size(out: &mut List<u8>, before: usize)
    requires room { before + 8 ≤ length out.old }
    requires fits { length out.old < before + 2 ^ 32 }
    ensures { out.new ≡ take before out.old ++ (little_bytes 4 (length out.old - before) ++ drop (before + 4) out.old) }
{
    let size = out.len() - before;
    put_over(out, before, size as u32);
}

/// Adds the one spelling of a request at the end of bytes. An `Err` leaves them as they were.
pub fn encode(out: &mut List<u8>, request: &RequestRef<'_>) -> Result<(), Memory>
    requires { IsMessageOf request_table (asked request.now) }
    ensures ok { OnOk result (out.new ≡ out.old ++ spelling request_table (asked request.now)) }
    ensures err { OnErr result (out.new ≡ out.old) }
{
    let before = out.len();
    if put_request(out, request).is_err() {
        out.truncate(before);
        return Err(Memory);
    }
    size(out, before);
    Ok(())
}

/// Adds the one spelling of an answer at the end of bytes. An `Err` leaves them as they were.
pub fn encode_answer(out: &mut List<u8>, answer: &Answer<'_>) -> Result<(), Memory>
    requires { IsMessageOf answer_table (answered answer.now) }
    ensures ok { OnOk result (out.new ≡ out.old ++ spelling answer_table (answered answer.now)) }
    ensures err { OnErr result (out.new ≡ out.old) }
{
    let before = out.len();
    if put_answer(out, answer).is_err() {
        out.truncate(before);
        return Err(Memory);
    }
    size(out, before);
    Ok(())
}
