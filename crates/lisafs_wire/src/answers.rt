//! The bodies of answers: the fields of each, one after another.

ghost use Rattle.std.specs.Prelude.{◌≡◌, ◌≢◌, map, [], ◌∷◌};
ghost use Rattle.lisafs_wire.specs.Fields.{Name as NameField};
ghost use Rattle.lisafs_wire.specs.Grammar.{answer_table, attr, fd, kind, plain_table};
ghost use Rattle.lisafs_wire.specs.Messages.{answered, listed_group, node_group, plain_answered};
ghost use Rattle.lisafs_wire.specs.Reading.{Gives, GivesIfRoom, groups_at, numbered_at, values_at};

use crate::answer::{Answer, ListedName, PlainAnswer, WalkedNode};
use crate::fault::{DecodeError, WireFault};
use crate::fields::{
    attr_at, data_at, end_at, fd_at, kind_at, last_at, name_at, number_2, word_at,
};
use sn_base::List;
use std::alloc::Global;

fn error(bytes: &[u8]) -> Result<(PlainAnswer<'_>, &[u8]), WireFault>
    ensures { Gives (λ x. (plain_answered x.0, x.1.now)) result (numbered_at plain_table 32768 bytes.now) }
{
    let (errno, rest) = word_at(bytes)?;
    Ok((PlainAnswer::Error { errno }, rest))
}

fn mount(bytes: &[u8]) -> Result<(PlainAnswer<'_>, &[u8]), WireFault>
    ensures { Gives (λ x. (plain_answered x.0, x.1.now)) result (numbered_at plain_table 32769 bytes.now) }
{
    let (version, rest) = word_at(bytes)?;
    let (fd, rest) = fd_at(rest)?;
    let (attr, rest) = attr_at(rest)?;
    Ok((PlainAnswer::Mount { version, fd, attr }, rest))
}

fn f_stat(bytes: &[u8]) -> Result<(PlainAnswer<'_>, &[u8]), WireFault>
    ensures { Gives (λ x. (plain_answered x.0, x.1.now)) result (numbered_at plain_table 32770 bytes.now) }
{
    let (attr, rest) = attr_at(bytes)?;
    Ok((PlainAnswer::FStat { attr }, rest))
}

fn open_at(bytes: &[u8]) -> Result<(PlainAnswer<'_>, &[u8]), WireFault>
    ensures { Gives (λ x. (plain_answered x.0, x.1.now)) result (numbered_at plain_table 32773 bytes.now) }
{
    let (fd, rest) = fd_at(bytes)?;
    Ok((PlainAnswer::OpenAt { fd }, rest))
}

fn open_create_at(bytes: &[u8]) -> Result<(PlainAnswer<'_>, &[u8]), WireFault>
    ensures { Gives (λ x. (plain_answered x.0, x.1.now)) result (numbered_at plain_table 32774 bytes.now) }
{
    let (fd, rest) = fd_at(bytes)?;
    let (opened, rest) = fd_at(rest)?;
    let (attr, rest) = attr_at(rest)?;
    Ok((PlainAnswer::OpenCreateAt { fd, opened, attr }, rest))
}

fn p_read(bytes: &[u8]) -> Result<(PlainAnswer<'_>, &[u8]), WireFault>
    ensures { Gives (λ x. (plain_answered x.0, x.1.now)) result (numbered_at plain_table 32777 bytes.now) }
{
    let (read, rest) = data_at(bytes)?;
    Ok((PlainAnswer::PRead { bytes: read }, rest))
}

fn p_write(bytes: &[u8]) -> Result<(PlainAnswer<'_>, &[u8]), WireFault>
    ensures { Gives (λ x. (plain_answered x.0, x.1.now)) result (numbered_at plain_table 32778 bytes.now) }
{
    let (count, rest) = word_at(bytes)?;
    Ok((PlainAnswer::PWrite { count }, rest))
}

fn mkdir_at(bytes: &[u8]) -> Result<(PlainAnswer<'_>, &[u8]), WireFault>
    ensures { Gives (λ x. (plain_answered x.0, x.1.now)) result (numbered_at plain_table 32779 bytes.now) }
{
    let (fd, rest) = fd_at(bytes)?;
    let (attr, rest) = attr_at(rest)?;
    Ok((PlainAnswer::MkdirAt { fd, attr }, rest))
}

fn symlink_at(bytes: &[u8]) -> Result<(PlainAnswer<'_>, &[u8]), WireFault>
    ensures { Gives (λ x. (plain_answered x.0, x.1.now)) result (numbered_at plain_table 32780 bytes.now) }
{
    let (fd, rest) = fd_at(bytes)?;
    let (attr, rest) = attr_at(rest)?;
    Ok((PlainAnswer::SymlinkAt { fd, attr }, rest))
}

fn read_link_at(bytes: &[u8]) -> Result<(PlainAnswer<'_>, &[u8]), WireFault>
    ensures { Gives (λ x. (plain_answered x.0, x.1.now)) result (numbered_at plain_table 32781 bytes.now) }
{
    let (text, rest) = data_at(bytes)?;
    Ok((PlainAnswer::ReadLinkAt { text }, rest))
}

/// The answer without lists of that number, and the bytes behind its last field.
pub(crate) fn plain_answer_at(
    number: u16,
    bytes: &[u8],
) -> Result<(PlainAnswer<'_>, &[u8]), WireFault>
    ensures { Gives (λ x. (plain_answered x.0, x.1.now)) result (numbered_at plain_table number bytes.now) }
{
    match number {
        0x8000 => error(bytes),
        0x8001 => mount(bytes),
        0x8002 => f_stat(bytes),
        0x8003 => Ok((PlainAnswer::SetStat, bytes)),
        0x8005 => open_at(bytes),
        0x8006 => open_create_at(bytes),
        0x8007 => Ok((PlainAnswer::Close, bytes)),
        0x8009 => p_read(bytes),
        0x800a => p_write(bytes),
        0x800b => mkdir_at(bytes),
        0x800c => symlink_at(bytes),
        0x800d => read_link_at(bytes),
        0x800e => Ok((PlainAnswer::UnlinkAt, bytes)),
        0x800f => Ok((PlainAnswer::RenameAt, bytes)),
        _ => Err(WireFault::Unknown),
    }
}

fn node_at(bytes: &[u8]) -> Result<(WalkedNode, &[u8]), WireFault>
    ensures { Gives (λ x. (node_group x.0, x.1.now)) result (values_at (fd ∷ attr) bytes.now) }
{
    let (fd, rest) = fd_at(bytes)?;
    let (attr, rest) = attr_at(rest)?;
    Ok((WalkedNode { fd, attr }, rest))
}

/// So many walked nodes.
fn nodes_of(
    alloc: Global,
    count: u16,
    bytes: &[u8],
) -> Result<(List<WalkedNode>, &[u8]), DecodeError>
    ensures { GivesIfRoom (λ x. (map node_group x.0, x.1.now)) result (groups_at (fd ∷ attr) count bytes.now) }
{
    let mut nodes = List::new(alloc);
    let mut rest = bytes;
    for _ in 0..count {
        let (node, after) = node_at(rest)?;
        nodes.push(node)?;
        rest = after;
    }
    Ok((nodes, rest))
}

fn walk(alloc: Global, bytes: &[u8]) -> Result<(Answer<'_>, &[u8]), DecodeError>
    ensures { GivesIfRoom (λ x. (answered x.0, x.1.now)) result (numbered_at answer_table 32772 bytes.now) }
{
    let (end, rest) = end_at(bytes)?;
    let (count, rest) = number_2(rest)?;
    let (nodes, rest) = nodes_of(alloc, count, rest)?;
    Ok((Answer::Walk { end, nodes }, rest))
}

fn listed_at(alloc: Global, bytes: &[u8]) -> Result<(ListedName, &[u8]), DecodeError>
    ensures { GivesIfRoom (λ x. (listed_group x.0, x.1.now)) result (values_at (kind ∷ NameField ∷ []) bytes.now) }
{
    let (kind, rest) = kind_at(bytes)?;
    let (name, rest) = name_at(alloc, rest)?;
    Ok((ListedName { kind, name }, rest))
}

/// So many listed names.
fn listed_of(
    alloc: Global,
    count: u16,
    bytes: &[u8],
) -> Result<(List<ListedName>, &[u8]), DecodeError>
    ensures { GivesIfRoom (λ x. (map listed_group x.0, x.1.now)) result
        (groups_at (kind ∷ NameField ∷ []) count bytes.now) }
{
    let mut names = List::new(alloc);
    let mut rest = bytes;
    for _ in 0..count {
        let (name, after) = listed_at(alloc, rest)?;
        names.push(name)?;
        rest = after;
    }
    Ok((names, rest))
}

fn getdents64(alloc: Global, bytes: &[u8]) -> Result<(Answer<'_>, &[u8]), DecodeError>
    ensures { GivesIfRoom (λ x. (answered x.0, x.1.now)) result (numbered_at answer_table 32784 bytes.now) }
{
    let (is_last, rest) = last_at(bytes)?;
    let (count, rest) = number_2(rest)?;
    let (names, rest) = listed_of(alloc, count, rest)?;
    Ok((Answer::Getdents64 { is_last, names }, rest))
}

/// An answer without lists of that number, as an answer.
#[tactic(auto, using(crate::proofs::Plain::other_rows))]
fn other_at(number: u16, bytes: &[u8]) -> Result<(Answer<'_>, &[u8]), WireFault>
    requires no_walk { number ≢ 32772 }
    requires no_list { number ≢ 32784 }
    ensures { Gives (λ x. (answered x.0, x.1.now)) result (numbered_at answer_table number bytes.now) }
{
    let (answer, rest) = plain_answer_at(number, bytes)?;
    Ok((Answer::Plain(answer), rest))
}

/// The answer of that number, and the bytes behind its last field.
pub(crate) fn answer_at(
    alloc: Global,
    number: u16,
    bytes: &[u8],
) -> Result<(Answer<'_>, &[u8]), DecodeError>
    ensures { GivesIfRoom (λ x. (answered x.0, x.1.now)) result (numbered_at answer_table number bytes.now) }
{
    match number {
        0x8004 => walk(alloc, bytes),
        0x8010 => getdents64(alloc, bytes),
        _ => Ok(other_at(number, bytes)?),
    }
}
