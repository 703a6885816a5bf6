//! The bodies of requests: the fields of each, one after another.

ghost use Rattle.std.specs.Prelude.{◌≡◌, map, [], ◌∷◌};
ghost use Rattle.lisafs_wire.specs.Fields.{Name as NameField};
ghost use Rattle.lisafs_wire.specs.Grammar.{request_table};
ghost use Rattle.lisafs_wire.specs.Messages.{decoded, name_group};
ghost use Rattle.lisafs_wire.specs.Reading.{GivesIfRoom, groups_at, numbered_at};

use crate::fault::{DecodeError, WireFault};
use crate::fields::{
    access_at, count_at, data_at, double_word_at, fd_at, mode_at, name_at, number_2, removal_at,
    word_at,
};
use crate::limits::MOST_NAMES;
use crate::request::Request;
use sn_base::List;
use sn_text::Name;
use std::alloc::Global;

fn mount(bytes: &[u8]) -> Result<(Request<'_>, &[u8]), DecodeError>
    ensures { GivesIfRoom (λ x. (decoded x.0, x.1.now)) result (numbered_at request_table 1 bytes.now) }
{
    let (version, rest) = word_at(bytes)?;
    Ok((Request::Mount { version }, rest))
}

fn f_stat(bytes: &[u8]) -> Result<(Request<'_>, &[u8]), DecodeError>
    ensures { GivesIfRoom (λ x. (decoded x.0, x.1.now)) result (numbered_at request_table 2 bytes.now) }
{
    let (fd, rest) = fd_at(bytes)?;
    Ok((Request::FStat { fd }, rest))
}

fn set_stat(bytes: &[u8]) -> Result<(Request<'_>, &[u8]), DecodeError>
    ensures { GivesIfRoom (λ x. (decoded x.0, x.1.now)) result (numbered_at request_table 3 bytes.now) }
{
    let (fd, rest) = fd_at(bytes)?;
    let (size, rest) = double_word_at(rest)?;
    Ok((Request::SetStat { fd, size }, rest))
}

fn open_at(bytes: &[u8]) -> Result<(Request<'_>, &[u8]), DecodeError>
    ensures { GivesIfRoom (λ x. (decoded x.0, x.1.now)) result (numbered_at request_table 5 bytes.now) }
{
    let (fd, rest) = fd_at(bytes)?;
    let (access, rest) = access_at(rest)?;
    Ok((Request::OpenAt { fd, access }, rest))
}

fn open_create_at(alloc: Global, bytes: &[u8]) -> Result<(Request<'_>, &[u8]), DecodeError>
    ensures { GivesIfRoom (λ x. (decoded x.0, x.1.now)) result (numbered_at request_table 6 bytes.now) }
{
    let (fd, rest) = fd_at(bytes)?;
    let (mode, rest) = mode_at(rest)?;
    let (access, rest) = access_at(rest)?;
    let (name, rest) = name_at(alloc, rest)?;
    Ok((
        Request::OpenCreateAt {
            fd,
            mode,
            access,
            name,
        },
        rest,
    ))
}

fn close(bytes: &[u8]) -> Result<(Request<'_>, &[u8]), DecodeError>
    ensures { GivesIfRoom (λ x. (decoded x.0, x.1.now)) result (numbered_at request_table 7 bytes.now) }
{
    let (fd, rest) = fd_at(bytes)?;
    Ok((Request::Close { fd }, rest))
}

fn p_read(bytes: &[u8]) -> Result<(Request<'_>, &[u8]), DecodeError>
    ensures { GivesIfRoom (λ x. (decoded x.0, x.1.now)) result (numbered_at request_table 9 bytes.now) }
{
    let (fd, rest) = fd_at(bytes)?;
    let (offset, rest) = double_word_at(rest)?;
    let (count, rest) = count_at(rest)?;
    Ok((Request::PRead { fd, offset, count }, rest))
}

fn p_write(bytes: &[u8]) -> Result<(Request<'_>, &[u8]), DecodeError>
    ensures { GivesIfRoom (λ x. (decoded x.0, x.1.now)) result (numbered_at request_table 10 bytes.now) }
{
    let (fd, rest) = fd_at(bytes)?;
    let (offset, rest) = double_word_at(rest)?;
    let (bytes, rest) = data_at(rest)?;
    Ok((Request::PWrite { fd, offset, bytes }, rest))
}

fn mkdir_at(alloc: Global, bytes: &[u8]) -> Result<(Request<'_>, &[u8]), DecodeError>
    ensures { GivesIfRoom (λ x. (decoded x.0, x.1.now)) result (numbered_at request_table 11 bytes.now) }
{
    let (fd, rest) = fd_at(bytes)?;
    let (mode, rest) = mode_at(rest)?;
    let (name, rest) = name_at(alloc, rest)?;
    Ok((Request::MkdirAt { fd, mode, name }, rest))
}

fn symlink_at(alloc: Global, bytes: &[u8]) -> Result<(Request<'_>, &[u8]), DecodeError>
    ensures { GivesIfRoom (λ x. (decoded x.0, x.1.now)) result (numbered_at request_table 12 bytes.now) }
{
    let (fd, rest) = fd_at(bytes)?;
    let (name, rest) = name_at(alloc, rest)?;
    let (text, rest) = data_at(rest)?;
    Ok((Request::SymlinkAt { fd, name, text }, rest))
}

fn read_link_at(bytes: &[u8]) -> Result<(Request<'_>, &[u8]), DecodeError>
    ensures { GivesIfRoom (λ x. (decoded x.0, x.1.now)) result (numbered_at request_table 13 bytes.now) }
{
    let (fd, rest) = fd_at(bytes)?;
    Ok((Request::ReadLinkAt { fd }, rest))
}

fn unlink_at(alloc: Global, bytes: &[u8]) -> Result<(Request<'_>, &[u8]), DecodeError>
    ensures { GivesIfRoom (λ x. (decoded x.0, x.1.now)) result (numbered_at request_table 14 bytes.now) }
{
    let (fd, rest) = fd_at(bytes)?;
    let (victim, rest) = fd_at(rest)?;
    let (removal, rest) = removal_at(rest)?;
    let (name, rest) = name_at(alloc, rest)?;
    Ok((
        Request::UnlinkAt {
            fd,
            victim,
            removal,
            name,
        },
        rest,
    ))
}

fn rename_at(alloc: Global, bytes: &[u8]) -> Result<(Request<'_>, &[u8]), DecodeError>
    ensures { GivesIfRoom (λ x. (decoded x.0, x.1.now)) result (numbered_at request_table 15 bytes.now) }
{
    let (fd, rest) = fd_at(bytes)?;
    let (directory, rest) = fd_at(rest)?;
    let (victim, rest) = fd_at(rest)?;
    let (old, rest) = name_at(alloc, rest)?;
    let (new, rest) = name_at(alloc, rest)?;
    Ok((
        Request::RenameAt {
            fd,
            directory,
            victim,
            old,
            new,
        },
        rest,
    ))
}

fn getdents64(bytes: &[u8]) -> Result<(Request<'_>, &[u8]), DecodeError>
    ensures { GivesIfRoom (λ x. (decoded x.0, x.1.now)) result (numbered_at request_table 16 bytes.now) }
{
    let (fd, rest) = fd_at(bytes)?;
    let (start, rest) = word_at(rest)?;
    Ok((Request::Getdents64 { fd, start }, rest))
}

/// So many names.
fn names_of(alloc: Global, count: u16, bytes: &[u8]) -> Result<(List<Name>, &[u8]), DecodeError>
    ensures { GivesIfRoom (λ x. (map name_group x.0, x.1.now)) result (groups_at (NameField ∷ []) count bytes.now) }
{
    let mut names = List::new(alloc);
    let mut rest = bytes;
    for _ in 0..count {
        let (name, after) = name_at(alloc, rest)?;
        names.push(name)?;
        rest = after;
    }
    Ok((names, rest))
}

fn walk(alloc: Global, bytes: &[u8]) -> Result<(Request<'_>, &[u8]), DecodeError>
    ensures { GivesIfRoom (λ x. (decoded x.0, x.1.now)) result (numbered_at request_table 4 bytes.now) }
{
    let (fd, rest) = fd_at(bytes)?;
    let (count, rest) = number_2(rest)?;
    if count < 1 || count > MOST_NAMES {
        return Err(DecodeError::Fault(WireFault::Field));
    }
    let (names, rest) = names_of(alloc, count, rest)?;
    Ok((Request::Walk { fd, names }, rest))
}

/// The request of that number, and the bytes behind its last field.
pub(crate) fn request_at(
    alloc: Global,
    number: u16,
    bytes: &[u8],
) -> Result<(Request<'_>, &[u8]), DecodeError>
    ensures { GivesIfRoom (λ x. (decoded x.0, x.1.now)) result (numbered_at request_table number bytes.now) }
{
    match number {
        1 => mount(bytes),
        2 => f_stat(bytes),
        3 => set_stat(bytes),
        4 => walk(alloc, bytes),
        5 => open_at(bytes),
        6 => open_create_at(alloc, bytes),
        7 => close(bytes),
        9 => p_read(bytes),
        10 => p_write(bytes),
        11 => mkdir_at(alloc, bytes),
        12 => symlink_at(alloc, bytes),
        13 => read_link_at(bytes),
        14 => unlink_at(alloc, bytes),
        15 => rename_at(alloc, bytes),
        16 => getdents64(bytes),
        _ => Err(DecodeError::Fault(WireFault::Unknown)),
    }
}
