//! Fields at the front of bytes: what stands in one, and the bytes behind it.

ghost use Rattle.std.specs.Prelude.{◌≡◌};
ghost use Rattle.lisafs_wire.specs.Fields.{Num, Bytes, Name as NameField};
ghost use Rattle.lisafs_wire.specs.Grammar.{access, attr, bulk, byte_count, double_word, fd};
ghost use Rattle.lisafs_wire.specs.Grammar.{kind, mode, removal, up_to, word};
ghost use Rattle.lisafs_wire.specs.Messages.{access_number, attr_values, end_number, fd_value};
ghost use Rattle.lisafs_wire.specs.Messages.{kind_number, last_number, removal_number};
ghost use Rattle.lisafs_wire.specs.Reading.{Gives, GivesIfRoom, bytes_at, number_at, value_at, values_at};

use crate::answer::WalkEnd;
use crate::attr::{FileAttr, FileKind};
use crate::fault::{DecodeError, WireFault};
use crate::fd::Fd;
use crate::limits::{ALL_MODE_BITS, MOST_DATA};
use crate::request::{Access, Removal};
use sn_bytes::{u8_at, u16_at, u32_at, u64_at};
use sn_text::{Name, NameFault, name_of};
use std::alloc::Global;

fn number_1(bytes: &[u8]) -> Result<(u8, &[u8]), WireFault>
    ensures { Gives (λ x. (x.0, x.1.now)) result (number_at 1 bytes.now) }
{
    match u8_at(bytes, 0) {
        Some(number) => Ok((number, &bytes[1..])),
        None => Err(WireFault::Length),
    }
}

pub(crate) fn number_2(bytes: &[u8]) -> Result<(u16, &[u8]), WireFault>
    ensures { Gives (λ x. (x.0, x.1.now)) result (number_at 2 bytes.now) }
{
    match u16_at(bytes, 0) {
        Some(number) => Ok((number, &bytes[2..])),
        None => Err(WireFault::Length),
    }
}

fn number_4(bytes: &[u8]) -> Result<(u32, &[u8]), WireFault>
    ensures { Gives (λ x. (x.0, x.1.now)) result (number_at 4 bytes.now) }
{
    match u32_at(bytes, 0) {
        Some(number) => Ok((number, &bytes[4..])),
        None => Err(WireFault::Length),
    }
}

fn number_8(bytes: &[u8]) -> Result<(u64, &[u8]), WireFault>
    ensures { Gives (λ x. (x.0, x.1.now)) result (number_at 8 bytes.now) }
{
    match u64_at(bytes, 0) {
        Some(number) => Ok((number, &bytes[8..])),
        None => Err(WireFault::Length),
    }
}

/// So many bytes.
fn bytes_of(count: usize, bytes: &[u8]) -> Result<(&[u8], &[u8]), WireFault>
    ensures { Gives (λ x. (x.0.now, x.1.now)) result (bytes_at count bytes.now) }
{
    if bytes.len() < count {
        return Err(WireFault::Length);
    }
    Ok(bytes.split_at(count))
}

/// An FD.
#[tactic(auto, unfolding(crate::specs::Reading::value_at))]
pub(crate) fn fd_at(bytes: &[u8]) -> Result<(Fd, &[u8]), WireFault>
    ensures { Gives (λ x. (fd_value x.0, x.1.now)) result (value_at fd bytes.now) }
{
    let (number, rest) = number_8(bytes)?;
    Ok((Fd { number }, rest))
}

/// How a file is opened.
#[tactic(auto, unfolding(crate::specs::Reading::value_at))]
pub(crate) fn access_at(bytes: &[u8]) -> Result<(Access, &[u8]), WireFault>
    ensures { Gives (λ x. (Num (access_number x.0), x.1.now)) result (value_at access bytes.now) }
{
    let (number, rest) = number_4(bytes)?;
    match number {
        0 => Ok((Access::Read, rest)),
        1 => Ok((Access::Write, rest)),
        2 => Ok((Access::ReadWrite, rest)),
        _ => Err(WireFault::Field),
    }
}

/// A name, in memory of its own.
#[tactic(auto, unfolding(crate::specs::Reading::value_at))]
pub(crate) fn name_at(alloc: Global, bytes: &[u8]) -> Result<(Name, &[u8]), DecodeError>
    ensures { GivesIfRoom (λ x. (Bytes x.0, x.1.now)) result (value_at NameField bytes.now) }
{
    let (size, rest) = number_2(bytes)?;
    let (name, rest) = bytes_of(size as usize, rest)?;
    match name_of(alloc, name) {
        Ok(name) => Ok((name, rest)),
        Err(NameFault::Memory) => Err(DecodeError::Memory),
        Err(_) => Err(DecodeError::Fault(WireFault::Field)),
    }
}

/// Data, where it lies.
#[tactic(auto, unfolding(crate::specs::Reading::value_at))]
pub(crate) fn data_at(bytes: &[u8]) -> Result<(&[u8], &[u8]), WireFault>
    ensures { Gives (λ x. (Bytes x.0.now, x.1.now)) result (value_at bulk bytes.now) }
{
    let (size, rest) = number_4(bytes)?;
    if size > MOST_DATA {
        return Err(WireFault::Field);
    }
    bytes_of(size as usize, rest)
}

/// A number of four bytes.
#[tactic(auto, unfolding(crate::specs::Reading::value_at))]
pub(crate) fn word_at(bytes: &[u8]) -> Result<(u32, &[u8]), WireFault>
    ensures { Gives (λ x. (Num x.0, x.1.now)) result (value_at word bytes.now) }
{
    number_4(bytes)
}

/// A number of eight bytes.
#[tactic(auto, unfolding(crate::specs::Reading::value_at))]
pub(crate) fn double_word_at(bytes: &[u8]) -> Result<(u64, &[u8]), WireFault>
    ensures { Gives (λ x. (Num x.0, x.1.now)) result (value_at double_word bytes.now) }
{
    number_8(bytes)
}

/// A number of four bytes that is at most so much.
#[tactic(auto, unfolding(crate::specs::Reading::value_at))]
fn word_to(most: u32, bytes: &[u8]) -> Result<(u32, &[u8]), WireFault>
    ensures { Gives (λ x. (Num x.0, x.1.now)) result (value_at (up_to 4 most) bytes.now) }
{
    let (number, rest) = number_4(bytes)?;
    if number > most {
        return Err(WireFault::Field);
    }
    Ok((number, rest))
}

/// Permission bits.
pub(crate) fn mode_at(bytes: &[u8]) -> Result<(u32, &[u8]), WireFault>
    ensures { Gives (λ x. (Num x.0, x.1.now)) result (value_at mode bytes.now) }
{
    word_to(ALL_MODE_BITS, bytes)
}

/// A count of bytes to read.
pub(crate) fn count_at(bytes: &[u8]) -> Result<(u32, &[u8]), WireFault>
    ensures { Gives (λ x. (Num x.0, x.1.now)) result (value_at byte_count bytes.now) }
{
    word_to(MOST_DATA, bytes)
}

/// What may be removed.
#[tactic(auto, unfolding(crate::specs::Reading::value_at))]
pub(crate) fn removal_at(bytes: &[u8]) -> Result<(Removal, &[u8]), WireFault>
    ensures { Gives (λ x. (Num (removal_number x.0), x.1.now)) result (value_at removal bytes.now) }
{
    let (number, rest) = number_4(bytes)?;
    match number {
        0 => Ok((Removal::NoDirectory, rest)),
        512 => Ok((Removal::OnlyDirectory, rest)),
        _ => Err(WireFault::Field),
    }
}

/// The kind of a node.
#[tactic(auto, unfolding(crate::specs::Reading::value_at))]
pub(crate) fn kind_at(bytes: &[u8]) -> Result<(FileKind, &[u8]), WireFault>
    ensures { Gives (λ x. (Num (kind_number x.0), x.1.now)) result (value_at kind bytes.now) }
{
    let (number, rest) = number_1(bytes)?;
    match number {
        4 => Ok((FileKind::Directory, rest)),
        8 => Ok((FileKind::File, rest)),
        10 => Ok((FileKind::Link, rest)),
        _ => Err(WireFault::Field),
    }
}

/// What is known of a node.
pub(crate) fn attr_at(bytes: &[u8]) -> Result<(FileAttr, &[u8]), WireFault>
    ensures { Gives (λ x. (attr_values x.0, x.1.now)) result (values_at attr bytes.now) }
{
    let (kind, rest) = kind_at(bytes)?;
    let (mode, rest) = mode_at(rest)?;
    let (size, rest) = double_word_at(rest)?;
    Ok((FileAttr { kind, mode, size }, rest))
}

/// How a walk ended.
#[tactic(auto, unfolding(crate::specs::Reading::value_at))]
pub(crate) fn end_at(bytes: &[u8]) -> Result<(WalkEnd, &[u8]), WireFault>
    ensures { Gives (λ x. (Num (end_number x.0), x.1.now)) result (value_at (up_to 1 2) bytes.now) }
{
    let (number, rest) = number_1(bytes)?;
    match number {
        0 => Ok((WalkEnd::All, rest)),
        1 => Ok((WalkEnd::Missing, rest)),
        2 => Ok((WalkEnd::Link, rest)),
        _ => Err(WireFault::Field),
    }
}

/// Whether a listing is the last part.
#[tactic(auto, unfolding(crate::specs::Reading::value_at))]
pub(crate) fn last_at(bytes: &[u8]) -> Result<(bool, &[u8]), WireFault>
    ensures { Gives (λ x. (Num (last_number x.0), x.1.now)) result (value_at (up_to 1 1) bytes.now) }
{
    let (number, rest) = number_1(bytes)?;
    match number {
        0 => Ok((false, rest)),
        1 => Ok((true, rest)),
        _ => Err(WireFault::Field),
    }
}
