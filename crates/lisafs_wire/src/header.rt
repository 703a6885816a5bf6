//! The header of a message: its length, its number and a zero, eight bytes in all.

ghost use Rattle.std.specs.Prelude.{◌≡◌, is_some};
ghost use Rattle.lisafs_wire.specs.Fronts.{front_of};
ghost use Rattle.lisafs_wire.specs.Grammar.{answer_table, is_plain, layout_of, plain_table, request_table};
ghost use Rattle.lisafs_wire.specs.Reading.{Gives, checked_front, front_at, header_at, is_all};

use crate::fault::WireFault;
use sn_bytes::{u16_at, u32_at};

/// A header that was read: the message's number, its zero, the bytes of its body, and those behind the message.
#[derive(Clone, Copy)]
pub(crate) struct Header<'a> {
    pub(crate) number: u16,
    pub(crate) zero: u16,
    pub(crate) body: &'a [u8],
    pub(crate) more: &'a [u8],
}

/// The header that the bytes begin with, where its length is one.
#[tactic(auto, unfolding(crate::specs::Reading::front_at))]
fn front(bytes: &[u8]) -> Result<Header<'_>, WireFault>
    ensures { Gives front_of result (front_at bytes.now) }
{
    let (Some(size), Some(number), Some(zero)) = (
        u32_at(bytes, 0),
        u16_at(bytes, 4),
        u16_at(bytes, 6),
    ) else {
        return Err(WireFault::Short);
    };
    let size = size as usize;
    if size < 8 {
        return Err(WireFault::Length);
    }
    if bytes.len() < size {
        return Err(WireFault::Short);
    }
    Ok(Header {
        number,
        zero,
        body: &bytes[8..size],
        more: &bytes[size..],
    })
}

/// Whether a request has that number.
fn is_request(number: u16) -> bool
    ensures { result ≡ is_some (layout_of request_table number) }
{
    matches!(number, 1..=7 | 9..=16)
}

/// Whether an answer has that number.
fn is_answer(number: u16) -> bool
    ensures { result ≡ is_some (layout_of answer_table number) }
{
    matches!(number, 0x8000..=0x8007 | 0x8009..=0x8010)
}

/// Whether an answer without lists has that number.
fn is_plain_answer(number: u16) -> bool
    ensures { result ≡ is_plain number }
{
    matches!(number, 0x8000..=0x8003 | 0x8005..=0x8007 | 0x8009..=0x800f)
}

/// The header, where its number is one of the table's, and its zero is one.
fn checked(header: Header<'_>, is_known: bool) -> Result<Header<'_>, WireFault>
    ensures { Gives front_of result (checked_front is_known (front_of header.entry)) }
{
    if !is_known {
        return Err(WireFault::Unknown);
    }
    if header.zero != 0 {
        return Err(WireFault::Field);
    }
    Ok(header)
}

/// The header of a request.
pub(crate) fn request_header(bytes: &[u8]) -> Result<Header<'_>, WireFault>
    ensures { Gives front_of result (header_at request_table bytes.now) }
{
    let header = front(bytes)?;
    checked(header, is_request(header.number))
}

/// The header of an answer.
pub(crate) fn answer_header(bytes: &[u8]) -> Result<Header<'_>, WireFault>
    ensures { Gives front_of result (header_at answer_table bytes.now) }
{
    let header = front(bytes)?;
    checked(header, is_answer(header.number))
}

/// The header of an answer without lists.
pub(crate) fn plain_header(bytes: &[u8]) -> Result<Header<'_>, WireFault>
    ensures { Gives front_of result (header_at plain_table bytes.now) }
{
    let header = front(bytes)?;
    checked(header, is_plain_answer(header.number))
}

/// Whether nothing is left of a body, nor stands behind the message.
pub(crate) fn is_whole(rest: &[u8], more: &[u8]) -> bool
    ensures { result ≡ is_all rest.now more.now }
{
    rest.is_empty() && more.is_empty()
}
