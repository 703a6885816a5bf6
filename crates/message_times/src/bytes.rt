//! Bytes of messages.

use crate::failure::Failure;
use lisafs_wire::{Answer, Fd, MOST_DATA, PlainAnswer, RequestRef, encode, encode_answer};
use sn_base::List;
use std::alloc::Global;

/// The bytes of pairs of hexadecimal digits.
pub fn bytes_of(alloc: Global, digits: &str) -> Result<List<u8>, Failure> {
    let mut bytes = List::new(alloc);
    let mut rest = digits;
    for _ in 0..digits.len() {
        let Some((pair, more)) = rest.split_at_checked(2) else {
            break;
        };
        let Ok(byte) = u8::from_str_radix(pair, 16) else {
            return Err(Failure::Differs);
        };
        bytes.push(byte)?;
        rest = more;
    }
    Ok(bytes)
}

/// As many bytes as a message's data has at the most.
pub fn block(alloc: Global) -> Result<List<u8>, Failure> {
    let mut bytes = List::with_capacity(alloc, MOST_DATA as usize)?;
    for _ in 0..MOST_DATA {
        bytes.push(0x5a)?;
    }
    Ok(bytes)
}

/// The bytes of a PWrite of that data.
pub fn write_of(alloc: Global, data: &[u8]) -> Result<List<u8>, Failure> {
    if data.len() > MOST_DATA as usize {
        return Err(Failure::Differs);
    }
    let fd = Fd { number: 5 };
    let mut bytes = List::new(alloc);
    encode(
        &mut bytes,
        &RequestRef::PWrite {
            fd,
            offset: 4096,
            bytes: data,
        },
    )?;
    Ok(bytes)
}

/// The bytes of the answer to a PRead that read that data.
pub fn read_of(alloc: Global, data: &[u8]) -> Result<List<u8>, Failure> {
    if data.len() > MOST_DATA as usize {
        return Err(Failure::Differs);
    }
    let mut bytes = List::new(alloc);
    encode_answer(
        &mut bytes,
        &Answer::Plain(PlainAnswer::PRead { bytes: data }),
    )?;
    Ok(bytes)
}
