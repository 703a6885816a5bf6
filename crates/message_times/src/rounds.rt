//! A message put or read so many times.

ghost use Rattle.lisafs_wire.specs.Grammar.{answer_table, request_table};
ghost use Rattle.lisafs_wire.specs.Messages.{answered, asked};
ghost use Rattle.lisafs_wire.specs.Spelling.{IsMessageOf};

use crate::failure::Failure;
use lisafs_wire::{Answer, RequestRef, decode, decode_answer, encode, encode_answer};
use sn_base::List;
use std::alloc::Global;

/// Puts a request into the same bytes so many times.
pub fn put_requests(
    out: &mut List<u8>,
    request: &RequestRef<'_>,
    rounds: u64,
) -> Result<(), Failure>
    requires { IsMessageOf request_table (asked request.now) }
{
    for _ in 0..rounds {
        out.truncate(0);
        encode(out, request)?;
    }
    Ok(())
}

/// Puts an answer into the same bytes so many times.
pub fn put_answers(out: &mut List<u8>, answer: &Answer<'_>, rounds: u64) -> Result<(), Failure>
    requires { IsMessageOf answer_table (answered answer.now) }
{
    for _ in 0..rounds {
        out.truncate(0);
        encode_answer(out, answer)?;
    }
    Ok(())
}

/// Copies bytes into the same others so many times.
pub fn copy(out: &mut List<u8>, bytes: &[u8], rounds: u64) -> Result<(), Failure> {
    for _ in 0..rounds {
        out.truncate(0);
        out.extend_from_slice(bytes)?;
    }
    Ok(())
}

/// How often bytes were read as a request, of so many times.
pub fn read_requests(alloc: Global, bytes: &[u8], rounds: u64) -> u64 {
    let mut read = 0_u64;
    for _ in 0..rounds {
        if decode(alloc, bytes).is_ok() {
            read = read.saturating_add(1);
        }
    }
    read
}

/// How often bytes were read as an answer, of so many times.
pub fn read_answers(alloc: Global, bytes: &[u8], rounds: u64) -> u64 {
    let mut read = 0_u64;
    for _ in 0..rounds {
        if decode_answer(alloc, bytes).is_ok() {
            read = read.saturating_add(1);
        }
    }
    read
}
