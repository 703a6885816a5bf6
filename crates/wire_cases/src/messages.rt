//! What cases of messages come to.

use crate::bytes::add_all;
use crate::reads::tell_read;
use crate::runs::{Run, put_run};
use crate::told::{error, put_answer, put_request};
use lisafs_wire::{decode, decode_answer, encode, encode_answer};
use read_cases::{Bad, Cases, parted};
use sn_base::List;
use std::alloc::Global;

/// Cases of messages, each of which stands by itself.
#[derive(Clone, Copy)]
pub struct Messages;

/// What the bytes of a request say.
fn tell_request(alloc: Global, bytes: &[u8], came: &mut String) -> Result<(), Bad> {
    match decode(alloc, bytes) {
        Ok(request) => {
            let mut again = List::new(alloc);
            encode(&mut again, &request.lend())?;
            put_request(came, &request)?;
            tell_same(came, again.as_slice(), bytes)
        }
        Err(e) => Ok(came.push_str(error(e))?),
    }
}

/// What the bytes of an answer say.
fn tell_answer(alloc: Global, bytes: &[u8], came: &mut String) -> Result<(), Bad> {
    match decode_answer(alloc, bytes) {
        Ok(answer) => {
            let mut again = List::new(alloc);
            encode_answer(&mut again, &answer)?;
            put_answer(came, &answer)?;
            tell_same(came, again.as_slice(), bytes)
        }
        Err(e) => Ok(came.push_str(error(e))?),
    }
}

fn tell_same(came: &mut String, again: &[u8], bytes: &[u8]) -> Result<(), Bad> {
    if again != bytes {
        came.push_str(" differs")?;
    }
    Ok(())
}

/// The fault of bytes as a message of either kind.
fn fault_of(alloc: Global, is_answer: bool, bytes: &[u8]) -> &'static str {
    if is_answer {
        match decode_answer(alloc, bytes) {
            Ok(_) => "none",
            Err(e) => error(e),
        }
    } else {
        match decode(alloc, bytes) {
            Ok(_) => "none",
            Err(e) => error(e),
        }
    }
}

/// The faults of all shorter beginnings.
fn tell_cuts(alloc: Global, is_answer: bool, bytes: &[u8], came: &mut String) -> Result<(), Bad> {
    let mut run = Run {
        from: 0,
        fault: fault_of(alloc, is_answer, &[]),
    };
    for count in 1..bytes.len() {
        let fault = fault_of(alloc, is_answer, &bytes[..count]);
        if fault != run.fault {
            put_run(came, run, count)?;
            run = Run { from: count, fault };
        }
    }
    put_run(came, run, bytes.len())
}

/// What is read of an answer: `OPERATION BYTES`, or `OPERATION ASKED BYTES` where what was asked for is counted.
fn read_answer(alloc: Global, text: &str, came: &mut String) -> Result<(), Bad> {
    let (operation, rest) = parted(text);
    let (asked, rest) = match operation {
        "walk" | "pread" | "pwrite" => parted(rest),
        _ => ("0", rest),
    };
    let mut bytes = Vec::new(alloc);
    let (true, Ok(asked)) = (add_all(&mut bytes, rest)?, u32::from_str_radix(asked, 10)) else {
        return Ok(came.push_str("unread")?);
    };
    tell_read(alloc, came, operation, asked, bytes.as_slice())
}

impl Cases for Messages {
    fn begin(&mut self, _rt: &HostRuntime) -> Result<(), Bad> {
        Ok(())
    }

    fn answer(&mut self, rt: &HostRuntime, case: &str, came: &mut String) -> Result<(), Bad> {
        let alloc = rt.alloc();
        let (verb, text) = parted(case);
        if verb == "read" {
            return read_answer(alloc, text, came);
        }
        let mut bytes = Vec::new(alloc);
        if !add_all(&mut bytes, text)? {
            return Ok(came.push_str("unread")?);
        }
        match verb {
            "ask" => tell_request(alloc, bytes.as_slice(), came),
            "answer" => tell_answer(alloc, bytes.as_slice(), came),
            "cut_ask" => tell_cuts(alloc, false, bytes.as_slice(), came),
            "cut_answer" => tell_cuts(alloc, true, bytes.as_slice(), came),
            _ => Ok(came.push_str("unread")?),
        }
    }
}
