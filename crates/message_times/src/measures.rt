//! Each message put and read, beside a copy of as many bytes as a message has at the most.

use crate::bytes::{block, bytes_of, read_of, write_of};
use crate::failure::Failure;
use crate::lines::{Measured, Plan, tell, tell_copy};
use crate::rounds::{copy, put_answers, put_requests, read_answers, read_requests};
use crate::rows::{ANSWERS, REQUESTS};
use lisafs_wire::{decode, decode_answer};
use sn_base::List;
use std::time::Instant;

fn measure_request(rt: &HostRuntime, plan: Plan, name: &str, bytes: &[u8]) -> Result<(), Failure> {
    let alloc = rt.alloc();
    let Ok(request) = decode(alloc, bytes) else {
        return Err(Failure::Differs);
    };
    let mut out = List::new(alloc);
    let start = Instant::now(rt)?;
    put_requests(&mut out, &request.lend(), plan.rounds)?;
    let putting = start.elapsed(rt)?;
    let start = Instant::now(rt)?;
    let read = read_requests(alloc, bytes, plan.rounds);
    let reading = start.elapsed(rt)?;
    if out.as_slice() != bytes || read != plan.rounds {
        return Err(Failure::Differs);
    }
    let size = bytes.len();
    tell(
        rt,
        plan,
        Measured {
            kind: "request",
            name,
            size,
            putting,
            reading,
        },
    )
}

fn measure_answer(rt: &HostRuntime, plan: Plan, name: &str, bytes: &[u8]) -> Result<(), Failure> {
    let alloc = rt.alloc();
    let Ok(answer) = decode_answer(alloc, bytes) else {
        return Err(Failure::Differs);
    };
    let mut out = List::new(alloc);
    let start = Instant::now(rt)?;
    put_answers(&mut out, &answer, plan.rounds)?;
    let putting = start.elapsed(rt)?;
    let start = Instant::now(rt)?;
    let read = read_answers(alloc, bytes, plan.rounds);
    let reading = start.elapsed(rt)?;
    if out.as_slice() != bytes || read != plan.rounds {
        return Err(Failure::Differs);
    }
    let size = bytes.len();
    tell(
        rt,
        plan,
        Measured {
            kind: "answer",
            name,
            size,
            putting,
            reading,
        },
    )
}

/// The two messages whose data is as long as may be, beside a copy of that data.
fn measure_blocks(rt: &HostRuntime, plan: Plan) -> Result<(), Failure> {
    let alloc = rt.alloc();
    let data = block(alloc)?;
    let request = write_of(alloc, data.as_slice())?;
    measure_request(rt, plan, "PWrite of a block", request.as_slice())?;
    let answer = read_of(alloc, data.as_slice())?;
    measure_answer(rt, plan, "PRead of a block", answer.as_slice())?;
    let mut out = List::new(alloc);
    let start = Instant::now(rt)?;
    copy(&mut out, data.as_slice(), plan.rounds)?;
    tell_copy(rt, plan, data.len(), start.elapsed(rt)?)
}

/// All messages.
pub fn measure(rt: &HostRuntime, plan: Plan) -> Result<(), Failure> {
    for row in REQUESTS {
        let bytes = bytes_of(rt.alloc(), row.digits)?;
        measure_request(rt, plan, row.name, bytes.as_slice())?;
    }
    for row in ANSWERS {
        let bytes = bytes_of(rt.alloc(), row.digits)?;
        measure_answer(rt, plan, row.name, bytes.as_slice())?;
    }
    measure_blocks(rt, plan)
}
