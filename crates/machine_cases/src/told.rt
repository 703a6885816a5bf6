//! What a step or a run came to, as text.

use crate::memory::{Reserved, Small};
use crate::task::Task;
use rv_exec::{Flow, Step};
use std::alloc::AllocError;

/// Tells a step's outcome.
pub fn tell_step(text: &mut String, step: Step) -> Result<(), AllocError> {
    match step {
        Step::Next => text.push_str("next"),
        Step::Call => text.push_str("call"),
        Step::Trap(signal) => write!(text, "trap {signal}"),
        Step::Shared(area) => write!(text, "shared {}:{}", area.place, area.index),
        Step::Memory => text.push_str("memory"),
    }
}

/// Tells where a run ended.
pub fn tell_flow(text: &mut String, flow: Flow) -> Result<(), AllocError> {
    match flow {
        Flow::Next => text.push_str("next"),
        Flow::Jump => text.push_str("jump"),
        Flow::Call => text.push_str("call"),
        Flow::Trap(signal) => write!(text, "trap {signal}"),
        Flow::Refused => text.push_str("refused"),
    }
}

fn tell_registers(
    text: &mut String,
    before: &[u64; 32],
    after: &[u64; 32],
) -> Result<(), AllocError> {
    for place in 0..32 {
        let value = after[place];
        if value != before[place] {
            write!(text, " x{place}={value:#x}")?;
        }
    }
    Ok(())
}

/// Tells each word of the page that is other, by its address.
fn tell_code(text: &mut String, before: &Small, after: &Small) -> Result<(), AllocError> {
    for place in 0..1024 {
        let word = after.word(place);
        if word != before.word(place) {
            let address = after.address(place);
            write!(text, " {address:#x}={word:08x}")?;
        }
    }
    Ok(())
}

fn tell_reserved(text: &mut String, reserved: Option<Reserved>) -> Result<(), AllocError> {
    match reserved {
        Some(it) => write!(text, " reserved={:#x}:{}", it.address, it.width),
        None => text.push_str(" reserved=none"),
    }
}

/// Tells what is other in a task's memory.
fn tell_memory(text: &mut String, before: &Small, after: &Small) -> Result<(), AllocError> {
    if after.data != before.data {
        write!(text, " data={:032x}", u128::from_be_bytes(after.data.bytes))?;
    }
    if after.code != before.code {
        tell_code(text, before, after)?;
    }
    if after.reserved != before.reserved {
        tell_reserved(text, after.reserved)?;
    }
    Ok(())
}

/// Tells what is other of a task: pc, unless it is as is awaited, registers, the sixteen bytes, words and reservation.
pub fn tell_changes(
    text: &mut String,
    before: &Task,
    after: &Task,
    awaited: u64,
) -> Result<(), AllocError> {
    if after.regs.pc != awaited {
        write!(text, " pc={:#x}", after.regs.pc)?;
    }
    tell_registers(text, &before.regs.x, &after.regs.x)?;
    tell_memory(text, &before.memory, &after.memory)
}
