//! The text of a run: the console, the groups, and where it is asked for the trace.

ghost use Rattle.std.specs.Prelude.{◌≡◌, IfOk, is_ok};
ghost use Rattle.kernel_model.specs.printed.Printed.{printed, console_text, is_closed};

mod calls;
mod groups;
mod trace;

use kernel_model::{Kernel, Trace};
use sn_base::{List, Memory};
use std::alloc::Global;
use std::io;

/// The text that a run prints: the console's bytes, closed by a newline; a line for each thread group, ascending by
/// its number; and where `flag` asks for it a line for each call and each end of the trace, under its place.
pub fn printed_text(
    alloc: Global,
    kernel: &Kernel,
    trace: &Trace,
    flag: bool,
) -> Result<List<u8>, Memory>
    ensures { IfOk result (λ t. t ≡ printed kernel.now trace.now flag) }
{
    let mut out = console_text(alloc, kernel.console.as_slice())?;
    groups::push_groups(alloc, &mut out, kernel.tasks.groups())?;
    if flag {
        trace::push_trace(&mut out, trace.as_slice())?;
    }
    Ok(List::from_vec(out))
}

/// The console's bytes, and a newline where they are not empty and do not end with one.
fn console_text(alloc: Global, console: &[u8]) -> Result<Vec<u8>, Memory>
    ensures { IfOk result (λ t. t.items ≡ console_text console.now) }
{
    let mut out = Vec::from_slice(alloc, console)?;
    if !is_closed(console) {
        out.push(b'\n')?;
    }
    Ok(out)
}

/// Whether bytes end with a newline, or there are none.
#[tactic(auto, using(crate::proofs::Closed::closed_last, crate::proofs::Closed::closed_empty))]
fn is_closed(bytes: &[u8]) -> bool
    ensures { result ≡ is_closed bytes.now }
{
    match bytes.last() {
        Some(last) => *last == b'\n',
        None => true,
    }
}

/// What came of a write to a vector, which nothing but want of memory can stop.
fn written(outcome: io::Result<()>) -> Result<(), Memory>
    ensures { is_ok result ≡ is_ok outcome }
{
    outcome.map_err(|_| Memory)
}
