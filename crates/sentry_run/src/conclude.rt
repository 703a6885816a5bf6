//! How a run comes out, and the text that it leaves in the sink.

ghost use Rattle.std.specs.Prelude.{◌≡◌, ℕ, false, List as Items, Some, IfOk};
ghost use Rattle.sn_base.specs.Faults.{HasCause};
ghost use Rattle.kernel_model.specs.printed.Printed.{printed};
ghost use Rattle.image_walk.specs.Standing.{no_left};
ghost use Rattle.sentry_run.specs.Causes.{status_of, is_sink_fault};
ghost use Rattle.sentry_run.specs.Concluded.{Writes, Concludes};
ghost use Rattle.sentry_run.specs.Sides.{side};

use crate::outcome::{Fault, Outcome};
use crate::play::{End, Played};
use crate::text::printed_text;
use kernel_model::{Left, Opening, Trace};
use mount_file::Mounts;
use sn_base::{List, Memory};
use sn_edge::{EdgeErr, Sink, write_all};
use std::alloc::Global;

/// Nothing is left beside a trace as long as no call draws a number or meets a fault.
fn nothing_left(alloc: Global) -> Left
    ensures { result ≡ no_left }
{
    Left {
        rises: List::new(alloc),
        lent: List::new(alloc),
    }
}

/// Writes the text of a run that comes out so where all of it is taken.
fn written<K: Sink>(text: Result<List<u8>, Memory>, out: &mut K, whole: Fault) -> Fault
    ensures writes { (bytes : Items ℕ) → IfOk text (λ t. t ≡ bytes) → Writes bytes whole
        (side (K.told out.old) (K.count out.old)) (side (K.told out.new) (K.count out.new)) result }
    ensures cause { is_sink_fault whole ≡ false →
        HasCause (is_sink_fault result) (K.count out.old) (K.count out.new) }
{
    let text = match text {
        Ok(text) => text,
        Err(Memory) => return Fault::Memory,
    };
    match write_all(out, text.as_slice()) {
        Ok(()) => whole,
        Err(EdgeErr::Failed) => Fault::SinkFault,
        Err(EdgeErr::Memory) => Fault::Memory,
    }
}

/// How a run comes out, once its text is written where it has one.
fn concluded<K: Sink>(alloc: Global, end: &End, trace: &Trace, flag: bool, out: &mut K) -> Fault
    ensures concludes { Concludes end.now (λ k. printed k trace.now flag)
        (side (K.told out.old) (K.count out.old)) (side (K.told out.new) (K.count out.new)) result }
    ensures cause { HasCause (is_sink_fault result) (K.count out.old) (K.count out.new) }
{
    match end {
        End::Done(kernel) => written(printed_text(alloc, kernel, trace, flag), out, Fault::Done),
        End::Full(kernel) => written(printed_text(alloc, kernel, trace, flag), out, Fault::Full),
        End::Stuck(kernel) => written(printed_text(alloc, kernel, trace, flag), out, Fault::Stuck),
        End::Image { task, errno } => Fault::Image {
            task: *task,
            errno: *errno,
        },
        End::HostFault => Fault::HostFault,
        End::Grant { mount } => Fault::Grant { mount: *mount },
        End::Memory => Fault::Memory,
    }
}

/// The outcome of a run, with its status.
pub fn outcome(
    alloc: Global,
    fault: Fault,
    opening: Opening,
    trace: Trace,
    mounts: Option<Mounts>,
) -> Outcome
    ensures status { result.status ≡ status_of result.fault }
    ensures fault { result.fault ≡ fault }
    ensures opening { result.opening ≡ opening }
    ensures trace { result.trace ≡ trace }
    ensures mounts { result.mounts ≡ mounts }
    ensures left { result.left ≡ no_left }
{
    Outcome {
        status: fault.status(),
        fault,
        opening,
        trace,
        left: nothing_left(alloc),
        mounts,
    }
}

/// Writes the text of what was played, and gives its outcome.
pub fn conclude<K: Sink>(
    alloc: Global,
    played: Played,
    mounts: Mounts,
    flag: bool,
    out: &mut K,
) -> Outcome
    ensures concludes { Concludes played.end (λ k. printed k played.trace flag)
        (side (K.told out.old) (K.count out.old)) (side (K.told out.new) (K.count out.new)) result.fault }
    ensures cause { HasCause (is_sink_fault result.fault) (K.count out.old) (K.count out.new) }
    ensures status { result.status ≡ status_of result.fault }
    ensures opening { result.opening ≡ played.opening }
    ensures trace { result.trace ≡ played.trace }
    ensures mounts { result.mounts ≡ Some mounts }
    ensures left { result.left ≡ no_left }
{
    let Played {
        end,
        opening,
        trace,
    } = played;
    let fault = concluded(alloc, &end, &trace, flag, out);
    outcome(alloc, fault, opening, trace, Some(mounts))
}
