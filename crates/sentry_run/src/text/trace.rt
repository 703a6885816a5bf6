//! The lines of a trace.

ghost use Rattle.std.specs.Prelude.{◌≡◌, ◌++◌, OnOk, codes};
ghost use Rattle.std.specs.Fmt.{decimal};
ghost use Rattle.sn_errno.specs.Calls.{call_name};
ghost use Rattle.kernel_model.specs.printed.Printed.{argument_text, arguments_text, reply_text, entry_text, trace_text};

use super::calls::push_name;
use super::written;
use kernel_model::{Args, Entry};
use sn_base::Memory;
use sn_errno::CallNo;
use std::io::Write;

/// Adds the lines of a trace, the first of whose entries has place 1.
pub fn push_trace(out: &mut Vec<u8>, trace: &[Entry]) -> Result<(), Memory>
    ensures { OnOk result (out.new.items ≡ out.old.items ++ trace_text 1 trace.now) }
{
    for (index, entry) in trace.iter().enumerate() {
        push_entry(out, index + 1, entry)?;
    }
    Ok(())
}

/// Adds the line of an entry at a place, where it has one.
#[tactic(auto, using(std::proofs::Common::append_assoc))]
fn push_entry(out: &mut Vec<u8>, place: usize, entry: &Entry) -> Result<(), Memory>
    ensures { OnOk result (out.new.items ≡ out.old.items ++ entry_text place entry.now) }
{
    match entry {
        Entry::Run { .. } => Ok(()),
        Entry::Sleep { .. } => Ok(()),
        Entry::Call {
            task,
            no,
            args,
            reply,
            ..
        } => {
            push_head(out, place, *task)?;
            push_call(out, *no, args, *reply)
        }
        Entry::End { task, signal } => {
            push_head(out, place, *task)?;
            written(writeln!(out, "signal {signal}"))
        }
    }
}

/// Adds what a line begins with: the place of its entry, and the task.
fn push_head(out: &mut Vec<u8>, place: usize, task: u32) -> Result<(), Memory>
    ensures { OnOk result (out.new.items ≡ out.old.items ++
        (decimal place ++ codes " " ++ decimal task ++ codes " ")) }
{
    written(write!(out, "{place} {task} "))
}

/// Adds the rest of a call's line: its name, its arguments and its reply.
#[tactic(auto, using(std::proofs::Common::append_assoc))]
fn push_call(out: &mut Vec<u8>, number: u64, args: &Args, reply: i64) -> Result<(), Memory>
    ensures { OnOk result (out.new.items ≡ out.old.items ++
        (call_name number ++ arguments_text args.now
        ++ codes " = " ++ reply_text number reply ++ codes "\n")) }
{
    push_name(out, number)?;
    push_arguments(out, args)?;
    push_reply(out, number, reply)
}

/// Adds the six arguments of a call.
fn push_arguments(out: &mut Vec<u8>, args: &Args) -> Result<(), Memory>
    ensures { OnOk result (out.new.items ≡ out.old.items ++ arguments_text args.now) }
{
    for argument in [args.a0, args.a1, args.a2, args.a3, args.a4, args.a5] {
        push_argument(out, argument)?;
    }
    Ok(())
}

/// Adds an argument of a call, as a signed number of 64 bits.
fn push_argument(out: &mut Vec<u8>, argument: u64) -> Result<(), Memory>
    ensures { OnOk result (out.new.items ≡ out.old.items ++ argument_text argument) }
{
    let signed = argument.cast_signed();
    written(write!(out, " {signed}"))
}

/// Adds the reply of a call, and ends its line. exit and exit_group have no reply.
fn push_reply(out: &mut Vec<u8>, number: u64, reply: i64) -> Result<(), Memory>
    ensures { OnOk result (out.new.items ≡ out.old.items ++
        (codes " = " ++ reply_text number reply ++ codes "\n")) }
{
    match CallNo::of(number) {
        Some(CallNo::Exit | CallNo::ExitGroup) => written(writeln!(out, " = ?")),
        _ => written(writeln!(out, " = {reply}")),
    }
}
