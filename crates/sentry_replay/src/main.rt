//! The program `sentry_replay`: it runs what its words say as `sentry` does, over a copy of the granted folder, has the
//! plain kernel do the trace again, entry by entry, and compares what both came to.
//!
//! `main` makes the real objects (the system's files and folders) and calls `record_run` and `replay_run` of
//! `run_replay`. It writes one line to standard output: how many entries were done again, or which is no step, or what
//! is another. The status is 0 where both came to the same, and else 1. Where the run has no text, the line goes to
//! standard error, and line and status are those of `sentry`.
//!
//! Proved: the functions here are safe, and end. What the line means is proved of `replay_run` and `write_replayed`.
//!
//! Not said: what the system's files hold, when memory runs out, and that a line comes out.
//!
//! Standard: Linux man-pages, execve(2), exit_group(2).
#![tactic(auto)]

use host_folder::Folders;
use run_replay::{Replayed, record_run, replay_run, write_replayed};
use sentry_run::{Fault, report, told_words};
use sn_edge::FileSource;
use std::io;
use std::io::Write;
use std::process::ExitCode;

/// What doing the run again came to, over the real objects.
fn replay_real(rt: HostRuntime) -> Result<Replayed, Fault> {
    let words = told_words(rt)?;
    let mut files = FileSource::new(&rt);
    let mut host = Folders::new(rt);
    let run = record_run(rt.alloc(), &words, &mut files, &mut host)?;
    match replay_run(
        rt.alloc(),
        &run.outcome,
        &run.trees,
        run.flag,
        run.out.bytes(),
    ) {
        Ok(replayed) => Ok(replayed),
        Err(_) => Err(Fault::Memory),
    }
}

/// Writes the line of what it came to to standard output.
fn tell(rt: HostRuntime, replayed: Replayed) -> io::Result<()> {
    let mut out = io::writer(&rt);
    write_replayed(&mut out, replayed)?;
    out.flush()
}

/// What it came to, where standard output takes its line.
fn told(rt: HostRuntime) -> Result<Replayed, Fault> {
    let replayed = replay_real(rt)?;
    match tell(rt, replayed) {
        Ok(()) => Ok(replayed),
        Err(_) => Err(Fault::SinkFault),
    }
}

fn main(rt: HostRuntime) -> ExitCode {
    match told(rt) {
        Ok(replayed) => ExitCode::from(replayed.status()),
        Err(fault) => {
            // Where standard error takes nothing, the status still says how the run came out.
            let _ = report(rt, fault);
            ExitCode::from(fault.status())
        }
    }
}
