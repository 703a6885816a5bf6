//! The program `sentry`: it runs the tasks of a mount file in turn, over a granted folder, and gives their output, how
//! each thread group ended, and the trace of their calls.
//!
//! `main` makes the real objects (the system's files, folders and standard output) and calls `run_sentry` of
//! `sentry_run`, which a caller may give a host in memory instead. Then it writes one line to standard error where the
//! run has no text, and ends with the run's status.
//!
//! Proved: the functions here are safe, and end. What a run comes to is proved of `run_sentry`.
//!
//! Not said: what the system's files hold, when memory runs out, and that the line on standard error comes out.
//!
//! Standard: Linux man-pages, execve(2), write(2), exit_group(2), path_resolution(7); RISC-V Unprivileged ISA 20191213.
#![tactic(auto)]

use host_folder::Folders;
use sentry_run::{Fault, report, run_sentry, told_words};
use sn_edge::{FileSource, StdSink};
use std::io;
use std::process::ExitCode;

/// How a run of the program comes out, over the real objects.
fn run_real(rt: HostRuntime) -> Fault {
    match told_words(rt) {
        Ok(words) => {
            let mut files = FileSource::new(&rt);
            let mut host = Folders::new(rt);
            let mut out = StdSink::new(io::writer(&rt));
            run_sentry(rt.alloc(), &words, &mut files, &mut host, &mut out).fault
        }
        Err(fault) => fault,
    }
}

fn main(rt: HostRuntime) -> ExitCode {
    let fault = run_real(rt);
    // Where standard error takes nothing, the status still says how the run came out.
    let _ = report(rt, fault);
    ExitCode::from(fault.status())
}
