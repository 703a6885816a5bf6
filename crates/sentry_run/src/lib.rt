//! A run of the Sentry, from its words to its text: the tasks of a mount file, in turn, over granted folders, with
//! their output, how each thread group ended, and the trace of their calls.
//!
//! A caller gives `run_sentry` the words, a source of mount files, a host and a sink: the system's own, as the program
//! `sentry` does, or others in memory. It has an `Outcome` back, whose `Fault` says how the run came out. `report`
//! writes one line to standard error where the run has no text. `told_words` asks the system for the words,
//! `read_words` reads them as a `Command`, `load_mounts` reads its mount file, and `printed_text` makes the text of a
//! state and a trace.
//!
//! Proved of `run_sentry`: each answer has its cause (`usage`, `mounts`, `source_fault`, `grant_first`, `image`,
//! `host_fault`, `sink_fault`, `done`, `full`, `stuck`), and each cause its answer (the clauses that end in `exact`);
//! what is accepted comes to its end (`complete`), the trace is a history of the one-thread kernel from the opening
//! with each Run whole (`history`, `bound`, `empty`), inode numbers run up without a gap (`gapless`, `below`), what no
//! entry has is of few tasks (`left_tasks`), the text is that of the state which the trace leaves (`text`,
//! `text_front`, `text_none`), and the world is the one before with that state's trees in place of the granted folders
//! (`world`, `image_world`, `image_alike`, `world_same`, `outside`, `inside`). What names a tree holds where the host
//! tells its tree.
//!
//! Not said: what the system's files hold, when memory runs out, and that the line on standard error comes out.
//!
//! Standard: Linux man-pages, execve(2), write(2), exit_group(2), path_resolution(7); RISC-V Unprivileged ISA 20191213.
#![tactic(auto)]

mod conclude;
mod error_line;
mod grants;
mod outcome;
mod play;
mod run;
mod text;
mod words;

pub use error_line::{report, write_line};
pub use outcome::{Fault, Outcome};
pub use run::{load_mounts, run_sentry};
pub use text::printed_text;
pub use words::{Command, read_words, told_words};
