//! Runs that are done again: the trace of a run, entry by entry, by the plain kernel.
//!
//! A caller has a run of the Sentry over a copy of the folders that its words grant (`record_run`), and has the plain
//! kernel do its trace again from the opening over that copy (`replay_run`). `Replayed` says what that came to, and
//! `write_replayed` writes its line. The run goes by the functions of the program `sentry`; the plain kernel goes by
//! the definitions alone, over one state, and nothing of the run stands on it.
//!
//! Proved: `replay_run` answers what is so of the definitions' kernel, over these trees, by this record, trace and
//! text: that each entry is a step and that they lead to the text, how many are steps and that the next is none, that
//! they lead to another text, or that there is no kernel to begin with (`Says` of specs/Replays.antt). What is recorded
//! has its text (`text`), with the trace where the words ask for it (`flag`). Lines and statuses are those of
//! specs/Lines.antt.
//!
//! Not said: that a run's trace can be done again. The contract of `run_sentry` says so; here it is tried.
//!
//! Standard: none.
#![tactic(auto)]

mod lines;
mod replays;
mod runs;

pub use lines::write_replayed;
pub use replays::{Replayed, replay_run};
pub use runs::{Recording, record_run};
