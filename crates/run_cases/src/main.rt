//! Cases of runs of the Sentry: the program that does them over a source, a host and a sink in memory.
//!
//! A file of cases is as `read_cases` says. A block is a run. Its first lines say over what it goes, and where they say
//! nothing it is `run m --trace`, over the mount file of a mount at `/`, of the folder `root`, with room for 4,096
//! entries, a seed of zeros, and a task of `/init`; and the folder is empty. The verbs of these lines stand in
//! `setup.rt` (words, and what is to fail), `mounts.rt` (the mount file) and `folder.rt` (what stands in the folder). A
//! guest is a file of `guests/`, a line an instruction: eight digits, and what an assembler calls it.
//!
//! The other lines ask what the run came to (`answers.rt`): it is done at the first of them. A line that begins with
//! `|` is the next line of its text, with a backslash behind one that no newline ends; `end` is whether that was the
//! last. `again` begins another run over the same folder.
//!
//! Each call that a run makes of its host has to name the place of its node, and to open nothing for writing: else the
//! host has no memory (`placed.rt`). Lines that ask of such a node, of the words of a command, of a cause or of a
//! state's text go without a run (`reach.rt`, `causes.rt`, `states.rt`).
//!
//! Proved: that `run_sentry` and what stands around it are called as they require, and that no function stops. What a
//! run comes to is proved of `run_sentry`.
//!
//! Not said: that the cases are enough.
#![tactic(auto)]

mod answers;
mod causes;
mod entries;
mod folder;
mod guests;
mod mounts;
mod narrow;
mod placed;
mod prints;
mod reach;
mod run_cases;
mod runs;
mod setup;
mod states;
mod worlds;

use read_cases::do_all;
use run_cases::RunCases;
use std::process::ExitCode;

fn main(rt: HostRuntime) -> ExitCode {
    match RunCases::new(rt.alloc()) {
        Ok(mut cases) => do_all(&rt, &mut cases),
        Err(_) => ExitCode::from(2),
    }
}
