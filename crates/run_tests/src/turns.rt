//! Guests in turns, and the processes that they leave.

ghost use Rattle.std.specs.Prelude.{IsTrue};
ghost use Rattle.task_table.specs.Table.{is_live};

use crate::guests::{SEED, processes_of};
use call_table::{EndedTurns, Processes, run_turns};
use std::alloc::Global;
use std::process::Abort;
use std::test::Fail;

/// Has processes make at most so many entries. What comes out says nothing of how it came to be, so that no test's
/// proof has the contract of turns before it.
pub fn run(alloc: Global, processes: Processes, entries: u64) -> EndedTurns {
    run_turns(alloc, processes, &SEED, entries)
}

/// The processes that a guest leaves that makes so many entries.
pub fn left(alloc: Global, words: &[u32], entries: u64) -> Result<Processes, Fail> {
    let processes = processes_of(alloc, &[words])?;
    let EndedTurns { processes, .. } = run(alloc, processes, entries);
    match processes {
        Some(processes) => Ok(processes),
        None => Err(Fail::new("memory")),
    }
}

/// Aborts unless a task lives.
pub fn expect_live(rt: &impl Abort, processes: &Processes, number: u32)
    ensures { IsTrue (is_live processes.now.cells.tasks.tasks number) }
{
    let live = match processes.cells.tasks.task(number) {
        Some(task) => task.live,
        None => false,
    };
    assert!(rt; live);
}
