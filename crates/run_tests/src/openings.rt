//! Processes of no task: none lives, and they make no entries.

use crate::turns::run;
use call_table::{EndedTurns, Processes};
use std::alloc::Global;
use std::process::Abort;
use std::test::Fail;

/// That processes are there, none of which lives, and that they made no entries.
fn expect_nothing(rt: &impl Abort, alloc: Global, ended: EndedTurns) -> Result<(), Fail> {
    let EndedTurns { processes, trace } = ended;
    assert!(rt; trace.is_empty());
    let Some(processes) = processes else {
        return Err(Fail::new("memory"));
    };
    assert!(rt; !processes.cells.any_live());
    let kernel = processes.cells.into_kernel(alloc, 0);
    assert_eq!(rt; (kernel.console.len(), kernel.entries), (0, 0));
    Ok(())
}

#[test]
fn no_processes_make_no_entries(rt: HostRuntime) -> Result<(), Fail> {
    let processes = Processes::new(rt.alloc());
    assert_eq!(rt; processes.cells.tasks.last(), 0);
    assert!(rt; processes.cells.tasks.next_live(0).is_none());
    let ended = run(rt.alloc(), processes, 4096);
    expect_nothing(&rt, rt.alloc(), ended)
}
