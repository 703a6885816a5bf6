//! The cells that tasks share: none at first, and then how each opening task stands there.

use crate::guests::processes_of;
use crate::turns::expect_live;
use call_table::Processes;
use proc_cells::{Cells, Standing};
use sn_base::Made;
use sn_vectors::words::EBREAK;
use std::process::Abort;
use std::test::Fail;

#[test]
fn no_task_lives_in_new_cells(rt: HostRuntime) {
    let cells = Cells::new(rt.alloc());
    assert!(rt; !cells.any_live());
    let kernel = cells.into_kernel(rt.alloc(), 7);
    let left = (kernel.tasks.last(), kernel.console.len(), kernel.entries);
    assert_eq!(rt; left, (0, 0, 7));
}

/// That the second opening task stands so.
fn expect_second(rt: &impl Abort, processes: &Processes) {
    expect_live(rt, processes, 2);
    let Standing {
        group,
        memory,
        table,
        registers,
    } = processes.cells.standing(2);
    let named_by_number = Made { place: 0, index: 2 };
    assert_eq!(rt; (group, registers.pc), (2, 65_656));
    assert_eq!(rt; [memory, table], [named_by_number; 2]);
    assert!(rt; processes.cells.files.tables.contains(0, 2));
}

#[test]
fn an_opening_task_stands_in_a_group_memory_and_table_of_its_number(
    rt: HostRuntime,
) -> Result<(), Fail> {
    let processes = processes_of(rt.alloc(), &[&[EBREAK], &[EBREAK]])?;
    expect_second(&rt, &processes);
    Ok(())
}
