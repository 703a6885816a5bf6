//! The descriptors of tasks in turns: a process has a copy of its parent's, a thread shares its group's, and a group
//! that ends closes its own.

use crate::turns::{expect_live, left};
use fd_table::{Descriptor, FdTable};
use kernel_model::OpenFiles;
use sn_base::{List, Made};
use sn_vectors::programs::WRITES_NOTHING;
use sn_vectors::words::EBREAK;
use std::alloc::Global;
use std::process::Abort;
use std::test::Fail;

/// Makes a process.
#[rattlefmt::skip]
const FORKS: &[u32] = &[
    0x0110_0513, // li a0, 17
    0x0000_0593, // li a1, 0
    0x0dc0_0893, // li a7, 220
    0x0000_0073, // ecall
];

/// Makes a thread: CLONE_VM, CLONE_FS, CLONE_FILES, CLONE_SIGHAND and CLONE_THREAD.
#[rattlefmt::skip]
const MAKES_A_THREAD: &[u32] = &[
    0x0001_1537, // lui a0, 17
    0xf005_0513, // addi a0, a0, -256
    0x0000_0593, // li a1, 0
    0x0dc0_0893, // li a7, 220
    0x0000_0073, // ecall
];

/// The child exits with 7, and its maker loops.
#[rattlefmt::skip]
const CHILD_EXITS: &[u32] = &[
    0x0005_0463, // beqz a0, child
    0x0000_006f, // j .
    0x0070_0513, // child: li a0, 7
    0x05d0_0893, // li a7, 93
    0x0000_0073, // ecall
];

/// The words of a guest that makes a child so, which exits.
fn with_child(alloc: Global, makes: &[u32]) -> Result<List<u32>, Fail> {
    let mut words = List::new(alloc);
    words.extend_from_slice(makes)?;
    words.extend_from_slice(CHILD_EXITS)?;
    Ok(words)
}

/// What is open after so many entries: whether task 1's table is there, and one that the second entry made, and how
/// many descriptors each open file description has that task 1 began with, or `None` where it is closed.
#[derive(Clone, Copy)]
struct Open {
    entries: u64,
    own: bool,
    made: bool,
    descriptors: Option<u64>,
}

/// Whether a number stands for the description of task 1 of that index.
fn stands(table: &FdTable, fd: u32, index: u32) -> bool {
    let description = Made { place: 0, index };
    let descriptor = Descriptor {
        description,
        cloexec: false,
    };
    table.get(fd) == Some(descriptor)
}

/// Whether a table, where it is to be there, has the descriptors that task 1 began with.
fn is_table(table: Option<&FdTable>, there: bool) -> bool {
    let Some(table) = table else { return !there };
    there && table.len() == 3 && stands(table, 0, 3) && stands(table, 1, 4) && stands(table, 2, 5)
}

/// How many descriptors have a description of task 1, by its index.
fn count(files: &OpenFiles, index: u32) -> Option<u64> {
    Some(files.descriptions.get(0, index)?.descriptors)
}

/// Whether all of that is open.
fn is_open(files: &OpenFiles, open: &Open) -> bool {
    let counts = [count(files, 3), count(files, 4), count(files, 5)];
    is_table(files.tables.get(0, 1), open.own)
        && is_table(files.tables.get(2, 0), open.made)
        && counts == [open.descriptors; 3]
}

/// That after so many entries each of these is open of a guest.
fn expect_open(rt: &impl Abort, alloc: Global, words: &[u32], opens: &[Open]) -> Result<(), Fail> {
    for open in opens {
        let processes = left(alloc, words, open.entries)?;
        assert!(rt;
            is_open(&processes.cells.files, open),
            "after {}",
            open.entries
        );
    }
    Ok(())
}

/// The name of the table that task 2 has after two entries.
fn childs_table(rt: &impl Abort, alloc: Global, words: &[u32]) -> Result<Made, Fail> {
    let processes = left(alloc, words, 2)?;
    expect_live(rt, &processes, 2);
    Ok(processes.cells.standing(2).table)
}

#[rattlefmt::skip]
const WITH_A_PROCESS: &[Open] = &[
    Open { entries: 1, own: true, made: false, descriptors: Some(1) },
    Open { entries: 2, own: true, made: true, descriptors: Some(2) },
    Open { entries: 4, own: true, made: true, descriptors: Some(2) },
    Open { entries: 5, own: true, made: false, descriptors: Some(1) },
];

#[test]
fn a_process_has_a_copy_of_its_parents_descriptors_until_it_ends(
    rt: HostRuntime,
) -> Result<(), Fail> {
    let words = with_child(rt.alloc(), FORKS)?;
    let table = childs_table(&rt, rt.alloc(), words.as_slice())?;
    assert_eq!(rt; table, Made { place: 2, index: 0 });
    expect_open(&rt, rt.alloc(), words.as_slice(), WITH_A_PROCESS)
}

#[rattlefmt::skip]
const WITH_A_THREAD: &[Open] = &[
    Open { entries: 2, own: true, made: false, descriptors: Some(1) },
    Open { entries: 5, own: true, made: false, descriptors: Some(1) },
];

#[test]
fn a_thread_shares_its_groups_descriptors_and_its_exit_closes_none(
    rt: HostRuntime,
) -> Result<(), Fail> {
    let words = with_child(rt.alloc(), MAKES_A_THREAD)?;
    let table = childs_table(&rt, rt.alloc(), words.as_slice())?;
    assert_eq!(rt; table, Made { place: 0, index: 1 });
    expect_open(&rt, rt.alloc(), words.as_slice(), WITH_A_THREAD)
}

#[rattlefmt::skip]
const WITH_AN_EXIT: &[Open] = &[
    Open { entries: 3, own: true, made: false, descriptors: Some(1) },
    Open { entries: 4, own: false, made: false, descriptors: None },
];

#[test]
fn a_group_that_exits_closes_its_descriptors(rt: HostRuntime) -> Result<(), Fail> {
    expect_open(&rt, rt.alloc(), WRITES_NOTHING.words, WITH_AN_EXIT)
}

#[rattlefmt::skip]
const WITH_A_TRAP: &[Open] = &[
    Open { entries: 0, own: true, made: false, descriptors: Some(1) },
    Open { entries: 1, own: false, made: false, descriptors: None },
];

#[test]
fn a_group_that_a_signal_ends_closes_its_descriptors(rt: HostRuntime) -> Result<(), Fail> {
    expect_open(&rt, rt.alloc(), &[EBREAK], WITH_A_TRAP)
}
