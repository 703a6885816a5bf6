//! Pipes of tasks in turns: what is on its way in one, and who has its ends.

use crate::turns::left;
use kernel_model::OpenFiles;
use std::alloc::Global;
use std::process::Abort;
use std::test::Fail;

/// Makes a pipe, writes three bytes, makes a process and loops. The process closes the write end, reads two bytes, and
/// exits.
#[rattlefmt::skip]
const SHARES_A_PIPE: &[u32] = &[
    0xff01_0413, // addi s0, sp, -16
    0x0004_0513, // mv a0, s0
    0x0000_0593, // li a1, 0
    0x03b0_0893, // li a7, 59
    0x0000_0073, // ecall
    0x0040_0513, // li a0, 4
    0x0004_0593, // mv a1, s0
    0x0030_0613, // li a2, 3
    0x0400_0893, // li a7, 64
    0x0000_0073, // ecall
    0x0110_0513, // li a0, 17
    0x0000_0593, // li a1, 0
    0x0dc0_0893, // li a7, 220
    0x0000_0073, // ecall
    0x0005_0463, // beqz a0, child
    0x0000_006f, // j .
    0x0040_0513, // child: li a0, 4
    0x0390_0893, // li a7, 57
    0x0000_0073, // ecall
    0x0030_0513, // li a0, 3
    0x0004_0593, // mv a1, s0
    0x0020_0613, // li a2, 2
    0x03f0_0893, // li a7, 63
    0x0000_0073, // ecall
    0x0070_0513, // li a0, 7
    0x05d0_0893, // li a7, 93
    0x0000_0073, // ecall
];

/// Makes a pipe, and traps.
#[rattlefmt::skip]
const TRAPS_WITH_A_PIPE: &[u32] = &[
    0xff01_0413, // addi s0, sp, -16
    0x0004_0513, // mv a0, s0
    0x0000_0593, // li a1, 0
    0x03b0_0893, // li a7, 59
    0x0000_0073, // ecall
    0x0010_0073, // ebreak
];

/// What there is of the pipe that the second entry made: how many bytes are on their way, how many descriptions its
/// read end and its write end have, and how many descriptors each of these, which is 0 where it is closed.
type Ends = (usize, [u64; 2], [u64; 2]);

/// How many descriptors have a description that the second entry made.
fn count(files: &OpenFiles, index: u32) -> u64 {
    match files.descriptions.get(2, index) {
        Some(file) => file.descriptors,
        None => 0,
    }
}

fn ends_of(files: &OpenFiles) -> Option<Ends> {
    let pipe = files.pipes.get(2, 0)?;
    Some((
        pipe.len(),
        [pipe.readers(), pipe.writers()],
        [count(files, 0), count(files, 1)],
    ))
}

/// That after so many entries of a guest there is that of the pipe.
fn expect_ends(
    rt: &impl Abort,
    alloc: Global,
    words: &[u32],
    rows: &[(u64, Option<Ends>)],
) -> Result<(), Fail> {
    for (entries, ends) in rows {
        let processes = left(alloc, words, *entries)?;
        assert!(rt; ends_of(&processes.cells.files) == *ends, "after {entries}");
    }
    Ok(())
}

/// Entries of a guest, and what there then is of its pipe.
#[rattlefmt::skip]
const SHARED: &[(u64, Option<Ends>)] = &[
    (1, None), (2, Some((0, [1, 1], [1, 1]))), (4, Some((3, [1, 1], [1, 1]))), (6, Some((3, [1, 1], [2, 2]))),
    (9, Some((3, [1, 1], [2, 1]))), (13, Some((1, [1, 1], [2, 1]))), (17, Some((1, [1, 1], [1, 1]))),
];

const TRAPPED: &[(u64, Option<Ends>)] = &[(2, Some((0, [1, 1], [1, 1]))), (3, None)];

#[test]
fn a_pipe_is_of_all_who_have_a_number_of_its_ends(rt: HostRuntime) -> Result<(), Fail> {
    expect_ends(&rt, rt.alloc(), SHARES_A_PIPE, SHARED)?;
    expect_ends(&rt, rt.alloc(), TRAPS_WITH_A_PIPE, TRAPPED)
}
