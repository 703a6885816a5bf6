//! Programs as lists of words, with what they do. `image_of` makes files of them.

use crate::words::{ECALL, LI_A0_0, LI_A0_1, LI_A1_0, LI_A2_0, LI_A7_EXIT_GROUP, LI_A7_WRITE};

/// A program that runs to its end: its words, from its entry on; the bytes that it writes to descriptor 1; and the
/// status that it exits with. It needs no memory but its stack.
#[derive(Clone, Copy)]
pub struct SampleProgram {
    pub words: &'static [u32],
    pub writes: &'static [u8],
    pub status: u8,
}

/// Writes no bytes to descriptor 1, and exits with 0.
pub const WRITES_NOTHING: SampleProgram = SampleProgram {
    words: &[
        LI_A0_1,
        LI_A1_0,
        LI_A2_0,
        LI_A7_WRITE,
        ECALL,
        LI_A0_0,
        LI_A7_EXIT_GROUP,
        ECALL,
    ],
    writes: b"",
    status: 0,
};

/// Stores a double word, a word, a half word and a byte on its stack, all within the same eight bytes, and a newline in
/// the last of them. Each register but that of the newline has its letter in all its bytes, so that a store that is too
/// wide is seen. It writes the eight bytes to descriptor 1.
#[rattlefmt::skip]
pub const STORES: SampleProgram = SampleProgram {
    words: &[
        0xff01_0113, // addi sp, sp, -16
        0x0101_02b7, // lui t0, 0x1010
        0x1012_8293, // addi t0, t0, 257
        0x0202_9313, // slli t1, t0, 32
        0x0062_e2b3, // or t0, t0, t1
        0x0640_0313, // li t1, 'd'
        0x0253_0333, // mul t1, t1, t0
        0x0061_3023, // sd t1, 0(sp)
        0x0770_0313, // li t1, 'w'
        0x0253_0333, // mul t1, t1, t0
        0x0061_2023, // sw t1, 0(sp)
        0x0680_0313, // li t1, 'h'
        0x0253_0333, // mul t1, t1, t0
        0x0061_1123, // sh t1, 2(sp)
        0x0620_0313, // li t1, 'b'
        0x0253_0333, // mul t1, t1, t0
        0x0061_00a3, // sb t1, 1(sp)
        0x00a0_0313, // li t1, '\n'
        0x0061_03a3, // sb t1, 7(sp)
        0x0010_0513, // li a0, 1
        0x0001_0593, // mv a1, sp
        0x0080_0613, // li a2, 8
        0x0400_0893, // li a7, 64
        0x0000_0073, // ecall
        0x0000_0513, // li a0, 0
        0x05e0_0893, // li a7, 94
        0x0000_0073, // ecall
    ],
    writes: b"wbhhddd\n",
    status: 0,
};

/// Has 5 in a double word of its stack, adds 2 by LR and SC, tries an SC without a reservation, which fails, and adds
/// 30 by an AMO. It exits with the sum of what the AMO loaded, 7, what memory then holds, 37, and 1 for the SC that
/// failed.
#[rattlefmt::skip]
pub const ATOMICS: SampleProgram = SampleProgram {
    words: &[
        0xff01_0113, // addi sp, sp, -16
        0x0050_0293, // li t0, 5
        0x0051_3023, // sd t0, 0(sp)
        0x1001_332f, // again: lr.d t1, (sp)
        0x0023_0313, // addi t1, t1, 2
        0x1861_33af, // sc.d t2, t1, (sp)
        0xfe03_9ae3, // bnez t2, again
        0x1861_33af, // sc.d t2, t1, (sp)
        0x0070_33b3, // snez t2, t2
        0x01e0_0293, // li t0, 30
        0x0051_3e2f, // amoadd.d t3, t0, (sp)
        0x0001_3e83, // ld t4, 0(sp)
        0x01de_0533, // add a0, t3, t4
        0x0075_0533, // add a0, a0, t2
        0x05e0_0893, // li a7, 94
        0x0000_0073, // ecall
    ],
    writes: b"",
    status: 45,
};

/// Puts five random bytes below its stack pointer, writes them to descriptor 1, and exits with 0.
#[rattlefmt::skip]
pub const WRITES_RANDOM_BYTES: &[u32] = &[
    0xff01_0513, // addi a0, sp, -16
    0x0050_0593, // li a1, 5
    0x0000_0613, // li a2, 0
    0x1160_0893, // li a7, 278
    0x0000_0073, // ecall
    0x0005_0613, // mv a2, a0
    0xff01_0593, // addi a1, sp, -16
    0x0010_0513, // li a0, 1
    0x0400_0893, // li a7, 64
    0x0000_0073, // ecall
    0x0000_0513, // li a0, 0
    0x05e0_0893, // li a7, 94
    0x0000_0073, // ecall
];

/// Maps a shared page, stores 3 there and loads it, and exits with 6.
#[rattlefmt::skip]
pub const STORES_IN_A_SHARED_PAGE: &[u32] = &[
    0x0000_0513, // li a0, 0
    0x0000_15b7, // lui a1, 1
    0x0030_0613, // li a2, 3
    0x0210_0693, // li a3, 0x21
    0x0de0_0893, // li a7, 222
    0x0000_0073, // ecall
    0x0030_0293, // li t0, 3
    0x0055_3023, // sd t0, 0(a0)
    0x0005_3303, // ld t1, 0(a0)
    0x0062_8533, // add a0, t0, t1
    0x05e0_0893, // li a7, 94
    0x0000_0073, // ecall
];

/// Maps a shared page that may be read, loads from it, and stores there: signal 11.
#[rattlefmt::skip]
pub const STORES_WITHOUT_THE_RIGHT: &[u32] = &[
    0x0000_0513, // li a0, 0
    0x0000_15b7, // lui a1, 1
    0x0010_0613, // li a2, 1
    0x0210_0693, // li a3, 0x21
    0x0de0_0893, // li a7, 222
    0x0000_0073, // ecall
    0x0085_3283, // ld t0, 8(a0)
    0x0012_8293, // addi t0, t0, 1
    0x0055_3423, // sd t0, 8(a0)
];

/// Maps a shared page, stores four of its words there, and jumps to them: they exit with 33.
#[rattlefmt::skip]
pub const JUMPS_INTO_A_SHARED_PAGE: &[u32] = &[
    0x0000_0513, // li a0, 0
    0x0000_15b7, // lui a1, 1
    0x0070_0613, // li a2, 7
    0x0210_0693, // li a3, 0x21
    0x0de0_0893, // li a7, 222
    0x0000_0073, // ecall
    0x0005_0413, // mv s0, a0
    0x0000_0297, // auipc t0, 0
    0x0202_b303, // ld t1, 32(t0)
    0x0282_b383, // ld t2, 40(t0)
    0x0064_3023, // sd t1, 0(s0)
    0x0074_3423, // sd t2, 8(s0)
    0x0004_0067, // jr s0
    0x0000_0013, // nop
    0x0000_0013, // nop
    0x0210_0513, // li a0, 33
    0x05e0_0893, // li a7, 94
    0x0000_0073, // ecall
    0x0010_0073, // ebreak
];

/// Has the time put below its stack pointer, writes its 16 bytes to descriptor 1, and exits with its own number.
#[rattlefmt::skip]
pub const TELLS_THE_TIME: &[u32] = &[
    0xff01_0593, // addi a1, sp, -16
    0x0010_0513, // li a0, 1
    0x0710_0893, // li a7, 113
    0x0000_0073, // ecall
    0x0100_0613, // li a2, 16
    0x0010_0513, // li a0, 1
    0x0400_0893, // li a7, 64
    0x0000_0073, // ecall
    0x0b20_0893, // li a7, 178
    0x0000_0073, // ecall
    0x05e0_0893, // li a7, 94
    0x0000_0073, // ecall
];
