//! Single instructions, by the text that an assembler takes for them, and words that are none.

/// `li a0, 0`
pub const LI_A0_0: u32 = 0x0000_0513;

/// `li a0, 1`
pub const LI_A0_1: u32 = 0x0010_0513;

/// `li a0, 2`
pub const LI_A0_2: u32 = 0x0020_0513;

/// `li a0, 3`
pub const LI_A0_3: u32 = 0x0030_0513;

/// `li a1, 0`
pub const LI_A1_0: u32 = 0x0000_0593;

/// `li a1, 1`
pub const LI_A1_1: u32 = 0x0010_0593;

/// `slli a1, a1, 38`
pub const SLLI_A1_A1_38: u32 = 0x0265_9593;

/// `ld a1, 8(sp)`
pub const LD_A1_8_SP: u32 = 0x0081_3583;

/// `mv a1, sp`
pub const MV_A1_SP: u32 = 0x0001_0593;

/// `addi a1, a1, -4`
pub const ADDI_A1_A1_MINUS_4: u32 = 0xffc5_8593;

/// `addi a1, a1, -2048`
pub const ADDI_A1_A1_MINUS_2048: u32 = 0x8005_8593;

/// `li a2, 0`
pub const LI_A2_0: u32 = 0x0000_0613;

/// `li a2, 5`
pub const LI_A2_5: u32 = 0x0050_0613;

/// `li a2, 8`
pub const LI_A2_8: u32 = 0x0080_0613;

/// `li a2, -1`
pub const LI_A2_MINUS_1: u32 = 0xfff0_0613;

/// `li a7, 64`: the number of `write`.
pub const LI_A7_WRITE: u32 = 0x0400_0893;

/// `li a7, 94`: the number of `exit_group`.
pub const LI_A7_EXIT_GROUP: u32 = 0x05e0_0893;

/// `ecall`
pub const ECALL: u32 = 0x0000_0073;

/// `ebreak`
pub const EBREAK: u32 = 0x0010_0073;

/// `nop`, which adds nothing to nothing.
pub const NOP: u32 = 0x0000_0013;

/// `j .`: a jump to itself.
pub const JUMP_TO_ITSELF: u32 = 0x0000_006f;

/// `j .+2`: a jump into the middle of the next word.
pub const JUMP_INTO_THE_NEXT_WORD: u32 = 0x0020_006f;

/// `ld a0, 0(zero)`: a load from address 0.
pub const LD_A0_FROM_0: u32 = 0x0000_3503;

/// The word of zeros, which the manual sets aside as no instruction.
pub const NO_INSTRUCTION: u32 = 0x0000_0000;
