//! The decoder's rows of atomic instructions.

ghost use Rattle.std.specs.Prelude.{◌≡◌, option_to_list, ◌++◌};
ghost use Rattle.rv_table.specs.Fields.{funct3_of, funct5_of, rs2_of};
ghost use Rattle.rv_table.specs.Table.{by_two, by_three, r_format, load_reserved_format, load_reserveds, atomics};

use crate::Instr;
use crate::fields::{rd, rs1, rs2};

/// By funct3 and funct5; LR by rs2 too, which is 0. The bits aq and rl are not looked at.
pub fn atomic(word: u32) -> Option<Instr>
    ensures { by_three load_reserved_format funct3_of funct5_of rs2_of load_reserveds word
        ++ by_two r_format funct3_of funct5_of atomics word ≡ option_to_list result }
{
    let rd = rd(word);
    let rs1 = rs1(word);
    let rs2 = rs2(word);
    match ((word >> 12) % 8, word >> 27, (word >> 20) % 32) {
        (2, 2, 0) => Some(Instr::LrW { rd, rs1 }),
        (2, 3, _) => Some(Instr::ScW { rd, rs1, rs2 }),
        (2, 1, _) => Some(Instr::AmoswapW { rd, rs1, rs2 }),
        (2, 0, _) => Some(Instr::AmoaddW { rd, rs1, rs2 }),
        (2, 4, _) => Some(Instr::AmoxorW { rd, rs1, rs2 }),
        (2, 12, _) => Some(Instr::AmoandW { rd, rs1, rs2 }),
        (2, 8, _) => Some(Instr::AmoorW { rd, rs1, rs2 }),
        (2, 16, _) => Some(Instr::AmominW { rd, rs1, rs2 }),
        (2, 20, _) => Some(Instr::AmomaxW { rd, rs1, rs2 }),
        (2, 24, _) => Some(Instr::AmominuW { rd, rs1, rs2 }),
        (2, 28, _) => Some(Instr::AmomaxuW { rd, rs1, rs2 }),
        (3, 2, 0) => Some(Instr::LrD { rd, rs1 }),
        (3, 3, _) => Some(Instr::ScD { rd, rs1, rs2 }),
        (3, 1, _) => Some(Instr::AmoswapD { rd, rs1, rs2 }),
        (3, 0, _) => Some(Instr::AmoaddD { rd, rs1, rs2 }),
        (3, 4, _) => Some(Instr::AmoxorD { rd, rs1, rs2 }),
        (3, 12, _) => Some(Instr::AmoandD { rd, rs1, rs2 }),
        (3, 8, _) => Some(Instr::AmoorD { rd, rs1, rs2 }),
        (3, 16, _) => Some(Instr::AmominD { rd, rs1, rs2 }),
        (3, 20, _) => Some(Instr::AmomaxD { rd, rs1, rs2 }),
        (3, 24, _) => Some(Instr::AmominuD { rd, rs1, rs2 }),
        (3, 28, _) => Some(Instr::AmomaxuD { rd, rs1, rs2 }),
        _ => None,
    }
}
