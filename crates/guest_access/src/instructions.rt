//! Runs of a task's instructions over its address space.

ghost use Rattle.std.specs.Prelude.{◌≡◌, ℕ, ◌<◌, ◌≤◌, Some, IfOk, OnErr};
ghost use Rattle.quantum.specs.Instructions.{ran};
ghost use Rattle.kernel_model.specs.machine.Instructions.{StopsAt, next_of};
ghost use Rattle.kernel_model.specs.machine.Spaces.{acting_in, going_in};

use kernel_model::{GuestSpace, Next};
use mm_space::Handed;
use quantum::{QuantumEnd, run_at_most};
use rv_table::Regs;
use sn_base::Memory;
use std::alloc::Global;

/// A run of instructions: how many they are, and what the next one does, which is `Goes` where all that were asked for
/// ran.
#[derive(Clone, Copy, Debug, PartialEq, Eq)]
pub struct InstructionRun {
    pub count: u32,
    pub next: Next,
}

/// Runs the instructions of a task, until as many have run, or the next one traps, calls or touches a shared area. Want
/// of memory leaves what some of them, fewer than asked for, have left.
#[tactic(auto, using(crate::proofs::Runs::run_in_space, crate::proofs::Runs::next_in_space))]
pub fn run(
    alloc: Global,
    task: u32,
    registers: &mut Regs,
    space: &mut GuestSpace,
    most: u32,
) -> Result<InstructionRun, Memory>
    ensures steps { IfOk result (λ r.
        ran r.count (going_in task space.old registers.old) ≡ Some (going_in task space.new registers.new)) }
    ensures within { IfOk result (λ r. r.count ≤ most) }
    ensures stopped { IfOk result (λ r.
        StopsAt most r.count r.next (next_of (acting_in task space.new) registers.new)) }
    ensures memory { OnErr result ((n : ℕ) × (n < most)
        × (ran n (going_in task space.old registers.old) ≡ Some (going_in task space.new registers.new))) }
{
    let mut shared = Handed::none(alloc);
    match run_at_most(alloc, registers, &mut space.space, task, &mut shared, most) {
        QuantumEnd::Ended(count) => Ok(InstructionRun {
            count,
            next: Next::Goes,
        }),
        QuantumEnd::Call(count) => Ok(InstructionRun {
            count,
            next: Next::Calls,
        }),
        QuantumEnd::Trap { count, signal } => Ok(InstructionRun {
            count,
            next: Next::Traps(signal),
        }),
        QuantumEnd::Shared { count, area } => Ok(InstructionRun {
            count,
            next: Next::Touches(area),
        }),
        QuantumEnd::Memory => Err(Memory),
    }
}
