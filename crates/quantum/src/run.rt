//! Runs of a task's instructions over its address space.

ghost use Rattle.std.specs.Prelude.{◌≡◌, Some};
ghost use Rattle.mm_space.specs.Spaces.{reach};
ghost use Rattle.quantum.specs.Acting.{acting_on};
ghost use Rattle.quantum.specs.Ends.{Few, LacksMemory, Ran, Stopped, end_of};
ghost use Rattle.quantum.specs.Turns.{acting_of};

use crate::acting::Acting;
use crate::turn::Stop;
use mm_areas::Areas;
use mm_space::{Handed, Hints, Space};
use rv_table::{Area, Regs};
use std::alloc::Global;
use std::mem;

/// The most instructions of a run of a task, before another task has its turn.
pub const QUANTUM: u32 = 10_000;

/// How a run of instructions ended, and how many there were.
///
/// - `Ended`: with as many as there may be.
/// - `Call`: before one that is a system call, which is not done here.
/// - `Trap`: before one that traps with that signal.
/// - `Shared`: before one that touches that shared area, which is not handed in.
/// - `Memory`: memory was wanting for one.
#[derive(Clone, Copy, Debug, PartialEq, Eq)]
pub enum QuantumEnd {
    Ended(u32),
    Call(u32),
    Trap { count: u32, signal: u8 },
    Shared { count: u32, area: Area },
    Memory,
}

/// Runs a task's instructions over its address space, and the shared areas that are handed in, until `QUANTUM` ran or
/// one calls the system, traps or touches another shared area.
pub fn run_quantum(
    alloc: Global,
    regs: &mut Regs,
    space: &mut Space,
    task: u32,
    shared: &mut Handed,
) -> QuantumEnd
    ensures ran { Ran (record { acting = acting_on task (reach space.old shared.old); registers = regs.old })
        (record { acting = acting_on task (reach space.new shared.new); registers = regs.new }) result }
    ensures few { Few QUANTUM result }
    ensures stopped { Stopped (record { acting = acting_on task (reach space.new shared.new); registers = regs.new })
        result }
    ensures memory { LacksMemory (record { acting = acting_on task (reach space.old shared.old); registers = regs.old })
        (record { acting = acting_on task (reach space.new shared.new); registers = regs.new }) QUANTUM result }
{
    run_at_most(alloc, regs, space, task, shared, QUANTUM)
}

/// Runs a task's instructions as `run_quantum` does, at most so many.
#[inline(never)]
pub fn run_at_most(
    alloc: Global,
    regs: &mut Regs,
    space: &mut Space,
    task: u32,
    shared: &mut Handed,
    most: u32,
) -> QuantumEnd
    ensures ran { Ran (record { acting = acting_on task (reach space.old shared.old); registers = regs.old })
        (record { acting = acting_on task (reach space.new shared.new); registers = regs.new }) result }
    ensures few { Few most result }
    ensures stopped { Stopped (record { acting = acting_on task (reach space.new shared.new); registers = regs.new })
        result }
    ensures memory { LacksMemory (record { acting = acting_on task (reach space.old shared.old); registers = regs.old })
        (record { acting = acting_on task (reach space.new shared.new); registers = regs.new }) most result }
{
    let mut acting = Acting {
        alloc,
        task,
        space: mem::replace(space, Space::of(alloc, Areas::new(alloc, 0))),
        handed: mem::replace(shared, Handed::none(alloc)),
        hints: Hints::new(),
    };
    let end = acting.run(regs, most);
    let Acting {
        space: left,
        handed,
        ..
    } = acting;
    *space = left;
    *shared = handed;
    end
}

impl Acting {
    /// Runs instructions, at most so many.
    fn run(&mut self, regs: &mut Regs, most: u32) -> QuantumEnd
        ensures ran { Ran (record { acting = acting_of self.old; registers = regs.old })
            (record { acting = acting_of self.new; registers = regs.new }) result }
        ensures few { Few most result }
        ensures stopped { Stopped (record { acting = acting_of self.new; registers = regs.new }) result }
        ensures memory { LacksMemory (record { acting = acting_of self.old; registers = regs.old })
            (record { acting = acting_of self.new; registers = regs.new }) most result }
        ensures task { self.new.task ≡ self.old.task }
    {
        let mut count = 0;
        for _turn in 0..most {
            if count >= most {
                return QuantumEnd::Ended(count);
            }
            let turn = self.turn(regs, most - count);
            count += turn.count;
            if let Some(stop) = turn.stop {
                return end_of(count, stop);
            }
        }
        QuantumEnd::Ended(count)
    }
}

/// How a run ends by what stops it, after so many instructions.
fn end_of(count: u32, stop: Stop) -> QuantumEnd
    ensures { result ≡ end_of count stop }
{
    match stop {
        Stop::Call => QuantumEnd::Call(count),
        Stop::Trap(signal) => QuantumEnd::Trap { count, signal },
        Stop::Shared(area) => QuantumEnd::Shared { count, area },
        Stop::Memory => QuantumEnd::Memory,
    }
}
