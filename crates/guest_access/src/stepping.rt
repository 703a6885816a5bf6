//! An instruction that touches shared areas, which are handed in as it asks for them.

ghost use Rattle.std.specs.Prelude.{◌≡◌, Some, None, false, IfOk, OnErr};
ghost use Rattle.mm_space.specs.Handed.{hand_of};
ghost use Rattle.quantum.specs.Instructions.{ran};
ghost use Rattle.kernel_model.specs.declared.caller.Caller.{Caller as ACaller};
ghost use Rattle.kernel_model.specs.declared.kernel.Kernel.{Kernel as AKernel};
ghost use Rattle.kernel_model.specs.machine.Instructions.{goes_on, next_of, touches_area};
ghost use Rattle.kernel_model.specs.machine.Spaces.{acting_with, going_with};
ghost use Rattle.kernel_model.specs.entries.Areas.{next_row};
ghost use Rattle.kernel_model.specs.entries.Parts.{outcome_in, parts};
ghost use Rattle.guest_access.specs.Lending.{AreThere, with_hand};
ghost use Rattle.guest_access.specs.Stepping.{IsAt, Steps};
ghost use Rattle.guest_access.specs.Trying.{StandsOver, Stepped, next_by_end};

use crate::lending::{MOST_AREAS, hand_in, take_back};
use kernel_model::{GuestArea, GuestSpace, Named, Next};
use mm_space::Handed;
use quantum::{QuantumEnd, run_at_most};
use rv_table::Regs;
use sn_base::Memory;
use std::alloc::Global;

/// Does the next instruction of a task, with the shared areas that it touches, and answers what it does: it goes on, or
/// calls or traps, which changes nothing. An `Err` changes nothing.
pub fn step(
    alloc: Global,
    task: u32,
    registers: &mut Regs,
    space: &mut GuestSpace,
    areas: &mut Named<GuestArea>,
) -> Result<Next, Memory>
    ensures next { IfOk result (λ next. (c : ACaller) (k : AKernel) →
        IsAt c k task registers.old space.old areas.old → (outcome_in (parts k) (next_row c)).next ≡ next) }
    ensures goes { IfOk result (λ next. next ≡ Next.Goes → (c : ACaller) (k : AKernel) →
        IsAt c k task registers.old space.old areas.old → Steps c k registers.new space.new areas.new) }
    ensures told { IfOk result (λ next. touches_area next ≡ false) }
    ensures kept { IfOk result (λ next. goes_on next ≡ false →
        (registers.new ≡ registers.old) × (space.new ≡ space.old) × (areas.new ≡ areas.old)) }
    ensures err { OnErr result
        ((registers.new ≡ registers.old) × (space.new ≡ space.old) × (areas.new ≡ areas.old)) }
{
    let mut handed = Handed::none(alloc);
    let next = step_with(
        alloc,
        task,
        registers,
        space,
        areas,
        &mut handed,
        MOST_AREAS,
    );
    take_back(areas, &mut handed);
    next
}

/// Does the next instruction of a task with the shared areas in hand, and with so many more at most that it asks for.
/// They stay in hand.
fn step_with(
    alloc: Global,
    task: u32,
    registers: &mut Regs,
    space: &mut GuestSpace,
    areas: &mut Named<GuestArea>,
    handed: &mut Handed,
    most: u32,
) -> Result<Next, Memory>
    requires { AreThere (hand_of handed.old) areas.old }
    ensures stepped { IfOk result (λ next. (c : ACaller) → StandsOver c task registers.old space.old →
        Stepped c most (hand_of handed.old) (with_hand (hand_of handed.old) areas.old) next registers.new space.new
        (hand_of handed.new) areas.new) }
    ensures told { IfOk result (λ next. touches_area next ≡ false) }
    ensures there { AreThere (hand_of handed.new) areas.new }
    ensures err { OnErr result ((registers.new ≡ registers.old) × (space.new ≡ space.old)
        × (with_hand (hand_of handed.new) areas.new ≡ with_hand (hand_of handed.old) areas.old)) }
{
    let next = once(alloc, task, registers, space, handed)?;
    match next {
        Next::Touches(area) => {
            if most == 0 {
                return Ok(Next::Traps(11));
            }
            if !hand_in(alloc, areas, handed, area)? {
                return Ok(Next::Traps(11));
            }
            step_with(alloc, task, registers, space, areas, handed, most - 1)
        }
        Next::Goes => Ok(Next::Goes),
        Next::Calls => Ok(Next::Calls),
        Next::Traps(signal) => Ok(Next::Traps(signal)),
    }
}

/// Does the next instruction of a task with the shared areas in hand. Where it does not go on, nothing has changed.
fn once(
    alloc: Global,
    task: u32,
    registers: &mut Regs,
    space: &mut GuestSpace,
    handed: &mut Handed,
) -> Result<Next, Memory>
    ensures next { IfOk result (λ next.
        next_of (acting_with task space.old (hand_of handed.old)) registers.old ≡ next) }
    ensures goes { IfOk result (λ next. next ≡ Next.Goes →
        ran 1 (going_with task space.old (hand_of handed.old) registers.old)
        ≡ Some (going_with task space.new (hand_of handed.new) registers.new)) }
    ensures kept { IfOk result (λ next. goes_on next ≡ false →
        (registers.new ≡ registers.old) × (space.new ≡ space.old) × (hand_of handed.new ≡ hand_of handed.old)) }
    ensures err { OnErr result
        ((registers.new ≡ registers.old) × (space.new ≡ space.old) × (hand_of handed.new ≡ hand_of handed.old)) }
{
    let end = run_at_most(alloc, registers, &mut space.space, task, handed, 1);
    next_by(end)
}

/// What the next instruction does, by how a run of at most one ended.
fn next_by(end: QuantumEnd) -> Result<Next, Memory>
    ensures next { IfOk result (λ next. next_by_end end ≡ Some next) }
    ensures err { OnErr result (next_by_end end ≡ None) }
{
    match end {
        QuantumEnd::Ended(_) => Ok(Next::Goes),
        QuantumEnd::Call(_) => Ok(Next::Calls),
        QuantumEnd::Trap { signal, .. } => Ok(Next::Traps(signal)),
        QuantumEnd::Shared { area, .. } => Ok(Next::Touches(area)),
        QuantumEnd::Memory => Err(Memory),
    }
}
