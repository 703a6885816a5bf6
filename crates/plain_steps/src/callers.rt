//! Who calls: the live task of a number, as an entry of it finds it; what its call may read beside; and copies of the
//! shared areas, for it to work on.

ghost use Rattle.std.specs.Prelude.{◌≡◌, Some, IfOk, IfSome};
ghost use Rattle.kernel_model.specs.Names.{get_named};
ghost use Rattle.kernel_model.specs.calls.Callers.{caller_of};
ghost use Rattle.kernel_model.specs.entries.Parts.{outcome_in, parts};
ghost use Rattle.plain_steps.specs.Doing.{IsThere};

use kernel_calls::Context;
use kernel_model::{Caller, GuestArea, GuestSpace, Kernel, Named};
use sn_base::{Made, Memory};
use std::alloc::Global;

/// The live task of a number, with a copy of its address space. The kernel stays as it is.
pub(crate) fn caller(
    alloc: Global,
    kernel: &mut Kernel,
    number: u32,
) -> Result<Option<Caller>, Memory>
    ensures caller { IfOk result (λ found. outcome_in (parts kernel.old) (caller_of number) ≡ found) }
    ensures there { IfOk result (λ found. IfSome found (λ one. IsThere one kernel.old)) }
    ensures space { IfOk result (λ found. IfSome found (λ one.
        get_named kernel.old.spaces one.memory.place one.memory.index ≡ Some one.space)) }
    ensures kept { kernel.new ≡ kernel.old }
{
    let Some(task) = kernel.tasks.task(number).copied() else {
        return Ok(None);
    };
    if !task.live {
        return Ok(None);
    }
    let Some(group) = kernel.tasks.group(task.group).copied() else {
        return Ok(None);
    };
    let Some(registers) = kernel.registers.get(u64::from(number)).copied() else {
        return Ok(None);
    };
    let Some(space) = copied_space(alloc, kernel, group.memory)? else {
        return Ok(None);
    };
    Ok(Some(Caller {
        task: number,
        group: task.group,
        memory: group.memory,
        table: group.table,
        registers,
        space,
    }))
}

/// A copy of the address space of a name.
fn copied_space(
    alloc: Global,
    kernel: &mut Kernel,
    name: Made,
) -> Result<Option<GuestSpace>, Memory>
    ensures copied { IfOk result (λ copy. copy ≡ get_named kernel.old.spaces name.place name.index) }
    ensures kept { kernel.new ≡ kernel.old }
{
    match kernel.spaces.get_mut(name.place, name.index) {
        Some(space) => Ok(Some(space.copy(alloc)?)),
        None => Ok(None),
    }
}

/// A copy of all the shared areas. The kernel stays as it is.
pub(crate) fn copied_areas(alloc: Global, kernel: &mut Kernel) -> Result<Named<GuestArea>, Memory>
    ensures copied { IfOk result (λ copy. copy ≡ kernel.old.areas) }
    ensures kept { kernel.new ≡ kernel.old }
{
    kernel.areas.copy(alloc)
}

/// What a call or an end of a task may read beside its parts, by the place of its entry and the seed.
pub(crate) fn context<'a>(caller: &Caller, place: u64, seed: &'a [u8]) -> Context<'a>
    ensures task { result.task ≡ caller.now.task }
    ensures group { result.group ≡ caller.now.group }
    ensures memory { result.memory ≡ caller.now.memory }
    ensures table { result.table ≡ caller.now.table }
    ensures place { result.place ≡ place }
    ensures seed { result.seed.now ≡ seed.now }
{
    Context {
        task: caller.task,
        group: caller.group,
        memory: caller.memory,
        table: caller.table,
        place,
        seed,
    }
}
