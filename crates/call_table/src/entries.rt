//! The entries of one task: runs of its instructions, its calls, and its end by a signal.

ghost use Rattle.std.specs.Prelude.{◌≡◌, ℕ, ◌+◌, ◌<◌, ◌≤◌, [], true, false, IsTrue, IsFalse, Some, None, IfOk, OnErr};
ghost use Rattle.std.specs.FinMap as map;
ghost use Rattle.task_table.specs.Table.{has_ended, is_live};
ghost use Rattle.mm_space.specs.Spaces.{AddressSpace};
ghost use Rattle.kernel_model.specs.Names.{get_named, has_named};
ghost use Rattle.kernel_model.specs.machine.Instructions.{StopsAt, goes_on, next_of, touches_area};
ghost use Rattle.kernel_model.specs.machine.Spaces.{acting_in};
ghost use Rattle.kernel_model.specs.entries.History.{is_whole};
ghost use Rattle.kernel_model.specs.entries.Steps.{step, task_of};
ghost use Rattle.kernel_model.specs.files.Numbers.{numbers_in};
ghost use Rattle.kernel_model.specs.declared.kernel.Kernel.{Kernel as AKernel};
ghost use Rattle.kernel_model.specs.entries.Waiting.{Woken, wait_of};
ghost use Rattle.proc_cells.specs.Beside.{Beside};
ghost use Rattle.proc_cells.specs.Cells.{AreKept, IsAwake, StandsAs, kernel_of};
ghost use Rattle.call_table.specs.Entries.{HasRunPart, IfEnters, IfTurnWaits, IsOf};
ghost use Rattle.call_table.specs.Entries.{IsWholeTo, NextIn, ReadyIs, RunsIn, StepsTo, is_touching};
ghost use Rattle.call_table.specs.Moves.{LeavesRest};
ghost use Rattle.call_table.specs.Parks.{Parks};

use crate::answers::{call_entry, finish, go_on, make_child, put_registers, put_to_sleep};
use crate::entered::{Entered, Turn};
use crate::moving::{Moved, move_bytes, open_pipe};
use call_fs::{CallEnd, call};
use guest_access::{InstructionRun, run, step};
use kernel_calls::{Awaited, Context, Effect, args_of, call_of, commit, end_group};
use kernel_model::{Entry, GuestSpace, Named, Next};
use parked_tasks::Spot;
use proc_cells::{Cells, Standing};
use quantum::QUANTUM;
use rv_table::Regs;
use sn_base::{Made, Memory};
use std::alloc::Global;
use task_table::Status;

/// Runs a task's next instructions over its group's memory, until one of them traps or calls, or 10,000 ran. Want of
/// memory leaves what fewer of them have left.
fn run_in(
    alloc: Global,
    task: u32,
    registers: &mut Regs,
    spaces: &mut Named<GuestSpace>,
    memory: Made,
) -> Result<InstructionRun, Memory>
    requires { IsTrue (has_named spaces.old memory.place memory.index) }
    ensures runs { IfOk result (λ r.
        RunsIn task memory r.count registers.old registers.new spaces.old spaces.new) }
    ensures within { IfOk result (λ r. r.count ≤ QUANTUM) }
    ensures stopped { IfOk result (λ r. (space : AddressSpace) →
        get_named spaces.new memory.place memory.index ≡ Some space →
        StopsAt QUANTUM r.count r.next (next_of (acting_in task space) registers.new)) }
    ensures memory { OnErr result ((n : ℕ) × (n < QUANTUM)
        × RunsIn task memory n registers.old registers.new spaces.old spaces.new) }
{
    match spaces.get_mut(memory.place, memory.index) {
        Some(space) => run(alloc, task, registers, space, QUANTUM),
        None => unreachable!(),
    }
}

/// Makes the next entry of a live task that is not on the futex list, of its context's place and seed, and does it; or
/// none, where the task's next step is not ready, which changes nothing. Want of memory leaves what some whole
/// instructions, fewer than 10,000, have left.
pub(crate) fn advance(
    alloc: Global,
    cells: &mut Cells,
    context: &Context<'_>,
    standing: &Standing,
) -> Result<Turn, Memory>
    requires stands { StandsAs cells.old context.now.task standing.now }
    requires known { IsOf context.now standing.now }
    requires alive { IsTrue (is_live cells.old.tasks.tasks context.now.task) }
    requires awake { IsAwake cells.old context.now.task }
    requires there { IsTrue (map.contains_key cells.old.tasks.groups standing.now.group) }
    requires lives { IsFalse (has_ended cells.old.tasks.groups standing.now.group) }
    requires registers { IsTrue (map.contains_key cells.old.registers context.now.task) }
    requires later { 0 < context.now.place }
    ensures step { IfEnters result (λ made.
        StepsTo cells.old cells.new context.now.seed.now context.now.place made.entry) }
    ensures whole { IfEnters result (λ made. IsWholeTo cells.old cells.new made.entry) }
    ensures task { IfEnters result (λ made. task_of made.entry ≡ context.now.task) }
    ensures numbers { IfEnters result (λ made. numbers_in made.entry ≡ []) }
    ensures ready { IfEnters result (λ made. ReadyIs cells.old context.now.task true) }
    ensures moves { IfEnters result (λ made. LeavesRest context.now.task standing.now.memory made cells.old cells.new) }
    ensures waits { IfTurnWaits result (λ _. ReadyIs cells.old context.now.task false) }
    ensures parks { IfTurnWaits result (Parks cells.old context.now.task) }
    ensures kept { IfTurnWaits result (λ _. AreKept cells.old cells.new) }
    ensures memory { OnErr result (HasRunPart context.now.task cells.old cells.new) }
{
    let task = context.task;
    let ran = run_standing(alloc, cells, task, standing)?;
    if ran.count > 0 {
        return Ok(Turn::Enters(Entered {
            entry: Entry::Run { task, n: ran.count },
            tasks: false,
            areas: false,
            touched: None,
        }));
    }
    match ran.next {
        Next::Goes => unreachable!(),
        Next::Calls => answer(alloc, cells, context, standing, false),
        Next::Traps(signal) => Ok(Turn::Enters(end(alloc, cells, context, standing, signal)?)),
        Next::Touches(_) => touch(alloc, cells, context, standing),
    }
}

/// Makes the entry of the call that a task slept in which was woken: it replies 0, and the task leaves the futex
/// list.
pub(crate) fn go_on_woken(
    alloc: Global,
    cells: &mut Cells,
    task: u32,
    standing: &Standing,
) -> Entered
    requires stands { StandsAs cells.old task standing.now }
    requires woken { wait_of cells.old.sleepers task ≡ Woken }
    requires registers { IsTrue (map.contains_key cells.old.registers task) }
    ensures step { (beside : Beside) (n : ℕ) →
        step (kernel_of cells.old beside n) result.entry ≡ Some (kernel_of cells.new beside (n + 1)) }
    ensures whole { (before after : AKernel) → is_whole result.entry before after ≡ true }
    ensures task { task_of result.entry ≡ task }
    ensures numbers { numbers_in result.entry ≡ [] }
    ensures moves { LeavesRest task standing.now.memory result cells.old cells.new }
{
    cells.sleepers.leave(task);
    go_on(cells, task, &standing.registers, 0);
    Entered {
        entry: call_entry(alloc, task, &standing.registers, 0),
        tasks: false,
        areas: false,
        touched: None,
    }
}

/// Runs a live task's next instructions. Where none ran, nothing has changed.
fn run_standing(
    alloc: Global,
    cells: &mut Cells,
    task: u32,
    standing: &Standing,
) -> Result<InstructionRun, Memory>
    requires stands { StandsAs cells.old task standing.now }
    requires lives { IsTrue (is_live cells.old.tasks.tasks task) }
    requires awake { IsAwake cells.old task }
    ensures ready { IfOk result (λ r. 0 < r.count → ReadyIs cells.old task true) }
    ensures step { IfOk result (λ r. 0 < r.count → (beside : Beside) (n : ℕ) →
        step (kernel_of cells.old beside n) (Entry.Run task r.count) ≡ Some (kernel_of cells.new beside (n + 1))) }
    ensures whole { IfOk result (λ r. (beside : Beside) (n m : ℕ) →
        is_whole (Entry.Run task r.count) (kernel_of cells.old beside n) (kernel_of cells.new beside m) ≡ true) }
    ensures moves { IfOk result (λ r. LeavesRest task standing.now.memory
        (record { entry = Entry.Run task r.count; tasks = false; areas = false; touched = None }) cells.old cells.new) }
    ensures none { IfOk result (λ r. r.count ≡ 0 → AreKept cells.old cells.new) }
    ensures next { IfOk result (λ r. r.count ≡ 0 → touches_area r.next ≡ false → NextIn cells.old task r.next) }
    ensures touching { IfOk result (λ r. r.count ≡ 0 → is_touching cells.old task ≡ touches_area r.next) }
    ensures stops { IfOk result (λ r. r.count ≡ 0 → goes_on r.next ≡ false) }
    ensures memory { OnErr result (HasRunPart task cells.old cells.new) }
{
    let mut registers = standing.registers;
    let ran = run_in(
        alloc,
        task,
        &mut registers,
        &mut cells.spaces,
        standing.memory,
    );
    put_registers(&mut cells.registers, task, &registers);
    ran
}

/// Does a live task's next instruction, which touches a shared area, as an entry of its own; where it calls or
/// traps with the areas that it touches, that is the entry. Want of memory leaves what was there.
fn touch(
    alloc: Global,
    cells: &mut Cells,
    context: &Context<'_>,
    standing: &Standing,
) -> Result<Turn, Memory>
    requires stands { StandsAs cells.old context.now.task standing.now }
    requires known { IsOf context.now standing.now }
    requires place { 0 < context.now.place }
    requires alive { IsTrue (is_live cells.old.tasks.tasks context.now.task) }
    requires awake { IsAwake cells.old context.now.task }
    requires touches { IsTrue (is_touching cells.old context.now.task) }
    requires there { IsTrue (map.contains_key cells.old.tasks.groups standing.now.group) }
    requires lives { IsFalse (has_ended cells.old.tasks.groups standing.now.group) }
    requires registers { IsTrue (map.contains_key cells.old.registers context.now.task) }
    ensures step { IfEnters result (λ made.
        StepsTo cells.old cells.new context.now.seed.now context.now.place made.entry) }
    ensures whole { IfEnters result (λ made. IsWholeTo cells.old cells.new made.entry) }
    ensures task { IfEnters result (λ made. task_of made.entry ≡ context.now.task) }
    ensures numbers { IfEnters result (λ made. numbers_in made.entry ≡ []) }
    ensures ready { IfEnters result (λ made. ReadyIs cells.old context.now.task true) }
    ensures moves { IfEnters result (λ made.
        LeavesRest context.now.task standing.now.memory made cells.old cells.new) }
    ensures waits { IfTurnWaits result (λ _. ReadyIs cells.old context.now.task false) }
    ensures parks { IfTurnWaits result (Parks cells.old context.now.task) }
    ensures kept { IfTurnWaits result (λ _. AreKept cells.old cells.new) }
    ensures memory { OnErr result (HasRunPart context.now.task cells.old cells.new) }
{
    let task = context.task;
    match step_standing(alloc, cells, task, standing)? {
        Next::Goes => Ok(Turn::Enters(Entered {
            entry: Entry::Run { task, n: 1 },
            tasks: false,
            areas: true,
            touched: None,
        })),
        Next::Calls => answer(alloc, cells, context, standing, true),
        Next::Traps(signal) => Ok(Turn::Enters(end(alloc, cells, context, standing, signal)?)),
        Next::Touches(_) => unreachable!(),
    }
}

/// Does a live task's next instruction, which touches a shared area, and answers what it does. Where that does not
/// go on, and on want of memory, nothing has changed.
fn step_standing(
    alloc: Global,
    cells: &mut Cells,
    task: u32,
    standing: &Standing,
) -> Result<Next, Memory>
    requires stands { StandsAs cells.old task standing.now }
    requires awake { IsAwake cells.old task }
    requires touches { IsTrue (is_touching cells.old task) }
    requires registers { IsTrue (map.contains_key cells.old.registers task) }
    ensures ready { IfOk result (λ next. next ≡ Next.Goes → ReadyIs cells.old task true) }
    ensures step { IfOk result (λ next. next ≡ Next.Goes → (beside : Beside) (n : ℕ) →
        step (kernel_of cells.old beside n) (Entry.Run task 1) ≡ Some (kernel_of cells.new beside (n + 1))) }
    ensures moves { IfOk result (λ next. LeavesRest task standing.now.memory
        (record { entry = Entry.Run task 1; tasks = false; areas = true; touched = None }) cells.old cells.new) }
    ensures next { IfOk result (λ next. NextIn cells.old task next) }
    ensures told { IfOk result (λ next. touches_area next ≡ false) }
    ensures kept { IfOk result (λ next. goes_on next ≡ false → AreKept cells.old cells.new) }
    ensures err { OnErr result (AreKept cells.old cells.new) }
{
    let mut registers = standing.registers;
    let Some(space) = cells
        .spaces
        .get_mut(standing.memory.place, standing.memory.index)
    else {
        unreachable!()
    };
    let next = step(alloc, task, &mut registers, space, &mut cells.areas)?;
    put_registers(&mut cells.registers, task, &registers);
    Ok(next)
}

/// Answers the call that a live task stands at, whose instruction may lie in a shared area, or puts the task to sleep,
/// or leaves it waiting. Want of memory leaves what was there.
fn answer(
    alloc: Global,
    cells: &mut Cells,
    context: &Context<'_>,
    standing: &Standing,
    in_area: bool,
) -> Result<Turn, Memory>
    requires stands { StandsAs cells.old context.now.task standing.now }
    requires known { IsOf context.now standing.now }
    requires told { in_area ≡ is_touching cells.old context.now.task }
    requires place { 0 < context.now.place }
    requires alive { IsTrue (is_live cells.old.tasks.tasks context.now.task) }
    requires awake { IsAwake cells.old context.now.task }
    requires calls { NextIn cells.old context.now.task Next.Calls }
    requires there { IsTrue (map.contains_key cells.old.tasks.groups standing.now.group) }
    requires lives { IsFalse (has_ended cells.old.tasks.groups standing.now.group) }
    requires registers { IsTrue (map.contains_key cells.old.registers context.now.task) }
    ensures step { IfEnters result (λ made.
        StepsTo cells.old cells.new context.now.seed.now context.now.place made.entry) }
    ensures whole { IfEnters result (λ made. IsWholeTo cells.old cells.new made.entry) }
    ensures task { IfEnters result (λ made. task_of made.entry ≡ context.now.task) }
    ensures numbers { IfEnters result (λ made. numbers_in made.entry ≡ []) }
    ensures ready { IfEnters result (λ made. ReadyIs cells.old context.now.task true) }
    ensures moves { IfEnters result (λ made.
        LeavesRest context.now.task standing.now.memory made cells.old cells.new) }
    ensures waits { IfTurnWaits result (λ _. ReadyIs cells.old context.now.task false) }
    ensures parks { IfTurnWaits result (Parks cells.old context.now.task) }
    ensures kept { IfTurnWaits result (λ _. AreKept cells.old cells.new) }
    ensures memory { OnErr result (HasRunPart context.now.task cells.old cells.new) }
{
    let registers = &standing.registers;
    let memory = standing.memory;
    let console = cells.console.len();
    let Some(space) = cells.spaces.get_mut(memory.place, memory.index) else {
        unreachable!()
    };
    let called = call(
        alloc,
        context,
        call_of(registers),
        registers,
        &args_of(registers),
        space,
        &mut cells.areas,
        &cells.tasks,
        &cells.sleepers,
        console,
        &cells.files,
    )?;
    match called {
        CallEnd::Of(kernel_calls::Called::Replies(prepared)) => {
            Ok(Turn::Enters(finish(alloc, cells, context, registers, prepared)))
        }
        CallEnd::Of(kernel_calls::Called::Makes(child)) => Ok(Turn::Enters(make_child(
            alloc, cells, context, registers, child,
        )?)),
        CallEnd::Of(kernel_calls::Called::Sleeps(key)) => {
            Ok(Turn::Enters(put_to_sleep(cells, context.task, key)?))
        }
        CallEnd::Of(kernel_calls::Called::Waits(awaited)) => {
            Ok(Turn::Waits(spot_of(standing, in_area, awaited)))
        }
        CallEnd::Moves { reply, transfer } => Ok(Turn::Enters(move_bytes(
            alloc,
            cells,
            context,
            registers,
            Moved {
                value: reply,
                transfer,
            },
        )?)),
        CallEnd::MakesPipe(pipe) => Ok(Turn::Enters(open_pipe(
            alloc, cells, context, registers, pipe,
        )?)),
    }
}

/// What a task used whose call waits, by how it stands.
fn spot_of(standing: &Standing, in_area: bool, awaited: Awaited) -> Spot
    ensures { result ≡ record {
      memory = standing.now.memory;
      table = standing.now.table;
      in_area = in_area;
      awaited = awaited;
    } }
{
    Spot {
        memory: standing.memory,
        table: standing.table,
        in_area,
        awaited,
    }
}

/// Ends the thread group of a live task by the signal of its next instruction's trap. Want of memory leaves what
/// was there.
fn end(
    alloc: Global,
    cells: &mut Cells,
    context: &Context<'_>,
    standing: &Standing,
    signal: u8,
) -> Result<Entered, Memory>
    requires stands { StandsAs cells.old context.now.task standing.now }
    requires known { IsOf context.now standing.now }
    requires awake { IsAwake cells.old context.now.task }
    requires traps { NextIn cells.old context.now.task (Next.Traps signal) }
    requires there { IsTrue (map.contains_key cells.old.tasks.groups standing.now.group) }
    requires lives { IsFalse (has_ended cells.old.tasks.groups standing.now.group) }
    ensures step { IfOk result (λ made.
        StepsTo cells.old cells.new context.now.seed.now context.now.place made.entry) }
    ensures whole { IfOk result (λ made. IsWholeTo cells.old cells.new made.entry) }
    ensures task { IfOk result (λ made. task_of made.entry ≡ context.now.task) }
    ensures numbers { IfOk result (λ made. numbers_in made.entry ≡ []) }
    ensures ready { IfOk result (λ made. ReadyIs cells.old context.now.task true) }
    ensures moves { IfOk result (λ made.
        LeavesRest context.now.task standing.now.memory made cells.old cells.new) }
    ensures memory { OnErr result (HasRunPart context.now.task cells.old cells.new) }
{
    let Some(space) = cells
        .spaces
        .get_mut(standing.memory.place, standing.memory.index)
    else {
        unreachable!()
    };
    let status = Status::Killed(signal);
    let ending = end_group(
        alloc,
        context,
        status,
        space,
        &mut cells.areas,
        &cells.tasks,
    )?;
    commit(
        Effect::EndsGroup(ending),
        standing.group,
        &mut cells.tasks,
        &mut cells.sleepers,
        &mut cells.files,
    );
    Ok(Entered {
        entry: Entry::End {
            task: context.task,
            signal,
        },
        tasks: true,
        areas: true,
        touched: None,
    })
}
