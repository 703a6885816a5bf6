//! What becomes of the call that a task stands at: it replies, makes a child, or puts the task to sleep; and ends.

ghost use Rattle.std.specs.Prelude.{◌≡◌, ◌+◌, [], true, IsTrue, IfOk, OnErr, pos};
ghost use Rattle.std.specs.FinMap as map;
ghost use Rattle.std.specs.Ordering.{nat_cmp};
ghost use Rattle.futex_core.specs.Waiters.{after_sleep};
ghost use Rattle.rv_table.specs.declared.registers.Regs.{Regs as ARegs};
ghost use Rattle.task_table.specs.Table.{is_live};
ghost use Rattle.kernel_model.specs.Names.{has_named};
ghost use Rattle.kernel_model.specs.declared.caller.Caller.{Caller as ACaller};
ghost use Rattle.kernel_model.specs.declared.entry.Entry.TheVariants.{Call as ACall, Sleep as ASleep};
ghost use Rattle.kernel_model.specs.declared.kernel.Kernel.{Kernel as AKernel};
ghost use Rattle.kernel_model.specs.laws.Room.{IsRoomFor};
ghost use Rattle.kernel_model.specs.machine.Registers.{args_of, call_of, replied};
ghost use Rattle.kernel_calls.specs.Making.{with_new_child};
ghost use Rattle.kernel_calls.specs.Prepared.{EndsEach, EndsLive, EndsOnly, with_effect};
ghost use Rattle.proc_cells.specs.Cells.{AreKept, IsAwake};
ghost use Rattle.parked_tasks.specs.Untouched.{changes_list};
ghost use Rattle.call_table.specs.Moves.{LeavesRest};
ghost use Rattle.sn_base.specs.declared.made.Made.{Made as AMade};

use crate::entered::Entered;
use futex_core::FutexKey;
use kernel_calls::{
    ClonedTask, Context, Effect, Prepared, args_of, call_of, commit, make, reply, sleep,
};
use kernel_model::{Entry, Given};
use parked_tasks::touched_by;
use proc_cells::Cells;
use rv_table::Regs;
use sn_base::{Boxed, List, Map, Memory};
use std::alloc::Global;

/// The entry of a call that drew nothing and met nothing.
pub(crate) fn call_entry(alloc: Global, task: u32, registers: &Regs, value: i64) -> Entry
    ensures { result
        ≡ ACall task (call_of registers.now) (args_of registers.now) (record { fresh = []; rises = [] }) value }
{
    Entry::Call {
        task,
        no: call_of(registers),
        args: args_of(registers),
        given: Given {
            fresh: List::new(alloc),
            rises: List::new(alloc),
        },
        reply: value,
    }
}

/// Puts a task's registers in the place of those that it has.
pub(crate) fn put_registers(all: &mut Map<Regs>, task: u32, registers: &Regs)
    requires { IsTrue (map.contains_key all.old task) }
    ensures { all.new ≡ map.insert all.old task registers.now }
{
    match all.get_mut(u64::from(task)) {
        Some(place) => *place = *registers,
        None => unreachable!(),
    }
}

/// A task goes on behind its call, with a reply.
pub(crate) fn go_on(cells: &mut Cells, task: u32, registers: &Regs, value: i64)
    requires { IsTrue (map.contains_key cells.old.registers task) }
    ensures registers { cells.new.registers ≡ map.insert cells.old.registers task (replied registers.now value) }
    ensures tasks { cells.new.tasks ≡ cells.old.tasks }
    ensures spaces { cells.new.spaces ≡ cells.old.spaces }
    ensures areas { cells.new.areas ≡ cells.old.areas }
    ensures files { cells.new.files ≡ cells.old.files }
    ensures sleepers { cells.new.sleepers ≡ cells.old.sleepers }
    ensures console { cells.new.console ≡ cells.old.console }
{
    let mut after = *registers;
    reply(&mut after, value);
    put_registers(&mut cells.registers, task, &after);
}

/// Does what a call comes to that replies, and lets its task go on. It tells too that the call may have stored into a
/// shared area, which was done before.
pub(crate) fn finish(
    alloc: Global,
    cells: &mut Cells,
    context: &Context<'_>,
    registers: &Regs,
    prepared: Prepared,
) -> Entered
    requires awake { IsAwake cells.old context.now.task }
    requires lives { EndsLive prepared.effect context.now.group cells.old.tasks }
    requires own { EndsOnly prepared.effect context.now.task }
    requires ended { EndsEach prepared.effect context.now.task context.now.group cells.old.tasks }
    requires registered { IsTrue (map.contains_key cells.old.registers context.now.task) }
    ensures does { (k : AKernel) → k.tasks ≡ cells.old.tasks → k.sleepers ≡ cells.old.sleepers →
        k.files ≡ cells.old.files →
        with_effect prepared.effect context.now.group k ≡ record k {
          tasks = cells.new.tasks;
          sleepers = cells.new.sleepers;
          files = cells.new.files;
        } }
    ensures entry { result.entry ≡ ACall context.now.task (call_of registers.now) (args_of registers.now)
        (record { fresh = []; rises = [] }) prepared.reply }
    ensures moves { LeavesRest context.now.task context.now.memory result cells.old cells.new }
    ensures told { result.areas ≡ true }
    ensures registers { cells.new.registers
        ≡ map.insert cells.old.registers context.now.task (replied registers.now prepared.reply) }
    ensures spaces { cells.new.spaces ≡ cells.old.spaces }
    ensures areas { cells.new.areas ≡ cells.old.areas }
    ensures console { cells.new.console ≡ cells.old.console }
{
    let Prepared {
        reply: value,
        effect,
    } = prepared;
    let tasks = changes_list(&effect);
    let touched = touched_by(&effect, &cells.files);
    commit(
        effect,
        context.group,
        &mut cells.tasks,
        &mut cells.sleepers,
        &mut cells.files,
    );
    go_on(cells, context.task, registers, value);
    let entry = call_entry(alloc, context.task, registers, value);
    Entered {
        entry,
        tasks,
        areas: true,
        touched,
    }
}

/// Whether an effect changes the task list.
fn changes_list(effect: &Effect) -> bool
    ensures { result ≡ changes_list effect.now }
{
    match effect {
        Effect::Nothing => false,
        Effect::EndsGroup(_) => true,
        Effect::EndsTask { .. } => true,
        Effect::SetsClear { .. } => true,
        Effect::Wakes { .. } => false,
        Effect::Reaps { .. } => true,
        Effect::ChangesFiles { .. } => false,
    }
}

/// Makes the child that a call makes, and lets its task go on with the child's number. An `Err` changes nothing.
#[inline(never)]
pub(crate) fn make_child(
    alloc: Global,
    cells: &mut Cells,
    context: &Context<'_>,
    registers: &Regs,
    child: Boxed<ClonedTask>,
) -> Result<Entered, Memory>
    requires awake { IsAwake cells.old context.now.task }
    requires lives { IsTrue (is_live cells.old.tasks.tasks context.now.task) }
    requires room { IsRoomFor cells.old.tasks }
    requires memory { IsTrue (has_named cells.old.spaces context.now.memory.place context.now.memory.index) }
    requires registered { IsTrue (map.contains_key cells.old.registers context.now.task) }
    ensures does { IfOk result (λ _. (between : map.FinMap nat_cmp ARegs)
        × (cells.new.registers
        ≡ map.insert between context.now.task (replied registers.now (pos (cells.old.tasks.last + 1))))
        × ((c : ACaller) (k : AKernel) → c.task ≡ context.now.task → c.memory ≡ context.now.memory →
        c.table ≡ context.now.table → k.tasks ≡ cells.old.tasks → k.registers ≡ cells.old.registers →
        k.spaces ≡ cells.old.spaces → k.areas ≡ cells.old.areas → k.files ≡ cells.old.files →
        with_new_child child context.now.place c k ≡ record k {
          tasks = cells.new.tasks;
          registers = between;
          spaces = cells.new.spaces;
          areas = cells.new.areas;
          files = cells.new.files;
        })) }
    ensures entry { IfOk result (λ made. made.entry ≡ ACall context.now.task (call_of registers.now)
        (args_of registers.now) (record { fresh = []; rises = [] }) (pos (cells.old.tasks.last + 1))) }
    ensures moves { IfOk result (λ made.
        LeavesRest context.now.task context.now.memory made cells.old cells.new) }
    ensures sleepers { cells.new.sleepers ≡ cells.old.sleepers }
    ensures console { cells.new.console ≡ cells.old.console }
    ensures err { OnErr result (AreKept cells.old cells.new) }
{
    let value = i64::from(cells.tasks.last() + 1);
    make(
        alloc,
        context,
        child.into_inner(),
        &mut cells.tasks,
        &mut cells.registers,
        &mut cells.spaces,
        &mut cells.areas,
        &mut cells.files,
    )?;
    go_on(cells, context.task, registers, value);
    let entry = call_entry(alloc, context.task, registers, value);
    Ok(Entered {
        entry,
        tasks: true,
        areas: true,
        touched: None,
    })
}

/// Puts a task to sleep. An `Err` changes nothing.
pub(crate) fn put_to_sleep(cells: &mut Cells, task: u32, key: FutexKey) -> Result<Entered, Memory>
    requires { IsAwake cells.old task }
    ensures sleeps { IfOk result (λ _. cells.new.sleepers ≡ after_sleep cells.old.sleepers task key) }
    ensures entry { IfOk result (λ made. made.entry ≡ ASleep task) }
    ensures moves { IfOk result (λ made. (memory : AMade) → LeavesRest task memory made cells.old cells.new) }
    ensures registers { cells.new.registers ≡ cells.old.registers }
    ensures tasks { cells.new.tasks ≡ cells.old.tasks }
    ensures spaces { cells.new.spaces ≡ cells.old.spaces }
    ensures areas { cells.new.areas ≡ cells.old.areas }
    ensures files { cells.new.files ≡ cells.old.files }
    ensures console { cells.new.console ≡ cells.old.console }
    ensures err { OnErr result (AreKept cells.old cells.new) }
{
    sleep(&mut cells.sleepers, task, key)?;
    Ok(Entered {
        entry: Entry::Sleep { task },
        tasks: false,
        areas: false,
        touched: None,
    })
}
