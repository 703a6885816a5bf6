//! A task that a call made takes its place among the others.

ghost use Rattle.std.specs.Prelude.{◌≡◌, IsTrue, OnErr, OnOk};
ghost use Rattle.std.specs.FinMap as map;
ghost use Rattle.std.specs.Ordering.{nat_cmp};
ghost use Rattle.rv_table.specs.declared.registers.Regs.{Regs as ARegs};
ghost use Rattle.task_table.specs.Clones.{forked, threaded};
ghost use Rattle.task_table.specs.Table.{is_live};
ghost use Rattle.kernel_model.specs.Names.{has_named, with_named};
ghost use Rattle.kernel_model.specs.declared.caller.Caller.{Caller as ACaller};
ghost use Rattle.kernel_model.specs.declared.kernel.Kernel.{Kernel as AKernel};
ghost use Rattle.kernel_model.specs.laws.Room.{IsRoomFor};
ghost use Rattle.kernel_model.specs.laws.Files.{with_copy};
ghost use Rattle.kernel_calls.specs.Making.{with_new_child, with_new_task, with_words};

use crate::Context;
use crate::clone::{ClonedTask, Words};
use file_changes::copy_table;
use kernel_model::{GuestArea, GuestSpace, Named, OpenFiles};
use rv_table::Regs;
use sn_base::{Made, Map, Memory};
use std::alloc::Global;
use task_table::{CloneErr, Tasks};

/// Makes a child of a live task: it takes the next number, and what it begins with its place. An `Err` changes nothing.
///
/// clone(2).
pub fn make(
    alloc: Global,
    context: &Context<'_>,
    child: ClonedTask,
    tasks: &mut Tasks,
    registers: &mut Map<Regs>,
    spaces: &mut Named<GuestSpace>,
    areas: &mut Named<GuestArea>,
    files: &mut OpenFiles,
) -> Result<(), Memory>
    requires lives { IsTrue (is_live tasks.old.tasks context.now.task) }
    requires room { IsRoomFor tasks.old }
    requires memory { IsTrue (has_named spaces.old context.now.memory.place context.now.memory.index) }
    ensures ok { OnOk result ((c : ACaller) (k : AKernel) → c.task ≡ context.now.task →
        c.memory ≡ context.now.memory → c.table ≡ context.now.table →
        k.tasks ≡ tasks.old → k.registers ≡ registers.old → k.spaces ≡ spaces.old →
        k.areas ≡ areas.old → k.files ≡ files.old → with_new_child child context.now.place c k ≡ record k {
          tasks = tasks.new;
          registers = registers.new;
          spaces = spaces.new;
          areas = areas.new;
          files = files.new;
        }) }
    ensures err { OnErr result (tasks.new ≡ tasks.old) }
    ensures err_registers { OnErr result (registers.new ≡ registers.old) }
    ensures err_spaces { OnErr result (spaces.new ≡ spaces.old) }
    ensures err_areas { OnErr result (areas.new ≡ areas.old) }
    ensures err_files { OnErr result (files.new ≡ files.old) }
{
    let number = u64::from(tasks.last()) + 1;
    let before = registers.get(number).copied();
    registers.insert(number, child.registers)?;
    let made = make_task(alloc, context, child, tasks, spaces, areas, files);
    if made.is_err() {
        put_back(registers, number, before);
    }
    made
}

/// The registers of a number that were set are what they were before, so that the map is as it was. It takes no memory.
fn put_back(registers: &mut Map<Regs>, number: u64, before: Option<Regs>)
    requires { IsTrue (map.contains_key registers.old number) }
    ensures { (m : map.FinMap nat_cmp ARegs) (r : ARegs) → registers.old ≡ map.insert m number r →
        before ≡ map.get m number → registers.new ≡ m }
{
    match before {
        Some(before) => registers.replace(number, before),
        None => {
            let _ = registers.remove(number);
        }
    }
}

/// Makes a child but for its registers: its place in the task list, its memory and descriptor table, and the words that
/// got its number. An `Err` changes nothing.
///
/// The words go in last, where nothing can be refused any more, and not at all into a memory that the child's replaces.
fn make_task(
    alloc: Global,
    context: &Context<'_>,
    child: ClonedTask,
    tasks: &mut Tasks,
    spaces: &mut Named<GuestSpace>,
    areas: &mut Named<GuestArea>,
    files: &mut OpenFiles,
) -> Result<(), Memory>
    requires lives { IsTrue (is_live tasks.old.tasks context.now.task) }
    requires room { IsRoomFor tasks.old }
    requires memory { IsTrue (has_named spaces.old context.now.memory.place context.now.memory.index) }
    ensures ok { OnOk result ((c : ACaller) (k : AKernel) → c.task ≡ context.now.task →
        c.memory ≡ context.now.memory → c.table ≡ context.now.table →
        k.tasks ≡ tasks.old → k.spaces ≡ spaces.old → k.areas ≡ areas.old →
        k.files ≡ files.old → with_new_task context.now.place child.memory child.clear c (with_words child.words c k)
        ≡ record k { tasks = tasks.new; spaces = spaces.new; areas = areas.new; files = files.new }) }
    ensures err { OnErr result (tasks.new ≡ tasks.old) }
    ensures err_spaces { OnErr result (spaces.new ≡ spaces.old) }
    ensures err_areas { OnErr result (areas.new ≡ areas.old) }
    ensures err_files { OnErr result (files.new ≡ files.old) }
{
    let ClonedTask {
        clear,
        memory,
        words,
        ..
    } = child;
    match memory {
        None => {
            make_thread(context.task, clear, tasks)?;
            put_words(context.memory, words, spaces, areas);
        }
        Some(memory) => {
            let name = Made {
                place: context.place,
                index: 0,
            };
            make_process(alloc, context, name, memory, clear, tasks, spaces, files)?;
            if context.memory == name {
                put_areas(words, areas);
            } else {
                put_words(context.memory, words, spaces, areas);
            }
        }
    }
    Ok(())
}

/// Makes a thread of a live task's group. An `Err` changes nothing.
///
/// clone(2), CLONE_THREAD.
fn make_thread(task: u32, clear: u64, tasks: &mut Tasks) -> Result<(), Memory>
    requires lives { IsTrue (is_live tasks.old.tasks task) }
    requires room { IsRoomFor tasks.old }
    ensures ok { OnOk result (tasks.new ≡ threaded tasks.old task clear) }
    ensures err { OnErr result (tasks.new ≡ tasks.old) }
{
    match tasks.thread(task, clear) {
        Ok(_) => Ok(()),
        Err(CloneErr::Memory) => Err(Memory),
        Err(CloneErr::Full) => unreachable!(),
    }
}

/// Makes a process, whose parent is a live task's group, with a memory of that name and with a copy of the group's
/// descriptor table, which has the name too. An `Err` changes nothing: where they get no place, the task is taken back.
///
/// fork(2).
fn make_process(
    alloc: Global,
    context: &Context<'_>,
    name: Made,
    memory: GuestSpace,
    clear: u64,
    tasks: &mut Tasks,
    spaces: &mut Named<GuestSpace>,
    files: &mut OpenFiles,
) -> Result<(), Memory>
    requires lives { IsTrue (is_live tasks.old.tasks context.now.task) }
    requires room { IsRoomFor tasks.old }
    ensures ok { OnOk result (tasks.new ≡ forked tasks.old context.now.task name name clear) }
    ensures ok_spaces { OnOk result (spaces.new ≡ with_named spaces.old name.place name.index memory) }
    ensures ok_files { OnOk result (files.new ≡ with_copy context.now.table name files.old) }
    ensures err { OnErr result (tasks.new ≡ tasks.old) }
    ensures err_spaces { OnErr result (spaces.new ≡ spaces.old) }
    ensures err_files { OnErr result (files.new ≡ files.old) }
{
    match tasks.fork(context.task, name, name, clear) {
        Ok(_) => {}
        Err(CloneErr::Memory) => return Err(Memory),
        Err(CloneErr::Full) => unreachable!(),
    }
    let placed = place(alloc, context.table, name, memory, spaces, files);
    if placed.is_err() {
        tasks.unmake();
    }
    placed
}

/// A new process gets its memory, and a copy of a descriptor table, under its name. An `Err` changes nothing: where the
/// copy gets no place, the memory is taken back.
fn place(
    alloc: Global,
    table: Made,
    name: Made,
    memory: GuestSpace,
    spaces: &mut Named<GuestSpace>,
    files: &mut OpenFiles,
) -> Result<(), Memory>
    ensures ok { OnOk result (spaces.new ≡ with_named spaces.old name.place name.index memory) }
    ensures ok_files { OnOk result (files.new ≡ with_copy table name files.old) }
    ensures err { OnErr result (spaces.new ≡ spaces.old) }
    ensures err_files { OnErr result (files.new ≡ files.old) }
{
    let former = spaces.put(alloc, name.place, name.index, memory)?;
    let copied = copy_table(alloc, table, name, files);
    if copied.is_err() {
        spaces.give_back(name.place, name.index, former);
    }
    copied
}

/// The caller's memory and the shared areas are as the words leave them that got the child's number, where some did. It
/// takes no memory.
fn put_words(
    memory: Made,
    words: Option<Words>,
    spaces: &mut Named<GuestSpace>,
    areas: &mut Named<GuestArea>,
)
    requires { IsTrue (has_named spaces.old memory.place memory.index) }
    ensures { (c : ACaller) (k : AKernel) → c.memory ≡ memory → k.spaces ≡ spaces.old → k.areas ≡ areas.old →
        with_words words c k ≡ record k { spaces = spaces.new; areas = areas.new } }
{
    if let Some(words) = words {
        spaces.replace(memory.place, memory.index, words.space);
        *areas = words.areas;
    }
}

/// The shared areas alone are as the words leave them. It takes no memory.
fn put_areas(words: Option<Words>, areas: &mut Named<GuestArea>)
    ensures { (c : ACaller) (k : AKernel) → k.areas ≡ areas.old → (with_words words c k).areas ≡ areas.new }
{
    if let Some(words) = words {
        *areas = words.areas;
    }
}
