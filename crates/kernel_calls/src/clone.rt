//! clone: what a new task begins with.

ghost use Rattle.std.specs.Prelude.{◌≡◌, ℕ, ◌+◌, ◌<◌, ◌^◌, false, true, IfOk};
ghost use Rattle.futex_core.specs.Waiters.{FutexList};
ghost use Rattle.mm_space.specs.Spaces.{unreserved};
ghost use Rattle.task_table.specs.Table.{TaskTable};
ghost use Rattle.kernel_model.specs.declared.caller.Caller.{Caller as ACaller};
ghost use Rattle.kernel_model.specs.declared.kernel.Kernel.{Kernel as AKernel};
ghost use Rattle.kernel_model.specs.calls.Callers.{context_of};
ghost use Rattle.kernel_model.specs.calls.Clone.{bit, child_clear, child_registers, clears_child_word, clone_row};
ghost use Rattle.kernel_model.specs.calls.Clone.{cloning_of, free_flags, is_full, is_process, is_set, is_thread};
ghost use Rattle.kernel_model.specs.calls.Clone.{process_row, sets_child_word, sets_parent_word, sets_tls, thread_row};
ghost use Rattle.kernel_calls.specs.Clones.{LeavesWords, MakesIf, SetsWord, is_shape};
ghost use Rattle.kernel_calls.specs.Prepared.{Comes, EndsCaller, EndsTheirs, HasRoomFor, IfWaits, IsCalling};

use crate::Context;
use crate::calls::refused;
use crate::prepared::Called;
use crate::registers::reply;
use guest_access::write;
use kernel_model::{Args, GuestArea, GuestSpace, Named};
use rv_table::{Reg, Regs};
use sn_base::{Boxed, Memory};
use sn_errno::Errno;
use std::alloc::Global;
use task_table::{LAST_TASK, Tasks};

/// The register of the stack's end: sp, which is x2.
const SP: u8 = 2;

/// The register of the thread pointer: tp, which is x4.
const TP: u8 = 4;

/// The flags of a new process: SIGCHLD.
const PROCESS_FLAGS: u32 = 17;

/// The flags of a new thread: CLONE_VM, CLONE_FS, CLONE_FILES, CLONE_SIGHAND and CLONE_THREAD.
const THREAD_FLAGS: u32 = (1 << 8) + (1 << 9) + (1 << 10) + (1 << 11) + (1 << 16);

/// A task that a call makes: its registers, its clear word's address (or 0), its memory, where it is a process of its
/// own, and the memory that the words leave which got its number, where some did.
#[derive(Drop)]
pub struct ClonedTask {
    pub registers: Regs,
    pub clear: u64,
    pub memory: Option<GuestSpace>,
    pub words: Option<Words>,
}

/// The caller's address space and the shared areas, with the words in them that got a child's number.
#[derive(Drop)]
pub struct Words {
    pub space: GuestSpace,
    pub areas: Named<GuestArea>,
}

/// clone(flags, stack, parent_word, tls, child_word): what a new process or a new thread begins with. Flags are the low
/// 32 bits. Memory stays as it is, for others to see.
///
/// EINVAL: flags of neither shape; EAGAIN: no task more may be made; EFAULT: a byte of a word that may not be written.
#[inline(never)]
pub(crate) fn clone(
    alloc: Global,
    context: &Context<'_>,
    registers: &Regs,
    args: &Args,
    space: &mut GuestSpace,
    areas: &mut Named<GuestArea>,
    tasks: &Tasks,
) -> Result<Called, Memory>
    ensures row { IfOk result (λ d. (c : ACaller) (k : AKernel) (waiting : FutexList) (console : ℕ) →
        IsCalling c k context.now space.old areas.old tasks.now waiting console → c.registers ≡ registers.now →
        Comes (clone_row (context_of k) args.now c) d c k space.new areas.new) }
    ensures own { IfOk result (λ d. EndsCaller d context.now.task) }
    ensures ended { IfOk result (λ d. EndsTheirs d context.now.task context.now.group tasks.now) }
    ensures goes { IfOk result (λ d. IfWaits d (λ awaited. ⊥)) }
    ensures room { IfOk result (λ d. HasRoomFor d tasks.now) }
    ensures kept { space.new ≡ space.old }
    ensures kept_areas { areas.new ≡ areas.old }
{
    if !is_shape(flags_of(args)) {
        return Ok(Called::Replies(refused(Errno::EINVAL)));
    }
    if is_full(tasks) {
        return Ok(Called::Replies(refused(Errno::EAGAIN)));
    }
    let number = tasks.last() + 1;
    match made(alloc, context, registers, args, number, space, areas)? {
        Some(child) => Ok(Called::Makes(Boxed::new(alloc, child)?)),
        None => Ok(Called::Replies(refused(Errno::EFAULT))),
    }
}

// ---- the child

/// A new process or a new thread of a number, by the flags, or `None` where a word can't be written.
fn made(
    alloc: Global,
    context: &Context<'_>,
    registers: &Regs,
    args: &Args,
    number: u32,
    space: &mut GuestSpace,
    areas: &mut Named<GuestArea>,
) -> Result<Option<ClonedTask>, Memory>
    ensures made { IfOk result (λ child. (c : ACaller) (k : AKernel) (list : TaskTable) (waiting : FutexList)
        (console : ℕ) → IsCalling c k context.now space.old areas.old list waiting console →
        c.registers ≡ registers.now → number ≡ k.tasks.last + 1 → is_full k.tasks ≡ false →
        is_shape (cloning_of args.now).flags ≡ true → MakesIf (clone_row (context_of k) args.now c) child c k) }
    ensures kept { space.new ≡ space.old }
    ensures kept_areas { areas.new ≡ areas.old }
{
    if is_process(flags_of(args)) {
        process(alloc, context, registers, args, number, space, areas)
    } else {
        thread(alloc, context, registers, args, number, space, areas)
    }
}

/// A new process of a number, or `None` where a word can't be written. Its memory is a copy of the caller's as it was
/// before the call, and its word lies there.
fn process(
    alloc: Global,
    context: &Context<'_>,
    registers: &Regs,
    args: &Args,
    number: u32,
    space: &mut GuestSpace,
    areas: &mut Named<GuestArea>,
) -> Result<Option<ClonedTask>, Memory>
    ensures made { IfOk result (λ child. (c : ACaller) (k : AKernel) (list : TaskTable) (waiting : FutexList)
        (console : ℕ) → IsCalling c k context.now space.old areas.old list waiting console →
        c.registers ≡ registers.now → number ≡ k.tasks.last + 1 → is_full k.tasks ≡ false →
        MakesIf (process_row (context_of k) c (cloning_of args.now) k.tasks) child c k) }
    ensures kept { space.new ≡ space.old }
    ensures kept_areas { areas.new ≡ areas.old }
{
    let flags = flags_of(args);
    let mut memory = fork(alloc, space)?;
    if !sets_parent_word(flags) && !sets_child_word(flags) {
        return Ok(Some(new_child(registers, args, Some(memory), None)));
    }
    let task = context.task;
    let Some(mut words) = with_parent_word(alloc, task, args, number, space, areas)? else {
        return Ok(None);
    };
    if !set_child_word(alloc, task, args, number, &mut memory, &mut words.areas)? {
        return Ok(None);
    }
    Ok(Some(new_child(registers, args, Some(memory), Some(words))))
}

/// A new thread of a number, or `None` where a word can't be written. Its word lies in the memory that it shares with
/// the caller.
fn thread(
    alloc: Global,
    context: &Context<'_>,
    registers: &Regs,
    args: &Args,
    number: u32,
    space: &mut GuestSpace,
    areas: &mut Named<GuestArea>,
) -> Result<Option<ClonedTask>, Memory>
    ensures made { IfOk result (λ child. (c : ACaller) (k : AKernel) (list : TaskTable) (waiting : FutexList)
        (console : ℕ) → IsCalling c k context.now space.old areas.old list waiting console →
        c.registers ≡ registers.now → number ≡ k.tasks.last + 1 → is_full k.tasks ≡ false →
        MakesIf (thread_row c (cloning_of args.now) k.tasks) child c k) }
    ensures kept { space.new ≡ space.old }
    ensures kept_areas { areas.new ≡ areas.old }
{
    let flags = flags_of(args);
    if !sets_parent_word(flags) && !sets_child_word(flags) {
        return Ok(Some(new_child(registers, args, None, None)));
    }
    let task = context.task;
    let Some(mut words) = with_parent_word(alloc, task, args, number, space, areas)? else {
        return Ok(None);
    };
    if !set_child_word(
        alloc,
        task,
        args,
        number,
        &mut words.space,
        &mut words.areas,
    )? {
        return Ok(None);
    }
    Ok(Some(new_child(registers, args, None, Some(words))))
}

/// What a child begins with, with this memory, and with what the words leave.
fn new_child(
    registers: &Regs,
    args: &Args,
    memory: Option<GuestSpace>,
    words: Option<Words>,
) -> ClonedTask
    ensures registers { let x = cloning_of args.now in
        result.registers ≡ child_registers x.flags x.stack x.tls registers.now }
    ensures clear { let x = cloning_of args.now in result.clear ≡ child_clear x.flags x.child_word }
    ensures memory { result.memory ≡ memory }
    ensures words { result.words ≡ words }
{
    let flags = flags_of(args);
    let Args {
        a1: stack,
        a3: tls,
        a4: child_word,
        ..
    } = *args;
    ClonedTask {
        registers: child_registers(flags, stack, tls, registers),
        clear: child_clear(flags, child_word),
        memory,
        words,
    }
}

/// The child's registers: those of the caller behind its call, where the call replied 0; with a stack of its own, where
/// one is given, and with a thread pointer, with CLONE_SETTLS.
fn child_registers(flags: u32, stack: u64, tls: u64, registers: &Regs) -> Regs
    ensures { result ≡ child_registers flags stack tls registers.now }
{
    let mut registers = *registers;
    reply(&mut registers, 0);
    if stack != 0 {
        registers.write(Reg::new(SP), stack);
    }
    if sets_tls(flags) {
        registers.write(Reg::new(TP), tls);
    }
    registers
}

/// The address of the child's clear word, or 0.
fn child_clear(flags: u32, child_word: u64) -> u64
    ensures { result ≡ child_clear flags child_word }
{
    if clears_child_word(flags) {
        child_word
    } else {
        0
    }
}

// ---- memory

/// The memory of a child: the same pages, with nothing reserved. An `Err` leaves this one as it was.
fn fork(alloc: Global, space: &mut GuestSpace) -> Result<GuestSpace, Memory>
    ensures child { IfOk result (λ child. child ≡ unreserved space.old.mapping) }
    ensures kept { space.new ≡ space.old }
{
    let space = space.space.fork(alloc)?;
    Ok(GuestSpace { space })
}

/// The caller's address space and the shared areas once more, for the words that are put there.
fn copies(
    alloc: Global,
    space: &mut GuestSpace,
    areas: &mut Named<GuestArea>,
) -> Result<Words, Memory>
    ensures space { IfOk result (λ words. words.space ≡ space.old) }
    ensures areas { IfOk result (λ words. words.areas ≡ areas.old) }
    ensures kept { space.new ≡ space.old }
    ensures kept_areas { areas.new ≡ areas.old }
{
    let space = space.copy(alloc)?;
    let areas = areas.copy(alloc)?;
    Ok(Words { space, areas })
}

/// The caller's address space and the shared areas once more, with a child's number in the caller's word, where that is
/// asked for, or `None` where the word can't be written.
fn with_parent_word(
    alloc: Global,
    task: u32,
    args: &Args,
    number: u32,
    space: &mut GuestSpace,
    areas: &mut Named<GuestArea>,
) -> Result<Option<Words>, Memory>
    ensures words { IfOk result (λ words. LeavesWords task (sets_parent_word (cloning_of args.now).flags) space.old
        areas.old args.now.a2 number words) }
    ensures kept { space.new ≡ space.old }
    ensures kept_areas { areas.new ≡ areas.old }
{
    let mut words = copies(alloc, space, areas)?;
    let asked = sets_parent_word(flags_of(args));
    let Args {
        a2: parent_word,
        ..
    } = *args;
    let set = set_word(
        alloc,
        task,
        asked,
        &mut words.space,
        &mut words.areas,
        parent_word,
        number,
    )?;
    if !set {
        return Ok(None);
    }
    Ok(Some(words))
}

/// Puts a child's number into its word, where that is asked for, and answers whether the word could be written.
fn set_child_word(
    alloc: Global,
    task: u32,
    args: &Args,
    number: u32,
    space: &mut GuestSpace,
    areas: &mut Named<GuestArea>,
) -> Result<bool, Memory>
    ensures { IfOk result (λ set. SetsWord task (sets_child_word (cloning_of args.now).flags) space.old space.new
        areas.old areas.new args.now.a4 number set) }
{
    let asked = sets_child_word(flags_of(args));
    let Args { a4: child_word, .. } = *args;
    set_word(alloc, task, asked, space, areas, child_word, number)
}

/// Puts a number into a word for a task, where that is asked for, and answers whether the word could be written.
fn set_word(
    alloc: Global,
    task: u32,
    asked: bool,
    space: &mut GuestSpace,
    areas: &mut Named<GuestArea>,
    address: u64,
    number: u32,
) -> Result<bool, Memory>
    ensures { IfOk result (λ set.
        SetsWord task asked space.old space.new areas.old areas.new address number set) }
{
    if !asked {
        return Ok(true);
    }
    write(alloc, task, space, areas, address, &number.to_le_bytes())
}

// ---- the task list and the flags

/// Whether no task more may be made.
fn is_full(tasks: &Tasks) -> bool
    ensures { result ≡ is_full tasks.now }
{
    tasks.is_full() || tasks.last() >= LAST_TASK
}

/// The flags: the low 32 bits.
fn flags_of(args: &Args) -> u32
    ensures { result ≡ (cloning_of args.now).flags }
{
    let Args { a0: flags, .. } = *args;
    (flags % (1 << 32)) as u32
}

/// Those of a new process, or those of a new thread.
fn is_shape(flags: u32) -> bool
    ensures { result ≡ is_shape flags }
{
    is_process(flags) || is_thread(flags)
}

/// The flags of a new process.
fn is_process(flags: u32) -> bool
    ensures { result ≡ is_process flags }
{
    flags == PROCESS_FLAGS + free_flags(flags)
}

/// Those of a new thread.
fn is_thread(flags: u32) -> bool
    ensures { result ≡ is_thread flags }
{
    flags == THREAD_FLAGS + free_flags(flags)
}

/// Those of the flags that either may have.
fn free_flags(flags: u32) -> u32
    ensures is { result ≡ free_flags flags }
    ensures few { result < 2 ^ 25 }
{
    (1 << 18) * bit(18, flags)
        + (1 << 19) * bit(19, flags)
        + (1 << 20) * bit(20, flags)
        + (1 << 21) * bit(21, flags)
        + (1 << 22) * bit(22, flags)
        + (1 << 24) * bit(24, flags)
}

/// CLONE_SETTLS.
fn sets_tls(flags: u32) -> bool
    ensures { result ≡ sets_tls flags }
{
    is_set(19, flags)
}

/// CLONE_PARENT_SETTID.
fn sets_parent_word(flags: u32) -> bool
    ensures { result ≡ sets_parent_word flags }
{
    is_set(20, flags)
}

/// CLONE_CHILD_CLEARTID.
fn clears_child_word(flags: u32) -> bool
    ensures { result ≡ clears_child_word flags }
{
    is_set(21, flags)
}

/// CLONE_CHILD_SETTID.
fn sets_child_word(flags: u32) -> bool
    ensures { result ≡ sets_child_word flags }
{
    is_set(24, flags)
}

/// Whether a bit of the flags is set.
fn is_set(place: u32, flags: u32) -> bool
    requires { place < 32 }
    ensures { result ≡ is_set place flags }
{
    bit(place, flags) == 1
}

/// A bit of the flags.
fn bit(place: u32, flags: u32) -> u32
    requires { place < 32 }
    ensures is { result ≡ bit place flags }
    ensures few { result < 2 }
{
    flags / (1 << place) % 2
}
