//! Calls that move bytes, and those that make a pipe: the doing of them, and what they touch.

ghost use Rattle.std.specs.Prelude.{◌≡◌, [], IsTrue, IfOk, OnErr, Some, pos};
ghost use Rattle.std.specs.FinMap as map;
ghost use Rattle.mm_space.specs.Spaces.{AddressSpace};
ghost use Rattle.kernel_model.specs.Names.{get_named, has_named};
ghost use Rattle.kernel_model.specs.declared.caller.Caller.{Caller as ACaller};
ghost use Rattle.kernel_model.specs.declared.entry.Entry.TheVariants.{Call as ACall};
ghost use Rattle.kernel_model.specs.declared.kernel.Kernel.{Kernel as AKernel};
ghost use Rattle.kernel_model.specs.calls.Answers.{Answer};
ghost use Rattle.kernel_model.specs.calls.Callers.{Context as RowContext};
ghost use Rattle.kernel_model.specs.calls.Pipes.{pipe_made};
ghost use Rattle.kernel_model.specs.entries.Parts.{Prog, changed};
ghost use Rattle.kernel_model.specs.machine.Registers.{args_of, call_of, replied};
ghost use Rattle.call_fs.specs.CallEnd.{MayLack};
ghost use Rattle.call_fs.specs.Pipes.{MakesPipe};
ghost use Rattle.call_fs.specs.Transfers.{FitsPipe, after_transfer};
ghost use Rattle.proc_cells.specs.Cells.{AreKept, IsAwake};
ghost use Rattle.call_table.specs.Moves.{LeavesRest};
ghost use Rattle.call_table.specs.Moving.{IsMaking, may_have_read, one_pipe, touched_by_pipe, touched_by_transfer};

use crate::answers::{call_entry, go_on};
use crate::entered::Entered;
use call_fs::{NewPipe, Transfer, commit_transfer, make_pipe};
use kernel_calls::Context;
use parked_tasks::{Touched, UpToTwo};
use proc_cells::Cells;
use rv_table::Regs;
use sn_base::{Boxed, Made, Memory};
use std::alloc::Global;

/// A call that moves bytes: what it replies, and the bytes.
#[derive(Drop)]
pub(crate) struct Moved {
    pub(crate) value: i64,
    pub(crate) transfer: Transfer,
}

/// Moves the bytes of a call that replies, and lets its task go on. What a read stores it has stored before; it tells
/// too whether that may be so. An `Err` changes nothing.
pub(crate) fn move_bytes(
    alloc: Global,
    cells: &mut Cells,
    context: &Context<'_>,
    registers: &Regs,
    moved: Moved,
) -> Result<Entered, Memory>
    requires awake { IsAwake cells.old context.now.task }
    requires memory { IsTrue (has_named cells.old.spaces context.now.memory.place context.now.memory.index) }
    requires room { FitsPipe moved.transfer cells.old.files }
    requires registered { IsTrue (map.contains_key cells.old.registers context.now.task) }
    ensures does { IfOk result (λ _. (space : AddressSpace) (k : AKernel) →
        get_named cells.old.spaces context.now.memory.place context.now.memory.index ≡ Some space →
        k.areas ≡ cells.old.areas → k.files ≡ cells.old.files → k.console ≡ cells.old.console →
        after_transfer moved.transfer space k ≡ record k { files = cells.new.files; console = cells.new.console }) }
    ensures entry { IfOk result (λ made. made.entry ≡ ACall context.now.task (call_of registers.now)
        (args_of registers.now) (record { fresh = []; rises = [] }) moved.value) }
    ensures moves { IfOk result (λ made.
        LeavesRest context.now.task context.now.memory made cells.old cells.new) }
    ensures told { IfOk result (λ made. made.areas ≡ may_have_read moved.transfer) }
    ensures registers { IfOk result (λ _. cells.new.registers
        ≡ map.insert cells.old.registers context.now.task (replied registers.now moved.value)) }
    ensures tasks { cells.new.tasks ≡ cells.old.tasks }
    ensures spaces { cells.new.spaces ≡ cells.old.spaces }
    ensures areas { cells.new.areas ≡ cells.old.areas }
    ensures sleepers { cells.new.sleepers ≡ cells.old.sleepers }
    ensures err { OnErr result (AreKept cells.old cells.new) }
    ensures lacking { OnErr result (MayLack moved.transfer) }
{
    let Some(space) = cells.spaces.get(context.memory.place, context.memory.index) else {
        unreachable!()
    };
    let Moved { value, transfer } = moved;
    let areas = may_have_read(&transfer);
    let touched = touched_by_transfer(&transfer);
    commit_transfer(
        alloc,
        transfer,
        space,
        &mut cells.areas,
        &mut cells.files,
        &mut cells.console,
    )?;
    go_on(cells, context.task, registers, value);
    Ok(Entered {
        entry: call_entry(alloc, context.task, registers, value),
        tasks: false,
        areas,
        touched,
    })
}

/// Makes the pipe of a call, and lets its task go on with 0. An `Err` changes nothing.
pub(crate) fn open_pipe(
    alloc: Global,
    cells: &mut Cells,
    context: &Context<'_>,
    registers: &Regs,
    new: Boxed<NewPipe>,
) -> Result<Entered, Memory>
    requires awake { IsAwake cells.old context.now.task }
    requires memory { IsTrue (has_named cells.old.spaces context.now.memory.place context.now.memory.index) }
    requires registered { IsTrue (map.contains_key cells.old.registers context.now.task) }
    ensures does { IfOk result (λ _. (row : Prog Answer) (of_row : RowContext) (c : ACaller) (k : AKernel)
        (makes : MakesPipe row new of_row c k) → IsMaking context.now cells.old of_row c k →
        changed (pipe_made of_row c new.ends.buffer new.ends.flags makes.hand makes.table
        (new.ends.first, new.ends.second)).changes k
        ≡ record k { spaces = cells.new.spaces; areas = cells.new.areas; files = cells.new.files }) }
    ensures entry { IfOk result (λ made. made.entry ≡ ACall context.now.task (call_of registers.now)
        (args_of registers.now) (record { fresh = []; rises = [] }) (pos 0)) }
    ensures moves { IfOk result (λ made. (row : Prog Answer) (of_row : RowContext) (c : ACaller) (k : AKernel) →
        MakesPipe row new of_row c k → IsMaking context.now cells.old of_row c k →
        LeavesRest context.now.task context.now.memory made cells.old cells.new) }
    ensures registers { IfOk result (λ _. cells.new.registers
        ≡ map.insert cells.old.registers context.now.task (replied registers.now (pos 0))) }
    ensures tasks { cells.new.tasks ≡ cells.old.tasks }
    ensures sleepers { cells.new.sleepers ≡ cells.old.sleepers }
    ensures console { cells.new.console ≡ cells.old.console }
    ensures err { OnErr result (AreKept cells.old cells.new) }
{
    let Some(space) = cells
        .spaces
        .get_mut(context.memory.place, context.memory.index)
    else {
        unreachable!()
    };
    make_pipe(
        alloc,
        context,
        new.into_inner(),
        space,
        &mut cells.areas,
        &mut cells.files,
    )?;
    go_on(cells, context.task, registers, 0);
    Ok(Entered {
        entry: call_entry(alloc, context.task, registers, 0),
        tasks: false,
        areas: true,
        touched: Some(touched_by_pipe(context.table, context.place)),
    })
}

/// What a call touches that moves bytes.
fn touched_by_transfer(transfer: &Transfer) -> Option<Touched>
    ensures { result ≡ touched_by_transfer transfer.now }
{
    match transfer {
        Transfer::Nothing => None,
        Transfer::Takes { pipe, .. } => Some(one_pipe(*pipe)),
        Transfer::Puts { pipe, .. } => Some(one_pipe(*pipe)),
        Transfer::Appends { .. } => None,
    }
}

/// Whether a call that moves bytes may have stored into a shared area.
fn may_have_read(transfer: &Transfer) -> bool
    ensures { result ≡ may_have_read transfer.now }
{
    match transfer {
        Transfer::Nothing => true,
        Transfer::Takes { .. } => true,
        Transfer::Puts { .. } => false,
        Transfer::Appends { .. } => false,
    }
}

/// A pipe alone.
fn one_pipe(pipe: Made) -> Touched
    ensures { result ≡ one_pipe pipe }
{
    Touched {
        table: None,
        descriptions: UpToTwo {
            first: None,
            second: None,
        },
        pipes: UpToTwo {
            first: Some(pipe),
            second: None,
        },
    }
}

/// What a call touches that makes a pipe: the descriptor table, both descriptions, and the pipe, at the entry's place.
fn touched_by_pipe(table: Made, place: u64) -> Touched
    ensures { result ≡ touched_by_pipe table place }
{
    let pipe = Made { place, index: 0 };
    Touched {
        table: Some(table),
        descriptions: UpToTwo {
            first: Some(pipe),
            second: Some(Made { place, index: 1 }),
        },
        pipes: UpToTwo {
            first: Some(pipe),
            second: None,
        },
    }
}
