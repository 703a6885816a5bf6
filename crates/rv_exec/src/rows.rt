//! Instructions of a page one after another, decoded before: the fast form of steps.

ghost use Rattle.std.specs.Prelude.{◌≡◌, ◌/◌, ◌%◌, ◌<◌, ◌≤◌, length, Some, false};
ghost use Rattle.rv_table.specs.Words.{sum};
ghost use Rattle.rv_exec.specs.Courses.{EndsBy, going, after_instructions};
ghost use Rattle.rv_exec.specs.Execution.{exec};
ghost use Rattle.rv_exec.specs.Flows.{FlowsAs};
ghost use Rattle.rv_exec.specs.declared.outcome.Step.TheVariants as outcomes;

use crate::access::Near;
use crate::execute::execute;
use crate::{Flow, Mem};
use rv_table::{Instr, Regs};

/// How many instructions of a page were done, and what the last one that was looked at came to.
#[derive(Clone, Copy, Debug, PartialEq, Eq)]
pub struct RowRun {
    pub count: u32,
    pub flow: Flow,
}

/// Does instructions of the page that a task stands in, at most so many, by the page's decoded words, as `step` does
/// each. It ends where the task leaves the page (`Next`), where the next instruction calls the system or traps, and
/// where it reaches for memory that isn't at hand, or stores into its own page (`Refused`): then `step` is asked.
pub fn run_row<M: Mem>(regs: &mut Regs, mem: &mut M, row: &[Instr], most: u32) -> RowRun
    requires { M.instrs (M.told mem.old) (regs.old.pc / 4096) ≡ Some row.now }
    ensures ran { after_instructions M.seen M.after result.count (going (M.told mem.old) regs.old) ≡
        Some (going (M.told mem.new) regs.new) }
    ensures few { result.count ≤ most }
    ensures ended { EndsBy (exec (M.seen (M.told mem.new)) regs.new) result.count most result.flow }
    ensures whole { result.flow ≡ Flow.Next → regs.new.pc / 4096 ≡ regs.old.pc / 4096 → regs.new.pc % 4 ≡ 0 →
        result.count ≡ most }
    ensures row { M.instrs (M.told mem.new) (regs.old.pc / 4096) ≡ Some row.now }
{
    if row.len() != 1024 {
        return left(0);
    }
    if regs.pc % 4 != 0 {
        return left(0);
    }
    let mut local = *regs;
    let run = run_aligned(&mut local, mem, row, most);
    *regs = local;
    run
}

/// The same where the task stands at a word: one piece of code without a jump behind another. The registers are a copy
/// that nothing else reaches.
#[inline(always)]
fn run_aligned<M: Mem>(regs: &mut Regs, mem: &mut M, row: &[Instr], most: u32) -> RowRun
    requires row { M.instrs (M.told mem.old) (regs.old.pc / 4096) ≡ Some row.now }
    requires whole { length row.now ≡ 1024 }
    requires aligned { regs.old.pc % 4 ≡ 0 }
    ensures ran { after_instructions M.seen M.after result.count (going (M.told mem.old) regs.old) ≡
        Some (going (M.told mem.new) regs.new) }
    ensures few { result.count ≤ most }
    ensures ended { EndsBy (exec (M.seen (M.told mem.new)) regs.new) result.count most result.flow }
    ensures whole { result.flow ≡ Flow.Next → regs.new.pc / 4096 ≡ regs.old.pc / 4096 → regs.new.pc % 4 ≡ 0 →
        result.count ≡ most }
    ensures row { M.instrs (M.told mem.new) (regs.old.pc / 4096) ≡ Some row.now }
{
    let page = regs.pc / 4096;
    let mut near = Near { page };
    let mut count = 0;
    for _jump in 0..most {
        if count >= most || regs.pc / 4096 != page {
            return left(count);
        }
        let run = run_straight(regs, mem, &mut near, row, most - count);
        count += run.count;
        match run.flow {
            Flow::Next => {}
            flow => return RowRun { count, flow },
        }
    }
    left(count)
}

/// Does instructions of the page one behind the other, at most so many, up to a jump or to the page's end: of one that
/// goes on, nothing but the end of this run is tested.
#[inline(always)]
fn run_straight<M: Mem>(
    regs: &mut Regs,
    mem: &mut M,
    near: &mut Near,
    row: &[Instr],
    most: u32,
) -> RowRun
    requires row { M.instrs (M.told mem.old) near.old.page ≡ Some row.now }
    requires whole { length row.now ≡ 1024 }
    requires page { regs.old.pc / 4096 ≡ near.old.page }
    requires aligned { regs.old.pc % 4 ≡ 0 }
    requires some { 0 < most }
    ensures ran { after_instructions M.seen M.after result.count (going (M.told mem.old) regs.old) ≡
        Some (going (M.told mem.new) regs.new) }
    ensures some { result.flow ≡ Flow.Next → 0 < result.count }
    ensures few { result.count ≤ most }
    ensures ended { EndsBy (exec (M.seen (M.told mem.new)) regs.new) result.count most result.flow }
    ensures row { M.instrs (M.told mem.new) near.new.page ≡ Some row.now }
    ensures page { near.new.page ≡ near.old.page }
    ensures aligned { regs.new.pc % 4 ≡ 0 }
{
    let first = (regs.pc % 4096 / 4) as u32;
    let end = first + most.min(1024 - first);
    for index in first..end {
        match run_one(regs, mem, near, row, index) {
            Flow::Next => {}
            Flow::Jump => return left(index - first + 1),
            flow => {
                return RowRun {
                    count: index - first,
                    flow,
                };
            }
        }
    }
    left(end - first)
}

/// So many instructions were done, and the task has left the page, or there may be no more.
#[inline(always)]
fn left(count: u32) -> RowRun
    ensures count { result.count ≡ count }
    ensures flow { result.flow ≡ Flow.Next }
{
    RowRun {
        count,
        flow: Flow::Next,
    }
}

/// Does the instruction of a page that a task stands at, by its place in the page.
#[inline(always)]
fn run_one<M: Mem>(regs: &mut Regs, mem: &mut M, near: &mut Near, row: &[Instr], index: u32) -> Flow
    requires row { M.instrs (M.told mem.old) near.old.page ≡ Some row.now }
    requires page { regs.old.pc / 4096 ≡ near.old.page }
    requires aligned { regs.old.pc % 4 ≡ 0 }
    requires index { index ≡ regs.old.pc % 4096 / 4 }
    requires within { index < length row.now }
    ensures done { FlowsAs M.after false outcomes.Next (exec (M.seen (M.told mem.old)) regs.old)
        regs.old regs.new (M.told mem.old) (M.told mem.new) result }
    ensures row { M.instrs (M.told mem.new) near.new.page ≡ Some row.now }
    ensures page { near.new.page ≡ near.old.page }
    ensures aligned { regs.new.pc % 4 ≡ 0 }
    ensures straight { result ≡ Flow.Next → regs.new.pc ≡ sum regs.old.pc 4 }
{
    execute(regs, mem, near, &row[index as usize])
}
