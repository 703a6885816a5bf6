//! Turns: the entries of processes, one after another, until no task's step is ready or the trace is full.

ghost use Rattle.std.specs.Prelude.{◌≡◌, ◌<◌, ◌≤◌, ◌+◌, ◌⊎◌, ℕ, true, length};
ghost use Rattle.std.specs.Prelude.{nat_lt, find, Some, None, IfOk, IfSome, OnOk, []};
ghost use Rattle.std.specs.List.{flat_map};
ghost use Rattle.kernel_model.specs.entries.History.{each_whole, replay};
ghost use Rattle.kernel_model.specs.entries.Ready.{ready_numbers};
ghost use Rattle.kernel_model.specs.entries.Steps.{task_of};
ghost use Rattle.kernel_model.specs.files.Numbers.{numbers_in};
ghost use Rattle.proc_cells.specs.Beside.{Beside};
ghost use Rattle.proc_cells.specs.Cells.{AreKept, kernel_of as kernel_of_cells};
ghost use Rattle.call_table.specs.Entries.{IfEntered, IfParked, IsWholeTo, StepsTo};
ghost use Rattle.call_table.specs.Processes.{kernel_of_processes};
ghost use Rattle.call_table.specs.Schedules.{AreParked};
ghost use Rattle.call_table.specs.Turns.{AreInTurn, AreStill, AreStillIn, Leaves, next_task_of};

use crate::Processes;
use crate::schedule::Schedule;
use kernel_model::{Entry, Trace};
use proc_cells::Cells;
use sn_base::{List, Memory};
use std::alloc::Global;

/// A run of turns that has ended: its trace, and the processes that it left, or `None` where memory ran out.
#[derive(Drop)]
pub struct EndedTurns {
    pub processes: Option<Processes>,
    pub trace: Trace,
}

impl Schedule {
    /// Has the task of the least number above another make an entry, of those whose next step is ready; or none, where
    /// there is no such task, which changes nothing of the cells.
    fn enter_above(
        &mut self,
        alloc: Global,
        after: u32,
        seed: &[u8],
        place: u64,
    ) -> Result<Option<Entry>, Memory>
        requires later { 0 < place }
        requires parked { AreParked self.old.cells self.old.parking }
        ensures step { IfEntered result (StepsTo self.old.cells self.new.cells seed.now place) }
        ensures whole { IfEntered result (IsWholeTo self.old.cells self.new.cells) }
        ensures numbers { IfEntered result (λ entry. numbers_in entry ≡ []) }
        ensures found { IfEntered result (λ entry. (beside : Beside) (n : ℕ) →
            find (nat_lt after) (ready_numbers (kernel_of_cells self.old.cells beside n)) ≡ Some (task_of entry)) }
        ensures none { IfParked result ((beside : Beside) (n : ℕ) →
            find (nat_lt after) (ready_numbers (kernel_of_cells self.old.cells beside n)) ≡ None) }
        ensures kept { IfParked result (AreKept self.old.cells self.new.cells) }
        ensures parked { OnOk result (AreParked self.new.cells self.new.parking) }
    {
        let candidate = match self.next_above(after) {
            Some(candidate) => candidate,
            None => return Ok(None),
        };
        match self.enter(alloc, candidate, seed, place)? {
            Some(entry) => Ok(Some(entry)),
            None => self.enter_above(alloc, candidate.task, seed, place),
        }
    }

    /// Has the task whose turn is next, behind that of the last turn, make an entry; or none, where no task's next step
    /// is ready, which changes nothing of the cells.
    fn turn(
        &mut self,
        alloc: Global,
        last: u32,
        seed: &[u8],
        place: u64,
    ) -> Result<Option<Entry>, Memory>
        requires later { 0 < place }
        requires parked { AreParked self.old.cells self.old.parking }
        ensures step { IfEntered result (StepsTo self.old.cells self.new.cells seed.now place) }
        ensures whole { IfEntered result (IsWholeTo self.old.cells self.new.cells) }
        ensures numbers { IfEntered result (λ entry. numbers_in entry ≡ []) }
        ensures turn { IfEntered result (λ entry. (beside : Beside) (n : ℕ) →
            next_task_of last (ready_numbers (kernel_of_cells self.old.cells beside n)) ≡ Some (task_of entry)) }
        ensures still { IfParked result (AreStillIn self.new.cells) }
        ensures kept { IfParked result (AreKept self.old.cells self.new.cells) }
        ensures parked { OnOk result (AreParked self.new.cells self.new.parking) }
    {
        if self.cells.tasks.live() == 0 {
            return Ok(None);
        }
        match self.enter_above(alloc, last, seed, place)? {
            Some(entry) => Ok(Some(entry)),
            None => self.enter_above(alloc, 0, seed, place),
        }
    }

    /// Has tasks make entries in turn, which go into an empty trace, until no task's next step is ready or the trace
    /// has so many. On want of memory the trace has the entries that were made.
    fn take_turns(
        &mut self,
        alloc: Global,
        seed: &[u8],
        entries: u64,
        trace: &mut Trace,
    ) -> Result<(), Memory>
        requires parked { AreParked self.old.cells self.old.parking }
        requires empty { trace.old ≡ [] }
        ensures history { (beside : Beside) → beside.seed ≡ seed.now →
            Leaves beside (replay (kernel_of_cells self.old.cells beside 0) trace.new) }
        ensures state { OnOk result ((beside : Beside) → beside.seed ≡ seed.now →
            replay (kernel_of_cells self.old.cells beside 0) trace.new ≡
            Some (kernel_of_cells self.new.cells beside (length trace.new))) }
        ensures whole { (beside : Beside) → beside.seed ≡ seed.now →
            each_whole (kernel_of_cells self.old.cells beside 0) trace.new ≡ true }
        ensures turns { (beside : Beside) → beside.seed ≡ seed.now →
            AreInTurn 0 (kernel_of_cells self.old.cells beside 0) trace.new }
        ensures drawn { flat_map numbers_in trace.new ≡ [] }
        ensures bound { length trace.new ≤ entries }
        ensures ended { OnOk result (AreStillIn self.new.cells ⊎ (length trace.new ≡ entries)) }
    {
        let mut last = 0;
        for place in 0..entries {
            let Some(entry) = self.turn(alloc, last, seed, place + 1)? else {
                return Ok(());
            };
            last = entry.task();
            trace.push(entry)?;
        }
        Ok(())
    }
}

/// Has tasks make entries in turn, by the mount file's seed, until no task's next step is ready or the trace has so
/// many entries.
pub fn run_turns(alloc: Global, processes: Processes, seed: &[u8], entries: u64) -> EndedTurns
    // The trace is a history, whatever stands beside the processes and the seed.
    ensures history { (beside : Beside) → beside.seed ≡ seed.now →
        Leaves beside (replay (kernel_of_processes processes beside 0) result.trace) }
    ensures state { IfSome result.processes (λ p. (beside : Beside) → beside.seed ≡ seed.now →
        replay (kernel_of_processes processes beside 0) result.trace
        ≡ Some (kernel_of_processes p beside (length result.trace))) }
    ensures whole { (beside : Beside) → beside.seed ≡ seed.now →
        each_whole (kernel_of_processes processes beside 0) result.trace ≡ true }
    ensures turns { (beside : Beside) → beside.seed ≡ seed.now →
        AreInTurn 0 (kernel_of_processes processes beside 0) result.trace }
    ensures drawn { flat_map numbers_in result.trace ≡ [] }
    ensures bound { length result.trace ≤ entries }
    ensures ended { IfSome result.processes (λ p. AreStill p ⊎ (length result.trace ≡ entries)) }
{
    let mut trace = List::new(alloc);
    let processes = match after_turns(alloc, processes.cells, seed, entries, &mut trace) {
        Ok(cells) => Some(Processes { cells }),
        Err(Memory) => None,
    };
    EndedTurns { processes, trace }
}

/// The cells that are left by their turns, whose entries go into an empty trace. On want of memory they are gone, and
/// the trace has the entries that were made.
fn after_turns(
    alloc: Global,
    cells: Cells,
    seed: &[u8],
    entries: u64,
    trace: &mut Trace,
) -> Result<Cells, Memory>
    requires empty { trace.old ≡ [] }
    ensures history { (beside : Beside) → beside.seed ≡ seed.now →
        Leaves beside (replay (kernel_of_cells cells beside 0) trace.new) }
    ensures state { IfOk result (λ left. (beside : Beside) → beside.seed ≡ seed.now →
        replay (kernel_of_cells cells beside 0) trace.new ≡ Some (kernel_of_cells left beside (length trace.new))) }
    ensures whole { (beside : Beside) → beside.seed ≡ seed.now →
        each_whole (kernel_of_cells cells beside 0) trace.new ≡ true }
    ensures turns { (beside : Beside) → beside.seed ≡ seed.now →
        AreInTurn 0 (kernel_of_cells cells beside 0) trace.new }
    ensures drawn { flat_map numbers_in trace.new ≡ [] }
    ensures bound { length trace.new ≤ entries }
    ensures ended { IfOk result (λ left. AreStillIn left ⊎ (length trace.new ≡ entries)) }
{
    let mut schedule = Schedule::begin(alloc, cells)?;
    schedule.take_turns(alloc, seed, entries, trace)?;
    Ok(schedule.cells)
}
