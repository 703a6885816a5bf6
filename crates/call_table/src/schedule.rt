//! The cells of a run with those of its tasks that are looked at: one task makes an entry, or is parked.

ghost use Rattle.std.specs.Prelude.{◌≡◌, ◌<◌, ◌+◌, ◌||◌, ◌&&◌, ◌==◌, if◌then◌else◌, ℕ, [], true, false, IfOk};
ghost use Rattle.std.specs.Prelude.{IsTrue, OnOk, Some};
ghost use Rattle.std.specs.FinMap as map;
ghost use Rattle.task_table.specs.Kept.{IsKept};
ghost use Rattle.task_table.specs.Table.{is_live};
ghost use Rattle.kernel_model.specs.declared.kernel.Kernel.{Kernel as AKernel};
ghost use Rattle.kernel_model.specs.entries.History.{is_whole};
ghost use Rattle.kernel_model.specs.entries.Steps.{step, task_of};
ghost use Rattle.kernel_model.specs.entries.Waiting.{Woken, wait_of};
ghost use Rattle.kernel_model.specs.files.Numbers.{numbers_in};
ghost use Rattle.proc_cells.specs.Beside.{Beside};
ghost use Rattle.proc_cells.specs.declared.cells.Cells.{Cells as ACells};
ghost use Rattle.proc_cells.specs.Cells.{AreKept, kernel_of};
ghost use Rattle.parked_tasks.specs.Parking.{AreParkedAlike, AreWoken};
ghost use Rattle.call_table.specs.Entries.{IfEntered, IfParked, IsWholeTo, ReadyIs, StepsTo};
ghost use Rattle.call_table.specs.Moves.{LeavesRest, is_woken_by, puts_to_sleep};
ghost use Rattle.call_table.specs.Schedules.{AreParked, AreParkedBut, IsCandidate, IsNextAbove, is_last_made, is_off};

use crate::entered::{Entered, Turn};
use crate::entries::{advance, go_on_woken};
use futex_core::Waiters;
use kernel_calls::Context;
use kernel_model::Entry;
use parked_tasks::Parking;
use proc_cells::Cells;
use sn_base::{Made, Memory};
use std::alloc::Global;
use task_table::Tasks;

/// The cells of a run, and which of its tasks are looked at for the next turn and which are parked.
#[derive(Drop)]
pub(crate) struct Schedule {
    pub(crate) cells: Cells,
    pub(crate) parking: Parking,
}

/// A task that may have the next turn: one that is looked at, or one that was woken.
#[derive(Clone, Copy)]
pub(crate) struct Candidate {
    pub(crate) task: u32,
    pub(crate) woken: bool,
}

impl Schedule {
    /// The schedule that a run begins with: each live task is looked at that is not on the futex list.
    pub(crate) fn begin(alloc: Global, cells: Cells) -> Result<Schedule, Memory>
        ensures cells { IfOk result (λ s. s.cells ≡ cells) }
        ensures parked { IfOk result (λ s. AreParked s.cells s.parking) }
    {
        let mut parking = Parking::new(alloc);
        look_at_live(&cells, &mut parking)?;
        Ok(Schedule { cells, parking })
    }

    /// The task of the least number above another that may have the next turn.
    pub(crate) fn next_above(&self, after: u32) -> Option<Candidate>
        ensures { IsNextAbove self.now.cells self.now.parking after result }
    {
        let awake = self.parking.first_above(after);
        let woken = self.cells.sleepers.woken_above(after);
        match (awake, woken) {
            (None, None) => None,
            (Some(task), None) => Some(Candidate { task, woken: false }),
            (None, Some(task)) => Some(Candidate { task, woken: true }),
            (Some(awake), Some(task)) if task < awake => Some(Candidate { task, woken: true }),
            (Some(task), Some(_)) => Some(Candidate { task, woken: false }),
        }
    }

    /// Has a task make an entry, where its next step is ready, or else parks it, which changes nothing of the cells.
    pub(crate) fn enter(
        &mut self,
        alloc: Global,
        candidate: Candidate,
        seed: &[u8],
        place: u64,
    ) -> Result<Option<Entry>, Memory>
        requires later { 0 < place }
        requires parked { AreParked self.old.cells self.old.parking }
        requires candidate { IsCandidate self.old.cells self.old.parking candidate }
        ensures step { IfEntered result (StepsTo self.old.cells self.new.cells seed.now place) }
        ensures whole { IfEntered result (IsWholeTo self.old.cells self.new.cells) }
        ensures task { IfEntered result (λ entry. task_of entry ≡ candidate.task) }
        ensures numbers { IfEntered result (λ entry. numbers_in entry ≡ []) }
        ensures ready { IfEntered result (λ entry. ReadyIs self.old.cells candidate.task true) }
        ensures lives { IfEntered result (λ entry. is_live self.old.cells.tasks.tasks candidate.task ≡ true) }
        ensures waits { IfParked result (ReadyIs self.old.cells candidate.task false) }
        ensures kept { IfParked result (AreKept self.old.cells self.new.cells) }
        ensures parked { OnOk result (AreParked self.new.cells self.new.parking) }
    {
        let Candidate { task, woken } = candidate;
        if !is_live(&self.cells.tasks, task) {
            self.parking.rest(task);
            return Ok(None);
        }
        if woken {
            return Ok(Some(self.go_on(alloc, task)?));
        }
        self.look_at(alloc, task, seed, place)
    }

    /// Has a task that was woken make the entry of the call that it slept in.
    fn go_on(&mut self, alloc: Global, task: u32) -> Result<Entry, Memory>
        requires parked { AreParked self.old.cells self.old.parking }
        requires alive { IsTrue (is_live self.old.cells.tasks.tasks task) }
        requires woken { wait_of self.old.cells.sleepers task ≡ Woken }
        requires registers { IsTrue (map.contains_key self.old.cells.registers task) }
        ensures step { IfOk result (λ entry. (beside : Beside) (n : ℕ) →
            step (kernel_of self.old.cells beside n) entry ≡ Some (kernel_of self.new.cells beside (n + 1))) }
        ensures whole { IfOk result (λ entry. (before after : AKernel) → is_whole entry before after ≡ true) }
        ensures task { IfOk result (λ entry. task_of entry ≡ task) }
        ensures numbers { IfOk result (λ entry. numbers_in entry ≡ []) }
        ensures parked { OnOk result (AreParked self.new.cells self.new.parking) }
    {
        let standing = self.cells.standing(task);
        let last = self.cells.tasks.last();
        let made = go_on_woken(alloc, &mut self.cells, task, &standing);
        self.parking.wake(task)?;
        self.settle(alloc, standing.memory, last, &made)?;
        Ok(made.entry)
    }

    /// Has a task that is not on the futex list make an entry, or parks it where its call waits.
    fn look_at(
        &mut self,
        alloc: Global,
        task: u32,
        seed: &[u8],
        place: u64,
    ) -> Result<Option<Entry>, Memory>
        requires later { 0 < place }
        requires parked { AreParked self.old.cells self.old.parking }
        requires looked_at { IsTrue (map.contains_key self.old.parking.awake task) }
        requires alive { IsTrue (is_live self.old.cells.tasks.tasks task) }
        ensures step { IfEntered result (StepsTo self.old.cells self.new.cells seed.now place) }
        ensures whole { IfEntered result (IsWholeTo self.old.cells self.new.cells) }
        ensures task { IfEntered result (λ entry. task_of entry ≡ task) }
        ensures numbers { IfEntered result (λ entry. numbers_in entry ≡ []) }
        ensures ready { IfEntered result (λ entry. ReadyIs self.old.cells task true) }
        ensures waits { IfParked result (ReadyIs self.old.cells task false) }
        ensures kept { IfParked result (AreKept self.old.cells self.new.cells) }
        ensures parked { OnOk result (AreParked self.new.cells self.new.parking) }
    {
        let standing = self.cells.standing(task);
        let last = self.cells.tasks.last();
        let context = Context {
            task,
            group: standing.group,
            memory: standing.memory,
            table: standing.table,
            place,
            seed,
        };
        let made = match advance(alloc, &mut self.cells, &context, &standing)? {
            Turn::Enters(made) => made,
            Turn::Waits(spot) => {
                self.parking.park(alloc, task, spot)?;
                return Ok(None);
            }
        };
        self.settle(alloc, standing.memory, last, &made)?;
        Ok(Some(made.entry))
    }

    /// Has those be looked at again for whom an entry of a task with this memory changed something, and the task that
    /// it made, where there was none above that number.
    fn settle(
        &mut self,
        alloc: Global,
        memory: Made,
        last: u32,
        made: &Entered,
    ) -> Result<(), Memory>
        ensures parked { OnOk result ((task : ℕ) (before : ACells) → task ≡ task_of made.now.entry →
            last ≡ before.tasks.last → LeavesRest task memory made.now before self.old.cells →
            AreParkedBut task before self.old.parking → AreParked self.new.cells self.new.parking) }
        ensures cells { self.new.cells ≡ self.old.cells }
    {
        rest_asleep(&mut self.parking, made.entry.task(), &made.entry);
        look_at_child(&mut self.parking, &self.cells, last)?;
        wake_by(alloc, &mut self.parking, memory, made)
    }
}

/// Has the parked tasks be looked at again that used something which an entry of a task with this memory may have
/// changed.
fn wake_by(alloc: Global, parking: &mut Parking, memory: Made, made: &Entered) -> Result<(), Memory>
    ensures { OnOk result (AreWoken (is_woken_by made.now memory) parking.old parking.new) }
{
    if made.tasks {
        return parking.wake_all(alloc);
    }
    parking.wake_in(alloc, memory, made.areas)?;
    match &made.touched {
        Some(touched) => parking.wake_touched(alloc, touched),
        None => Ok(()),
    }
}

/// Has a task be looked at no more that an entry put to sleep.
fn rest_asleep(parking: &mut Parking, task: u32, entry: &Entry)
    ensures awake { parking.new.awake
        ≡ (if puts_to_sleep entry.now then map.remove parking.old.awake task else parking.old.awake) }
    ensures parked { AreParkedAlike parking.old parking.new }
{
    match entry {
        Entry::Sleep { .. } => parking.rest(task),
        Entry::Run { .. } | Entry::Call { .. } | Entry::End { .. } => {}
    }
}

/// Has the last task be looked at, where its number is above one, and it is not on the futex list.
fn look_at_child(parking: &mut Parking, cells: &Cells, last: u32) -> Result<(), Memory>
    ensures parked { AreParkedAlike parking.old parking.new }
    ensures awake { OnOk result ((task : ℕ) → map.contains_key parking.new.awake task ≡
        (map.contains_key parking.old.awake task || is_last_made cells.now last task)) }
{
    let child = cells.tasks.last();
    let wanted = last < child && is_off(&cells.sleepers, child);
    wake_if(parking, wanted, child)
}

/// Has a task be looked at, where that is wanted.
fn wake_if(parking: &mut Parking, wanted: bool, task: u32) -> Result<(), Memory>
    ensures parked { AreParkedAlike parking.old parking.new }
    ensures awake { OnOk result ((other : ℕ) → map.contains_key parking.new.awake other ≡
        (map.contains_key parking.old.awake other || (wanted && (other == task)))) }
{
    if wanted {
        parking.wake(task)?;
    }
    Ok(())
}

/// Whether a task lives.
fn is_live(tasks: &Tasks, task: u32) -> bool
    ensures lives { result ≡ is_live tasks.now.tasks task }
    ensures kept { IsKept tasks.now }
{
    match tasks.task(task) {
        Some(task) => task.live,
        None => false,
    }
}

/// Whether a task is not on the futex list.
fn is_off(sleepers: &Waiters, task: u32) -> bool
    ensures { result ≡ is_off sleepers.now task }
{
    !sleepers.is_asleep(task) && !sleepers.is_woken(task)
}

/// Has each live task be looked at that is not on the futex list.
fn look_at_live(cells: &Cells, parking: &mut Parking) -> Result<(), Memory>
    requires none { (task : ℕ) → map.contains_key parking.old.awake task ≡ false }
    ensures parked { OnOk result (AreParkedAlike parking.old parking.new) }
    ensures off { OnOk result ((task : ℕ) → map.contains_key parking.new.awake task ≡ true →
        is_off cells.now.sleepers task ≡ true) }
    ensures live { OnOk result ((task : ℕ) → is_live cells.now.tasks.tasks task ≡ true →
        is_off cells.now.sleepers task ≡ true → map.contains_key parking.new.awake task ≡ true) }
{
    for task in 0..=cells.tasks.last() {
        let wanted = is_live(&cells.tasks, task) && is_off(&cells.sleepers, task);
        wake_if(parking, wanted, task)?;
    }
    Ok(())
}
