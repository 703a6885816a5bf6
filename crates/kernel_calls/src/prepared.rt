//! What a call comes to, before it is done, and the doing of it.

ghost use Rattle.std.specs.Prelude.{◌≡◌, IsFalse, OnOk, OnErr};
ghost use Rattle.futex_core.specs.Waiters.{after_sleep, is_asleep, is_woken};
ghost use Rattle.kernel_model.specs.declared.kernel.Kernel.{Kernel as AKernel};
ghost use Rattle.kernel_model.specs.calls.Ending.{clear_set, left_by, woken_on};
ghost use Rattle.kernel_calls.specs.Prepared.{EndsLive, with_closed, with_effect};

use crate::clone::ClonedTask;
use file_changes::{FileChange, change_files, close_table};
use futex_core::{FutexKey, Waited, Waiters};
use kernel_model::OpenFiles;
use sn_base::{Boxed, List, Made, Memory};
use task_table::{EndedTask, Status, Tasks};

/// How tasks end: with which status, which they are, the clear words of theirs that were cleared, and the descriptor
/// table that is closed with their thread group, where that ends.
#[derive(Drop)]
pub struct Ending {
    pub status: Status,
    pub ended: List<EndedTask>,
    pub cleared: List<FutexKey>,
    pub closes: Option<Made>,
}

/// What a call is to do beside its reply: nothing, or the caller's thread group ends, or a task does, or a task's
/// clear word is at another address, or so many at most are woken who sleep on a word, or the ended child that the
/// group waits for, the one of a number or any, is nobody's child any more, or what is open changes, for a caller of
/// that descriptor table.
#[derive(Drop)]
pub enum Effect {
    Nothing,
    EndsGroup(Ending),
    EndsTask { task: u32, ending: Ending },
    SetsClear { task: u32, address: u64 },
    Wakes { key: FutexKey, most: u32 },
    Reaps { which: Option<u32> },
    ChangesFiles { table: Made, change: FileChange },
}

/// What a call comes to: its reply (a negative one is an error's number), and what is to be done.
#[derive(Drop)]
pub struct Prepared {
    pub reply: i64,
    pub effect: Effect,
}

/// The end of a pipe that a call used, as its caller's descriptor table has it: an open file description and the pipe,
/// by name.
#[derive(Clone, Copy, Debug, PartialEq, Eq)]
pub struct UsedEnd {
    pub description: Made,
    pub pipe: Made,
}

/// What a call used that waits, beside the task list, its caller's registers and memory: an end of a pipe, and with it
/// the caller's descriptor table, where it used one; and the shared areas, where it looked into any.
#[derive(Clone, Copy)]
pub struct Awaited {
    pub end: Option<UsedEnd>,
    pub areas: bool,
}

/// What becomes of a call: it replies, or makes a child and replies its number, or puts its task to sleep on a futex
/// word, or waits as long as what it used is what it is.
#[derive(Drop)]
pub enum Called {
    Replies(Prepared),
    Makes(Boxed<ClonedTask>),
    Sleeps(FutexKey),
    Waits(Awaited),
}

/// Does what a call of a thread group comes to, to the parts that it changes. It takes no memory.
#[tactic(auto, using(crate::proofs::Effects::has_changed))]
pub fn commit(
    effect: Effect,
    group: u32,
    tasks: &mut Tasks,
    sleepers: &mut Waiters,
    files: &mut OpenFiles,
)
    requires lives { EndsLive effect group tasks.old }
    ensures { (k : AKernel) → k.tasks ≡ tasks.old → k.sleepers ≡ sleepers.old → k.files ≡ files.old →
        with_effect effect group k
        ≡ record k { tasks = tasks.new; sleepers = sleepers.new; files = files.new } }
{
    match effect {
        Effect::Nothing => {}
        Effect::EndsGroup(ending) => {
            tasks.close(group, ending.status);
            leave(sleepers, &ending);
            close_descriptors(&ending, files);
        }
        Effect::EndsTask { task, ending } => {
            tasks.leave(task, ending.status);
            leave(sleepers, &ending);
            close_descriptors(&ending, files);
        }
        Effect::SetsClear { task, address } => set_clear(tasks, task, address),
        Effect::Wakes { key, most } => {
            let _ = sleepers.wake(key, most);
        }
        Effect::Reaps { which } => {
            let _ = tasks.reap(group, which);
        }
        Effect::ChangesFiles { table, change } => change_files(change, table, files),
    }
}

/// Tasks that ended leave the futex list, and then one waiter on each word that was cleared is woken.
fn leave(sleepers: &mut Waiters, ending: &Ending)
    ensures { sleepers.new ≡ woken_on ending.now.cleared (left_by ending.now.ended sleepers.old) }
{
    leave_each(sleepers, ending.ended.as_slice());
    wake_each(sleepers, ending.cleared.as_slice());
}

/// The descriptors of a thread group that ends with its tasks are closed.
fn close_descriptors(ending: &Ending, files: &mut OpenFiles)
    ensures { files.new ≡ with_closed ending.now.closes files.old }
{
    if let Some(name) = ending.closes {
        close_table(name, files);
    }
}

/// Tasks leave the futex list.
fn leave_each(sleepers: &mut Waiters, ended: &[EndedTask])
    ensures { sleepers.new ≡ left_by ended.now sleepers.old }
{
    if let [first, rest @ ..] = ended {
        sleepers.leave(first.task);
        leave_each(sleepers, rest);
    }
}

/// Of each of the words, in their order, one waiter is woken.
fn wake_each(sleepers: &mut Waiters, keys: &[FutexKey])
    ensures { sleepers.new ≡ woken_on keys.now sleepers.old }
{
    if let [first, rest @ ..] = keys {
        let _ = sleepers.wake(*first, 1);
        wake_each(sleepers, rest);
    }
}

/// Puts a task to sleep on a word, behind all who sleep. An `Err` leaves the list as it was.
///
/// futex(2), FUTEX_WAIT.
pub fn sleep(sleepers: &mut Waiters, task: u32, key: FutexKey) -> Result<(), Memory>
    requires not_asleep { IsFalse (is_asleep sleepers.old task) }
    requires not_woken { IsFalse (is_woken sleepers.old task) }
    ensures ok { OnOk result (sleepers.new ≡ after_sleep sleepers.old task key) }
    ensures err { OnErr result (sleepers.new ≡ sleepers.old) }
{
    match sleepers.wait(task, key, 0, 0)? {
        Waited::Slept => Ok(()),
        Waited::Differs => unreachable!(),
    }
}

/// A task has its clear word at an address, where there is such a task. It takes no memory.
fn set_clear(tasks: &mut Tasks, task: u32, address: u64)
    ensures { tasks.new ≡ clear_set task address tasks.old }
{
    if tasks.task(task).is_some() {
        tasks.set_clear(task, address);
    }
}
