//! The exit of one task.

ghost use Rattle.std.specs.Prelude.{◌≡◌, ◌==◌, ◌&&◌, false, not, IfOk, IsTrue, filter};
ghost use Rattle.std.specs.List.{list_any};
ghost use Rattle.std.specs.List.Sorted.{IsStrictlyIncreasing};
ghost use Rattle.task_table.specs.Ends.{ended_tasks, ended_where, is_itself, is_last};
ghost use Rattle.task_table.specs.Entries.{changed_at};
ghost use Rattle.task_table.specs.Table.{clear_of, group_of, is_live, live_numbers};

use crate::{EndedTask, Task};
use sn_base::{List, Map, Memory};
use std::alloc::Global;

/// A task's group's number, or 0.
pub(crate) fn group_of(tasks: &Map<Task>, number: u32) -> u32
    ensures { result ≡ group_of tasks.now number }
{
    match tasks.get(u64::from(number)) {
        Some(task) => task.group,
        None => 0,
    }
}

/// A task's clear word's address, or 0.
fn clear_of(tasks: &Map<Task>, number: u32) -> u64
    ensures { result ≡ clear_of tasks.now number }
{
    match tasks.get(u64::from(number)) {
        Some(task) => task.clear,
        None => 0,
    }
}

/// The list of a live task alone, as its exit answers it.
#[tactic(auto, using(crate::proofs::Exiting::ended_itself))]
pub(crate) fn task_leaving(
    alloc: Global,
    tasks: &Map<Task>,
    task: u32,
) -> Result<List<EndedTask>, Memory>
    requires { IsTrue (is_live tasks.now task) }
    ensures { IfOk result (λ ended. ended ≡ ended_tasks (is_itself task) tasks.now) }
{
    let clear = clear_of(tasks, task);
    List::from_slice(alloc, &[EndedTask { task, clear }])
}

/// Ends a task.
fn end_itself(tasks: &mut Map<Task>, task: u32)
    ensures { tasks.new ≡ changed_at (λ c. record c { live = false }) tasks.old task }
{
    if let Some(ending) = tasks.get(u64::from(task)).copied() {
        tasks.replace(
            u64::from(task),
            Task {
                live: false,
                ..ending
            },
        );
    }
}

/// Takes a number out of ascending ones, if it is among them.
pub(crate) fn take_out(numbers: &mut Vec<u32>, number: u32)
    requires { IsStrictlyIncreasing numbers.old.items }
    ensures { numbers.new.items ≡ filter (λ n. not (n == number)) numbers.old.items }
{
    if let Ok(place) = numbers.binary_search(&number) {
        let _ = numbers.remove(place);
    }
}

/// Ends a task, and takes it out of the list of live ones.
pub(crate) fn end_one(tasks: &mut Map<Task>, live: &mut Vec<u32>, task: u32)
    requires { live.old.items ≡ live_numbers tasks.old }
    ensures tasks { tasks.new ≡ ended_where (is_itself task) tasks.old }
    ensures live { live.new.items ≡ live_numbers tasks.new }
{
    end_itself(tasks, task);
    take_out(live, task);
}

/// Whether a number is that of another task of a group.
fn is_other(tasks: &Map<Task>, number: u32, group: u32, task: u32) -> bool
    ensures { result ≡ ((group_of tasks.now number == group) && not (number == task)) }
{
    group_of(tasks, number) == group && number != task
}

/// Whether one of the numbers given is that of another task of a group.
fn has_other(tasks: &Map<Task>, numbers: &[u32], group: u32, task: u32) -> bool
    ensures { result ≡ list_any (λ n. (group_of tasks.now n == group) && not (n == task)) numbers.now }
{
    numbers
        .iter()
        .any(|number| is_other(tasks, *number, group, task))
}

/// Whether no other task of a task's group lives.
pub(crate) fn is_last_of_group(tasks: &Map<Task>, live: &[u32], task: u32) -> bool
    requires { live.now ≡ live_numbers tasks.now }
    ensures { result ≡ is_last tasks.now task }
{
    let group = group_of(tasks, task);
    !has_other(tasks, live, group, task)
}
