//! Tasks of a thread group that a call ends: their list, and their end; and the end of the group.

ghost use Rattle.std.specs.Prelude.{◌≡◌, if◌then◌else◌, IfOk, None, Some};
ghost use Rattle.task_table.specs.Ends.{ended_if, ended_tasks, ended_where, groups_closed};
ghost use Rattle.task_table.specs.Entries.{changed_at, numbers_where};
ghost use Rattle.task_table.specs.Exits.{is_leaving, leaves};
ghost use Rattle.task_table.specs.Table.{clear_of, has_parent, live_numbers};

use crate::reaps::orphan_children;
use crate::{EndedTask, Group, Status, Task};
use sn_base::{List, Map, Memory};
use std::alloc::Global;

/// Which tasks of a thread group a call ends.
#[derive(Clone, Copy)]
pub(crate) enum Leaving {
    Members { group: u32 },
    OtherMembers { group: u32, task: u32 },
}

/// Whether a call ends a task.
fn is_leaving(which: &Leaving, number: u32, task: &Task) -> bool
    ensures { result ≡ is_leaving which.now number task.now }
{
    match *which {
        Leaving::Members { group } => task.group == group,
        Leaving::OtherMembers {
            group,
            task: staying,
        } => task.group == group && number != staying,
    }
}

/// The task of a number as it is answered, if the call ends it.
fn leaving_task(tasks: &Map<Task>, number: u32, which: &Leaving) -> Option<EndedTask>
    ensures { result ≡ (if leaves which.now tasks.now number
        then Some (record { task = number; clear = clear_of tasks.now number }) else None) }
{
    let task = tasks.get(u64::from(number))?;
    if !is_leaving(which, number, task) {
        return None;
    }
    Some(EndedTask {
        task: number,
        clear: task.clear,
    })
}

/// The live tasks that a call ends, ascending. It goes over the live ones once.
pub(crate) fn tasks_leaving(
    alloc: Global,
    tasks: &Map<Task>,
    live: &[u32],
    which: &Leaving,
) -> Result<List<EndedTask>, Memory>
    requires { live.now ≡ live_numbers tasks.now }
    ensures { IfOk result (λ ended. ended ≡ ended_tasks (is_leaving which.now) tasks.now) }
{
    let mut leaving = List::new(alloc);
    for number in live {
        if let Some(task) = leaving_task(tasks, *number, which) {
            leaving.push(task)?;
        }
    }
    Ok(leaving)
}

/// Ends the task of a number, if the call ends it, and answers whether it does.
#[tactic(auto, using(sn_base::proofs::Maps::insert_same))]
fn end_task(tasks: &mut Map<Task>, number: u32, which: &Leaving) -> bool
    ensures tasks { tasks.new ≡ changed_at (ended_if (is_leaving which.now) number) tasks.old number }
    ensures ends { result ≡ leaves which.now tasks.old number }
{
    let Some(task) = tasks.get(u64::from(number)).copied() else {
        return false;
    };
    if !is_leaving(which, number, &task) {
        return false;
    }
    tasks.replace(
        u64::from(number),
        Task {
            live: false,
            ..task
        },
    );
    true
}

/// Ends the live tasks that a call ends, and keeps the list of live ones. It goes over that list once, and takes no
/// memory.
pub(crate) fn end_tasks(tasks: &mut Map<Task>, live: &mut Vec<u32>, which: &Leaving)
    requires { live.old.items ≡ live_numbers tasks.old }
    ensures tasks { tasks.new ≡ ended_where (is_leaving which.now) tasks.old }
    ensures live { live.new.items ≡ live_numbers tasks.new }
{
    let mut kept = 0;
    for place in 0..live.len() {
        let number = live[place];
        if !end_task(tasks, number, which) {
            live[kept] = number;
            kept += 1;
        }
    }
    live.truncate(kept);
}

/// Notes how a group ended.
fn note_end(groups: &mut Map<Group>, group: u32, status: Status)
    ensures { groups.new ≡ changed_at (λ g. record g { ended = Some status }) groups.old group }
{
    if let Some(ending) = groups.get(u64::from(group)).copied() {
        groups.replace(
            u64::from(group),
            Group {
                ended: Some(status),
                ..ending
            },
        );
    }
}

/// Ends a group, whose children lose their parent, and keeps the list of groups with a parent.
pub(crate) fn close_group(
    groups: &mut Map<Group>,
    children: &mut Vec<u32>,
    group: u32,
    status: Status,
)
    requires { children.old.items ≡ numbers_where has_parent groups.old }
    ensures groups { groups.new ≡ groups_closed groups.old group status }
    ensures children { children.new.items ≡ numbers_where has_parent groups.new }
{
    orphan_children(groups, children, group);
    note_end(groups, group, status);
}
