//! The table of tasks and thread groups, and its calls.

ghost use Rattle.std.specs.Prelude.{◌≡◌, ℕ, ◌+◌, ◌<◌, ◌↔◌, find, nat_le, nat_lt};
ghost use Rattle.std.specs.Prelude.{IsTrue, IsFalse, IfOk, OnOk, OnErr, None, option_copied};
ghost use Rattle.std.specs.FinMap as map;
ghost use Rattle.task_table.specs.Clones.{MadeFrom, WasMade, forked, opened, threaded, with_group};
ghost use Rattle.task_table.specs.Ends.{ended_tasks, exited, group_ended, is_itself, is_last};
ghost use Rattle.task_table.specs.Ends.{is_member, is_other_member, others_ended};
ghost use Rattle.task_table.specs.Entries.{changed_at};
ghost use Rattle.task_table.specs.Kept.{IsKept};
ghost use Rattle.task_table.specs.Reaps.{after_reap, reap_end};
ghost use Rattle.task_table.specs.Table.{TaskTable, cwd_of, group_of, has_ended, is_live};
ghost use Rattle.task_table.specs.Table.{live_count, live_numbers, no_tasks};

use crate::clones::{note_child, put_both};
use crate::ends::{Leaving, close_group, end_tasks, tasks_leaving};
use crate::exits::{end_one, group_of, is_last_of_group, take_out, task_leaving};
use crate::reaps::{end_of_wait, release};
use crate::{CloneErr, Ended, EndedTask, Group, ReapEnd, Status, Task};
use sn_base::{List, Made, Map, Memory};
use std::alloc::Global;
use std::marker::Model;

/// How many tasks may live at once.
pub const MOST_LIVE: usize = 256;

/// The greatest number that a task may have, which is the greatest pid_t: credentials(7), Process ID (PID).
pub const LAST_TASK: u32 = 2_147_483_647;

/// The tasks and thread groups. Contracts see the table of them.
#[derive(Debug, Drop)]
pub struct Tasks {
    tasks: Map<Task>,
    groups: Map<Group>,
    last: u32,
    /// The numbers of the live tasks, ascending.
    live: Vec<u32>,
    /// The numbers of the groups that have a parent, ascending.
    children: Vec<u32>,
}

impl Model for Tasks {
    ghost use Rattle.task_table.specs.Table.{TaskTable};
    ghost use Rattle.task_table.specs.Kept.{IsSoundTable};
    ghost use Rattle.std.specs.Prelude.{ℕ, refl};
    ghost use Rattle.std.specs.Coded.{code_by, coded×, coded_ℕ};
    ghost use Rattle.std.specs.FinMap.{FinMap, code};
    ghost use Rattle.std.specs.Ordering.{nat_cmp};
    ghost use Rattle.task_table.specs.declared.task.Task.{Task};
    ghost use Rattle.task_table.specs.declared.task.Group.{Group};
    ghost use Rattle.task_table.specs.contracts.task.Task as of_task;
    ghost use Rattle.task_table.specs.contracts.task.Group as of_group;

    ghost Value = { TaskTable };

    ghost coded = { code_by (FinMap nat_cmp Task × (FinMap nat_cmp Group × ℕ))
        (coded× (code coded_ℕ of_task.the_row.coded) (coded× (code coded_ℕ of_group.the_row.coded) coded_ℕ))
        (λ t. (t.tasks, (t.groups, t.last))) (λ p. record { tasks = p.0; groups = p.1.0; last = p.1.1 }) (λ _. refl) };

    ghost view = { λ a. record { tasks = a.tasks; groups = a.groups; last = a.last } };

    ghost invariant = { λ a. IsSoundTable (record { tasks = a.tasks; groups = a.groups; last = a.last })
        a.live.items a.children.items };
}

impl Tasks {
    /// No tasks, which takes no memory.
    #[tactic(auto, using(crate::proofs::Keeping::sound_empty))]
    pub fn new(alloc: Global) -> Self
        ensures { result ≡ no_tasks }
    {
        Tasks {
            tasks: Map::new(alloc),
            groups: Map::new(alloc),
            last: 0,
            live: Vec::new(alloc),
            children: Vec::new(alloc),
        }
    }

    /// Makes an opening task, in a thread group of its own without a parent, and answers its number.
    pub fn open(&mut self, memory: Made, table: Made, cwd: u64) -> Result<u32, CloneErr>
        requires { self.old.last < LAST_TASK }
        ensures number { IfOk result (λ n. n ≡ self.old.last + 1) }
        ensures ok { OnOk result (self.new ≡ opened self.old memory table cwd) }
        ensures full { (result ≡ Err CloneErr.Full) ↔ (live_count self.old ≡ MOST_LIVE) }
        ensures err { OnErr result (self.new ≡ self.old) }
        ensures kept { IsKept self.old }
        ensures made { OnOk result (MadeFrom self.old self.new) }
    {
        let group = Group {
            parent: 0,
            memory,
            table,
            cwd,
            ended: None,
        };
        self.add_group(group, 0)
    }

    /// Makes a task in a thread group of its own, which is a child of the caller's group and has its working directory.
    pub fn fork(
        &mut self,
        task: u32,
        memory: Made,
        table: Made,
        clear: u64,
    ) -> Result<u32, CloneErr>
        requires lives { IsTrue (is_live self.old.tasks task) }
        requires next { self.old.last < LAST_TASK }
        ensures number { IfOk result (λ n. n ≡ self.old.last + 1) }
        ensures ok { OnOk result (self.new ≡ forked self.old task memory table clear) }
        ensures full { (result ≡ Err CloneErr.Full) ↔ (live_count self.old ≡ MOST_LIVE) }
        ensures err { OnErr result (self.new ≡ self.old) }
        ensures kept { IsKept self.old }
        ensures made { OnOk result (MadeFrom self.old self.new) }
    {
        let parent = group_of(&self.tasks, task);
        let group = Group {
            parent,
            memory,
            table,
            cwd: cwd_of(&self.groups, parent),
            ended: None,
        };
        self.add_group(group, clear)
    }

    /// Makes a task in the caller's thread group.
    pub fn thread(&mut self, task: u32, clear: u64) -> Result<u32, CloneErr>
        requires lives { IsTrue (is_live self.old.tasks task) }
        requires next { self.old.last < LAST_TASK }
        ensures number { IfOk result (λ n. n ≡ self.old.last + 1) }
        ensures ok { OnOk result (self.new ≡ threaded self.old task clear) }
        ensures full { (result ≡ Err CloneErr.Full) ↔ (live_count self.old ≡ MOST_LIVE) }
        ensures err { OnErr result (self.new ≡ self.old) }
        ensures kept { IsKept self.old }
        ensures made { OnOk result (MadeFrom self.old self.new) }
    {
        if self.live.len() >= MOST_LIVE {
            return Err(CloneErr::Full);
        }
        let number = self.last + 1;
        let thread = Task {
            group: group_of(&self.tasks, task),
            clear,
            live: true,
        };
        self.live.reserve(1)?;
        self.tasks.insert(u64::from(number), thread)?;
        self.live.push_reserved(number);
        self.last = number;
        Ok(number)
    }

    /// Takes the task back that was made last, as if it hadn't been made, for a caller that lacks what goes with it. It
    /// takes no memory.
    pub fn unmake(&mut self)
        requires { WasMade self.old }
        ensures { (before : TaskTable) → IsKept before → MadeFrom before self.old → self.new ≡ before }
    {
        let number = self.last;
        let _ = self.tasks.remove(u64::from(number));
        let _ = self.groups.remove(u64::from(number));
        take_out(&mut self.live, number);
        take_out(&mut self.children, number);
        self.last = number - 1;
    }

    /// The live tasks of a thread group, ascending, each with its clear word: those that the group's end ends. It goes
    /// over the live tasks once.
    pub fn members(&self, alloc: Global, group: u32) -> Result<List<EndedTask>, Memory>
        ensures { IfOk result (λ ended. ended ≡ ended_tasks (is_member group) self.now.tasks) }
    {
        tasks_leaving(alloc, &self.tasks, &self.live, &Leaving::Members { group })
    }

    /// A live task alone, with its clear word: the one that its exit ends.
    pub fn itself(&self, alloc: Global, task: u32) -> Result<List<EndedTask>, Memory>
        requires { IsTrue (is_live self.now.tasks task) }
        ensures { IfOk result (λ ended. ended ≡ ended_tasks (is_itself task) self.now.tasks) }
    {
        task_leaving(alloc, &self.tasks, task)
    }

    /// Ends a thread group and its tasks. It goes over the live tasks once, and once over the groups with a parent, and
    /// takes no memory.
    pub fn close(&mut self, group: u32, status: Status)
        requires there { IsTrue (map.contains_key self.old.groups group) }
        requires lives { IsFalse (has_ended self.old.groups group) }
        ensures { self.new ≡ group_ended self.old group status }
    {
        let which = Leaving::Members { group };
        end_tasks(&mut self.tasks, &mut self.live, &which);
        close_group(&mut self.groups, &mut self.children, group, status);
    }

    /// Ends a task, and with the last one of a thread group the group. It goes over the live tasks once, and where the
    /// group ends once over the groups with a parent, and takes no memory.
    pub fn leave(&mut self, task: u32, status: Status)
        requires { IsTrue (is_live self.old.tasks task) }
        ensures { self.new ≡ exited self.old task status }
    {
        let is_last = is_last_of_group(&self.tasks, &self.live, task);
        let group = group_of(&self.tasks, task);
        end_one(&mut self.tasks, &mut self.live, task);
        if is_last {
            close_group(&mut self.groups, &mut self.children, group, status);
        }
    }

    /// Ends a task as `leave` does, and answers it. It goes over the live tasks once more, for whether its group ends.
    pub fn exit(&mut self, alloc: Global, task: u32, code: u8) -> Result<Ended, Memory>
        requires { IsTrue (is_live self.old.tasks task) }
        ensures ok { OnOk result (self.new ≡ exited self.old task (Status.Exited code)) }
        ensures ended { IfOk result (λ e. e.tasks ≡ ended_tasks (is_itself task) self.old.tasks) }
        ensures group { IfOk result (λ e. e.group ≡ is_last self.old.tasks task) }
        ensures err { OnErr result (self.new ≡ self.old) }
    {
        let tasks = self.itself(alloc, task)?;
        let group = is_last_of_group(&self.tasks, &self.live, task);
        self.leave(task, Status::Exited(code));
        Ok(Ended { tasks, group })
    }

    /// Ends a thread group and its tasks as `close` does, and answers the tasks. It goes over the live tasks twice.
    pub fn end_group(&mut self, alloc: Global, group: u32, status: Status) -> Result<Ended, Memory>
        requires there { IsTrue (map.contains_key self.old.groups group) }
        requires lives { IsFalse (has_ended self.old.groups group) }
        ensures ok { OnOk result (self.new ≡ group_ended self.old group status) }
        ensures ended { IfOk result (λ e. e.tasks ≡ ended_tasks (is_member group) self.old.tasks) }
        ensures group { IfOk result (λ e. IsTrue e.group) }
        ensures err { OnErr result (self.new ≡ self.old) }
    {
        let tasks = self.members(alloc, group)?;
        self.close(group, status);
        Ok(Ended { tasks, group: true })
    }

    /// Ends the other tasks of a task's thread group. It goes over the live tasks twice.
    pub fn end_others(&mut self, alloc: Global, task: u32) -> Result<Ended, Memory>
        requires { IsTrue (is_live self.old.tasks task) }
        ensures ok { OnOk result (self.new ≡ others_ended self.old task) }
        ensures ended { IfOk result (λ e. e.tasks ≡
            ended_tasks (is_other_member (group_of self.old.tasks task) task) self.old.tasks) }
        ensures group { IfOk result (λ e. IsFalse e.group) }
        ensures err { OnErr result (self.new ≡ self.old) }
    {
        let group = group_of(&self.tasks, task);
        let which = Leaving::OtherMembers { group, task };
        let tasks = tasks_leaving(alloc, &self.tasks, &self.live, &which)?;
        end_tasks(&mut self.tasks, &mut self.live, &which);
        Ok(Ended {
            tasks,
            group: false,
        })
    }

    /// What waiting for a child comes to: for that of a number, or for any. A child that is answered is nobody's child
    /// from then on. It goes over the groups with a parent once, and takes no memory.
    pub fn reap(&mut self, parent: u32, which: Option<u32>) -> ReapEnd
        ensures answer { result ≡ reap_end self.old.groups parent which }
        ensures after { self.new ≡ after_reap self.old result }
    {
        let end = end_of_wait(&self.groups, &self.children, parent, which);
        if let ReapEnd::Reaped { child, .. } = end {
            release(&mut self.groups, &mut self.children, child);
        }
        end
    }

    /// What `reap` would answer.
    pub fn child_to_reap(&self, parent: u32, which: Option<u32>) -> ReapEnd
        ensures { result ≡ reap_end self.now.groups parent which }
    {
        end_of_wait(&self.groups, &self.children, parent, which)
    }

    /// Sets the address of a task's clear word, or 0 for none. It takes no memory.
    pub fn set_clear(&mut self, task: u32, clear: u64)
        requires { IsTrue (map.contains_key self.old.tasks task) }
        ensures { self.new ≡ record self.old {
          tasks = changed_at (λ c. record c { clear = clear }) self.old.tasks task;
        } }
    {
        put_clear(&mut self.tasks, task, clear);
    }

    /// Sets a thread group's working directory, by its inode number. It takes no memory.
    pub fn set_cwd(&mut self, group: u32, cwd: u64)
        requires { IsTrue (map.contains_key self.old.groups group) }
        ensures { self.new ≡ record self.old {
          groups = changed_at (λ g. record g { cwd = cwd }) self.old.groups group;
        } }
    {
        put_cwd(&mut self.groups, group, cwd);
    }

    /// Sets a thread group's memory. It takes no memory of its own.
    pub fn set_memory(&mut self, group: u32, memory: Made)
        requires { IsTrue (map.contains_key self.old.groups group) }
        ensures { self.new ≡ record self.old {
          groups = changed_at (λ g. record g { memory = memory }) self.old.groups group;
        } }
    {
        put_memory(&mut self.groups, group, memory);
    }

    /// The task of a number.
    pub fn task(&self, number: u32) -> Option<&Task>
        ensures value { option_copied result ≡ map.get self.now.tasks number }
        ensures kept { IsKept self.now }
    {
        self.tasks.get(u64::from(number))
    }

    /// The thread group of a number.
    pub fn group(&self, number: u32) -> Option<&Group>
        ensures value { option_copied result ≡ map.get self.now.groups number }
        ensures kept { IsKept self.now }
    {
        self.groups.get(u64::from(number))
    }

    /// The thread groups by number, ended ones too.
    pub fn groups(&self) -> &Map<Group>
        ensures { result.now ≡ self.now.groups }
    {
        &self.groups
    }

    /// How many tasks live.
    pub fn live(&self) -> usize
        ensures value { result ≡ live_count self.now }
        ensures kept { IsKept self.now }
    {
        self.live.len()
    }

    /// Whether as many tasks live as may live at once, so that no more may be made.
    pub fn is_full(&self) -> bool
        ensures { result ≡ nat_le MOST_LIVE (live_count self.now) }
    {
        self.live.len() >= MOST_LIVE
    }

    /// The greatest number used, or 0.
    pub fn last(&self) -> u32
        ensures { result ≡ self.now.last }
    {
        self.last
    }

    /// Whether no other task of a task's thread group lives. It goes over the live tasks once.
    pub fn is_last(&self, task: u32) -> bool
        ensures { result ≡ is_last self.now.tasks task }
    {
        is_last_of_group(&self.tasks, &self.live, task)
    }

    /// The live task of the lowest number above another, if there is one.
    pub fn next_live(&self, after: u32) -> Option<u32>
        ensures { result ≡ find (λ n. nat_lt after n) (live_numbers self.now.tasks) }
    {
        self.live.iter().copied().find(|number| *number > after)
    }

    /// Makes a task in a thread group of its own.
    #[tactic(auto, using(crate::proofs::Keeping::next_absent))]
    fn add_group(&mut self, group: Group, clear: u64) -> Result<u32, CloneErr>
        requires next { self.old.last < LAST_TASK }
        requires lives { group.ended ≡ None }
        ensures number { IfOk result (λ n. n ≡ self.old.last + 1) }
        ensures ok { OnOk result (self.new ≡ with_group self.old group clear) }
        ensures full { (result ≡ Err CloneErr.Full) ↔ (live_count self.old ≡ MOST_LIVE) }
        ensures err { OnErr result (self.new ≡ self.old) }
        ensures kept { IsKept self.old }
        ensures made { OnOk result (MadeFrom self.old self.new) }
    {
        if self.live.len() >= MOST_LIVE {
            return Err(CloneErr::Full);
        }
        let number = self.last + 1;
        let task = Task {
            group: number,
            clear,
            live: true,
        };
        self.live.reserve(1)?;
        self.children.reserve(1)?;
        put_both(&mut self.tasks, &mut self.groups, number, task, group)?;
        self.live.push_reserved(number);
        note_child(&mut self.children, number, &group);
        self.last = number;
        Ok(number)
    }
}

/// A group's working directory's inode number, or 0.
fn cwd_of(groups: &Map<Group>, number: u32) -> u64
    ensures { result ≡ cwd_of groups.now number }
{
    match groups.get(u64::from(number)) {
        Some(group) => group.cwd,
        None => 0,
    }
}

/// Sets the address of a task's clear word.
fn put_clear(tasks: &mut Map<Task>, number: u32, clear: u64)
    ensures { tasks.new ≡ changed_at (λ c. record c { clear = clear }) tasks.old number }
{
    if let Some(task) = tasks.get(u64::from(number)).copied() {
        tasks.replace(u64::from(number), Task { clear, ..task });
    }
}

/// Sets a group's working directory.
fn put_cwd(groups: &mut Map<Group>, number: u32, cwd: u64)
    ensures { groups.new ≡ changed_at (λ g. record g { cwd = cwd }) groups.old number }
{
    if let Some(group) = groups.get(u64::from(number)).copied() {
        groups.replace(u64::from(number), Group { cwd, ..group });
    }
}

/// Sets a group's memory.
fn put_memory(groups: &mut Map<Group>, number: u32, memory: Made)
    ensures { groups.new ≡ changed_at (λ g. record g { memory = memory }) groups.old number }
{
    if let Some(group) = groups.get(u64::from(number)).copied() {
        groups.replace(u64::from(number), Group { memory, ..group });
    }
}
