//! Tasks by each of the things that they used.

ghost use Rattle.std.specs.Prelude.{◌≡◌, ◌⊎◌, ℕ, true, false, IfOk, OnOk};
ghost use Rattle.parked_tasks.specs.Used.{AreMore, IsEndListed, IsListedWith, is_listed_in};
ghost use Rattle.parked_tasks.specs.Users.{is_among};
ghost use Rattle.parked_tasks.specs.declared.used.Used.{Used as AUsed};

use crate::used::{Spot, Used, uses_areas};
use crate::users::Users;
use kernel_calls::UsedEnd;
use sn_base::{List, Made, Map, Memory};
use std::alloc::Global;

/// Tasks by each of the things that they used: their memories, descriptor tables, open file descriptions and pipes, by
/// name, and the shared areas. A task may be listed that used something once, and uses it no more.
#[derive(Drop)]
pub(crate) struct Index {
    pub(crate) by_memory: Users,
    pub(crate) by_table: Users,
    pub(crate) by_description: Users,
    pub(crate) by_pipe: Users,
    pub(crate) in_areas: Map<()>,
}

impl Index {
    /// None is listed. It takes no memory.
    pub(crate) fn new(alloc: Global) -> Index {
        Index {
            by_memory: Users::new(alloc),
            by_table: Users::new(alloc),
            by_description: Users::new(alloc),
            by_pipe: Users::new(alloc),
            in_areas: Map::new(alloc),
        }
    }

    /// Lists a task with all that it used. An `Err` may have listed it with some of that.
    pub(crate) fn list(&mut self, alloc: Global, task: u64, spot: Spot) -> Result<(), Memory>
        ensures listed { OnOk result (IsListedWith self.new task spot) }
        ensures more { AreMore self.old self.new }
    {
        self.list_with(alloc, task, Used::Memory(spot.memory))?;
        self.list_in_areas(alloc, task, uses_areas(spot))?;
        match spot.awaited.end {
            Some(end) => self.list_end(alloc, task, spot.table, end),
            None => Ok(()),
        }
    }

    /// Lists a task with shared areas, where it used any.
    fn list_in_areas(&mut self, alloc: Global, task: u64, uses: bool) -> Result<(), Memory>
        ensures listed { OnOk result (uses ≡ true → is_listed_in self.new AUsed.Areas task ≡ true) }
        ensures more { AreMore self.old self.new }
    {
        if uses {
            self.list_with(alloc, task, Used::Areas)
        } else {
            Ok(())
        }
    }

    /// Lists a task with a descriptor table, and with the description and the pipe that it used by it.
    fn list_end(
        &mut self,
        alloc: Global,
        task: u64,
        table: Made,
        end: UsedEnd,
    ) -> Result<(), Memory>
        ensures listed { OnOk result (IsEndListed self.new task table end) }
        ensures more { AreMore self.old self.new }
    {
        self.list_with(alloc, task, Used::Table(table))?;
        self.list_with(alloc, task, Used::Description(end.description))?;
        self.list_with(alloc, task, Used::Pipe(end.pipe))
    }

    /// Lists a task with one thing that it used.
    fn list_with(&mut self, alloc: Global, task: u64, used: Used) -> Result<(), Memory>
        ensures listed { OnOk result (is_listed_in self.new used task ≡ true) }
        ensures more { AreMore self.old self.new }
    {
        match used {
            Used::Memory(name) => self.by_memory.list(alloc, name, task),
            Used::Table(name) => self.by_table.list(alloc, name, task),
            Used::Description(name) => self.by_description.list(alloc, name, task),
            Used::Pipe(name) => self.by_pipe.list(alloc, name, task),
            Used::Areas => self.in_areas.insert(task, ()),
        }
    }

    /// The tasks that are listed with one thing.
    pub(crate) fn listed(&self, alloc: Global, used: Used) -> Result<List<u64>, Memory>
        ensures { IfOk result (λ tasks. (task : ℕ) → is_among task tasks ≡ is_listed_in self.now used task) }
    {
        match used {
            Used::Memory(name) => self.by_memory.listed(alloc, name),
            Used::Table(name) => self.by_table.listed(alloc, name),
            Used::Description(name) => self.by_description.listed(alloc, name),
            Used::Pipe(name) => self.by_pipe.listed(alloc, name),
            Used::Areas => self.in_areas.keys(alloc),
        }
    }

    /// Lists no task with that any more, and each as it was with all else. It takes no memory.
    pub(crate) fn forget(&mut self, alloc: Global, used: Used)
        ensures gone { (task : ℕ) → is_listed_in self.new used task ≡ false }
        ensures others { (other : AUsed) (task : ℕ) → is_listed_in self.old other task ≡ true →
            (is_listed_in self.new other task ≡ true) ⊎ (other ≡ used) }
    {
        match used {
            Used::Memory(name) => self.by_memory.forget(name),
            Used::Table(name) => self.by_table.forget(name),
            Used::Description(name) => self.by_description.forget(name),
            Used::Pipe(name) => self.by_pipe.forget(name),
            Used::Areas => self.in_areas = Map::new(alloc),
        }
    }
}
