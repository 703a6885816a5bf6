//! Tasks by the name of something that each used.

ghost use Rattle.std.specs.Prelude.{◌≡◌, ℕ, IfOk, OnErr, OnOk};
ghost use Rattle.std.specs.FinMap as map;
ghost use Rattle.kernel_model.specs.Names.{without_named};
ghost use Rattle.parked_tasks.specs.Users.{is_among, is_listed, with_listed};

use kernel_model::Named;
use sn_base::{List, Made, Map, Memory};
use std::alloc::Global;

/// Tasks by the name of something that each used, as a memory or a pipe. One may be listed that used it once, and uses
/// it no more.
#[derive(Drop)]
pub(crate) struct Users {
    pub(crate) by_name: Named<Map<()>>,
}

impl Users {
    /// None is listed. It takes no memory.
    pub(crate) fn new(alloc: Global) -> Users
        ensures { result.by_name ≡ map.empty }
    {
        Users {
            by_name: Named::new(alloc),
        }
    }

    /// Lists a task under a name too. An `Err` leaves the lists as they were.
    pub(crate) fn list(&mut self, alloc: Global, name: Made, task: u64) -> Result<(), Memory>
        ensures ok { OnOk result (self.new.by_name ≡ with_listed self.old.by_name name task tt) }
        ensures err { OnErr result (self.new.by_name ≡ self.old.by_name) }
    {
        match self.by_name.get_mut(name.place, name.index) {
            Some(tasks) => tasks.insert(task, ()),
            None => {
                let mut tasks = Map::new(alloc);
                tasks.insert(task, ())?;
                self.by_name.insert(alloc, name.place, name.index, tasks)
            }
        }
    }

    /// The tasks that are listed under a name.
    pub(crate) fn listed(&self, alloc: Global, name: Made) -> Result<List<u64>, Memory>
        ensures { IfOk result (λ tasks. (task : ℕ) →
            is_among task tasks ≡ is_listed self.now.by_name name task) }
    {
        match self.by_name.get(name.place, name.index) {
            Some(tasks) => tasks.keys(alloc),
            None => Ok(List::new(alloc)),
        }
    }

    /// Lists no task under a name any more. It takes no memory.
    pub(crate) fn forget(&mut self, name: Made)
        ensures { self.new.by_name ≡ without_named self.old.by_name name.place name.index }
    {
        let _ = self.by_name.remove(name.place, name.index);
    }
}
