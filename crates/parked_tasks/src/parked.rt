//! Tasks that are parked, by number and by what they used.

ghost use Rattle.std.specs.Prelude.{◌≡◌, ◌||◌, ◌&&◌, ℕ, None, OnErr, OnOk, true, if◌then◌else◌};
ghost use Rattle.std.specs.FinMap as map;
ghost use Rattle.std.specs.Ordering.{eq_by_cmp, nat_cmp};
ghost use Rattle.parked_tasks.specs.Parked.{WereParked, AreListed, HaveWoken};
ghost use Rattle.parked_tasks.specs.Used.{has_used};
ghost use Rattle.parked_tasks.specs.Users.{AreNumbers, is_among};

use crate::index::Index;
use crate::used::{Spot, Used};
use sn_base::{Map, Memory};
use std::alloc::Global;

/// Tasks that are parked, by number and by what they used. Nothing here says why.
pub(crate) struct Parked {
    /// The tasks, by number: what each used.
    pub(crate) tasks: Map<Spot>,
    /// The tasks by what they used; and others, which are parked elsewhere, or not at all by now.
    index: Index,
    // Each parked task is listed with all that it used.
    ghost listed: { AreListed tasks index },
    ghost numbers: { AreNumbers tasks },
}

/// Lets all of it go, in one call at each exit of who owns it.
impl Drop for Parked {
    fn drop(self) {
        let Parked { tasks: _, index: _ } = self;
    }
}

impl Parked {
    /// None is parked. It takes no memory.
    pub(crate) fn new(alloc: Global) -> Parked
        ensures { result.tasks ≡ map.empty }
    {
        Parked {
            tasks: Map::new(alloc),
            index: Index::new(alloc),
        }
    }

    /// Parks a task with what it used. An `Err` leaves who is parked.
    pub(crate) fn park(&mut self, alloc: Global, task: u32, spot: Spot) -> Result<(), Memory>
        ensures ok { OnOk result (self.new.tasks ≡ map.insert self.old.tasks task spot) }
        ensures err { OnErr result (self.new.tasks ≡ self.old.tasks) }
    {
        let number = u64::from(task);
        self.index.list(alloc, number, spot)?;
        self.tasks.insert(number, spot)
    }

    /// Has the tasks be looked at again that are parked with something that they used. Where none is listed with it,
    /// this is two look-ups.
    pub(crate) fn wake(
        &mut self,
        alloc: Global,
        used: Used,
        awake: &mut Map<()>,
    ) -> Result<(), Memory>
        ensures woken { OnOk result
            (HaveWoken (λ spot. has_used spot used) self.old.tasks self.new.tasks awake.old awake.new) }
        ensures numbers { AreNumbers awake.old → AreNumbers awake.new }
    {
        let listed = self.index.listed(alloc, used)?;
        look_at(&mut self.tasks, awake, listed.as_slice())?;
        self.index.forget(alloc, used);
        Ok(())
    }

    /// Has all parked tasks be looked at again.
    pub(crate) fn wake_all(&mut self, alloc: Global, awake: &mut Map<()>) -> Result<(), Memory>
        ensures woken { OnOk result (HaveWoken (λ _. true) self.old.tasks self.new.tasks awake.old awake.new) }
        ensures numbers { AreNumbers awake.old → AreNumbers awake.new }
    {
        let tasks = self.tasks.keys(alloc)?;
        look_at(&mut self.tasks, awake, tasks.as_slice())?;
        self.index = Index::new(alloc);
        Ok(())
    }
}

/// Has each of these tasks be looked at again that is parked. An `Err` may have done so with some of them.
fn look_at(parked: &mut Map<Spot>, awake: &mut Map<()>, tasks: &[u64]) -> Result<(), Memory>
    ensures parked { OnOk result ((task : ℕ) → map.get parked.new task
        ≡ (if is_among task tasks.now then None else map.get parked.old task)) }
    ensures looked_at { OnOk result ((task : ℕ) → map.contains_key awake.new task
        ≡ (map.contains_key awake.old task
        || (is_among task tasks.now && map.contains_key parked.old task))) }
    ensures left { WereParked parked.old parked.new }
    ensures numbers { AreNumbers parked.old → AreNumbers awake.old → AreNumbers awake.new }
{
    for task in tasks {
        look_at_one(parked, awake, *task)?;
    }
    Ok(())
}

/// Has a task be looked at again, where it is parked. An `Err` changes nothing.
fn look_at_one(parked: &mut Map<Spot>, awake: &mut Map<()>, task: u64) -> Result<(), Memory>
    ensures parked { OnOk result (parked.new ≡ map.remove parked.old task) }
    ensures looked_at { OnOk result ((other : ℕ) → map.contains_key awake.new other
        ≡ (map.contains_key awake.old other
        || (map.contains_key parked.old task && eq_by_cmp nat_cmp other task))) }
    ensures err { OnErr result (parked.new ≡ parked.old) }
    ensures err_awake { OnErr result (awake.new ≡ awake.old) }
{
    if parked.contains(task) {
        awake.insert(task, ())?;
        let _ = parked.remove(task);
    }
    Ok(())
}
