//! Which tasks are looked at for the next turn, and which are parked until something that they used changes.

ghost use Rattle.std.specs.Prelude.{◌≡◌, ◌||◌, ◌&&◌, ℕ, None, Some, OnErr, OnOk, true, if◌then◌else◌};
ghost use Rattle.std.specs.Option.{option_map};
ghost use Rattle.std.specs.FinMap as map;
ghost use Rattle.sn_base.specs.MapKeys.{IsLeastAbove};
ghost use Rattle.parked_tasks.specs.Touched.{are_named, has_table_named, is_touched_by, is_used};
ghost use Rattle.parked_tasks.specs.Used.{has_description, has_pipe, same_made, uses_areas};
ghost use Rattle.parked_tasks.specs.Users.{AreNumbers};
ghost use Rattle.parked_tasks.specs.declared.used.Used.{Used as AUsed};

use crate::parked::Parked;
use crate::touched::{Touched, UpToTwo};
use crate::used::{Spot, Used};
use sn_base::{Made, Map, Memory};
use std::alloc::Global;

/// Which tasks are looked at for the next turn, and which are parked until something that they used changes. Nothing
/// here says why a task is parked, nor that each task is one or the other.
#[derive(Drop)]
pub struct Parking {
    /// The tasks that are looked at, by number.
    pub awake: Map<()>,
    pub(crate) parked: Parked,
    pub ghost numbers: { AreNumbers awake },
}

impl Parking {
    ghost use Rattle.parked_tasks.specs.Parking.{AreParkedAlike, AreWoken, IsParkedAt, parked_at};

    /// No task is looked at, and none is parked. It takes no memory.
    pub fn new(alloc: Global) -> Parking
        ensures awake { result.awake ≡ map.empty }
        ensures parked { (task : ℕ) → parked_at result task ≡ None }
    {
        Parking {
            awake: Map::new(alloc),
            parked: Parked::new(alloc),
        }
    }

    /// The task of the least number above another, of those that are looked at.
    pub fn first_above(&self, after: u32) -> Option<u32>
        ensures { IsLeastAbove self.now.awake after result }
    {
        match self.awake.first_above(u64::from(after)) {
            Some(task) => Some(task as u32),
            None => None,
        }
    }

    /// Has a task be looked at. An `Err` changes nothing.
    pub fn wake(&mut self, task: u32) -> Result<(), Memory>
        ensures ok { OnOk result (self.new.awake ≡ map.insert self.old.awake task tt) }
        ensures err { OnErr result (self.new.awake ≡ self.old.awake) }
        ensures parked { AreParkedAlike self.old self.new }
    {
        self.awake.insert(u64::from(task), ())
    }

    /// Has a task be looked at no more. It takes no memory.
    pub fn rest(&mut self, task: u32)
        ensures awake { self.new.awake ≡ map.remove self.old.awake task }
        ensures parked { AreParkedAlike self.old self.new }
    {
        let _ = self.awake.remove(u64::from(task));
    }

    /// Parks a task with what it used: it is looked at no more.
    pub fn park(&mut self, alloc: Global, task: u32, spot: Spot) -> Result<(), Memory>
        ensures awake { OnOk result (self.new.awake ≡ map.remove self.old.awake task) }
        ensures parked { OnOk result (IsParkedAt task spot self.old self.new) }
    {
        self.parked.park(alloc, task, spot)?;
        self.rest(task);
        Ok(())
    }

    /// Has the tasks be looked at again that are parked with a memory, and where areas may have changed, those that
    /// used any. Where there are none, this is two look-ups.
    pub fn wake_in(&mut self, alloc: Global, memory: Made, areas: bool) -> Result<(), Memory>
        ensures { OnOk result (AreWoken
            (λ spot. same_made spot.memory memory || (uses_areas spot && areas)) self.old self.new) }
    {
        self.wake_users(alloc, Some(Used::Memory(memory)))?;
        self.wake_users(alloc, areas_if(areas))
    }

    /// Has the tasks be looked at again that are parked with what an entry touched of what is open.
    pub fn wake_touched(&mut self, alloc: Global, touched: &Touched) -> Result<(), Memory>
        ensures { OnOk result (AreWoken (λ spot. is_touched_by touched.now spot) self.old self.new) }
    {
        self.wake_table(alloc, touched.table)?;
        self.wake_descriptions(alloc, touched.descriptions)?;
        self.wake_pipes(alloc, touched.pipes)
    }

    /// Has the tasks be looked at again that are parked with an end of a pipe by a descriptor of this table.
    fn wake_table(&mut self, alloc: Global, name: Option<Made>) -> Result<(), Memory>
        ensures { OnOk result (AreWoken (λ spot. has_table_named name spot) self.old self.new) }
    {
        self.wake_users(alloc, table(name))
    }

    /// Has the tasks be looked at again that are parked with one of these open file descriptions.
    fn wake_descriptions(&mut self, alloc: Global, names: UpToTwo) -> Result<(), Memory>
        ensures { OnOk result
            (AreWoken (λ spot. has_description (are_named names) spot) self.old self.new) }
    {
        self.wake_users(alloc, description(names.first))?;
        self.wake_users(alloc, description(names.second))
    }

    /// Has the tasks be looked at again that are parked with one of these pipes.
    fn wake_pipes(&mut self, alloc: Global, names: UpToTwo) -> Result<(), Memory>
        ensures { OnOk result (AreWoken (λ spot. has_pipe (are_named names) spot) self.old self.new) }
    {
        self.wake_users(alloc, pipe(names.first))?;
        self.wake_users(alloc, pipe(names.second))
    }

    /// Has the tasks be looked at again that are parked with something that they used, where there is such a thing.
    fn wake_users(&mut self, alloc: Global, used: Option<Used>) -> Result<(), Memory>
        ensures { OnOk result (AreWoken (λ spot. is_used used spot) self.old self.new) }
    {
        match used {
            Some(used) => self.parked.wake(alloc, used, &mut self.awake),
            None => Ok(()),
        }
    }

    /// Has all parked tasks be looked at again.
    pub fn wake_all(&mut self, alloc: Global) -> Result<(), Memory>
        ensures { OnOk result (AreWoken (λ _. true) self.old self.new) }
    {
        self.parked.wake_all(alloc, &mut self.awake)
    }
}

/// The shared areas, where they may have changed.
fn areas_if(changed: bool) -> Option<Used>
    ensures { result ≡ (if changed then Some AUsed.Areas else None) }
{
    if changed { Some(Used::Areas) } else { None }
}

/// A descriptor table of that name, where there is one.
fn table(name: Option<Made>) -> Option<Used>
    ensures { result ≡ option_map AUsed.Table name }
{
    match name {
        Some(name) => Some(Used::Table(name)),
        None => None,
    }
}

/// An open file description of that name, where there is one.
fn description(name: Option<Made>) -> Option<Used>
    ensures { result ≡ option_map AUsed.Description name }
{
    match name {
        Some(name) => Some(Used::Description(name)),
        None => None,
    }
}

/// A pipe of that name, where there is one.
fn pipe(name: Option<Made>) -> Option<Used>
    ensures { result ≡ option_map AUsed.Pipe name }
{
    match name {
        Some(name) => Some(Used::Pipe(name)),
        None => None,
    }
}
