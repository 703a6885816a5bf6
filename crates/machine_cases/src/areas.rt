//! The reservations in a shared area.

use crate::numbers::{task_number, two};
use read_cases::{Bad, number, parted};
use rv_atomic::AreaReservations;
use std::alloc::Global;
use std::mem;

/// Reservations, and those that are set aside: none, or a copy.
#[derive(Drop)]
pub struct SharedArea {
    held: AreaReservations,
    aside: AreaReservations,
}

/// Stores a task's bytes: one, two, four or eight; whether they are so many.
fn store(held: &mut AreaReservations, task: u32, at: u64, width: u64) -> bool {
    match width {
        1 => held.stored(task, at, 1),
        2 => held.stored(task, at, 2),
        4 => held.stored(task, at, 4),
        8 => held.stored(task, at, 8),
        _ => return false,
    }
    true
}

/// Puts so many bytes for a task; whether they end at an address.
fn store_run(held: &mut AreaReservations, task: u32, at: u64, count: u64) -> bool {
    if at > u64::MAX - count {
        return false;
    }
    held.stored_run(task, at, count);
    true
}

impl SharedArea {
    /// No reservations.
    pub fn new(alloc: Global) -> SharedArea {
        SharedArea {
            held: AreaReservations::new(alloc),
            aside: AreaReservations::new(alloc),
        }
    }

    /// Does what a task does to a granule, by its number.
    fn of_granule(
        &mut self,
        verb: &str,
        task: u32,
        granule: u64,
        came: &mut String,
    ) -> Result<(), Bad> {
        match verb {
            "reserve" => self.held.reserve(task, granule)?,
            "holds" => write!(came, "{}", self.held.holds(task, granule))?,
            _ => came.push_str("unread")?,
        }
        Ok(())
    }

    /// Does what a task does to so many bytes, which are counted from the area's first.
    fn of_bytes(
        &mut self,
        verb: &str,
        task: u32,
        (at, count): (u64, u64),
        came: &mut String,
    ) -> Result<(), Bad> {
        let is_read = match verb {
            "stored" => store(&mut self.held, task, at, count),
            "stored_run" => store_run(&mut self.held, task, at, count),
            _ => false,
        };
        if !is_read {
            came.push_str("unread")?;
        }
        Ok(())
    }

    /// Does a case that names a task.
    fn of_task(&mut self, verb: &str, rest: &str, came: &mut String) -> Result<(), Bad> {
        let (task, place) = parted(rest);
        match (task_number(task), number(place), two(place)) {
            (Some(task), None, None) if verb == "leave" => {
                self.held.leave(task);
                Ok(())
            }
            (Some(task), Some(granule), None) => self.of_granule(verb, task, granule, came),
            (Some(task), None, Some(bytes)) => self.of_bytes(verb, task, bytes, came),
            _ => Ok(came.push_str("unread")?),
        }
    }

    /// Does a case of the reservations in a shared area.
    pub fn answer(&mut self, alloc: Global, case: &str, came: &mut String) -> Result<(), Bad> {
        let (verb, rest) = parted(case);
        match verb {
            "copy" => self.aside = self.held.copy(alloc)?,
            "change" => mem::swap(&mut self.held, &mut self.aside),
            "len" => write!(came, "{}", self.held.len())?,
            "is_empty" => write!(came, "{}", self.held.is_empty())?,
            _ => return self.of_task(verb, rest, came),
        }
        Ok(())
    }
}
