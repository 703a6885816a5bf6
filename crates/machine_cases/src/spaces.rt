//! The reservations of an address space.

use crate::numbers::{area, task_number, two};
use read_cases::{Bad, parted};
use rv_atomic::Reservations;
use rv_table::Area;
use std::alloc::Global;
use std::mem;

/// Reservations, and those that are set aside: none, or a copy.
#[derive(Drop)]
pub struct Space {
    held: Reservations,
    aside: Reservations,
}

/// What a case names: a task, so many bytes at an address, and the shared area that their page lies in, if any.
#[derive(Clone, Copy)]
struct Bytes {
    task: u32,
    at: u64,
    count: u64,
    area: Option<Area>,
}

/// Stores a task's bytes: one, two, four or eight; whether they are so many.
fn store(held: &mut Reservations, bytes: Bytes) -> bool {
    match bytes.count {
        1 => held.stored(bytes.task, bytes.at, 1),
        2 => held.stored(bytes.task, bytes.at, 2),
        4 => held.stored(bytes.task, bytes.at, 4),
        8 => held.stored(bytes.task, bytes.at, 8),
        _ => return false,
    }
    true
}

/// Has a task reserve so many bytes; whether they are fewer than 256.
fn reserve(held: &mut Reservations, bytes: Bytes) -> Result<bool, Bad> {
    match u8::try_from(bytes.count) {
        Ok(width) => held.reserve(bytes.task, bytes.at, width, bytes.area)?,
        Err(_) => return Ok(false),
    }
    Ok(true)
}

/// What a task's reservation tells of so many bytes, where they are fewer than 256.
fn told(held: &mut Reservations, verb: &str, bytes: Bytes) -> Option<bool> {
    let width = u8::try_from(bytes.count).ok()?;
    match verb {
        "take" => Some(held.take(bytes.task, bytes.at, width, bytes.area)),
        "holds" => Some(held.holds(bytes.task, bytes.at, width, bytes.area)),
        _ => None,
    }
}

/// The bytes of a task that a case names, behind which an area may stand.
fn bytes_of(task: u32, text: &str) -> Option<Bytes> {
    let (text, area) = match text.split_once(" in ") {
        Some((text, name)) => (text, Some(area(name)?)),
        None => (text, None),
    };
    let (at, count) = two(text)?;
    Some(Bytes {
        task,
        at,
        count,
        area,
    })
}

impl Space {
    /// No reservations.
    pub fn new(alloc: Global) -> Space {
        Space {
            held: Reservations::new(alloc),
            aside: Reservations::new(alloc),
        }
    }

    /// Does what a task does to so many bytes at an address.
    fn of_bytes(&mut self, verb: &str, bytes: Bytes, came: &mut String) -> Result<(), Bad> {
        let is_read = match verb {
            "reserve" => reserve(&mut self.held, bytes)?,
            "stored" => store(&mut self.held, bytes),
            "stored_run" => {
                self.held.stored_run(bytes.task, bytes.at, bytes.count);
                true
            }
            _ => match told(&mut self.held, verb, bytes) {
                Some(is_so) => {
                    write!(came, "{is_so}")?;
                    true
                }
                None => false,
            },
        };
        if !is_read {
            came.push_str("unread")?;
        }
        Ok(())
    }

    /// Does a case that names a task.
    fn of_task(&mut self, verb: &str, rest: &str, came: &mut String) -> Result<(), Bad> {
        let (task, bytes) = parted(rest);
        let Some(task) = task_number(task) else {
            return Ok(came.push_str("unread")?);
        };
        match bytes_of(task, bytes) {
            Some(bytes) => self.of_bytes(verb, bytes, came),
            None if verb == "is_reserving" => {
                Ok(write!(came, "{}", self.held.is_reserving(task))?)
            }
            None => Ok(came.push_str("unread")?),
        }
    }

    fn drop_range(&mut self, rest: &str, came: &mut String) -> Result<(), Bad> {
        match two(rest) {
            Some((at, count)) => self.held.drop_range(at, count),
            None => came.push_str("unread")?,
        }
        Ok(())
    }

    /// Does a case of the reservations of an address space.
    pub fn answer(&mut self, alloc: Global, case: &str, came: &mut String) -> Result<(), Bad> {
        let (verb, rest) = parted(case);
        match verb {
            "copy" => self.aside = self.held.copy(alloc)?,
            "change" => mem::swap(&mut self.held, &mut self.aside),
            "len" => write!(came, "{}", self.held.len())?,
            "is_empty" => write!(came, "{}", self.held.is_empty())?,
            "drop_range" => return self.drop_range(rest, came),
            _ => return self.of_task(verb, rest, came),
        }
        Ok(())
    }
}
