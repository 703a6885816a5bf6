//! A live task, as an entry of it finds it.

use crate::GuestSpace;
use rv_table::Regs;
use sn_base::Made;

/// A live task: its number, its thread group's number and the names of the group's memory and descriptor table, its
/// registers, and what its memory holds.
#[derive(Drop)]
pub struct Caller {
    pub task: u32,
    pub group: u32,
    pub memory: Made,
    pub table: Made,
    pub registers: Regs,
    pub space: GuestSpace,
}
