//! The gate that a worker passes before a turn begins.

use std::sync::Wait;

/// Where a worker passes the gate.
#[derive(Drop, Clone, Copy, Debug, PartialEq, Eq)]
pub enum Point {
    /// Before a turn, with no lock of the pool held.
    Turn,
}

/// What a worker passes at each point. A gate may hold the worker for a while, as a test does that wants two turns to
/// overlap.
pub trait Gate: Sync {
    /// Called by the worker of this number before the task of that number goes on.
    fn pass<R: Wait>(&self, rt: &R, worker: u32, task: u32, point: Point);
}

/// The gate that does nothing.
#[derive(Drop, Clone, Copy, Debug)]
pub struct Open;

impl Gate for Open {
    fn pass<R: Wait>(&self, _rt: &R, _worker: u32, _task: u32, _point: Point) {}
}
