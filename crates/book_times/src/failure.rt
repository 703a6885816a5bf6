//! Why the program gave up.

use std::alloc::{AllocError, AllocFailed};
use std::io;

/// Want of memory, a clock or a stream that failed, words that say no number of rounds, or a page, a seat or an entry
/// that wasn't had.
#[derive(Clone, Copy, Debug, PartialEq, Eq)]
pub enum Failure {
    Memory,
    System,
    Words,
    Lacking,
}

impl From<AllocError> for Failure {
    fn from(_e: AllocError) -> Failure {
        Failure::Memory
    }
}

impl<T: Drop> From<AllocFailed<T>> for Failure {
    fn from(_e: AllocFailed<T>) -> Failure {
        Failure::Memory
    }
}

impl From<io::Error> for Failure {
    fn from(_e: io::Error) -> Failure {
        Failure::System
    }
}
