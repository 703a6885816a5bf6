//! Want of memory, as an error of its own.

use std::alloc::{AllocError, AllocFailed};

/// An allocation was refused. It is the whole error of a call that can fail in no other way.
#[derive(Clone, Copy, Debug, PartialEq, Eq)]
pub struct Memory;

impl From<AllocError> for Memory {
    fn from(_e: AllocError) -> Memory {
        Memory
    }
}

impl<T: Drop> From<AllocFailed<T>> for Memory {
    fn from(_e: AllocFailed<T>) -> Memory {
        Memory
    }
}
