//! Why a program of cases gave up.

use sn_base::Memory;
use std::alloc::{AllocError, AllocFailed};
use std::io;

/// Want of memory, a file that can't be read or a stream that can't be written, or a state that can't be set up as a
/// case says.
#[derive(Clone, Copy, Debug, PartialEq, Eq)]
pub enum Bad {
    Memory,
    Stream,
    Setup,
}

impl From<Memory> for Bad {
    fn from(_e: Memory) -> Bad {
        Bad::Memory
    }
}

impl From<AllocError> for Bad {
    fn from(_e: AllocError) -> Bad {
        Bad::Memory
    }
}

impl<T: Drop> From<AllocFailed<T>> for Bad {
    fn from(_e: AllocFailed<T>) -> Bad {
        Bad::Memory
    }
}

impl From<io::Error> for Bad {
    fn from(_e: io::Error) -> Bad {
        Bad::Stream
    }
}
