//! The names of a directory, as they are read, and what comes behind them.

use crate::one_byte::failed;
use std::alloc::Global;
use std::io;
use std::io::{Cursor, ErrorKind, Read};

/// A directory that reads as its names, each with a NUL behind it, and then ends, or fails at each further read.
#[derive(Drop)]
pub struct Names {
    names: Cursor<Vec<u8>>,
    /// What the error of each further read is, if they fail.
    end: Option<ErrorKind>,
}

impl Names {
    pub fn new(alloc: Global, names: &[u8], end: Option<ErrorKind>) -> io::Result<Names> {
        let names = Cursor::new(Vec::from_slice(alloc, names)?);
        Ok(Names { names, end })
    }
}

impl Read for Names {
    fn read(&mut self, buf: &mut [u8]) -> io::Result<usize> {
        let count = self.names.read(buf)?;
        match self.end {
            Some(kind) if count == 0 => failed(kind),
            _ => Ok(count),
        }
    }
}
