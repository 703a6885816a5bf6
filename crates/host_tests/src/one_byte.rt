//! A file of which one byte is read, and then no more: what is asked of it then is an error.

ghost use Rattle.std.specs.Prelude.{IsErr};

use std::fs::{Metadata, OpenFile};
use std::io;
use std::io::{ErrorKind, Read, Seek, SeekFrom, Write};

/// A call that ends with an error of a kind.
pub fn failed<T>(kind: ErrorKind) -> io::Result<T>
    ensures { IsErr result }
{
    Err(io::Error::from(kind))
}

/// A call that is refused.
pub fn refused<T>() -> io::Result<T>
    ensures { IsErr result }
{
    failed(ErrorKind::PermissionDenied)
}

/// A call for which there is no memory.
pub fn exhausted<T>() -> io::Result<T>
    ensures { IsErr result }
{
    failed(ErrorKind::OutOfMemory)
}

/// A file of which one byte is read, and no more.
#[derive(Drop)]
pub struct OneByte {
    can_seek: bool,
    is_read: bool,
    /// What the error of each further read is, and of each seek where it can't seek.
    end: ErrorKind,
}

impl OneByte {
    /// One that refuses further reads.
    pub fn new() -> OneByte {
        OneByte {
            can_seek: true,
            is_read: false,
            end: ErrorKind::PermissionDenied,
        }
    }

    /// One that has no memory for them.
    pub fn exhausted() -> OneByte {
        OneByte {
            can_seek: true,
            is_read: false,
            end: ErrorKind::OutOfMemory,
        }
    }

    /// One that is read as well, but in which each seek is an error of a kind.
    pub fn unseekable(end: ErrorKind) -> OneByte {
        OneByte {
            can_seek: false,
            is_read: false,
            end,
        }
    }
}

impl Read for OneByte {
    fn read(&mut self, buf: &mut [u8]) -> io::Result<usize> {
        if self.is_read || buf.is_empty() {
            return failed(self.end);
        }
        self.is_read = true;
        buf[0] = b'x';
        Ok(1)
    }
}

impl Write for OneByte {
    fn write(&mut self, _buf: &[u8]) -> io::Result<usize> {
        refused()
    }

    fn flush(&mut self) -> io::Result<()> {
        refused()
    }
}

impl Seek for OneByte {
    fn seek(&mut self, _to: SeekFrom) -> io::Result<u64> {
        if self.can_seek {
            Ok(0)
        } else {
            failed(self.end)
        }
    }
}

impl OpenFile for OneByte {
    fn metadata(&self) -> io::Result<Metadata> {
        refused()
    }

    fn set_len(&self, _size: u64) -> io::Result<()> {
        refused()
    }

    fn sync_all(&self) -> io::Result<()> {
        refused()
    }

    fn sync_data(&self) -> io::Result<()> {
        refused()
    }
}
