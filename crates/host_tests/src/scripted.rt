//! A system that knows which calls it is to be asked for, in order.

use crate::names::Names;
use crate::one_byte::{OneByte, exhausted, refused};
use std::alloc::{Allocator, Global};
use std::fs::{Files, Metadata, OpenOptions};
use std::io;
use std::io::ErrorKind;
use std::sync::atomic::{AtomicU64, Ordering};

/// A call of the system, and what it answers. A look follows no link.
#[derive(Clone, Copy)]
pub enum Call {
    /// A look, which finds a directory.
    Directory,
    /// A look, which finds a file of twelve bytes.
    File,
    /// A look, which finds a link of eleven bytes.
    Link,
    /// A look, which finds a device.
    Device,
    /// A look, which finds nothing.
    Nothing,
    /// A look, which is refused.
    Hidden,
    /// A look, for which there is no memory.
    Full,
    /// A file is opened for reading alone.
    Read,
    /// A file is opened for reading and writing.
    Write,
    /// A directory is opened, which has these names, each with a NUL behind it.
    List(&'static [u8]),
    /// The same, and behind the names an error of that kind.
    ListThen(&'static [u8], ErrorKind),
    /// A file or a directory is opened, which is refused.
    Locked,
    /// A file or a directory is opened, for which there is no memory.
    FullOpen,
    /// A file is opened, and there is no memory for its second read.
    FullRead,
    /// A file is opened, in which each seek is an error of that kind.
    Unseekable(ErrorKind),
}

/// A call, and the path that it is for.
pub type Line = (Call, &'static str);

/// The number of calls met once a call came that isn't the next line's.
const ASTRAY: u64 = 1_000_000;

/// Files that answer the calls of a script, in its order. Any other call is refused, as is each one after it.
#[derive(Clone, Copy)]
pub struct Scripted<'a> {
    rt: HostRuntime,
    script: &'a [Line],
    /// How many lines were met so far, or from `ASTRAY` on.
    met: &'a AtomicU64,
}

/// Whether so many lines are all that were met, each in its turn.
pub fn are_met(script: &[Line], met: &AtomicU64) -> bool {
    met.load(Ordering::SeqCst) == script.len() as u64
}

impl<'a> Scripted<'a> {
    pub fn new(rt: HostRuntime, script: &'a [Line], met: &'a AtomicU64) -> Scripted<'a> {
        Scripted { rt, script, met }
    }

    /// The call of the next line, where that is for this path.
    fn next(&self, path: &str) -> Option<Call> {
        let met = self.met.fetch_add(1, Ordering::SeqCst);
        let (call, wanted) = self.script.get(usize::try_from(met).ok()?)?;
        if path == *wanted { Some(*call) } else { None }
    }

    /// Refuses a call that isn't the next line's.
    fn astray<T>(&self) -> io::Result<T> {
        self.met.store(ASTRAY, Ordering::SeqCst);
        refused()
    }
}

/// Whether a file that is there is opened for reading, or for reading and writing, and left as it is.
fn leaves_it(how: &OpenOptions) -> bool {
    how.asks_read()
        && !how.asks_append()
        && !how.asks_truncate()
        && !how.asks_create()
        && !how.asks_create_new()
}

impl Alloc for Scripted<'_> {
    type A = Global;

    fn alloc(&self) -> Global {
        self.rt.alloc()
    }
}

impl Files for Scripted<'_> {
    type File = OneByte;

    type Dir = Names;

    fn open_file(&self, how: &OpenOptions, path: &str) -> io::Result<OneByte> {
        match self.next(path) {
            Some(Call::Read) if leaves_it(how) && !how.asks_write() => Ok(OneByte::new()),
            Some(Call::Write) if leaves_it(how) && how.asks_write() => Ok(OneByte::new()),
            Some(Call::FullRead) if leaves_it(how) => Ok(OneByte::exhausted()),
            Some(Call::Unseekable(error)) if leaves_it(how) => Ok(OneByte::unseekable(error)),
            Some(Call::Locked) => refused(),
            Some(Call::FullOpen) => exhausted(),
            _ => self.astray(),
        }
    }

    fn open_dir(&self, path: &str) -> io::Result<Names> {
        match self.next(path) {
            Some(Call::List(names)) => Names::new(self.alloc(), names, None),
            Some(Call::ListThen(names, error)) => Names::new(self.alloc(), names, Some(error)),
            Some(Call::Locked) => refused(),
            Some(Call::FullOpen) => exhausted(),
            _ => self.astray(),
        }
    }

    fn symlink_metadata(&self, path: &str) -> io::Result<Metadata> {
        match self.next(path) {
            Some(Call::Directory) => Ok(Metadata::of_dir()),
            Some(Call::File) => Ok(Metadata::of_file(12)),
            Some(Call::Link) => Ok(Metadata::of_symlink(11)),
            Some(Call::Device) => self.rt.symlink_metadata("/dev/null"),
            Some(Call::Nothing) => Err(io::Error::from(ErrorKind::NotFound)),
            Some(Call::Hidden) => refused(),
            Some(Call::Full) => exhausted(),
            _ => self.astray(),
        }
    }

    fn metadata(&self, _path: &str) -> io::Result<Metadata> {
        self.astray()
    }

    fn copy(&self, _from: &str, _to: &str) -> io::Result<u64> {
        self.astray()
    }

    fn rename(&self, _from: &str, _to: &str) -> io::Result<()> {
        self.astray()
    }

    fn remove_file(&self, _path: &str) -> io::Result<()> {
        self.astray()
    }

    fn create_dir(&self, _path: &str) -> io::Result<()> {
        self.astray()
    }

    fn remove_dir(&self, _path: &str) -> io::Result<()> {
        self.astray()
    }

    fn remove_dir_all<B: Allocator>(&self, _alloc: B, _path: &str) -> io::Result<()> {
        self.astray()
    }
}
