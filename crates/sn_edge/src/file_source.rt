//! Files of the system as a source.

ghost use Rattle.std.specs.Prelude.{◌≡◌, ◌≤◌, length, IfOk, OnOk, OnErr, IsSome, IsNone};
ghost use Rattle.sn_base.specs.Faults.{HasCause};
ghost use Rattle.sn_edge.specs.Errors.{has_failed};
ghost use Rattle.sn_edge.specs.FilePlace.{ReadsOpenFile};

use crate::system::failure;
use crate::{EdgeErr, Source};
use std::fs::{File, Files};
use std::io::Read;

/// The files of the system, by their paths. It tells nothing of what they hold.
///
/// An error of the kind `OutOfMemory` is want of memory, and any other is a fault: open(2) and read(2),
/// ERRORS.
#[derive(Drop)]
pub struct FileSource<R: Files> {
    files: R,
    opened: Option<R::File>,
    faults: u64,
}

impl<R: Files> FileSource<R> {
    /// A source over the files of a runtime, such as `&HostRuntime`.
    pub fn new(files: R) -> Self
        ensures count { ⟦<FileSource<R> as Source>⟧.count result ≡ 0 }
        ensures none_open { IsNone result.opened }
    {
        FileSource {
            files,
            opened: None,
            faults: 0,
        }
    }
}

impl<R: Files> Source for FileSource<R> {
    ghost use Rattle.std.specs.Prelude.{None};

    ghost count = { λ source. source.faults };

    ghost told = { λ _. None };

    fn faults(&self) -> u64 {
        self.faults
    }

    fn open(&mut self, name: &str) -> Result<(), EdgeErr>
        ensures cause { HasCause (has_failed result) self.old.faults self.new.faults }
        ensures opened { OnOk result (IsSome self.new.opened) }
        ensures kept { OnErr result (self.new.opened ≡ self.old.opened) }
    {
        match File::open(&self.files, name) {
            Ok(file) => {
                self.opened = Some(file);
                Ok(())
            }
            Err(error) => Err(failure(&mut self.faults, &error)),
        }
    }

    fn read(&mut self, buf: &mut [u8]) -> Result<usize, EdgeErr>
        ensures bound { IfOk result (λ n. n ≤ length buf.old) }
        ensures cause { HasCause (has_failed result) self.old.faults self.new.faults }

        // What the file gives is handed on, as far as the runtime knows what its files hold.
        ensures bytes { ReadsOpenFile R.File.remaining self.old.opened self.new.opened result buf.new }
    {
        let Some(file) = &mut self.opened else {
            return Ok(0);
        };
        match file.read(buf) {
            Ok(count) => Ok(count),
            Err(error) => Err(failure(&mut self.faults, &error)),
        }
    }
}
