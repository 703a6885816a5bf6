//! What is open: descriptor tables, open file descriptions, and pipes.

ghost use Rattle.std.specs.Prelude.{◌≡◌};
ghost use Rattle.kernel_model.specs.descriptors.OpenFiles.{nothing_open};

use crate::Named;
use fd_table::{Description, FdTable};
use pipe_core::Pipe;
use std::alloc::Global;

/// An open file description, and how many descriptors have it, of all tables. It is closed with the last of them.
///
/// open(2), Open file descriptions; close(2).
#[derive(Clone, Copy, Debug, Drop, PartialEq, Eq)]
pub struct OpenFile {
    pub description: Description,
    pub descriptors: u64,
}

/// What is open: descriptor tables, open file descriptions and pipes, by the place of the entry that made them and an
/// index (those of opening tasks by place 0).
pub struct OpenFiles {
    pub tables: Named<FdTable>,
    pub descriptions: Named<OpenFile>,
    pub pipes: Named<Pipe>,
}

/// Lets all of it go. Who owns what is open lets go of it by this one call, at each exit.
impl Drop for OpenFiles {
    fn drop(self) {
        let OpenFiles {
            tables: _,
            descriptions: _,
            pipes: _,
        } = self;
    }
}

impl OpenFiles {
    /// Nothing is open. It takes no memory.
    pub fn new(alloc: Global) -> OpenFiles
        ensures { result ≡ nothing_open }
    {
        OpenFiles {
            tables: Named::new(alloc),
            descriptions: Named::new(alloc),
            pipes: Named::new(alloc),
        }
    }
}
