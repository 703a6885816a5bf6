//! A block of cases: about a mount file, or about an image.

use crate::drafts::Draft;
use crate::images::ImageFile;
use crate::mounts::ask;
use read_cases::{Bad, Cases, parted};
use std::alloc::Global;

/// What the lines of a block have written: a mount file, and the file of an image, which has bytes where the block is
/// about one.
pub struct Block {
    draft: Draft,
    image: ImageFile,
}

/// Lets both go by one call.
impl Drop for Block {
    fn drop(self) {
        let Block { draft: _, image: _ } = self;
    }
}

impl Block {
    /// Nothing written.
    pub fn new(alloc: Global) -> Block {
        Block {
            draft: Draft::new(alloc),
            image: ImageFile::new(alloc),
        }
    }
}

impl Cases for Block {
    fn begin(&mut self, _rt: &HostRuntime) -> Result<(), Bad> {
        self.draft.clear();
        self.image.clear();
        Ok(())
    }

    fn answer(&mut self, rt: &HostRuntime, case: &str, came: &mut String) -> Result<(), Bad> {
        let (verb, rest) = parted(case);
        if verb == "image" {
            return self.image.name(rest, came);
        }
        if self.image.is_named() {
            return self.image.answer(rt.alloc(), verb, rest, came);
        }
        if self.draft.add(case)? {
            return Ok(());
        }
        ask(rt.alloc(), &mut self.draft, case, came)
    }
}
