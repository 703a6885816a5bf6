//! What an address space keeps beside what is mapped, to be faster: no access sees it.

use crate::Hints;
use crate::decoded::Decoded;
use std::alloc::Global;
use std::boxed::Box;

/// The pages that have their words decoded, and guesses at where pages lie.
#[derive(Drop)]
struct Kept {
    decoded: Decoded,
    hints: Hints,
}

/// What is kept of pages, once there is room for it. It stands on the heap, so that an address space is small where it
/// is moved.
#[derive(Drop)]
pub(crate) struct Caches {
    kept: Option<Box<Kept>>,
}

impl Caches {
    /// Nothing is kept, and there is no room for it. It takes no memory.
    pub(crate) fn none() -> Caches {
        Caches { kept: None }
    }

    /// Makes room, where there is none, and answers whether there is. There is none where memory was wanting.
    pub(crate) fn make_room(&mut self, alloc: Global) -> bool {
        if self.kept.is_some() {
            return true;
        }
        let kept = Kept {
            decoded: Decoded::none(),
            hints: Hints::new(),
        };
        match Box::new(alloc, kept) {
            Ok(kept) => {
                self.kept = Some(kept);
                true
            }
            Err(_) => false,
        }
    }

    /// The guess at a page.
    pub(crate) fn hint(&self, page: u64) -> usize {
        match &self.kept {
            Some(kept) => kept.hints.of(page),
            None => 0,
        }
    }

    /// Keeps a guess at a page, in the place of another's, where there is room.
    pub(crate) fn keep_hint(&mut self, page: u64, hint: usize) {
        if let Some(kept) = &mut self.kept {
            kept.hints.keep(page, hint);
        }
    }

    /// Keeps a page whose words are decoded, where there is room, and answers another that has to go for it.
    pub(crate) fn keep_decoded(&mut self, page: u64) -> Option<u64> {
        match &mut self.kept {
            Some(kept) => kept.decoded.keep(page),
            None => None,
        }
    }
}
