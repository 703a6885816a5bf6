//! A guest's address space, as the kernel has it.

ghost use Rattle.std.specs.Prelude.{◌≡◌, IfOk};

use mm_space::Space;
use sn_base::Memory;
use std::alloc::Global;
use std::marker::Model;

/// A guest's address space. Contracts see what is mapped and reserved there; which frames it shares with others doesn't
/// show.
pub struct GuestSpace {
    pub space: Space,
}

/// Lets it go. Who owns an address space lets go of it by this one call, at each exit.
impl Drop for GuestSpace {
    fn drop(self) {
        let GuestSpace { space: _ } = self;
    }
}

impl Model for GuestSpace {
    ghost use Rattle.mm_space.specs.Spaces.{AddressSpace, space_of};
    ghost use Rattle.kernel_model.specs.laws.SpaceCodes.{coded_space};

    ghost Value = { AddressSpace };

    ghost coded = { coded_space };

    ghost view = { λ a. space_of a.space };
}

impl GuestSpace {
    /// The same address space once more. Private pages have the same bytes, which both share until one of them writes.
    /// An `Err` leaves this one as it was.
    pub fn copy(&mut self, alloc: Global) -> Result<GuestSpace, Memory>
        ensures copied { IfOk result (λ copy. copy ≡ self.old) }
        ensures kept { self.new ≡ self.old }
    {
        let space = self.space.copy(alloc)?;
        Ok(GuestSpace { space })
    }
}
