//! A guest's address space: what is mapped, and what its tasks have reserved.

ghost use Rattle.std.specs.Prelude.{◌≡◌, IfOk};
ghost use Rattle.mm_areas.specs.Mappings.{mapping};

use crate::caches::Caches;
use mm_areas::Areas;
use rv_atomic::Reservations;
use sn_base::Memory;
use std::alloc::Global;

/// What is mapped in an address space, its break, and what its tasks have reserved; and what is kept of its pages, to
/// be faster.
pub struct Space {
    pub(crate) areas: Areas,
    pub(crate) reservations: Reservations,
    pub(crate) caches: Caches,
}

/// Lets all of it go. Who owns an address space lets go of it by this one call, at each exit.
impl Drop for Space {
    fn drop(self) {
        let Space {
            areas: _,
            reservations: _,
            caches: _,
        } = self;
    }
}

impl Space {
    ghost use Rattle.mm_space.specs.Spaces.{space_of, unreserved};

    /// The address space of what is mapped, in which nothing is reserved. It takes no memory.
    pub fn of(alloc: Global, areas: Areas) -> Space
        ensures { space_of result ≡ unreserved (mapping areas) }
    {
        Space {
            areas,
            reservations: Reservations::new(alloc),
            caches: Caches::none(),
        }
    }

    /// What is mapped.
    pub fn areas(&self) -> &Areas
        ensures { mapping result.now ≡ (space_of self.now).mapping }
    {
        &self.areas
    }

    /// The address space of a child: private pages have the same bytes, which both share until one of them writes,
    /// shared areas are the same areas, and nothing is reserved. An `Err` leaves this one as it was.
    ///
    /// fork(2); that a child has no reservation is a choice of this project.
    pub fn fork(&mut self, alloc: Global) -> Result<Space, Memory>
        ensures child { IfOk result (λ child. space_of child ≡ unreserved (space_of self.old).mapping) }
        ensures kept { space_of self.new ≡ space_of self.old }
    {
        let areas = self.areas.fork(alloc)?;
        Ok(Space::of(alloc, areas))
    }

    /// The same address space once more, with its reservations: private pages have the same bytes, which both share
    /// until one of them writes. An `Err` leaves this one as it was.
    pub fn copy(&mut self, alloc: Global) -> Result<Space, Memory>
        ensures copied { IfOk result (λ other. space_of other ≡ space_of self.old) }
        ensures kept { space_of self.new ≡ space_of self.old }
    {
        let reservations = self.reservations.copy(alloc)?;
        let areas = self.areas.fork(alloc)?;
        Ok(Space {
            areas,
            reservations,
            caches: Caches::none(),
        })
    }
}
