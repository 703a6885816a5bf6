//! A shared area, as the kernel has it.

ghost use Rattle.std.specs.Prelude.{◌≡◌, IfOk};

use mm_space::SharedArea;
use sn_base::Memory;
use std::alloc::Global;
use std::marker::Model;

/// A shared area. Contracts see the bytes of its pages, and what tasks have reserved there; which frames it shares with
/// a copy doesn't show.
pub struct GuestArea {
    pub area: SharedArea,
}

/// Lets it go. Who owns an area lets go of it by this one call, at each exit.
impl Drop for GuestArea {
    fn drop(self) {
        let GuestArea { area: _ } = self;
    }
}

impl Model for GuestArea {
    ghost use Rattle.mm_space.specs.Handed.{AreaState, area_state};
    ghost use Rattle.kernel_model.specs.laws.AreaCodes.{coded_area};

    ghost Value = { AreaState };

    ghost coded = { coded_area };

    ghost view = { λ a. area_state a.area };
}

impl GuestArea {
    ghost use Rattle.mm_space.specs.Handed.{zero_area};

    /// So many pages that nobody has written, in which nothing is reserved.
    ///
    /// mmap(2), MAP_SHARED and MAP_ANONYMOUS.
    pub fn zeros(alloc: Global, pages: usize) -> Result<GuestArea, Memory>
        ensures { IfOk result (λ area. area ≡ zero_area pages) }
    {
        let area = SharedArea::zeros(alloc, pages)?;
        Ok(GuestArea { area })
    }

    /// The same area once more. Its pages have the same bytes, which both share until one of them is written. An `Err`
    /// leaves this one as it was.
    pub fn copy(&mut self, alloc: Global) -> Result<GuestArea, Memory>
        ensures copied { IfOk result (λ copy. copy ≡ self.old) }
        ensures kept { self.new ≡ self.old }
    {
        let area = self.area.copy(alloc)?;
        Ok(GuestArea { area })
    }
}
