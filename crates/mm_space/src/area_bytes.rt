//! Bytes of shared areas, by which words are known that several address spaces have.

ghost use Rattle.std.specs.Prelude.{◌≡◌};
ghost use Rattle.mm_space.specs.AreaBytes.{area_byte_at};
ghost use Rattle.mm_space.specs.Spaces.{space_of};

use crate::Space;
use rv_table::Area;

/// A byte of a shared area: the area, and which of its bytes it is, counted from 0.
#[derive(Clone, Copy, Debug, PartialEq, Eq)]
pub struct AreaByte {
    pub name: Area,
    pub offset: u64,
}

impl Space {
    /// Which byte of a shared area lies at an address, or `None` where the address space's own memory does, or nothing.
    /// It asks for no right, and the area needn't be handed in. It takes no memory.
    ///
    /// futex(2): a word in shared memory is one word at whichever addresses it lies.
    pub fn area_byte(&self, address: u64) -> Option<AreaByte>
        ensures { result ≡ area_byte_at (space_of self.now) address }
    {
        match self.shared_page(address / 4096) {
            Some(page) => Some(AreaByte {
                name: page.area,
                offset: page.number.wrapping_mul(4096).wrapping_add(address % 4096),
            }),
            None => None,
        }
    }
}
