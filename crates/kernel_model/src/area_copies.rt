//! Copies of all the shared areas that a kernel has.

ghost use Rattle.std.specs.Prelude.{◌≡◌, IfOk};

use crate::{GuestArea, Named};
use sn_base::{Map, Memory};
use std::alloc::Global;

impl Named<GuestArea> {
    /// The same areas once more, under the same names. Their pages have the same bytes, which both share until one of
    /// them is written. An `Err` leaves these as they were.
    pub fn copy(&mut self, alloc: Global) -> Result<Named<GuestArea>, Memory>
        ensures copied { IfOk result (λ copy. copy ≡ self.old) }
        ensures kept { self.new ≡ self.old }
    {
        let keys = self.places.keys(alloc)?;
        let mut places = Map::new(alloc);
        for index in (0..keys.len()).rev() {
            let place = keys.as_slice()[index];
            if let Some(made) = self.places.get_mut(place) {
                let copy = copied(alloc, made)?;
                places.insert(place, copy)?;
            }
        }
        Ok(Named { places })
    }
}

/// The areas of one place once more.
fn copied(alloc: Global, made: &mut Map<GuestArea>) -> Result<Map<GuestArea>, Memory>
    ensures copied { IfOk result (λ copy. copy ≡ made.old) }
    ensures kept { made.new ≡ made.old }
{
    let keys = made.keys(alloc)?;
    let mut areas = Map::new(alloc);
    for index in (0..keys.len()).rev() {
        let key = keys.as_slice()[index];
        if let Some(area) = made.get_mut(key) {
            let copy = area.copy(alloc)?;
            areas.insert(key, copy)?;
        }
    }
    Ok(areas)
}
