//! What a task used whose call waits.

ghost use Rattle.std.specs.Prelude.{◌≡◌};
ghost use Rattle.parked_tasks.specs.Used.{uses_areas};

use kernel_calls::Awaited;
use sn_base::Made;

/// What the next step of a task used whose call waits: its memory and its descriptor table, by name, the shared areas
/// too, where the call's instruction lies in one, and what the call itself used.
#[derive(Clone, Copy)]
pub struct Spot {
    pub memory: Made,
    pub table: Made,
    pub in_area: bool,
    pub awaited: Awaited,
}

/// One thing that such a step used.
#[derive(Clone, Copy)]
pub(crate) enum Used {
    Memory(Made),
    Table(Made),
    Description(Made),
    Pipe(Made),
    Areas,
}

/// Whether such a step used shared areas.
pub(crate) fn uses_areas(spot: Spot) -> bool
    ensures { result ≡ uses_areas spot }
{
    spot.in_area || spot.awaited.areas
}
