//! What cells hold, taken apart.

use futex_core::Waiters;
use kernel_model::{GuestArea, GuestSpace, Named, OpenFiles};
use rv_table::Regs;
use sn_base::{List, Map};
use task_table::Tasks;

/// What cells hold, each by itself.
#[derive(Drop)]
pub struct Rooms {
    pub tasks: Tasks,
    pub registers: Map<Regs>,
    pub spaces: Named<GuestSpace>,
    pub areas: Named<GuestArea>,
    pub files: OpenFiles,
    pub sleepers: Waiters,
    pub console: List<u8>,
}
