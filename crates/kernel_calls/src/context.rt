//! What a call may read beside its task's parts.

use sn_base::Made;

/// A call's context: its task's number, that of its thread group and the names of the group's memory and descriptor
/// table, the place of its entry, and the mount file's seed, which is the key of the random stream.
#[derive(Clone, Copy)]
pub struct Context<'a> {
    pub task: u32,
    pub group: u32,
    pub memory: Made,
    pub table: Made,
    pub place: u64,
    pub seed: &'a [u8],
}
