//! Why memory answers nothing.

/// The name of a shared area: the place of the entry that made it, and which of that entry's it is.
#[derive(Clone, Copy, Debug, PartialEq, Eq)]
pub struct Area {
    pub place: u64,
    pub index: u32,
}

/// Why an access to memory was not made.
///
/// - `Fault`: the byte at that address may not be accessed so.
/// - `Shared`: a byte lies in that shared area, which is not handed in.
/// - `Memory`: want of memory.
#[derive(Clone, Copy, Debug, PartialEq, Eq)]
pub enum MemErr {
    Fault { addr: u64 },
    Shared(Area),
    Memory,
}
