//! Names of what the entries of a run make.

/// The name of something that an entry of a run made, as a memory, a descriptor table, an open file description or a
/// pipe: the place of that entry, counted from 1, with 0 for what opening tasks begin with, and which of those that the
/// entry made it is.
#[derive(Clone, Copy, Debug, PartialEq, Eq)]
pub struct Made {
    pub place: u64,
    pub index: u32,
}
