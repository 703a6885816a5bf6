//! The names of futex words.

ghost use Rattle.std.specs.Prelude.{◌≡◌, ◌↔◌, IsTrue};
ghost use Rattle.futex_core.specs.Keys.{same_word};

/// What a futex word lies in. The place of the entry that made it, and its index among those that this entry made, name
/// a memory, and an area likewise. A memory and an area of the same place and index are different owners.
#[derive(Clone, Copy, Debug, PartialEq, Eq)]
pub enum Owner {
    /// The memory of one address space.
    Memory { place: u64, index: u32 },
    /// An area that several address spaces may share.
    Area { place: u64, index: u32 },
}

/// The name of a futex word.
#[derive(Clone, Copy, Debug, PartialEq, Eq)]
pub struct FutexKey {
    pub owner: Owner,
    /// The address of the word's first byte: in an area, the byte's offset there.
    pub address: u64,
}

impl FutexKey {
    /// Whether two names are of one word, which they are only where they are the same.
    pub fn is_same_word(&self, other: &FutexKey) -> bool
        ensures word { result ≡ same_word self.now other.now }
        ensures same { IsTrue result ↔ (self.now ≡ other.now) }
    {
        self == other
    }
}
