//! What may be done with the bytes of a page.

ghost use Rattle.std.specs.Prelude.{⊤, ◌≡◌, ◌==◌, [], ◌∷◌, codes};

use bitflags::{Flag, Flags, bitflag_items};

/// The rights of a page: any of read, write and execute, by the bits of mmap(2).
///
/// mmap(2), PROT_READ 1, PROT_WRITE 2, PROT_EXEC 4.
#[derive(Clone, Copy, Debug, PartialEq, Eq)]
pub struct Rights(u8);

bitflag_items! {
    impl Rights: u8 {
        const READ = 1;
        const WRITE = 2;
        const EXECUTE = 4;
    }
}

impl Flags for Rights {
    type Bits = u8;

    ghost exact = { ⊤ };

    ghost table = { (codes "READ", 1) ∷ (codes "WRITE", 2) ∷ (codes "EXECUTE", 4) ∷ [] };

    ghost set_of = { λ r. r.0 };

    fn flags<'a>() -> &'a [Flag<Rights>] {
        Rights::FLAGS
    }

    fn bits(&self) -> u8 {
        self.0
    }

    fn from_bits_retain(bits: u8) -> Rights {
        Rights(bits)
    }
}

impl Rights {
    ghost use Rattle.mm_areas.specs.Rights.{has, rights_with};

    /// The rights of the heap's pages.
    pub(crate) const READ_WRITE: Rights = Rights(3);

    /// The rights of which each is there or not.
    pub fn of(read: bool, write: bool, execute: bool) -> Rights
        ensures exact { result ≡ rights_with read write execute }
        ensures read { has result (record { 0 = 1 }) ≡ read }
        ensures write { has result (record { 0 = 2 }) ≡ write }
        ensures execute { has result (record { 0 = 4 }) ≡ execute }
    {
        Rights(u8::from(read) + 2 * u8::from(write) + 4 * u8::from(execute))
    }

    /// Whether a right is among them.
    #[inline(always)]
    pub fn allows(self, right: Rights) -> bool
        ensures { result ≡ has self right }
    {
        self.0 & right.0 == right.0
    }
}
