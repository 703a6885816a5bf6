//! What a source is: files that are opened by name and read from front to end.

ghost use Rattle.std.specs.Prelude.{◌≡◌, ◌<◌, ◌≤◌, ℕ, Bool, false, Option, length, IfOk, OnOk, OnErr, IsTrue, IsFalse};
ghost use Rattle.sn_base.specs.Faults.{HasCause};
ghost use Rattle.sn_edge.specs.Errors.{has_failed};
ghost use Rattle.sn_edge.specs.Shelf.{Shelf, HasFile, after_open, left_after_read, after_failed_read, Gets, IsAtEnd};

use crate::EdgeErr;

/// Files that are read by name, one at a time and from front to end, as by open(2) and read(2).
pub trait Source {
    /// How many faults there were.
    ghost count: { Self → ℕ };

    /// The files, what is left of the one last opened, and how much was read, where that is known.
    ghost told: { Self → Option Shelf };

    /// No call from here on is to fail, but an open of a name that isn't there. It says nothing where it
    /// is false.
    ghost unfailing: { Self → Bool } = { λ _. false };

    /// How many faults there were. It never falls, and stays at `u64::MAX`.
    fn faults(&self) -> u64
        ensures { result ≡ count self.now };

    /// Opens the file of that name, which is read from its front, in place of the one opened before. An `Err`
    /// leaves that one as it is.
    fn open(&mut self, name: &str) -> Result<(), EdgeErr>
        ensures ok { OnOk result (told self.new ≡ after_open (told self.old) name.now) }
        ensures there { OnOk result (HasFile (told self.old) name.now) }
        ensures err { OnErr result (told self.new ≡ told self.old) }
        ensures cause { HasCause (has_failed result) (count self.old) (count self.new) }
        ensures unfailing { IsTrue (unfailing self.old) → IsTrue (unfailing self.new) }
        ensures succeeds { IsTrue (unfailing self.old) → HasFile (told self.old) name.now
            → IsFalse (has_failed result) };

    /// Moves bytes from the front of what is left of the file last opened into the front of the buffer, and
    /// answers how many: 0, for a buffer that isn't empty, where none is left or no file is open. After an
    /// `Err` the buffer may hold anything.
    fn read(&mut self, buf: &mut [u8]) -> Result<usize, EdgeErr>
        ensures bound { IfOk result (λ n. n ≤ length buf.old) }
        ensures bytes { IfOk result (λ n. Gets (told self.old) n buf.old buf.new) }
        ensures ok { IfOk result (λ n. told self.new ≡ left_after_read (told self.old) n) }
        ensures end { IfOk result (λ n. n ≡ 0 → 0 < length buf.old → IsAtEnd (told self.old)) }
        ensures err { OnErr result (told self.new ≡ after_failed_read (told self.old)) }
        ensures cause { HasCause (has_failed result) (count self.old) (count self.new) }
        ensures unfailing { IsTrue (unfailing self.old) → IsTrue (unfailing self.new) }
        ensures succeeds { IsTrue (unfailing self.old) → IsFalse (has_failed result) };
}
