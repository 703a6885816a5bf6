//! What a sink is: it takes bytes from the front, some at a time.

ghost use Rattle.std.specs.Prelude.{◌≡◌, ◌<◌, ◌≤◌, ℕ, Bool, false, List, Option, length, take, IfOk, OnErr, IsTrue};
ghost use Rattle.std.specs.Prelude.{IsFalse};
ghost use Rattle.sn_base.specs.Faults.{HasCause};
ghost use Rattle.sn_edge.specs.Errors.{has_failed};
ghost use Rattle.sn_edge.specs.Taken.{with_taken};

use crate::EdgeErr;

/// What takes bytes, as a terminal or a pipe does: write(2).
pub trait Sink {
    /// How many faults there were.
    ghost count: { Self → ℕ };

    /// All the bytes taken so far, in order, where that is known.
    ghost told: { Self → Option (List ℕ) };

    /// No call from here on is to fail. It says nothing where it is false.
    ghost unfailing: { Self → Bool } = { λ _. false };

    /// How many faults there were. It never falls, and stays at `u64::MAX`.
    fn faults(&self) -> u64
        ensures { result ≡ count self.now };

    /// Takes some of the bytes, from the front, and answers how many: at least one of a piece that isn't
    /// empty. An `Err` has taken none that is told.
    fn write(&mut self, bytes: &[u8]) -> Result<usize, EdgeErr>
        ensures bound { IfOk result (λ n. n ≤ length bytes.now) }
        ensures some { IfOk result (λ n. 0 < length bytes.now → 0 < n) }
        ensures ok { IfOk result (λ n. told self.new ≡ with_taken (told self.old) (take n bytes.now)) }
        ensures err { OnErr result (told self.new ≡ told self.old) }
        ensures cause { HasCause (has_failed result) (count self.old) (count self.new) }
        ensures unfailing { IsTrue (unfailing self.old) → IsTrue (unfailing self.new) }
        ensures succeeds { IsTrue (unfailing self.old) → IsFalse (has_failed result) };
}
