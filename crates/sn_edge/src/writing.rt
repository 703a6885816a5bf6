//! Bytes written whole, in as many writes as it takes.

ghost use Rattle.std.specs.Prelude.{◌≡◌, ◌<◌, ℕ, length, take, OnOk, OnErr, IsTrue, IsFalse};
ghost use Rattle.sn_base.specs.Faults.{HasCause};
ghost use Rattle.sn_edge.specs.Errors.{has_failed};
ghost use Rattle.sn_edge.specs.Taken.{with_taken};

use crate::{EdgeErr, Sink};

/// Writes all the bytes, in as many writes as it takes. After an `Err` the sink took a front of
/// them, and not all.
#[tactic(auto, using(crate::proofs::Told::taken_more))]
pub fn write_all<K: Sink>(sink: &mut K, bytes: &[u8]) -> Result<(), EdgeErr>
    ensures ok { OnOk result (K.told sink.new ≡ with_taken (K.told sink.old) bytes.now) }
    ensures err { OnErr result ((n : ℕ) × (n < length bytes.now)
        × (K.told sink.new ≡ with_taken (K.told sink.old) (take n bytes.now))) }
    ensures cause { HasCause (has_failed result) (K.count sink.old) (K.count sink.new) }
    ensures unfailing { IsTrue (K.unfailing sink.old) → IsTrue (K.unfailing sink.new) }
    ensures succeeds { IsTrue (K.unfailing sink.old) → IsFalse (has_failed result) }
{
    let mut done = 0;
    while done < bytes.len() {
        done += sink.write(&bytes[done..])?;
    }
    Ok(())
}
