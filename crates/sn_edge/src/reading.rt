//! A file read to its end, or until it is longer than a limit.

ghost use Rattle.std.specs.Prelude.{◌≡◌, ◌⊎◌, ◌<◌, ◌≤◌, ◌+◌, ℕ, length, IfOk, OnOk, OnErr, IsTrue, IsFalse};
ghost use Rattle.sn_base.specs.Faults.{HasCause};
ghost use Rattle.sn_edge.specs.Errors.{has_failed};
ghost use Rattle.sn_edge.specs.Shelf.{HasFile, after_open, left_after_read, after_failed_read, IsAtEnd};
ghost use Rattle.sn_edge.specs.Reading.{IsFrontOfFile, Gains, TakesInFew, ReadsWithin};

use crate::{EdgeErr, Source};
use sn_base::List;
use std::alloc::Global;

/// The longest piece that is read at once, in bytes.
const PIECE: usize = 4096;

/// Reads one piece, of at most so many bytes, onto the end of a list, and answers its length.
fn read_piece<S: Source>(
    source: &mut S,
    bytes: &mut List<u8>,
    most: usize,
) -> Result<usize, EdgeErr>
    requires some { 0 < most }
    requires fits { most ≤ PIECE }
    ensures bound { IfOk result (λ n. n ≤ most) }
    ensures len { IfOk result (λ n. length bytes.new ≡ length bytes.old + n) }
    ensures bytes { IfOk result (λ n. Gains (S.told source.old) n bytes.old bytes.new) }
    ensures ok { IfOk result (λ n. S.told source.new ≡ left_after_read (S.told source.old) n) }
    ensures end { IfOk result (λ n. n ≡ 0 → IsAtEnd (S.told source.old)) }
    ensures err { OnErr result ((S.told source.new ≡ after_failed_read (S.told source.old))
        ⊎ ((n : ℕ) × (n ≤ most) × (S.told source.new ≡ left_after_read (S.told source.old) n))) }
    ensures cause { HasCause (has_failed result) (S.count source.old) (S.count source.new) }
    ensures unfailing { IsTrue (S.unfailing source.old) → IsTrue (S.unfailing source.new) }
    ensures succeeds { IsTrue (S.unfailing source.old) → IsFalse (has_failed result) }
{
    let mut piece = [0; PIECE];
    let count = source.read(&mut piece[..most])?;
    bytes.extend_from_slice(&piece[..count])?;
    Ok(count)
}

/// Opens a file and reads it to its end, or until it gave one byte more than the limit. So the file is
/// longer than the limit just where the answer is.
pub fn read_all<S: Source>(
    alloc: Global,
    source: &mut S,
    name: &str,
    limit: usize,
) -> Result<List<u8>, EdgeErr>
    ensures there { OnOk result (HasFile (S.told source.old) name.now) }
    ensures bound { IfOk result (λ bytes. length bytes ≤ limit + 1) }
    ensures content { IfOk result (λ bytes. IsFrontOfFile (S.told source.old) name.now (limit + 1) bytes) }
    ensures ok { IfOk result (λ bytes.
        TakesInFew (after_open (S.told source.old) name.now) (S.told source.new) (length bytes)) }
    ensures told { ReadsWithin (S.told source.old) (S.told source.new) (limit + 1) }
    ensures cause { HasCause (has_failed result) (S.count source.old) (S.count source.new) }
    ensures unfailing { IsTrue (S.unfailing source.old) → IsTrue (S.unfailing source.new) }
    ensures succeeds { IsTrue (S.unfailing source.old) → HasFile (S.told source.old) name.now
        → IsFalse (has_failed result) }
{
    source.open(name)?;
    let mut bytes = List::new(alloc);
    while bytes.len() <= limit {
        let most = (limit - bytes.len()).min(PIECE - 1) + 1;
        if read_piece(source, &mut bytes, most)? == 0 {
            return Ok(bytes);
        }
    }
    Ok(bytes)
}
