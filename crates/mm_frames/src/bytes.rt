//! What a frame holds: zeros, bytes of its own, or bytes that it shares.

ghost use Rattle.std.specs.Prelude.{◌≡◌, ◌+◌, ◌<◌, ◌≤◌, ◌↔◌, true, false, length, replicate, slice_set, IfOk, OnOk};
ghost use Rattle.std.specs.Prelude.{OnErr, IsTrue};
ghost use Rattle.std.specs.Bool.{OnTrue, OnFalse};
ghost use Rattle.mm_frames.specs.Numbers.{IsInPage, with_number, with_run};

use crate::numbers::{put_byte, put_bytes, put_number};
use sn_base::Memory;
use std::alloc::Global;
use std::boxed::Box;
use std::sync::Arc;

/// A page's 4,096 bytes: zeros, which take no memory, bytes of its own, or bytes that it shares with other holders.
#[derive(Drop)]
pub enum Bytes {
    Zero,
    Own(Box<[u8; 4096]>),
    Shared(Arc<[u8; 4096]>),
}

static ZEROS: [u8; 4096] = [0; 4096];

/// The bytes of a page that nobody has written.
fn zeros() -> &'static [u8; 4096]
    ensures { result.now ≡ replicate 4096 0 }
{
    &ZEROS
}

impl Bytes {
    ghost use Rattle.mm_frames.specs.Bytes.{bytes_in, is_own_in};

    /// The bytes, to read.
    #[inline(always)]
    pub(crate) fn array(&self) -> &[u8; 4096]
        ensures { result.now ≡ bytes_in self.now }
    {
        match self {
            Bytes::Zero => zeros(),
            Bytes::Own(own) => own,
            Bytes::Shared(shared) => shared,
        }
    }

    /// Makes the bytes one holder's own: zeros and shared bytes are copied. An `Err` changes nothing.
    pub(crate) fn own(&mut self, alloc: Global) -> Result<(), Memory>
        ensures bytes { bytes_in self.new ≡ bytes_in self.old }
        ensures ok { OnOk result (is_own_in self.new ≡ true) }
        ensures err { OnErr result (self.new ≡ self.old) }
        ensures shared { OnErr result (is_own_in self.old ≡ false) }
    {
        if let Bytes::Own(_) = self {
            return Ok(());
        }
        let copy = Box::new(alloc, *self.array())?;
        *self = Bytes::Own(copy);
        Ok(())
    }

    /// Makes another holder of the bytes. Own bytes become shared ones. An `Err` changes nothing.
    pub(crate) fn share(&mut self, alloc: Global) -> Result<Bytes, Memory>
        ensures kept { bytes_in self.new ≡ bytes_in self.old }
        ensures bytes { IfOk result (λ other. bytes_in other ≡ bytes_in self.old) }
        ensures own { IfOk result (λ other. is_own_in other ≡ false) }
        ensures lost { OnOk result (is_own_in self.new ≡ false) }
        ensures err { OnErr result (self.new ≡ self.old) }
    {
        match self {
            Bytes::Zero => Ok(Bytes::Zero),
            Bytes::Own(own) => {
                let shared = Arc::new(alloc, **own)?;
                let other = Arc::try_clone(&shared)?;
                *self = Bytes::Shared(shared);
                Ok(Bytes::Shared(other))
            }
            Bytes::Shared(shared) => Ok(Bytes::Shared(Arc::try_clone(shared)?)),
        }
    }

    /// Puts a byte at an offset, where the bytes are own.
    pub(crate) fn put_byte(&mut self, offset: usize, value: u8)
        requires offset { offset < 4096 }
        requires own { is_own_in self.old ≡ true }
        ensures bytes { bytes_in self.new ≡ slice_set (bytes_in self.old) offset value }
        ensures own { is_own_in self.new ≡ true }
        ensures len { length (bytes_in self.new) ≡ 4096 }
    {
        match self {
            Bytes::Own(own) => put_byte(own, offset, value),
            Bytes::Zero | Bytes::Shared(_) => unreachable!(),
        }
    }

    /// Puts a run of bytes from an offset on, where the bytes are own.
    pub(crate) fn put_bytes(&mut self, offset: usize, run: &[u8])
        requires fits { offset + length run.now ≤ 4096 }
        requires own { is_own_in self.old ≡ true }
        ensures bytes { bytes_in self.new ≡ with_run (bytes_in self.old) offset run.now }
        ensures own { is_own_in self.new ≡ true }
        ensures len { length (bytes_in self.new) ≡ 4096 }
    {
        match self {
            Bytes::Own(own) => put_bytes(own, offset, run),
            Bytes::Zero | Bytes::Shared(_) => unreachable!(),
        }
    }

    /// Puts so many of a number's bytes from an offset on, and answers whether it has: not where the bytes aren't own,
    /// the page doesn't reach so far, or no access is so wide.
    #[tactic(auto, using(crate::proofs::Owned::same_own))]
    #[inline(always)]
    pub(crate) fn put_number(&mut self, offset: usize, width: u8, value: u64) -> bool
        ensures fits { IsTrue result ↔ ((is_own_in self.old ≡ true) × IsInPage offset width) }
        ensures bytes { OnTrue result (bytes_in self.new ≡ with_number (bytes_in self.old) offset width value) }
        ensures own { is_own_in self.new ≡ is_own_in self.old }
        ensures unchanged { OnFalse result (self.new ≡ self.old) }
        ensures len { OnTrue result (length (bytes_in self.new) ≡ 4096) }
    {
        match self {
            Bytes::Own(own) => put_number(own, offset, width, value),
            Bytes::Zero | Bytes::Shared(_) => false,
        }
    }
}
