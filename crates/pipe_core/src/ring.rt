//! The bytes on their way through a pipe: a ring of slots, taken when it is made.

ghost use Rattle.std.specs.Prelude.{◌≡◌, ℕ, ◌+◌, ◌<◌, ◌≤◌, List, [], ◌++◌, length, take, drop, IfOk, slice_index};
ghost use Rattle.pipe_core.specs.Rings.{byte_on_ring, bytes_on_ring};

use sn_base::Memory;
use std::alloc::Global;
use std::marker::Model;

/// How many bytes a pipe has room for: pipe(7), Pipe capacity.
pub const CAPACITY: usize = 65_536;

/// A queue of at most 65,536 bytes. Contracts see them in order, oldest first.
#[derive(Debug, Drop)]
pub(crate) struct Ring {
    slots: Vec<u8>,
    /// The slot of the oldest byte.
    start: usize,
    len: usize,
}

impl Model for Ring {
    ghost use Rattle.std.specs.Prelude.{ℕ, ◌≡◌, ◌<◌, ◌≤◌, List, length};
    ghost use Rattle.pipe_core.specs.Rings.{bytes_on_ring};
    ghost use Rattle.pipe_core.specs.declared.ring.TheConstants.{CAPACITY};

    ghost Value = { List ℕ };

    ghost view = { λ a. bytes_on_ring a.start a.len a.slots.items };

    ghost invariant = { λ a. (length a.slots.items ≡ CAPACITY) × (a.start < CAPACITY) × (a.len ≤ CAPACITY) };
}

impl Ring {
    /// A ring with no bytes.
    pub(crate) fn new(alloc: Global) -> Result<Ring, Memory>
        ensures { IfOk result (λ ring. ring ≡ []) }
    {
        let slots = vec![in alloc; 0; CAPACITY]?;
        Ok(Ring {
            slots,
            start: 0,
            len: 0,
        })
    }

    /// How many bytes are in it.
    pub(crate) fn len(&self) -> usize
        ensures len { result ≡ length self.now }
        ensures within { length self.now ≤ CAPACITY }
    {
        self.len
    }

    /// Its bytes, oldest first, as the two runs of slots that they lie in: up to the last slot, and from the first on.
    pub(crate) fn oldest(&self) -> (&[u8], &[u8])
        ensures { result.0.now ++ result.1.now ≡ self.now }
    {
        let first = self.len.min(CAPACITY - self.start);
        let slots = self.slots.as_slice();
        (
            &slots[self.start..self.start + first],
            &slots[..self.len - first],
        )
    }

    /// Drops so many of the oldest bytes.
    pub(crate) fn skip(&mut self, count: usize)
        requires { count ≤ length self.old }
        ensures { self.new ≡ drop count self.old }
    {
        self.start = (self.start + count) % CAPACITY;
        self.len -= count;
    }

    /// Keeps so many of the oldest bytes, or all where fewer are there, and drops those behind them.
    pub(crate) fn truncate(&mut self, len: usize)
        ensures { self.new ≡ take len self.old }
    {
        self.len = self.len.min(len);
    }

    /// Moves the oldest bytes out, as many as there is room for.
    pub(crate) fn take_into(&mut self, to: &mut [u8])
        requires { length to.old ≤ length self.old }
        ensures bytes { to.new ≡ take (length to.old) self.old }
        ensures rest { self.new ≡ drop (length to.old) self.old }
    {
        copy_out(&self.slots, self.start, to);
        self.start = (self.start + to.len()) % CAPACITY;
        self.len -= to.len();
    }

    /// Puts bytes behind the others.
    pub(crate) fn append(&mut self, bytes: &[u8])
        requires { length self.old + length bytes.now ≤ CAPACITY }
        ensures { self.new ≡ self.old ++ bytes.now }
    {
        let end = (self.start + self.len) % CAPACITY;
        copy_in(&mut self.slots, end, bytes);
        self.len += bytes.len();
    }
}

/// Copies the bytes from a slot on, going round.
fn copy_out(slots: &[u8], start: usize, to: &mut [u8])
    requires slots { length slots.now ≡ CAPACITY }
    requires start { start < CAPACITY }
    requires within { length to.old ≤ CAPACITY }
    ensures { to.new ≡ bytes_on_ring start (length to.old) slots.now }
{
    let len = to.len();
    let first = len.min(CAPACITY - start);
    to[..first].copy_from_slice(&slots[start..start + first]);
    to[first..].copy_from_slice(&slots[..len - first]);
}

/// Copies bytes into the slots from one on, going round.
fn copy_in(slots: &mut [u8], start: usize, bytes: &[u8])
    requires slots { length slots.old ≡ CAPACITY }
    requires start { start < CAPACITY }
    requires within { length bytes.now ≤ CAPACITY }
    ensures len { length slots.new ≡ CAPACITY }
    ensures put { (i : ℕ) → i < length bytes.now → byte_on_ring start i slots.new ≡ slice_index bytes.now i }
    ensures kept { (i : ℕ) → length bytes.now ≤ i → i < CAPACITY →
        byte_on_ring start i slots.new ≡ byte_on_ring start i slots.old }
{
    let first = bytes.len().min(CAPACITY - start);
    slots[start..start + first].copy_from_slice(&bytes[..first]);
    slots[..bytes.len() - first].copy_from_slice(&bytes[first..]);
}
