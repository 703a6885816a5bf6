//! A pipe, its reads and its writes.

ghost use Rattle.std.specs.Prelude.{◌≡◌, ℕ, ◌+◌, ◌-◌, ◌^◌, ◌<◌, ◌≤◌, ◌↔◌, ◌++◌, length, min, take, drop, IfOk};
ghost use Rattle.pipe_core.specs.Pipes.{ReadWaits, WriteWaits, after_read, after_write, new_pipe, count_put, room_in};
ghost use Rattle.pipe_core.specs.Pipes.{with_ends};

use crate::ring::{CAPACITY, Ring};
use sn_base::Memory;
use std::alloc::Global;
use std::marker::Model;

/// How many bytes a write puts all at once or not at all: PIPE_BUF.
pub const ATOMIC: usize = 4_096;

/// What a read of a pipe did.
#[derive(Clone, Copy, Debug, PartialEq, Eq)]
pub enum PipeRead {
    /// So many bytes were moved. None of some that were wanted: the end of the stream.
    Got(usize),
    /// There is nothing to read yet.
    Wait,
}

/// What a write to a pipe did.
#[derive(Clone, Copy, Debug, PartialEq, Eq)]
pub enum PipeWrite {
    /// So many bytes were moved.
    Put(usize),
    /// There is no room yet.
    Wait,
    /// Nobody can ever read them.
    Broken,
}

/// A pipe. Contracts see its bytes, oldest first, and how many read and write ends are open.
#[derive(Debug, Drop)]
pub struct Pipe {
    ring: Ring,
    readers: u64,
    writers: u64,
}

impl Model for Pipe {
    ghost use Rattle.pipe_core.specs.Pipes.{PipeState};

    ghost Value = { PipeState };

    ghost view = { λ a. record { bytes = a.ring; readers = a.readers; writers = a.writers } };
}

impl Pipe {
    /// An empty pipe with one read end and one write end. It takes the room for all the bytes that the pipe ever holds.
    pub fn new(alloc: Global) -> Result<Pipe, Memory>
        ensures { IfOk result (λ pipe. pipe ≡ new_pipe) }
    {
        Ok(Pipe {
            ring: Ring::new(alloc)?,
            readers: 1,
            writers: 1,
        })
    }

    /// Moves the oldest bytes to the front of `buf`, as many as are there and fit. It takes no memory.
    pub fn read(&mut self, buf: &mut [u8]) -> PipeRead
        ensures wait { (result ≡ PipeRead.Wait) ↔ ReadWaits self.old (length buf.old) }
        ensures got { (n : ℕ) → result ≡ PipeRead.Got n → n ≡ min (length buf.old) (length self.old.bytes) }
        ensures nothing { length buf.old ≡ 0 → result ≡ PipeRead.Got 0 }
        ensures bytes { buf.new ≡ take (length buf.old) self.old.bytes ++ drop (length self.old.bytes) buf.old }
        ensures rest { self.new ≡ after_read self.old (length buf.old) }
        ensures unchanged { result ≡ PipeRead.Wait → self.new ≡ self.old }
    {
        let count = buf.len().min(self.ring.len());
        if count == 0 && !buf.is_empty() && self.writers > 0 {
            return PipeRead::Wait;
        }
        self.ring.take_into(&mut buf[..count]);
        PipeRead::Got(count)
    }

    /// Puts bytes behind those that are there: all of up to 4,096, and of more as many as fit. It takes no memory.
    pub fn write(&mut self, bytes: &[u8]) -> PipeWrite
        ensures broken { (result ≡ PipeWrite.Broken) ↔ (self.old.readers ≡ 0) }
        ensures wait { (result ≡ PipeWrite.Wait) ↔ WriteWaits self.old (length bytes.now) }
        ensures put { (n : ℕ) → result ≡ PipeWrite.Put n → n ≡ min (length bytes.now) (room_in self.old) }
        ensures atomic { length bytes.now ≤ ATOMIC → (n : ℕ) → result ≡ PipeWrite.Put n →
            n ≡ length bytes.now }
        ensures after { self.new ≡ after_write self.old (take (count_put result) bytes.now) }
        ensures unchanged { count_put result ≡ 0 → self.new ≡ self.old }
    {
        if self.readers == 0 {
            return PipeWrite::Broken;
        }
        let room = CAPACITY - self.ring.len();
        let wanted = if bytes.len() <= ATOMIC {
            bytes.len()
        } else {
            1
        };
        if room < wanted {
            return PipeWrite::Wait;
        }
        let count = bytes.len().min(room);
        self.ring.append(&bytes[..count]);
        PipeWrite::Put(count)
    }

    /// The bytes that are there, oldest first, as two runs: the second is behind the first.
    pub fn oldest(&self) -> (&[u8], &[u8])
        ensures { result.0.now ++ result.1.now ≡ self.now.bytes }
    {
        self.ring.oldest()
    }

    /// Drops so many of the oldest bytes, or all where fewer are there: a read that has looked at them takes them so.
    pub fn skip(&mut self, count: usize)
        ensures { self.new ≡ after_read self.old count }
    {
        self.ring.skip(count.min(self.ring.len()));
    }

    /// Puts bytes behind those that are there, for which there is room: a write that has made sure of it puts so one
    /// run after another. It takes no memory.
    pub fn put(&mut self, bytes: &[u8])
        requires { length self.old.bytes + length bytes.now ≤ CAPACITY }
        ensures { self.new ≡ after_write self.old bytes.now }
    {
        self.ring.append(bytes);
    }

    /// Keeps so many of the oldest bytes, or all where fewer are there: a write that can't go on takes back so what it
    /// has put.
    pub fn truncate(&mut self, len: usize)
        ensures { self.new ≡ record self.old { bytes = take len self.old.bytes } }
    {
        self.ring.truncate(len);
    }

    /// How many bytes are in the pipe.
    pub fn len(&self) -> usize
        ensures len { result ≡ length self.now.bytes }
        ensures within { length self.now.bytes ≤ CAPACITY }
    {
        self.ring.len()
    }

    /// How many read ends are open.
    pub fn readers(&self) -> u64
        ensures { result ≡ self.now.readers }
    {
        self.readers
    }

    /// How many write ends are open.
    pub fn writers(&self) -> u64
        ensures { result ≡ self.now.writers }
    {
        self.writers
    }

    /// One more read end is open.
    pub fn open_reader(&mut self)
        requires { self.old.readers + 1 < 2 ^ 64 }
        ensures { self.new ≡ with_ends self.old (self.old.readers + 1) self.old.writers }
    {
        self.readers += 1;
    }

    /// One more write end is open.
    pub fn open_writer(&mut self)
        requires { self.old.writers + 1 < 2 ^ 64 }
        ensures { self.new ≡ with_ends self.old self.old.readers (self.old.writers + 1) }
    {
        self.writers += 1;
    }

    /// A read end is closed.
    pub fn close_reader(&mut self)
        requires { 0 < self.old.readers }
        ensures { self.new ≡ with_ends self.old (self.old.readers - 1) self.old.writers }
    {
        self.readers -= 1;
    }

    /// A write end is closed.
    pub fn close_writer(&mut self)
        requires { 0 < self.old.writers }
        ensures { self.new ≡ with_ends self.old self.old.readers (self.old.writers - 1) }
    {
        self.writers -= 1;
    }
}
