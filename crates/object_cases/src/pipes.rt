//! Pipes. Bytes are noted as `notation.rt` says.
//!
//! - `write BYTES`: how many it put, `wait` or `broken`; `put BYTES`: nothing, or `no room`;
//! - `read BYTES`: how many it got or `wait`, and what is then in a buffer that had these bytes before;
//! - `read_each COUNT`: so many reads into one byte each, and what they got, one after another;
//! - `skip COUNT`, `truncate COUNT`, `open_reader`, `open_writer`, `close_reader`, `close_writer`: nothing, or `none`
//!   where no such end is open; `len`, `readers`, `writers`: how many;
//! - `oldest`: the two runs in which the bytes lie, `runs`: how long these are;
//! - `fill PASSED COUNT`: a new pipe in which so many numbered bytes are, behind so many others that were read.

use crate::notation::{add_noted, add_numbered, count, space, tell_bytes};
use pipe_core::{CAPACITY, Pipe, PipeRead, PipeWrite};
use read_cases::{Bad, parted};
use std::alloc::Global;

/// A pipe, and the bytes that go in and come out.
#[derive(Drop)]
pub struct Pipes {
    pipe: Pipe,
    bytes: Vec<u8>,
}

fn tell_write(came: &mut String, wrote: PipeWrite) -> Result<(), Bad> {
    match wrote {
        PipeWrite::Put(count) => write!(came, "put {count}")?,
        PipeWrite::Wait => came.push_str("wait")?,
        PipeWrite::Broken => came.push_str("broken")?,
    }
    Ok(())
}

fn tell_read(came: &mut String, read: PipeRead) -> Result<(), Bad> {
    match read {
        PipeRead::Got(count) => write!(came, "got {count}")?,
        PipeRead::Wait => came.push_str("wait")?,
    }
    Ok(())
}

/// Reads into each byte of a buffer alone, and tells the first read that didn't get one.
fn read_each(pipe: &mut Pipe, bytes: &mut [u8], came: &mut String) -> Result<(), Bad> {
    let mut one = [0];
    for byte in bytes {
        let read = pipe.read(&mut one);
        if read != PipeRead::Got(1) {
            tell_read(came, read)?;
            space(came)?;
        }
        *byte = one[0];
    }
    Ok(())
}

/// Opens or closes an end; whether a verb says so.
fn change_ends(pipe: &mut Pipe, verb: &str, came: &mut String) -> Result<bool, Bad> {
    match verb {
        "open_reader" if pipe.readers() < u64::MAX => pipe.open_reader(),
        "open_writer" if pipe.writers() < u64::MAX => pipe.open_writer(),
        "close_reader" if pipe.readers() > 0 => pipe.close_reader(),
        "close_writer" if pipe.writers() > 0 => pipe.close_writer(),
        "close_reader" | "close_writer" => came.push_str("none")?,
        _ => return Ok(false),
    }
    Ok(true)
}

fn tell_oldest(pipe: &Pipe, came: &mut String) -> Result<bool, Bad> {
    let (front, back) = pipe.oldest();
    tell_bytes(came, front)?;
    came.push_str(" | ")?;
    tell_bytes(came, back)?;
    Ok(true)
}

/// Does a case that looks at a pipe.
fn do_look(pipe: &Pipe, verb: &str, came: &mut String) -> Result<bool, Bad> {
    match verb {
        "len" => write!(came, "{}", pipe.len())?,
        "readers" => write!(came, "{}", pipe.readers())?,
        "writers" => write!(came, "{}", pipe.writers())?,
        "runs" => {
            let (front, back) = pipe.oldest();
            write!(came, "{} {}", front.len(), back.len())?;
        }
        "oldest" => return tell_oldest(pipe, came),
        _ => return Ok(false),
    }
    Ok(true)
}

/// Does a case that has a count.
fn do_count(pipe: &mut Pipe, verb: &str, count: usize, came: &mut String) -> Result<bool, Bad> {
    match verb {
        "skip" => pipe.skip(count),
        "truncate" => pipe.truncate(count),
        _ => {
            if !change_ends(pipe, verb, came)? {
                return do_look(pipe, verb, came);
            }
        }
    }
    Ok(true)
}

impl Pipes {
    /// An empty pipe.
    pub fn new(alloc: Global) -> Result<Pipes, Bad> {
        let pipe = Pipe::new(alloc)?;
        let bytes = Vec::new(alloc);
        Ok(Pipes { pipe, bytes })
    }

    /// Puts an empty pipe in the place of this one.
    pub fn begin(&mut self, alloc: Global) -> Result<(), Bad> {
        self.pipe = Pipe::new(alloc)?;
        Ok(())
    }

    /// Puts the bytes that a text has into the buffer; whether it has some.
    fn note(&mut self, text: &str) -> Result<bool, Bad> {
        self.bytes.clear();
        add_noted(&mut self.bytes, text)
    }

    /// Puts so many bytes of one kind into the buffer.
    fn fill_buffer(&mut self, count: usize) -> Result<(), Bad> {
        self.bytes.clear();
        for _ in 0..count {
            self.bytes.push(255)?;
        }
        Ok(())
    }

    /// A pipe in which numbered bytes are, behind others that were read.
    fn fill(&mut self, alloc: Global, text: &str) -> Result<bool, Bad> {
        let (passed, numbered) = parted(text);
        let Some(passed) = count(passed) else {
            return Ok(false);
        };
        self.begin(alloc)?;
        self.fill_buffer(passed)?;
        let _ = self.pipe.write(self.bytes.as_slice());
        let _ = self.pipe.read(self.bytes.as_mut_slice());
        self.bytes.clear();
        if !add_numbered(&mut self.bytes, numbered)? {
            return Ok(false);
        }
        let _ = self.pipe.write(self.bytes.as_slice());
        Ok(true)
    }

    fn write(&mut self, text: &str, came: &mut String) -> Result<bool, Bad> {
        if !self.note(text)? {
            return Ok(false);
        }
        tell_write(came, self.pipe.write(self.bytes.as_slice()))?;
        Ok(true)
    }

    fn put(&mut self, text: &str, came: &mut String) -> Result<bool, Bad> {
        if !self.note(text)? {
            return Ok(false);
        }
        let bytes = self.bytes.as_slice();
        if bytes.len() > CAPACITY - self.pipe.len() {
            came.push_str("no room")?;
        } else {
            self.pipe.put(bytes);
        }
        Ok(true)
    }

    fn read(&mut self, text: &str, came: &mut String) -> Result<bool, Bad> {
        if !self.note(text)? {
            return Ok(false);
        }
        tell_read(came, self.pipe.read(self.bytes.as_mut_slice()))?;
        came.push_str(": ")?;
        tell_bytes(came, self.bytes.as_slice())?;
        Ok(true)
    }

    fn read_each(&mut self, text: &str, came: &mut String) -> Result<bool, Bad> {
        let Some(count) = count(text) else {
            return Ok(false);
        };
        self.fill_buffer(count)?;
        read_each(&mut self.pipe, self.bytes.as_mut_slice(), came)?;
        tell_bytes(came, self.bytes.as_slice())?;
        Ok(true)
    }

    /// Does a case; whether it is one.
    pub fn do_case(&mut self, alloc: Global, case: &str, came: &mut String) -> Result<bool, Bad> {
        let (verb, rest) = parted(case);
        match verb {
            "write" => self.write(rest, came),
            "put" => self.put(rest, came),
            "read" => self.read(rest, came),
            "read_each" => self.read_each(rest, came),
            "fill" => self.fill(alloc, rest),
            _ => do_count(&mut self.pipe, verb, count(rest).unwrap_or(0), came),
        }
    }
}
