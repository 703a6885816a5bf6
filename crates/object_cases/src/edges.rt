//! Sources and sinks in memory. A call that fails is `failed`.
//!
//! - `source put NAME BYTES` puts a file there; `fail N` has the call of that number fail; `open NAME`: `opened`;
//!   `read BYTES`: how many it moved, and what is then in a buffer that had these bytes before;
//!   `read_all LIMIT NAME`: the bytes; `faults`: how many there were;
//! - `sink fail N`, `sink write BYTES`: how many it took; `write_all BYTES`: `written`; `bytes`: those taken; `faults`.

use crate::notation::{add_noted, count, tell_bytes};
use read_cases::{Bad, number, parted};
use sn_edge::{EdgeErr, MemSink, MemSource, Sink, Source, read_all, write_all};
use std::alloc::Global;

/// A source and a sink, and the bytes of a case.
#[derive(Drop)]
pub struct Edges {
    source: MemSource,
    sink: MemSink,
    noted: Vec<u8>,
}

/// Tells that a call failed.
fn tell_failed(came: &mut String, error: EdgeErr) -> Result<(), Bad> {
    match error {
        EdgeErr::Failed => Ok(came.push_str("failed")?),
        EdgeErr::Memory => Err(Bad::Memory),
    }
}

fn open(source: &mut MemSource, name: &str, came: &mut String) -> Result<bool, Bad> {
    match source.open(name) {
        Ok(()) => came.push_str("opened")?,
        Err(error) => tell_failed(came, error)?,
    }
    Ok(true)
}

/// Tells what is read of a file, up to one byte past the limit.
fn tell_all(
    alloc: Global,
    source: &mut MemSource,
    text: &str,
    came: &mut String,
) -> Result<bool, Bad> {
    let (limit, name) = parted(text);
    let Some(limit) = count(limit) else {
        return Ok(false);
    };
    match read_all(alloc, source, name, limit) {
        Ok(bytes) => tell_bytes(came, bytes.as_slice())?,
        Err(error) => tell_failed(came, error)?,
    }
    Ok(true)
}

/// Has a call of a sink fail; whether its number is there.
fn fail_sink(sink: &mut MemSink, text: &str) -> Result<bool, Bad> {
    let Some(call) = number(text) else {
        return Ok(false);
    };
    sink.fail(call)?;
    Ok(true)
}

fn fail_source(source: &mut MemSource, text: &str) -> Result<bool, Bad> {
    let Some(call) = number(text) else {
        return Ok(false);
    };
    source.fail(call)?;
    Ok(true)
}

impl Edges {
    /// No files, and nothing taken.
    pub fn new(alloc: Global) -> Edges {
        Edges {
            source: MemSource::new(alloc),
            sink: MemSink::new(alloc),
            noted: Vec::new(alloc),
        }
    }

    fn note(&mut self, text: &str) -> Result<bool, Bad> {
        self.noted.clear();
        add_noted(&mut self.noted, text)
    }

    fn put(&mut self, alloc: Global, text: &str) -> Result<bool, Bad> {
        let (name, bytes) = parted(text);
        if !self.note(bytes)? {
            return Ok(false);
        }
        self.source.put(alloc, name, self.noted.as_slice())?;
        Ok(true)
    }

    fn read(&mut self, text: &str, came: &mut String) -> Result<bool, Bad> {
        if !self.note(text)? {
            return Ok(false);
        }
        match self.source.read(self.noted.as_mut_slice()) {
            Ok(count) => write!(came, "{count}: ")?,
            Err(error) => {
                tell_failed(came, error)?;
                return Ok(true);
            }
        }
        tell_bytes(came, self.noted.as_slice())?;
        Ok(true)
    }

    /// Does a case on the source; whether it is one.
    pub fn do_source(&mut self, alloc: Global, case: &str, came: &mut String) -> Result<bool, Bad> {
        let (verb, rest) = parted(case);
        match verb {
            "put" => self.put(alloc, rest),
            "fail" => fail_source(&mut self.source, rest),
            "open" => open(&mut self.source, rest, came),
            "read" => self.read(rest, came),
            "read_all" => tell_all(alloc, &mut self.source, rest, came),
            "faults" => {
                write!(came, "{}", self.source.faults())?;
                Ok(true)
            }
            _ => Ok(false),
        }
    }

    fn write(&mut self, text: &str, came: &mut String) -> Result<bool, Bad> {
        if !self.note(text)? {
            return Ok(false);
        }
        match self.sink.write(self.noted.as_slice()) {
            Ok(count) => write!(came, "{count}")?,
            Err(error) => tell_failed(came, error)?,
        }
        Ok(true)
    }

    fn write_all(&mut self, text: &str, came: &mut String) -> Result<bool, Bad> {
        if !self.note(text)? {
            return Ok(false);
        }
        match write_all(&mut self.sink, self.noted.as_slice()) {
            Ok(()) => came.push_str("written")?,
            Err(error) => tell_failed(came, error)?,
        }
        Ok(true)
    }

    /// Does a case on the sink; whether it is one.
    pub fn do_sink(&mut self, case: &str, came: &mut String) -> Result<bool, Bad> {
        let (verb, rest) = parted(case);
        match verb {
            "fail" => return fail_sink(&mut self.sink, rest),
            "write" => return self.write(rest, came),
            "write_all" => return self.write_all(rest, came),
            "bytes" => tell_bytes(came, self.sink.bytes())?,
            "faults" => write!(came, "{}", self.sink.faults())?,
            _ => return Ok(false),
        }
        Ok(true)
    }
}
