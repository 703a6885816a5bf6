//! Bytes of a block, empty at first, into which records and fields are put, and out of which these are read.
//!
//! - `bytes BYTES` adds bytes; `times COUNT`: the bytes become themselves so often; `len`: how many they are;
//! - `at PLACE COUNT`: so many of the bytes. `layouts.rt` has records, `fields.rt` fields, `images.rt` images.

use crate::fields::do_field;
use crate::images::do_image;
use crate::layouts::{do_layout, do_vector};
use crate::notation::{add_noted, count, tell_bytes};
use read_cases::{Bad, parted};
use sn_base::List;
use stat_layout::IoVec;
use std::alloc::Global;

/// Some bytes, the buffers that were read out of them, and bytes that a case has.
#[derive(Drop)]
pub struct Records {
    pub bytes: List<u8>,
    pub buffers: List<IoVec>,
    pub noted: Vec<u8>,
}

/// Tells so many bytes from a place on.
fn tell_at(bytes: &[u8], text: &str, came: &mut String) -> Result<bool, Bad> {
    let (place, length) = parted(text);
    let (Some(place), Some(length)) = (count(place), count(length)) else {
        return Ok(false);
    };
    match bytes.get(place..place.saturating_add(length)) {
        Some(bytes) => tell_bytes(came, bytes)?,
        None => came.push_str("none")?,
    }
    Ok(true)
}

impl Records {
    /// No bytes.
    pub fn new(alloc: Global) -> Records {
        Records {
            bytes: List::new(alloc),
            buffers: List::new(alloc),
            noted: Vec::new(alloc),
        }
    }

    fn add_bytes(&mut self, text: &str) -> Result<bool, Bad> {
        self.noted.clear();
        if !add_noted(&mut self.noted, text)? {
            return Ok(false);
        }
        self.bytes.extend_from_slice(self.noted.as_slice())?;
        Ok(true)
    }

    /// The bytes become themselves so often.
    fn repeat(&mut self, text: &str) -> Result<bool, Bad> {
        let Some(times) = count(text) else {
            return Ok(false);
        };
        self.noted.clear();
        self.noted.extend_from_slice(self.bytes.as_slice())?;
        for _ in 1..times {
            self.bytes.extend_from_slice(self.noted.as_slice())?;
        }
        Ok(true)
    }

    /// Does a case; whether it is one.
    pub fn do_case(&mut self, alloc: Global, case: &str, came: &mut String) -> Result<bool, Bad> {
        let (verb, rest) = parted(case);
        match verb {
            "bytes" => self.add_bytes(rest),
            "times" => self.repeat(rest),
            "at" => tell_at(self.bytes.as_slice(), rest, came),
            "len" => {
                write!(came, "{}", self.bytes.len())?;
                Ok(true)
            }
            "put" | "get" => do_field(&mut self.bytes, verb, rest, came),
            "image" | "guest" => do_image(alloc, self, verb, rest),
            "iovecs" | "iovec" | "total" => do_vector(alloc, self, verb, rest, came),
            _ => do_layout(alloc, self, verb, rest, came),
        }
    }
}
