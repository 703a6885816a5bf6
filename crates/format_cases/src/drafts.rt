//! The text of a mount file, as a block writes it.

use crate::texts::{add_each, add_filled, add_text, add_times};
use read_cases::{Bad, add_bytes, parted};
use std::alloc::Global;

/// What stands before a gap, what is put there, and what stands behind it; with no gap all of it is before.
pub struct Draft {
    before: Vec<u8>,
    inside: Vec<u8>,
    behind: Vec<u8>,
    has_gap: bool,
    digits: String,
}

/// Lets all of it go by one call.
impl Drop for Draft {
    fn drop(self) {
        let Draft {
            before: _,
            inside: _,
            behind: _,
            has_gap: _,
            digits: _,
        } = self;
    }
}

/// Adds what a short line says; whether it says something.
fn add_short(bytes: &mut Vec<u8>, case: &str, digits: &mut String) -> Result<bool, Bad> {
    let (verb, rest) = parted(case);
    match verb {
        "fill" => add_filled(bytes, rest),
        "bytes" => add_bytes(bytes, rest),
        "times" => add_times(bytes, rest),
        "each" => add_each(bytes, rest, digits),
        _ => Ok(false),
    }
}

impl Draft {
    /// An empty file.
    pub fn new(alloc: Global) -> Draft {
        Draft {
            before: Vec::new(alloc),
            inside: Vec::new(alloc),
            behind: Vec::new(alloc),
            has_gap: false,
            digits: String::new(alloc),
        }
    }

    /// Makes it an empty file.
    pub fn clear(&mut self) {
        self.before.clear();
        self.inside.clear();
        self.behind.clear();
        self.has_gap = false;
    }

    /// Adds bytes at the end.
    pub fn add_bytes(&mut self, bytes: &[u8]) -> Result<(), Bad> {
        let end = if self.has_gap {
            &mut self.behind
        } else {
            &mut self.before
        };
        end.extend_from_slice(bytes)?;
        Ok(())
    }

    /// Adds a text of the file, whose first `...` is the gap.
    fn add_written(&mut self, text: &str) -> Result<(), Bad> {
        match text.split_once("...") {
            Some((before, behind)) if !self.has_gap => {
                self.add_bytes(before.as_bytes())?;
                self.has_gap = true;
                self.add_bytes(behind.as_bytes())
            }
            _ => self.add_bytes(text.as_bytes()),
        }
    }

    /// Puts a text into the gap. Whether there is one.
    pub fn put(&mut self, text: &str) -> Result<bool, Bad> {
        self.inside.clear();
        add_text(&mut self.inside, text)?;
        Ok(self.has_gap)
    }

    /// Adds what a line says, or puts a text into the gap; whether it says that.
    pub fn add(&mut self, case: &str) -> Result<bool, Bad> {
        if let Some(line) = case.strip_prefix("  ") {
            self.add_written(line)?;
            self.add_bytes(b"\n")?;
            return Ok(true);
        }
        if let Some(text) = case.strip_prefix('+') {
            self.add_written(text)?;
            return Ok(true);
        }
        if let Some(text) = case.strip_prefix("put ") {
            return self.put(text);
        }
        if self.has_gap {
            add_short(&mut self.behind, case, &mut self.digits)
        } else {
            add_short(&mut self.before, case, &mut self.digits)
        }
    }

    /// The file, with what is put into its gap.
    pub fn bytes(&self, alloc: Global) -> Result<Vec<u8>, Bad> {
        let mut bytes = Vec::from_slice(alloc, self.before.as_slice())?;
        bytes.extend_from_slice(self.inside.as_slice())?;
        bytes.extend_from_slice(self.behind.as_slice())?;
        Ok(bytes)
    }
}
