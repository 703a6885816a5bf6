//! The mount file of a run, by lines.

use read_cases::{Bad, add_bytes, number};
use std::alloc::Global;

/// 64 zeros.
const ZEROS: &str = "0000000000000000000000000000000000000000000000000000000000000000";

/// A mount file: its room for entries, its seed and the text of its tasks, with a mount at `/` of the folder `root`; or
/// its very bytes.
pub struct MountFile {
    entries: u64,
    seed: String,
    tasks: String,
    text: Vec<u8>,
    is_literal: bool,
}

/// Lets all of it go by one call.
impl Drop for MountFile {
    fn drop(self) {
        let MountFile {
            entries: _,
            seed: _,
            tasks: _,
            text: _,
            is_literal: _,
        } = self;
    }
}

fn add_line(bytes: &mut Vec<u8>, line: &str) -> Result<bool, Bad> {
    bytes.extend_from_slice(line.as_bytes())?;
    bytes.push(b'\n')?;
    Ok(true)
}

fn add_spaces(bytes: &mut Vec<u8>, count: &str) -> Result<bool, Bad> {
    let Some(count) = number(count) else {
        return Ok(false);
    };
    for _ in 0..count {
        bytes.push(b' ')?;
    }
    Ok(true)
}

impl MountFile {
    /// One with room for 4,096 entries, a seed of zeros, and no task yet: one of `/init` where none is said.
    pub fn new(alloc: Global) -> Result<MountFile, Bad> {
        Ok(MountFile {
            entries: 4096,
            seed: String::from_str(alloc, ZEROS)?,
            tasks: String::new(alloc),
            text: Vec::new(alloc),
            is_literal: false,
        })
    }

    /// Does a line; whether it is one of the mount file:
    ///
    /// - `entries N`, `seed DIGITS`;
    /// - `task /PATH`: one more task; `tasks N`: so many of `/init`; `strings N`: the last has so many strings `a` in
    ///   its environment;
    /// - `mounts LINE`, `mounts_bytes BYTE ..`, `mounts_spaces N`: the file is these lines, bytes, spaces alone.
    pub fn set(&mut self, verb: &str, rest: &str) -> Result<bool, Bad> {
        match verb {
            "entries" => Ok(self.set_entries(rest)),
            "seed" => self.set_seed(rest),
            "task" => self.add_task(rest),
            "tasks" => self.add_tasks(rest),
            "strings" => self.add_strings(rest),
            _ => self.set_text(verb, rest),
        }
    }

    fn set_entries(&mut self, text: &str) -> bool {
        match number(text) {
            Some(entries) => {
                self.entries = entries;
                true
            }
            None => false,
        }
    }

    fn set_seed(&mut self, digits: &str) -> Result<bool, Bad> {
        self.seed.clear();
        self.seed.push_str(digits)?;
        Ok(true)
    }

    fn add_task(&mut self, path: &str) -> Result<bool, Bad> {
        write!(&mut self.tasks, "[[task]]\npath = \"{path}\"\n")?;
        Ok(true)
    }

    fn add_tasks(&mut self, count: &str) -> Result<bool, Bad> {
        let Some(count) = number(count) else {
            return Ok(false);
        };
        for _ in 0..count {
            self.add_task("/init")?;
        }
        Ok(true)
    }

    fn add_strings(&mut self, count: &str) -> Result<bool, Bad> {
        let Some(count) = number(count) else {
            return Ok(false);
        };
        self.tasks.push_str("env = [")?;
        for _ in 0..count {
            self.tasks.push_str("\"a\",")?;
        }
        self.tasks.push_str("]\n")?;
        Ok(true)
    }

    /// Adds to the bytes of the file, which are all of it from now on.
    fn set_text(&mut self, verb: &str, rest: &str) -> Result<bool, Bad> {
        let is_one = match verb {
            "mounts" => add_line(&mut self.text, rest)?,
            "mounts_bytes" => add_bytes(&mut self.text, rest)?,
            "mounts_spaces" => add_spaces(&mut self.text, rest)?,
            _ => return Ok(false),
        };
        self.is_literal = true;
        Ok(is_one)
    }

    /// Its text, where it isn't given byte by byte.
    fn written(&self, alloc: Global) -> Result<String, Bad> {
        let tasks = if self.tasks.is_empty() {
            "[[task]]\npath = \"/init\"\n"
        } else {
            self.tasks.as_str()
        };
        let entries = self.entries;
        let seed = self.seed.as_str();
        let mount = "[[mount]]\nat = \"/\"\nfolder = \"root\"\n";
        Ok(format!(in alloc; "entries = {entries}\nseed = \"{seed}\"\n{mount}{tasks}")?)
    }

    /// Its bytes.
    pub fn bytes(&self, alloc: Global) -> Result<Vec<u8>, Bad> {
        if self.is_literal {
            return Ok(Vec::from_slice(alloc, self.text.as_slice())?);
        }
        Ok(self.written(alloc)?.into_bytes())
    }
}
