//! Blocks by names, which others begin with.

use read_cases::Bad;
use std::alloc::Global;

/// The lines of a block, by a name.
#[derive(Drop)]
struct Setup {
    name: String,
    lines: String,
}

/// The blocks that have names.
#[derive(Drop)]
pub struct Setups {
    alloc: Global,
    all: Vec<Setup>,
}

impl Setups {
    /// None.
    pub fn none(alloc: Global) -> Setups {
        Setups {
            alloc,
            all: Vec::new(alloc),
        }
    }

    /// Begins a block of a name.
    pub fn begin(&mut self, name: &str) -> Result<(), Bad> {
        let setup = Setup {
            name: String::from_str(self.alloc, name)?,
            lines: String::new(self.alloc),
        };
        self.all.push(setup)?;
        Ok(())
    }

    /// Adds a line to the block that was begun last.
    pub fn add(&mut self, line: &str) -> Result<(), Bad> {
        if let Some(setup) = self.all.last_mut() {
            setup.lines.push_str(line)?;
            setup.lines.push('\n')?;
        }
        Ok(())
    }

    /// The lines of a name's block.
    pub fn lines(&self, name: &str) -> Option<&str> {
        for setup in &self.all {
            if setup.name.as_str() == name {
                return Some(setup.lines.as_str());
            }
        }
        None
    }
}
