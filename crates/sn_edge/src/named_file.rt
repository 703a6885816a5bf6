//! A file in memory: its name and its content.

ghost use Rattle.std.specs.Prelude.{◌≡◌, IfOk};

use sn_base::{List, Memory};
use std::alloc::Global;
use std::marker::Model;

/// A file's name and its content. Contracts see it as the pair of them.
#[derive(Drop)]
pub(crate) struct NamedFile {
    name: List<u8>,
    content: List<u8>,
}

impl Model for NamedFile {
    ghost use Rattle.std.specs.Prelude.{ℕ, List};

    ghost Value = { List ℕ × List ℕ };

    ghost view = { λ a. (a.name, a.content) };
}

impl NamedFile {
    pub(crate) fn new(alloc: Global, name: &str, content: &[u8]) -> Result<Self, Memory>
        ensures { IfOk result (λ file. file ≡ (name.now, content.now)) }
    {
        Ok(NamedFile {
            name: List::from_slice(alloc, name.as_bytes())?,
            content: List::from_slice(alloc, content)?,
        })
    }

    pub(crate) fn name(&self) -> &[u8]
        ensures { result.now ≡ self.now.0 }
    {
        self.name.as_slice()
    }

    pub(crate) fn content(&self) -> &[u8]
        ensures { result.now ≡ self.now.1 }
    {
        self.content.as_slice()
    }
}
