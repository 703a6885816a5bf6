//! Texts: any bytes, as arguments of a program and what symbolic links hold.

ghost use Rattle.std.specs.Prelude.{◌≡◌, ◌<◌, [], ◌++◌, length, IfOk, OnOk, OnErr};

use sn_base::Memory;
use std::alloc::Global;
use std::marker::Model;

/// Any bytes, as an argument of a program or what a symbolic link holds. Contracts see it as its bytes.
#[derive(Debug, Drop)]
pub struct Text {
    bytes: Vec<u8>,
}

impl Model for Text {
    ghost use Rattle.std.specs.Prelude.{ℕ, List};
    ghost use Rattle.std.specs.Coded.{coded_list, coded_ℕ};

    ghost Value = { List ℕ };

    ghost coded = { coded_list coded_ℕ };

    ghost view = { λ a. a.bytes.items };
}

impl Text {
    /// No bytes. It takes no memory.
    pub fn new(alloc: Global) -> Text
        ensures { result ≡ [] }
    {
        Text {
            bytes: Vec::new(alloc),
        }
    }

    /// These bytes, in memory of their own. No bytes take none.
    pub fn from_slice(alloc: Global, bytes: &[u8]) -> Result<Text, Memory>
        ensures ok { IfOk result (λ t. t ≡ bytes.now) }
        ensures some { OnErr result (0 < length bytes.now) }
    {
        let mut text = Text::new(alloc);
        text.extend(bytes)?;
        Ok(text)
    }

    /// The bytes of the text.
    pub fn as_bytes(&self) -> &[u8]
        ensures { result.now ≡ self.now }
    {
        self.bytes.as_slice()
    }

    /// The same bytes, in memory of their own. No bytes take none.
    pub fn copy(&self, alloc: Global) -> Result<Text, Memory>
        ensures ok { IfOk result (λ t. t ≡ self.now) }
        ensures some { OnErr result (0 < length self.now) }
    {
        Text::from_slice(alloc, self.as_bytes())
    }

    /// Drops all bytes, and keeps the memory for those that come.
    pub fn clear(&mut self)
        ensures { self.new ≡ [] }
    {
        self.bytes.clear();
    }

    /// Adds bytes at the end. An `Err` leaves the text as it was, and comes only where there are some.
    pub fn extend(&mut self, bytes: &[u8]) -> Result<(), Memory>
        ensures ok { OnOk result (self.new ≡ self.old ++ bytes.now) }
        ensures err { OnErr result (self.new ≡ self.old) }
        ensures some { OnErr result (0 < length bytes.now) }
    {
        self.bytes.extend_from_slice(bytes)?;
        Ok(())
    }
}
