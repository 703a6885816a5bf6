//! Loads and fetches.

ghost use Rattle.std.specs.Prelude.{◌≢◌, ◌≤◌, ◌<◌, ◌^◌, Err, IfOk, IfSome};
ghost use Rattle.rv_table.specs.Bytes.{AnswersAs, loaded};
ghost use Rattle.rv_table.specs.Words.{IsWidth};
ghost use Rattle.rv_table.specs.declared.error.MemErr.TheVariants as MemErr;
ghost use Rattle.mm_space.specs.Accesses.{LoadsNear, byte_at, executable, readable};
ghost use Rattle.mm_space.specs.Spaces.{reach, space_of};

use crate::{Handed, Space};
use mm_areas::{Content, Rights};
use rv_table::MemErr;

impl Space {
    /// The number of so many bytes at an address, each of which may be read. It needs no alignment, and takes no
    /// memory. Addresses go round at 2^64.
    ///
    /// - `Fault`: the first of the bytes that may not be read.
    /// - `Shared`: else the area of the first of them that lies in one which isn't handed in.
    pub fn load(&self, handed: &Handed, at: u64, width: u8) -> Result<u64, MemErr>
        requires { IsWidth width }
        ensures number { AnswersAs (loaded (byte_at readable (reach self.now handed.now)) at width) result }
        ensures lean { result ≢ Err MemErr.Memory }
    {
        match self.near_number(Rights::READ, at, width) {
            Some(number) => Ok(number),
            None => self.far_number(handed, Rights::READ, at, width),
        }
    }

    /// The word of four bytes at an address, each of which may be executed, in the way of `load`.
    pub fn fetch(&self, handed: &Handed, at: u64) -> Result<u32, MemErr>
        ensures word { AnswersAs (loaded (byte_at executable (reach self.now handed.now)) at 4) result }
        ensures lean { result ≢ Err MemErr.Memory }
    {
        if let Some(word) = self.near_word(at) {
            return Ok(word);
        }
        match self.far_number(handed, Rights::EXECUTE, at, 4) {
            Ok(word) => Ok(word as u32),
            Err(err) => Err(err),
        }
    }

    /// What an access by a right comes to, one byte after another.
    fn far_number(&self, handed: &Handed, right: Rights, at: u64, width: u8) -> Result<u64, MemErr>
        requires { width ≤ 8 }
        ensures number { AnswersAs (loaded (byte_at right (reach self.now handed.now)) at width) result }
        ensures lean { result ≢ Err MemErr.Memory }
        ensures small { IfOk result (λ n. n < 256 ^ width) }
    {
        if let Some(addr) = self.first_barred(handed, right, at, width) {
            return Err(MemErr::Fault { addr });
        }
        if let Some(area) = self.first_area(handed, right, at, width) {
            return Err(MemErr::Shared(area));
        }
        Ok(self.number_from(handed, right, at, width))
    }

    /// The number of so many bytes from an address on, where they lie in one private page that has the right.
    fn near_number(&self, right: Rights, at: u64, width: u8) -> Option<u64>
        ensures { IfSome result (LoadsNear right (space_of self.now) at width) }
    {
        let page = self.areas.page(at / 4096)?;
        if !page.rights.allows(right) {
            return None;
        }
        match &page.content {
            Content::Private(frame) => frame.number((at % 4096) as usize, width),
            Content::Shared(_) => None,
        }
    }

    /// The word of four bytes from an address on, where they lie in one private page that may be executed.
    fn near_word(&self, at: u64) -> Option<u32>
        ensures { IfSome result (LoadsNear executable (space_of self.now) at 4) }
    {
        let page = self.areas.page(at / 4096)?;
        if !page.rights.allows(Rights::EXECUTE) {
            return None;
        }
        match &page.content {
            Content::Private(frame) => frame.word((at % 4096) as usize),
            Content::Shared(_) => None,
        }
    }
}
