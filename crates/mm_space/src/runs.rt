//! Runs of bytes: whether all of them may be accessed, and what they are.

ghost use Rattle.std.specs.Prelude.{◌≡◌, ◌≢◌, ◌+◌, ◌%◌, ◌<◌, ◌≤◌, length, Err, OnOk, OnErr};
ghost use Rattle.rv_table.specs.Bytes.{AllowsAs, loaded};
ghost use Rattle.rv_table.specs.declared.error.MemErr.TheVariants as MemErr;
ghost use Rattle.mm_space.specs.Accesses.{byte_at, readable};
ghost use Rattle.mm_space.specs.Runs.{bytes_from};
ghost use Rattle.mm_space.specs.Spaces.{reach};

use crate::page_sight::PageSight;
use crate::{Handed, Space};
use mm_areas::Rights;
use rv_table::MemErr;

impl Space {
    /// Whether each of so many bytes from an address on may be accessed by a right. It takes no memory. Addresses go
    /// round at 2^64.
    ///
    /// - `Fault`: the first of the bytes that may not be accessed so.
    /// - `Shared`: else the area of the first of them that lies in one which isn't handed in.
    pub fn allowed(
        &self,
        handed: &Handed,
        right: Rights,
        at: u64,
        count: usize,
    ) -> Result<(), MemErr>
        ensures room { AllowsAs (loaded (byte_at right (reach self.now handed.now)) at count) result }
        ensures lean { result ≢ Err MemErr.Memory }
    {
        let mut asked = None;
        let mut address = at;
        let mut left = count;
        while left > 0 {
            let sight = self.page_sight(handed, right, address / 4096);
            if let PageSight::Barred = sight {
                return Err(MemErr::Fault { addr: address });
            }
            let piece = in_page(address, left);
            asked = asked.or(sight.area());
            address = address.wrapping_add(piece as u64);
            left -= piece;
        }
        match asked {
            Some(area) => Err(MemErr::Shared(area)),
            None => Ok(()),
        }
    }

    /// Reads the bytes from an address on into a buffer, in the way of `allowed`: where one of them may not be read,
    /// nothing is.
    ///
    /// write(2): what a call takes from a guest's buffer.
    pub fn read(&self, handed: &Handed, at: u64, buffer: &mut [u8]) -> Result<(), MemErr>
        ensures room { AllowsAs (loaded (byte_at readable (reach self.now handed.now)) at (length buffer.old)) result }
        ensures ok { OnOk result
            (buffer.new ≡ bytes_from (byte_at readable (reach self.now handed.now)) at (length buffer.old)) }
        ensures err { OnErr result (buffer.new ≡ buffer.old) }
        ensures lean { result ≢ Err MemErr.Memory }
    {
        self.allowed(handed, Rights::READ, at, buffer.len())?;
        self.copy_run(handed, at, buffer);
        Ok(())
    }

    /// The bytes from an address on that lie in its page, so many at most, and 0 for each that may not be read. It
    /// takes no memory: a run of bytes is so many of these, one behind another.
    pub fn piece<'a>(&'a self, handed: &'a Handed, at: u64, count: usize) -> &'a [u8]
        ensures bytes { result.now ≡ bytes_from (byte_at readable (reach self.now handed.now)) at (length result.now) }
        ensures within { length result.now ≤ count }
        ensures some { 0 < count → 0 < length result.now }
    {
        let piece = in_page(at, count);
        let sight = self.page_sight(handed, Rights::READ, at / 4096);
        sight.run((at % 4096) as usize, piece)
    }

    /// Puts the bytes from an address on into a buffer, and 0 for each that may not be read.
    fn copy_run(&self, handed: &Handed, at: u64, buffer: &mut [u8])
        ensures { buffer.new ≡ bytes_from (byte_at readable (reach self.now handed.now)) at (length buffer.old) }
    {
        let mut done = 0;
        while done < buffer.len() {
            let address = at.wrapping_add(done as u64);
            let piece = in_page(address, buffer.len() - done);
            let sight = self.page_sight(handed, Rights::READ, address / 4096);
            sight.copy_to((address % 4096) as usize, &mut buffer[done..done + piece]);
            done += piece;
        }
    }
}

/// How many of so many bytes from an address on lie in its page.
pub(crate) fn in_page(at: u64, count: usize) -> usize
    ensures within { result ≤ count }
    ensures page { at % 4096 + result ≤ 4096 }
    ensures some { 0 < count → 0 < result }
{
    count.min(4096 - (at % 4096) as usize)
}
