//! A frame: a page's bytes, and its words decoded, where they have been wanted.

ghost use Rattle.std.specs.Prelude.{◌≡◌, ◌+◌, ◌<◌, ◌≤◌, ◌↔◌, true, false, length, SomeIff, IfSome, IfOk, OnOk, OnErr};
ghost use Rattle.std.specs.Prelude.{IsTrue, is_some, slice_get, slice_set, replicate};
ghost use Rattle.std.specs.Bool.{OnTrue, OnFalse};
ghost use Rattle.std.specs.Option.{ForSome};
ghost use Rattle.rv_table.specs.Words.{IsWidth};
ghost use Rattle.mm_frames.specs.Numbers.{IsInPage, little_number_at, with_number, with_run};
ghost use Rattle.mm_frames.specs.Bytes.{bytes_in};
ghost use Rattle.mm_frames.specs.Rows.{decoded_row, words_of, AreRowOutside};

use crate::numbers::{is_in_page, is_whole, number_at, word_at};
use crate::{Bytes, Row};
use rv_table::Instr;
use sn_base::Memory;
use std::alloc::Global;
use std::boxed::Box;

/// A page's 4,096 bytes, and the instructions that its words are, decoded, where they have been wanted.
#[derive(Drop)]
pub struct Frame {
    bytes: Bytes,
    row: Option<Row>,
    ghost whole: { length (bytes_in bytes) ≡ 4096 },
    ghost decoded: { ForSome row (λ r. words_of r ≡ decoded_row (bytes_in bytes)) },
}

impl Frame {
    ghost use Rattle.mm_frames.specs.Frames.{bytes_of, is_own, has_row};

    /// A page that nobody has written. It takes no memory.
    pub fn zero() -> Frame
        ensures bytes { bytes_of result ≡ replicate 4096 0 }
        ensures own { is_own result ≡ false }
        ensures row { has_row result ≡ false }
    {
        Frame {
            bytes: Bytes::Zero,
            row: None,
        }
    }

    /// A page of bytes of its own. It takes no memory.
    pub fn of_bytes(bytes: Box<[u8; 4096]>) -> Frame
        ensures bytes { bytes_of result ≡ bytes.value }
        ensures own { is_own result ≡ true }
        ensures row { has_row result ≡ false }
    {
        is_whole(&bytes);
        Frame {
            bytes: Bytes::Own(bytes),
            row: None,
        }
    }

    /// The byte at an offset, or `None` past the page's end.
    pub fn byte(&self, offset: usize) -> Option<u8>
        ensures { result ≡ slice_get (bytes_of self.now) offset }
    {
        self.bytes.array().get(offset).copied()
    }

    /// The page's bytes, in order.
    pub fn as_slice(&self) -> &[u8]
        ensures { result.now ≡ bytes_of self.now }
    {
        self.bytes.array()
    }

    /// The number of so many bytes from an offset on, the lowest first: `None` where the page doesn't reach so far,
    /// and for a width that no access has.
    #[inline(always)]
    pub fn number(&self, offset: usize, width: u8) -> Option<u64>
        ensures { SomeIff result (IsInPage offset width) (little_number_at (bytes_of self.now) offset width) }
    {
        match &self.bytes {
            Bytes::Own(own) => number_at(own, offset, width),
            Bytes::Zero => self.other_number(offset, width),
            Bytes::Shared(_) => self.other_number(offset, width),
        }
    }

    /// The same, in a function of its own: most frames that are read often are own, and a run of instructions has this
    /// in its loop.
    #[inline(never)]
    fn other_number(&self, offset: usize, width: u8) -> Option<u64>
        ensures { SomeIff result (IsInPage offset width) (little_number_at (bytes_of self.now) offset width) }
    {
        number_at(self.bytes.array(), offset, width)
    }

    /// The word of four bytes from an offset on, the lowest first, or `None` where the page doesn't reach so far.
    pub fn word(&self, offset: usize) -> Option<u32>
        ensures { SomeIff result (offset + 4 ≤ 4096) (little_number_at (bytes_of self.now) offset 4) }
    {
        if offset <= 4092 {
            Some(word_at(self.bytes.array(), offset))
        } else {
            None
        }
    }

    /// Whether the frame has its bytes for itself.
    pub fn is_own(&self) -> bool
        ensures { result ≡ is_own self.now }
    {
        matches!(self.bytes, Bytes::Own(_))
    }

    /// Whether a number is put where it is asked: the frame is own, the page reaches so far and an access is so wide.
    #[inline(always)]
    pub fn has_room(&self, offset: usize, width: u8) -> bool
        ensures { IsTrue result ↔ ((is_own self.now ≡ true) × IsInPage offset width) }
    {
        self.is_own() && is_in_page(offset, width)
    }

    /// Makes the frame's bytes its own: bytes that it shares, and zeros that nobody has written, are copied. An `Err`
    /// changes nothing, and comes only where they weren't its own.
    pub fn own(&mut self, alloc: Global) -> Result<(), Memory>
        ensures bytes { bytes_of self.new ≡ bytes_of self.old }
        ensures ok { OnOk result (is_own self.new ≡ true) }
        ensures err { OnErr result (self.new ≡ self.old) }
        ensures shared { OnErr result (is_own self.old ≡ false) }
        ensures row { has_row self.new ≡ has_row self.old }
    {
        self.bytes.own(alloc)?;
        Ok(())
    }

    /// Puts a byte at an offset. Other holders of the frame keep theirs: a frame that isn't own gets a copy first. An
    /// `Err` changes nothing, and comes only there.
    pub fn write_byte(&mut self, alloc: Global, offset: usize, value: u8) -> Result<(), Memory>
        requires { offset < 4096 }
        ensures ok { OnOk result (bytes_of self.new ≡ slice_set (bytes_of self.old) offset value) }
        ensures own { OnOk result (is_own self.new ≡ true) }
        ensures err { OnErr result (self.new ≡ self.old) }
        ensures shared { OnErr result (is_own self.old ≡ false) }
        ensures row { has_row self.new ≡ has_row self.old }
    {
        self.bytes.own(alloc)?;
        self.bytes.put_byte(offset, value);
        mend(&mut self.row, &self.bytes, offset, 1);
        Ok(())
    }

    /// Puts so many of a number's bytes from an offset on, the lowest first, in the way of `write_byte`.
    pub fn write_number(
        &mut self,
        alloc: Global,
        offset: usize,
        width: u8,
        value: u64,
    ) -> Result<(), Memory>
        requires width { IsWidth width }
        requires fits { offset + width ≤ 4096 }
        ensures ok { OnOk result (bytes_of self.new ≡ with_number (bytes_of self.old) offset width value) }
        ensures own { OnOk result (is_own self.new ≡ true) }
        ensures err { OnErr result (self.new ≡ self.old) }
        ensures shared { OnErr result (is_own self.old ≡ false) }
        ensures row { has_row self.new ≡ has_row self.old }
    {
        self.bytes.own(alloc)?;
        let _ = self.bytes.put_number(offset, width, value);
        mend(&mut self.row, &self.bytes, offset, usize::from(width));
        Ok(())
    }

    /// Puts a run of bytes from an offset on, in the way of `write_byte`.
    pub fn write_bytes(&mut self, alloc: Global, offset: usize, run: &[u8]) -> Result<(), Memory>
        requires { offset + length run.now ≤ 4096 }
        ensures ok { OnOk result (bytes_of self.new ≡ with_run (bytes_of self.old) offset run.now) }
        ensures own { OnOk result (is_own self.new ≡ true) }
        ensures err { OnErr result (self.new ≡ self.old) }
        ensures shared { OnErr result (is_own self.old ≡ false) }
        ensures row { OnOk result (has_row self.new ≡ false) }
    {
        self.bytes.own(alloc)?;
        self.bytes.put_bytes(offset, run);
        self.row = None;
        Ok(())
    }

    /// Puts so many of a number's bytes from an offset on, the lowest first, and answers whether it has: exactly where
    /// the frame is own, the page reaches so far and an access is so wide. It takes no memory.
    #[inline(always)]
    pub fn put_number(&mut self, offset: usize, width: u8, value: u64) -> bool
        ensures fits { IsTrue result ↔ ((is_own self.old ≡ true) × IsInPage offset width) }
        ensures bytes { OnTrue result (bytes_of self.new ≡ with_number (bytes_of self.old) offset width value) }
        ensures own { is_own self.new ≡ is_own self.old }
        ensures unchanged { OnFalse result (self.new ≡ self.old) }
        ensures row { has_row self.new ≡ has_row self.old }
    {
        let done = self.bytes.put_number(offset, width, value);
        if done {
            mend(&mut self.row, &self.bytes, offset, usize::from(width));
        }
        done
    }

    /// Puts a run of bytes from an offset on, and answers whether it has: exactly where the frame is own and the page
    /// reaches so far. It takes no memory, and gives up the page's decoded words.
    pub fn put_bytes(&mut self, offset: usize, run: &[u8]) -> bool
        ensures fits { IsTrue result ↔ ((is_own self.old ≡ true) × (offset + length run.now ≤ 4096)) }
        ensures bytes { OnTrue result (bytes_of self.new ≡ with_run (bytes_of self.old) offset run.now) }
        ensures own { is_own self.new ≡ is_own self.old }
        ensures unchanged { OnFalse result (self.new ≡ self.old) }
        ensures row { OnTrue result (has_row self.new ≡ false) }
    {
        if !self.is_own() || offset > 4096 || run.len() > 4096 - offset {
            return false;
        }
        self.bytes.put_bytes(offset, run);
        self.row = None;
        true
    }

    /// Makes another frame of the same bytes, which both share from then on: neither is own. An `Err` changes nothing.
    pub fn share(&mut self, alloc: Global) -> Result<Frame, Memory>
        ensures kept { bytes_of self.new ≡ bytes_of self.old }
        ensures bytes { IfOk result (λ other. bytes_of other ≡ bytes_of self.old) }
        ensures own { IfOk result (λ other. is_own other ≡ false) }
        ensures lost { OnOk result (is_own self.new ≡ false) }
        ensures err { OnErr result (self.new ≡ self.old) }
        ensures row { has_row self.new ≡ has_row self.old }
        ensures none { IfOk result (λ other. has_row other ≡ false) }
    {
        let bytes = self.bytes.share(alloc)?;
        Ok(Frame { bytes, row: None })
    }

    /// Decodes the page's words, where that hasn't been done, and answers whether they are there decoded. They aren't
    /// where memory was wanting.
    pub fn decode(&mut self, alloc: Global) -> bool
        ensures row { result ≡ has_row self.new }
        ensures kept { IsTrue (has_row self.old) → IsTrue result }
        ensures bytes { self.new.bytes ≡ self.old.bytes }
    {
        if self.row.is_none() {
            self.row = Row::of(alloc, self.bytes.array()).ok();
        }
        self.row.is_some()
    }

    /// The page's words, decoded, where they are there.
    pub fn row(&self) -> Option<&[Instr]>
        ensures there { is_some result ≡ has_row self.now }
        ensures words { IfSome result (λ words. words.now ≡ decoded_row (bytes_of self.now)) }
    {
        match &self.row {
            Some(row) => Some(row.as_slice()),
            None => None,
        }
    }

    /// Takes the page's decoded words out, where they are there, so that they can be read while the frame is written
    /// to.
    pub fn take_row(&mut self) -> Option<Row>
        ensures there { is_some result ≡ has_row self.old }
        ensures words { IfSome result (λ r. words_of r ≡ decoded_row (bytes_of self.old)) }
        ensures row { has_row self.new ≡ false }
        ensures bytes { self.new.bytes ≡ self.old.bytes }
    {
        self.row.take()
    }

    /// Puts back decoded words, which are those of the page's bytes.
    pub fn put_row(&mut self, row: Row)
        requires { words_of row ≡ decoded_row (bytes_of self.old) }
        ensures row { has_row self.new ≡ true }
        ensures bytes { self.new.bytes ≡ self.old.bytes }
    {
        self.row = Some(row);
    }

    /// Gives up the page's decoded words, and the memory that they take.
    pub fn drop_row(&mut self)
        ensures row { has_row self.new ≡ false }
        ensures bytes { self.new.bytes ≡ self.old.bytes }
    {
        self.row = None;
    }
}

/// Decodes anew the words in which so many bytes from an offset on lie, which have changed.
fn mend(row: &mut Option<Row>, bytes: &Bytes, offset: usize, count: usize)
    requires fits { offset + count ≤ 4096 }
    requires others { ForSome row.old (λ r. AreRowOutside (words_of r) (bytes_in bytes.now) offset count) }
    ensures decoded { ForSome row.new (λ r. words_of r ≡ decoded_row (bytes_in bytes.now)) }
    ensures kept { is_some row.new ≡ is_some row.old }
{
    if let Some(row) = row {
        row.mend(bytes.array(), offset, count);
    }
}
