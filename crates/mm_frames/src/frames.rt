//! The frames of pages one behind another, as a shared area has them.

ghost use Rattle.std.specs.Prelude.{◌≡◌, ◌+◌, ◌<◌, ◌≤◌, ◌↔◌, [], IsTrue, true, false, length, SomeIff, IfOk, OnOk};
ghost use Rattle.std.specs.Prelude.{OnErr, slice_get, slice_set, replicate};
ghost use Rattle.std.specs.Bool.{OnTrue, OnFalse};
ghost use Rattle.std.specs.Option.{option_copied};
ghost use Rattle.rv_table.specs.Words.{IsWidth};
ghost use Rattle.mm_frames.specs.Numbers.{IsInPage, little_number_at, with_number, with_run};

use crate::Frame;
use sn_base::Memory;
use std::alloc::Global;

/// Frames, one for each of so many pages.
#[derive(Drop)]
pub struct Frames {
    frames: Vec<Frame>,
}

impl Frames {
    ghost use Rattle.mm_frames.specs.Frames.{bytes_of, is_own, bytes_of_frames, owned_of, page_at, byte_of_pages, with_page_changed};

    /// So many pages that nobody has written.
    #[tactic(auto, using(crate::proofs::Pages::alike_more))]
    pub fn zeros(alloc: Global, count: usize) -> Result<Frames, Memory>
        ensures pages { IfOk result (λ frames. bytes_of_frames frames ≡ replicate count (replicate 4096 0)) }
        ensures owned { IfOk result (λ frames. owned_of frames ≡ replicate count false) }
    {
        let mut frames = Vec::with_capacity(alloc, count)?;
        for k in 0..count {
            frames.push(Frame::zero())?;
        }
        Ok(Frames { frames })
    }

    /// How many pages there are.
    pub fn len(&self) -> usize
        ensures { result ≡ length (bytes_of_frames self.now) }
    {
        self.frames.len()
    }

    /// Whether there are no pages.
    pub fn is_empty(&self) -> bool
        ensures { IsTrue result ↔ (bytes_of_frames self.now ≡ []) }
    {
        self.frames.is_empty()
    }

    /// The byte at an offset of a page, or `None` past the page's end and past the last page.
    pub fn byte(&self, page: usize, offset: usize) -> Option<u8>
        ensures { result ≡ byte_of_pages (bytes_of_frames self.now) page offset }
    {
        self.frames.get(page)?.byte(offset)
    }

    /// The number of so many bytes from an offset of a page on, the lowest first: `None` where the page doesn't reach
    /// so far, past the last page, and for a width that no access has.
    pub fn number(&self, page: usize, offset: usize, width: u8) -> Option<u64>
        ensures { SomeIff result
            ((page < length (bytes_of_frames self.now)) × IsInPage offset width)
            (little_number_at (page_at (bytes_of_frames self.now) page) offset width) }
    {
        self.frames.get(page)?.number(offset, width)
    }

    /// A page's bytes, in order, or `None` past the last page.
    pub fn as_slice(&self, page: usize) -> Option<&[u8]>
        ensures { option_copied result ≡ slice_get (bytes_of_frames self.now) page }
    {
        Some(self.frames.get(page)?.as_slice())
    }

    /// Makes a page's bytes its own: bytes that it shares, and zeros that nobody has written, are copied. An `Err`
    /// changes nothing, and comes only where they weren't its own.
    pub fn own(&mut self, alloc: Global, page: usize) -> Result<(), Memory>
        requires { page < length (bytes_of_frames self.old) }
        ensures pages { bytes_of_frames self.new ≡ bytes_of_frames self.old }
        ensures owned { OnOk result (owned_of self.new ≡ slice_set (owned_of self.old) page true) }
        ensures kept { OnErr result (owned_of self.new ≡ owned_of self.old) }
        ensures shared { OnErr result (slice_get (owned_of self.old) page ≡ Some false) }
    {
        self.frames[page].own(alloc)
    }

    /// Puts so many of a number's bytes from an offset of a page on, the lowest first, and answers whether it has:
    /// exactly where there is the page, its bytes are its own, it reaches so far and an access is so wide. It takes no
    /// memory.
    pub fn put_number(&mut self, page: usize, offset: usize, width: u8, value: u64) -> bool
        ensures fits { IsTrue result ↔ ((slice_get (owned_of self.old) page ≡ Some true) × IsInPage offset width) }
        ensures bytes { OnTrue result
            (bytes_of_frames self.new
            ≡ with_page_changed (bytes_of_frames self.old) page (λ bytes. with_number bytes offset width value)) }
        ensures unchanged { OnFalse result (bytes_of_frames self.new ≡ bytes_of_frames self.old) }
        ensures owned { owned_of self.new ≡ owned_of self.old }
    {
        match self.frames.get_mut(page) {
            Some(frame) => frame.put_number(offset, width, value),
            None => false,
        }
    }

    /// Puts a run of bytes from an offset of a page on, and answers whether it has: exactly where there is the page,
    /// its bytes are its own and it reaches so far. It takes no memory.
    pub fn put_bytes(&mut self, page: usize, offset: usize, run: &[u8]) -> bool
        ensures fits { IsTrue result ↔
            ((slice_get (owned_of self.old) page ≡ Some true) × (offset + length run.now ≤ 4096)) }
        ensures bytes { OnTrue result
            (bytes_of_frames self.new
            ≡ with_page_changed (bytes_of_frames self.old) page (λ bytes. with_run bytes offset run.now)) }
        ensures unchanged { OnFalse result (bytes_of_frames self.new ≡ bytes_of_frames self.old) }
        ensures owned { owned_of self.new ≡ owned_of self.old }
    {
        match self.frames.get_mut(page) {
            Some(frame) => frame.put_bytes(offset, run),
            None => false,
        }
    }

    /// Puts a byte at an offset of a page. Other pages stay as they were, and so do other holders of the frame. An
    /// `Err` changes nothing, and comes only where the frame wasn't own.
    pub fn write_byte(
        &mut self,
        alloc: Global,
        page: usize,
        offset: usize,
        value: u8,
    ) -> Result<(), Memory>
        requires page { page < length (bytes_of_frames self.old) }
        requires offset { offset < 4096 }
        ensures ok { OnOk result
            (bytes_of_frames self.new
            ≡ with_page_changed (bytes_of_frames self.old) page (λ bytes. slice_set bytes offset value)) }
        ensures owned { OnOk result (owned_of self.new ≡ slice_set (owned_of self.old) page true) }
        ensures err { OnErr result (bytes_of_frames self.new ≡ bytes_of_frames self.old) }
        ensures kept { OnErr result (owned_of self.new ≡ owned_of self.old) }
        ensures shared { OnErr result (slice_get (owned_of self.old) page ≡ Some false) }
    {
        self.frames[page].write_byte(alloc, offset, value)
    }

    /// Puts so many of a number's bytes from an offset of a page on, the lowest first, in the way of `write_byte`.
    pub fn write_number(
        &mut self,
        alloc: Global,
        page: usize,
        offset: usize,
        width: u8,
        value: u64,
    ) -> Result<(), Memory>
        requires page { page < length (bytes_of_frames self.old) }
        requires width { IsWidth width }
        requires fits { offset + width ≤ 4096 }
        ensures ok { OnOk result
            (bytes_of_frames self.new
            ≡ with_page_changed (bytes_of_frames self.old) page (λ bytes. with_number bytes offset width value)) }
        ensures owned { OnOk result (owned_of self.new ≡ slice_set (owned_of self.old) page true) }
        ensures err { OnErr result (bytes_of_frames self.new ≡ bytes_of_frames self.old) }
        ensures kept { OnErr result (owned_of self.new ≡ owned_of self.old) }
        ensures shared { OnErr result (slice_get (owned_of self.old) page ≡ Some false) }
    {
        self.frames[page].write_number(alloc, offset, width, value)
    }

    /// Puts a run of bytes from an offset of a page on, in the way of `write_byte`.
    pub fn write_bytes(
        &mut self,
        alloc: Global,
        page: usize,
        offset: usize,
        run: &[u8],
    ) -> Result<(), Memory>
        requires page { page < length (bytes_of_frames self.old) }
        requires fits { offset + length run.now ≤ 4096 }
        ensures ok { OnOk result
            (bytes_of_frames self.new
            ≡ with_page_changed (bytes_of_frames self.old) page (λ bytes. with_run bytes offset run.now)) }
        ensures owned { OnOk result (owned_of self.new ≡ slice_set (owned_of self.old) page true) }
        ensures err { OnErr result (bytes_of_frames self.new ≡ bytes_of_frames self.old) }
        ensures kept { OnErr result (owned_of self.new ≡ owned_of self.old) }
        ensures shared { OnErr result (slice_get (owned_of self.old) page ≡ Some false) }
    {
        self.frames[page].write_bytes(alloc, offset, run)
    }

    /// Makes another frame of a page's bytes, which both share from then on. An `Err` changes nothing.
    pub fn share_page(&mut self, alloc: Global, page: usize) -> Result<Frame, Memory>
        requires { page < length (bytes_of_frames self.old) }
        ensures kept { bytes_of_frames self.new ≡ bytes_of_frames self.old }
        ensures bytes { IfOk result (λ other. bytes_of other ≡ page_at (bytes_of_frames self.old) page) }
        ensures own { IfOk result (λ other. is_own other ≡ false) }
        ensures owned { OnOk result (owned_of self.new ≡ slice_set (owned_of self.old) page false) }
        ensures err { OnErr result (owned_of self.new ≡ owned_of self.old) }
    {
        self.frames[page].share(alloc)
    }

    /// Makes other frames of the same bytes, which both share from then on. An `Err` changes no byte.
    #[rattlefmt::skip]
    #[tactic(auto, using(crate::proofs::Pages::alike_more, crate::proofs::Pages::copied_more,
        crate::proofs::Pages::lost_more))]
    pub fn share(&mut self, alloc: Global) -> Result<Frames, Memory>
        ensures kept { bytes_of_frames self.new ≡ bytes_of_frames self.old }
        ensures pages { IfOk result (λ others. bytes_of_frames others ≡ bytes_of_frames self.old) }
        ensures owned { IfOk result (λ others. owned_of others ≡ replicate (length (bytes_of_frames self.old)) false) }
        ensures lost { OnOk result (owned_of self.new ≡ replicate (length (bytes_of_frames self.old)) false) }
    {
        let count = self.frames.len();
        let mut others = Vec::with_capacity(alloc, count)?;
        for page in 0..count {
            others.push(self.share_page(alloc, page)?)?;
        }
        Ok(Frames { frames: others })
    }
}
