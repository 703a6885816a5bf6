//! What a block of lines works on.

use crate::hands::Hands;
use crate::programs::Program;
use crate::words::Words;
use mm_areas::Areas;
use mm_frames::Frame;
use mm_space::{SharedArea, Space};
use read_cases::{Bad, number};
use rv_table::Regs;
use std::alloc::Global;

/// How many address spaces there are.
const SPACES: usize = 3;

/// The things of a block, each kind by its numbers, and the run of bytes that a line has.
pub struct Block {
    pub alloc: Global,
    pub frames: Vec<Frame>,
    pub pages: Vec<SharedArea>,
    pub areas: Vec<Areas>,
    pub spaces: Vec<Space>,
    pub hands: Hands,
    pub regs: Regs,
    pub program: Program,
    pub run: Vec<u8>,
}

impl Drop for Block {
    fn drop(self) {
        let Block {
            alloc: _,
            frames: _,
            pages: _,
            areas: _,
            spaces: _,
            hands: _,
            regs: _,
            program: _,
            run: _,
        } = self;
    }
}

/// To what a line speaks.
#[derive(Clone, Copy)]
enum Kind {
    Frame,
    Pages,
    Areas,
    Space,
}

/// The kind and the number that a word names: `frame`, which is `frame.0`, or `frame.1`.
fn named(word: &str) -> Option<(Kind, usize)> {
    let (name, digits) = word.split_once('.').unwrap_or((word, "0"));
    let number = number(digits)? as usize;
    let kind = match name {
        "frame" => Kind::Frame,
        "pages" => Kind::Pages,
        "areas" => Kind::Areas,
        "space" => Kind::Space,
        _ => return None,
    };
    Some((kind, number))
}

/// A space where nothing is mapped.
pub fn empty_space(alloc: Global) -> Space {
    Space::of(alloc, Areas::new(alloc, 4096))
}

impl Block {
    /// One without anything.
    pub fn new(alloc: Global) -> Block {
        Block {
            alloc,
            frames: Vec::new(alloc),
            pages: Vec::new(alloc),
            areas: Vec::new(alloc),
            spaces: Vec::new(alloc),
            hands: Hands::none(alloc),
            regs: Regs { pc: 0, x: [0; 32] },
            program: Program::new(alloc),
            run: Vec::new(alloc),
        }
    }

    /// Begins anew: with a frame that nobody has written, an area without pages, and areas and spaces where nothing is
    /// mapped.
    pub fn begin(&mut self) -> Result<(), Bad> {
        *self = Block::new(self.alloc);
        self.fill()
    }

    fn fill(&mut self) -> Result<(), Bad> {
        self.frames.push(Frame::zero())?;
        self.pages.push(SharedArea::zeros(self.alloc, 0)?)?;
        self.areas.push(Areas::new(self.alloc, 4096))?;
        for _ in 0..SPACES {
            self.spaces.push(empty_space(self.alloc))?;
        }
        Ok(())
    }

    /// Does a case, where it is one, and adds what it came to. A line that names nothing speaks to the first space.
    fn do_words(&mut self, case: &str, came: &mut String) -> Result<bool, Bad> {
        let mut words = Words::of(case);
        let named = match words.word() {
            Some(word) => named(word),
            None => return Ok(false),
        };
        match named {
            Some((Kind::Frame, number)) => self.speak_to_frame(number, &mut words, came),
            Some((Kind::Pages, number)) => self.speak_to_pages(number, &mut words, came),
            Some((Kind::Areas, number)) => self.speak_to_areas(number, &mut words, came),
            Some((Kind::Space, number)) => self.speak_to_space(number, &mut words, came),
            None => self.speak_to_space(0, &mut Words::of(case), came),
        }
    }

    /// Does a case, and adds what it came to: `unread` where it is none.
    pub fn do_case(&mut self, case: &str, came: &mut String) -> Result<(), Bad> {
        if !self.do_words(case, came)? {
            came.push_str("unread")?;
        }
        Ok(())
    }
}
