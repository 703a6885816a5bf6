//! The verbs of a program: its file, its strings, its loading, and its opening stack.

use crate::answers::{Answer, OK, of_number, tell, tell_bytes};
use crate::words::Words;
use bitflags::Flags;
use elf_image::{Image, SegmentRights, read_image};
use image_load::{
    Auxiliary, LoadErr, Loaded, OpeningStack, ProgramInput, joined, load, opening_stack,
    page_rights,
};
use mm_areas::Rights;
use mm_space::Space;
use read_cases::Bad;
use rv_table::Regs;
use sn_base::List;
use sn_bytes::u64_at;
use sn_text::Text;
use std::alloc::Global;

/// What a program finds by `AT_RANDOM`.
const RANDOM: [u8; 16] = [1, 2, 3, 4, 5, 6, 7, 8, 9, 10, 11, 12, 13, 14, 15, 16];

/// What a program is made of, and the opening stack that was made last.
pub struct Program {
    pub file: Vec<u8>,
    pub args: List<Text>,
    pub env: List<Text>,
    pub stack: OpeningStack,
}

impl Drop for Program {
    fn drop(self) {
        let Program {
            file: _,
            args: _,
            env: _,
            stack: _,
        } = self;
    }
}

/// Adds a string.
fn add(alloc: Global, strings: &mut List<Text>, text: &str) -> Result<(), Bad> {
    strings.push(Text::from_slice(alloc, text.as_bytes())?)?;
    Ok(())
}

/// A string of so many letters.
fn letters(alloc: Global, length: u64) -> Result<Text, Bad> {
    let mut text = Text::new(alloc);
    extend(&mut text, length)?;
    Ok(text)
}

fn extend(text: &mut Text, length: u64) -> Result<(), Bad> {
    for _ in 0..length {
        text.extend(b"x")?;
    }
    Ok(())
}

/// Adds so many strings, each of so many letters.
fn add_each(alloc: Global, strings: &mut List<Text>, words: &mut Words<'_>) -> Result<bool, Bad> {
    let (Some(count), Some(length)) = (words.number(), words.number()) else {
        return Ok(false);
    };
    for _ in 0..count {
        strings.push(letters(alloc, length)?)?;
    }
    Ok(true)
}

/// Rights of an image's pages, by their letters.
fn image_rights(words: &mut Words<'_>) -> Option<SegmentRights> {
    let rights = words.rights()?;
    Some(SegmentRights {
        read: rights.allows(Rights::READ),
        write: rights.allows(Rights::WRITE),
        execute: rights.allows(Rights::EXECUTE),
    })
}

/// The rights of a page of two segments.
fn joined_rights(words: &mut Words<'_>) -> Option<Answer> {
    let both = joined(image_rights(words)?, image_rights(words)?);
    Some(Answer::May(Rights::of(both.read, both.write, both.execute)))
}

/// Does a verb of rights, where it is one.
fn do_rights(verb: &str, words: &mut Words<'_>) -> Option<Answer> {
    match verb {
        "page_rights" => Some(Answer::May(page_rights(image_rights(words)?))),
        "joined" => joined_rights(words),
        "bits" => Some(Answer::Count(u64::from(words.rights()?.bits()))),
        "allows" => {
            let rights = words.rights()?;
            Some(Answer::Truth(rights.allows(words.rights()?)))
        }
        _ => None,
    }
}

fn of_load_fault(fault: LoadErr) -> Answer {
    match fault {
        LoadErr::TooBig => Answer::Word("too_big"),
        LoadErr::Limit => Answer::Word("limit"),
        LoadErr::Memory => Answer::Word("memory"),
    }
}

impl Program {
    /// One without a file, and without strings.
    pub fn new(alloc: Global) -> Program {
        Program {
            file: Vec::new(alloc),
            args: List::new(alloc),
            env: List::new(alloc),
            stack: OpeningStack {
                sp: 0,
                bytes: List::new(alloc),
            },
        }
    }

    /// Adds the header of a file that is entered at an address and has so many program headers.
    fn add_header(&mut self, words: &mut Words<'_>) -> Result<bool, Bad> {
        let (Some(entry), Some(count)) = (words.number(), words.byte()) else {
            return Ok(false);
        };
        let file = &mut self.file;
        file.extend_from_slice(&[0x7f, 0x45, 0x4c, 0x46, 2, 1, 1, 0, 0, 0, 0, 0, 0, 0, 0, 0])?;
        file.extend_from_slice(&[2, 0, 243, 0, 1, 0, 0, 0])?;
        file.extend_from_slice(&entry.to_le_bytes())?;
        file.extend_from_slice(&[64, 0, 0, 0, 0, 0, 0, 0, 0, 0, 0, 0, 0, 0, 0, 0])?;
        file.extend_from_slice(&[0, 0, 0, 0, 64, 0, 56, 0, count, 0, 0, 0, 0, 0, 0, 0])?;
        Ok(true)
    }

    /// Adds the program header of a loadable segment: its rights, where its part of the file begins, its address, and
    /// how many bytes it has of the file and of memory.
    fn add_segment(&mut self, words: &mut Words<'_>) -> Result<bool, Bad> {
        let Some(rights) = image_rights(words) else {
            return Ok(false);
        };
        let flags = u8::from(rights.execute)
            + 2 * u8::from(rights.write)
            + 4 * u8::from(rights.read);
        self.file.extend_from_slice(&[1, 0, 0, 0, flags, 0, 0, 0])?;
        self.add_sizes(words)
    }

    fn add_sizes(&mut self, words: &mut Words<'_>) -> Result<bool, Bad> {
        let (Some(offset), Some(address)) = (words.number(), words.number()) else {
            return Ok(false);
        };
        let (Some(in_file), Some(in_memory)) = (words.number(), words.number()) else {
            return Ok(false);
        };
        for number in [offset, address, address, in_file, in_memory, 4096] {
            self.file.extend_from_slice(&number.to_le_bytes())?;
        }
        Ok(true)
    }

    /// Adds bytes up to so many, each its offset modulo 251.
    fn add_rest(&mut self, words: &mut Words<'_>) -> Result<bool, Bad> {
        let Some(length) = words.count() else {
            return Ok(false);
        };
        for offset in self.file.len()..length {
            self.file.push((offset % 251) as u8)?;
        }
        Ok(true)
    }

    /// Does a verb that adds to a program, where it is one.
    #[rattlefmt::skip]
    fn do_part(&mut self, alloc: Global, verb: &str, words: &mut Words<'_>) -> Result<bool, Bad> {
        match verb {
            "file_header" => self.add_header(words),
            "segment" => self.add_segment(words),
            "rest" => self.add_rest(words),
            "arg" => { add(alloc, &mut self.args, words.left)?; Ok(true) }
            "env" => { add(alloc, &mut self.env, words.left)?; Ok(true) }
            "args" => add_each(alloc, &mut self.args, words),
            "envs" => add_each(alloc, &mut self.env, words),
            _ => Ok(false),
        }
    }

    /// Loads an image with the strings.
    fn load_image(&self, alloc: Global, image: &Image) -> Result<Loaded, LoadErr> {
        let program = ProgramInput {
            args: self.args.as_slice(),
            env: self.env.as_slice(),
            random: RANDOM,
        };
        load(alloc, image, &program)
    }

    /// Loads the program: its space and its registers take the place of others.
    fn load(&self, alloc: Global, space: &mut Space, regs: &mut Regs) -> Answer {
        let Ok(image) = read_image(alloc, &self.file) else {
            return Answer::Word("no_image");
        };
        match self.load_image(alloc, &image) {
            Ok(loaded) => {
                *space = loaded.space;
                *regs = loaded.registers;
                OK
            }
            Err(fault) => of_load_fault(fault),
        }
    }

    /// Makes the opening stack of the strings, and of where the headers stand, how many there are, and the entry.
    fn open_stack(
        &mut self,
        alloc: Global,
        words: &mut Words<'_>,
        came: &mut String,
    ) -> Result<bool, Bad> {
        let (Some(headers), Some(header_count), Some(entry)) = (
            words.number(),
            words.number(),
            words.number(),
        ) else {
            return Ok(false);
        };
        let program = ProgramInput {
            args: self.args.as_slice(),
            env: self.env.as_slice(),
            random: RANDOM,
        };
        let auxiliary = Auxiliary {
            headers,
            header_count,
            entry,
        };
        match opening_stack(alloc, &program, &auxiliary) {
            Ok(stack) => self.stack = stack,
            Err(fault) => {
                tell(came, of_load_fault(fault))?;
                return Ok(true);
            }
        }
        write!(
            came,
            "sp={:#x} bytes={}",
            self.stack.sp,
            self.stack.bytes.len()
        )?;
        Ok(true)
    }

    /// Tells so many words of the stack from one of them on.
    fn tell_words(&self, words: &mut Words<'_>, came: &mut String) -> Result<bool, Bad> {
        let (Some(first), Some(count)) = (words.count(), words.count()) else {
            return Ok(false);
        };
        for index in first..first.saturating_add(count) {
            let word = u64_at(self.stack.bytes.as_slice(), index.saturating_mul(8));
            tell(came, of_number(word))?;
        }
        Ok(true)
    }

    /// Tells the bytes of the stack from one of them on.
    fn tell_tail(&self, words: &mut Words<'_>, came: &mut String) -> Result<bool, Bad> {
        let Some(first) = words.count() else {
            return Ok(false);
        };
        match self.stack.bytes.as_slice().get(first..) {
            Some(tail) => tell_bytes(came, tail)?,
            None => tell(came, Answer::Word("none"))?,
        }
        Ok(true)
    }

    /// Does a verb of the program, where it is one.
    pub fn do_program(
        &mut self,
        alloc: Global,
        space: &mut Space,
        regs: &mut Regs,
        verb: &str,
        words: &mut Words<'_>,
        came: &mut String,
    ) -> Result<bool, Bad> {
        match verb {
            "load_program" => tell(came, self.load(alloc, space, regs))?,
            "opening_stack" => return self.open_stack(alloc, words, came),
            "stack_words" => return self.tell_words(words, came),
            "stack_bytes" => return self.tell_tail(words, came),
            "page_rights" | "joined" | "allows" | "bits" => match do_rights(verb, words) {
                Some(answer) => tell(came, answer)?,
                None => return Ok(false),
            },
            _ => return self.do_part(alloc, verb, words),
        }
        Ok(true)
    }
}
