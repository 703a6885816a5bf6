//! What a guest is opened with, a line each, before all else of a block:
//!
//! - `word HEX ..` is the next word of the guest's code, with what an assembler calls it behind; `file HEX ..` are the
//!   next bytes of its file, where that is no image of words;
//! - `init nothing|link|shut|empty` is what stands in its place;
//! - `mounts NAME ..` are the mounts in their order, `/` among them, which has the guest; `roots COUNT` of the record;
//! - `seed HEX ..` is the seed;
//! - `task ARGUMENT` is the next task, and `strings N LENGTH N LENGTH` one with so many arguments and strings of its
//!   environment; `env LENGTH` is a string of the last one's environment; `draws DIRECTORY NAME NUMBER` and `rise
//!   COUNT` are what its opening drew and met. Where no line says a task, it is `/init`, which draws the number 2.

use crate::numbers::value;
use kernel_model::{Fresh, Given, OpenedTask, Rise};
use mount_file::Program;
use read_cases::{Bad, add_bytes, parted};
use sn_base::{List, Memory};
use sn_text::{Text, name_of};
use std::alloc::Global;

/// What stands under `init` in the granted folder.
#[derive(Clone, Copy, Debug, PartialEq, Eq)]
pub enum Stands {
    File,
    Shut,
    Empty,
    Link,
    Nothing,
}

/// What a guest is opened with.
pub struct Setup {
    pub stands: Stands,
    pub words: Vec<u32>,
    pub file: Vec<u8>,
    pub seed: Vec<u8>,
    pub mounts: Vec<u8>,
    pub roots: Option<u64>,
    pub programs: List<Program>,
    pub opened: List<OpenedTask>,
}

/// Lets all of it go by one call.
impl Drop for Setup {
    fn drop(self) {
        let Setup {
            stands: _,
            words: _,
            file: _,
            seed: _,
            mounts: _,
            roots: _,
            programs: _,
            opened: _,
        } = self;
    }
}

/// So many strings, each of so many letters.
fn letters(alloc: Global, count: u64, length: u64) -> Result<List<Text>, Bad> {
    let mut string = Vec::new(alloc);
    for _ in 0..length {
        string.push(b'a')?;
    }
    let mut strings = List::new(alloc);
    for _ in 0..count {
        strings.push(Text::from_slice(alloc, string.as_slice())?)?;
    }
    Ok(strings)
}

/// One string.
fn one_of(alloc: Global, string: &str) -> Result<List<Text>, Memory> {
    let mut strings = List::new(alloc);
    strings.push(Text::from_slice(alloc, string.as_bytes())?)?;
    Ok(strings)
}

/// Adds what the opening of the last task drew.
fn add_fresh(given: &mut Given, alloc: Global, text: &str) -> Result<bool, Bad> {
    let (dir, rest) = parted(text);
    let (name, ino) = parted(rest);
    let (Some(dir), Some(ino)) = (value(dir, 0), value(ino, 0)) else {
        return Ok(false);
    };
    let name = name_of(alloc, name.as_bytes()).map_err(|_| Bad::Setup)?;
    given.fresh.push(Fresh { dir, name, ino })?;
    Ok(true)
}

/// Adds what it met.
fn add_rise(given: &mut Given, text: &str) -> Result<bool, Bad> {
    match value(text, 0) {
        Some(count) => {
            given.rises.push(Rise { ino: 1, count })?;
            Ok(true)
        }
        None => Ok(false),
    }
}

/// The four numbers of a line of strings.
fn four(text: &str) -> Option<[u64; 4]> {
    let mut numbers = [0; 4];
    for (index, word) in text.split(' ').enumerate() {
        *numbers.get_mut(index)? = value(word, 0)?;
    }
    Some(numbers)
}

impl Setup {
    pub fn new(alloc: Global) -> Setup {
        Setup {
            stands: Stands::File,
            words: Vec::new(alloc),
            file: Vec::new(alloc),
            seed: Vec::new(alloc),
            mounts: Vec::new(alloc),
            roots: None,
            programs: List::new(alloc),
            opened: List::new(alloc),
        }
    }

    /// Adds a task with these strings.
    pub fn add_task(
        &mut self,
        alloc: Global,
        args: List<Text>,
        words: List<Text>,
        env: List<Text>,
    ) -> Result<(), Bad> {
        let name = name_of(alloc, b"init").map_err(|_| Bad::Setup)?;
        self.programs.push(Program { name, args, env })?;
        self.opened.push(OpenedTask {
            words,
            given: Given {
                fresh: List::new(alloc),
                rises: List::new(alloc),
            },
        })?;
        Ok(())
    }

    /// Adds a task with one argument.
    pub fn add_one(&mut self, alloc: Global, argument: &str) -> Result<bool, Bad> {
        let args = one_of(alloc, argument)?;
        let words = one_of(alloc, argument)?;
        self.add_task(alloc, args, words, List::new(alloc))?;
        Ok(true)
    }

    /// Adds a task with so many strings.
    fn add_many(&mut self, alloc: Global, text: &str) -> Result<bool, Bad> {
        let Some(numbers) = four(text) else {
            return Ok(false);
        };
        let [count, length, others, long] = numbers;
        let args = letters(alloc, count, length)?;
        let words = letters(alloc, count, length)?;
        self.add_task(alloc, args, words, letters(alloc, others, long)?)?;
        Ok(true)
    }

    /// Adds a string to the environment of the last task.
    fn add_string(&mut self, alloc: Global, text: &str) -> Result<bool, Bad> {
        let (Some(length), Some(mut program)) = (value(text, 0), self.programs.pop()) else {
            return Ok(false);
        };
        program.env = letters(alloc, 1, length)?;
        self.programs.push(program)?;
        Ok(true)
    }

    /// Adds to what the opening of the last task drew or met.
    fn add_given(&mut self, alloc: Global, verb: &str, text: &str) -> Result<bool, Bad> {
        let Some(mut opened) = self.opened.pop() else {
            return Ok(false);
        };
        let is_added = if verb == "draws" {
            add_fresh(&mut opened.given, alloc, text)?
        } else {
            add_rise(&mut opened.given, text)?
        };
        self.opened.push(opened)?;
        Ok(is_added)
    }

    /// Adds a word.
    fn add_word(&mut self, text: &str) -> Result<bool, Bad> {
        match u32::from_str_radix(parted(text).0, 16) {
            Ok(word) => {
                self.words.push(word)?;
                Ok(true)
            }
            Err(_) => Ok(false),
        }
    }

    fn set_stands(&mut self, text: &str) -> bool {
        self.stands = match text {
            "nothing" => Stands::Nothing,
            "link" => Stands::Link,
            "shut" => Stands::Shut,
            "empty" => Stands::Empty,
            _ => return false,
        };
        true
    }

    fn set_roots(&mut self, text: &str) -> bool {
        self.roots = value(text, 0);
        self.roots.is_some()
    }

    /// Takes a line; whether it is one of these.
    pub fn set(&mut self, alloc: Global, verb: &str, rest: &str) -> Result<bool, Bad> {
        match verb {
            "word" => self.add_word(rest),
            "file" => add_bytes(&mut self.file, rest),
            "init" => Ok(self.set_stands(rest)),
            "mounts" => {
                self.mounts.extend_from_slice(rest.as_bytes())?;
                Ok(true)
            }
            "roots" => Ok(self.set_roots(rest)),
            "seed" => add_bytes(&mut self.seed, rest),
            "task" => self.add_one(alloc, rest),
            "strings" => self.add_many(alloc, rest),
            "env" => self.add_string(alloc, rest),
            "draws" | "rise" => self.add_given(alloc, verb, rest),
            _ => Ok(false),
        }
    }
}
