//! What a run goes over, by lines.

use crate::folder::Root;
use crate::mounts::MountFile;
use host_memory::Op;
use read_cases::{Bad, number, parted};
use std::alloc::Global;

/// Whose call is to fail.
#[derive(Clone, Copy, PartialEq, Eq)]
pub enum Whose {
    Nobody,
    Grants,
    Source,
    Sink,
    Node,
}

/// The call of that number that is to fail, counted from 1: of whom, and where that is a node, its name and the method.
pub struct Failing {
    pub whose: Whose,
    pub name: String,
    pub op: Op,
    pub call: u64,
}

/// Lets all of it go by one call.
impl Drop for Failing {
    fn drop(self) {
        let Failing {
            whose: _,
            name: _,
            op: _,
            call: _,
        } = self;
    }
}

/// What a run goes over: its words, its mount file, the folder that it is granted, whether its sink takes sixteen bytes
/// at a time, and what is to fail.
pub struct Setup {
    pub words: Vec<String>,
    pub mounts: MountFile,
    pub root: Root,
    pub is_narrow: bool,
    pub failing: Failing,
}

/// Lets all of it go by one call.
impl Drop for Setup {
    fn drop(self) {
        let Setup {
            words: _,
            mounts: _,
            root: _,
            is_narrow: _,
            failing: _,
        } = self;
    }
}

fn op_of(word: &str) -> Option<Op> {
    match word {
        "stat" => Some(Op::Stat),
        "list" => Some(Op::List),
        "lend" => Some(Op::Lend),
        "open" => Some(Op::Open),
        "read_at" => Some(Op::ReadAt),
        _ => None,
    }
}

/// The words of a line.
pub fn words_of(alloc: Global, line: &str) -> Result<Vec<String>, Bad> {
    let mut words = Vec::new(alloc);
    for word in line.split_whitespace() {
        words.push(String::from_str(alloc, word)?)?;
    }
    Ok(words)
}

impl Failing {
    fn new(alloc: Global) -> Failing {
        Failing {
            whose: Whose::Nobody,
            name: String::new(alloc),
            op: Op::Stat,
            call: 0,
        }
    }

    /// Does what stands behind `fail`: `grant N`, `source N`, `sink N`, or `NAME METHOD N` of a node, or of `root`.
    fn set(&mut self, text: &str) -> Result<bool, Bad> {
        let (whose, rest) = parted(text);
        match whose {
            "grant" => Ok(self.set_call(Whose::Grants, rest)),
            "source" => Ok(self.set_call(Whose::Source, rest)),
            "sink" => Ok(self.set_call(Whose::Sink, rest)),
            _ => self.set_node(whose, rest),
        }
    }

    fn set_call(&mut self, whose: Whose, text: &str) -> bool {
        let Some(call) = number(text) else {
            return false;
        };
        self.whose = whose;
        self.call = call;
        true
    }

    fn set_node(&mut self, name: &str, text: &str) -> Result<bool, Bad> {
        let (method, call) = parted(text);
        let Some(op) = op_of(method) else {
            return Ok(false);
        };
        self.name.clear();
        self.name.push_str(name)?;
        self.op = op;
        Ok(self.set_call(Whose::Node, call))
    }
}

impl Setup {
    /// A run with its trace of an empty folder.
    pub fn new(alloc: Global) -> Result<Setup, Bad> {
        Ok(Setup {
            words: words_of(alloc, "run m --trace")?,
            mounts: MountFile::new(alloc)?,
            root: Root::new(alloc),
            is_narrow: false,
            failing: Failing::new(alloc),
        })
    }

    /// Another run over the same folder: all else is as in a new one.
    pub fn begin_again(&mut self, alloc: Global) -> Result<(), Bad> {
        self.words = words_of(alloc, "run m --trace")?;
        self.mounts = MountFile::new(alloc)?;
        self.is_narrow = false;
        self.failing = Failing::new(alloc);
        Ok(())
    }

    /// Does a line; whether it sets something up: `words WORD ..`, the words of the command line; `narrow`, the sink
    /// takes sixteen bytes at a time; `fail ..`, one call fails; or a line of the mount file or the folder.
    pub fn set(&mut self, rt: &HostRuntime, line: &str) -> Result<bool, Bad> {
        let (verb, rest) = parted(line);
        match verb {
            "words" => self.set_words(rt.alloc(), rest),
            "narrow" => Ok(self.set_narrow()),
            "fail" => self.failing.set(rest),
            _ => self.set_parts(rt, verb, rest),
        }
    }

    fn set_words(&mut self, alloc: Global, line: &str) -> Result<bool, Bad> {
        self.words = words_of(alloc, line)?;
        Ok(true)
    }

    fn set_narrow(&mut self) -> bool {
        self.is_narrow = true;
        true
    }

    fn set_parts(&mut self, rt: &HostRuntime, verb: &str, rest: &str) -> Result<bool, Bad> {
        if self.mounts.set(verb, rest)? {
            return Ok(true);
        }
        self.root.set(rt, verb, rest)
    }
}
