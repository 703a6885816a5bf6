//! What stands in the granted folder, by lines.

use crate::guests::guest;
use read_cases::{Bad, add_bytes, number, parted};
use sn_vectors::images::HELLO;
use std::alloc::Global;

/// What stands under a name.
#[derive(Clone, Copy, PartialEq, Eq)]
pub enum Stands {
    File,
    Folder,
    Link,
}

/// A node of the folder: its name, what it is, its mode, and its bytes where it is a file, or where its link leads.
pub struct Node {
    pub name: String,
    pub stands: Stands,
    pub mode: u32,
    pub bytes: Vec<u8>,
}

/// Lets all of it go by one call.
impl Drop for Node {
    fn drop(self) {
        let Node {
            name: _,
            stands: _,
            mode: _,
            bytes: _,
        } = self;
    }
}

/// The granted folder: its mode, or `None` where the host has no such folder, and its nodes in order.
pub struct Root {
    pub mode: Option<u32>,
    pub nodes: Vec<Node>,
}

/// Lets all of it go by one call.
impl Drop for Root {
    fn drop(self) {
        let Root { mode: _, nodes: _ } = self;
    }
}

/// A mode of three octal digits.
fn mode_of(text: &str) -> Option<u32> {
    let mode = u32::from_str_radix(text, 8).ok()?;
    if mode > 0o777 { None } else { Some(mode) }
}

/// Adds so many zeros.
fn add_zeros(bytes: &mut Vec<u8>, count: &str) -> Result<bool, Bad> {
    let Some(count) = number(count) else {
        return Ok(false);
    };
    for _ in 0..count {
        bytes.push(0)?;
    }
    Ok(true)
}

/// Puts another byte at a place: `24 e0`. Whether there is such a place.
fn patch(bytes: &mut Vec<u8>, text: &str) -> bool {
    let (place, byte) = parted(text);
    let Ok(place) = usize::from_str_radix(place, 10) else {
        return false;
    };
    match (bytes.get_mut(place), u8::from_str_radix(byte, 16)) {
        (Some(held), Ok(byte)) => {
            *held = byte;
            true
        }
        _ => false,
    }
}

impl Node {
    /// Does a line that changes the node last put: `mode 644`, `bytes 7f 45`, `zeros 64`, `patch PLACE BYTE`, or
    /// `hello`, which gives it the image that writes `Hello, world!`.
    fn set(&mut self, verb: &str, rest: &str) -> Result<bool, Bad> {
        match verb {
            "bytes" => add_bytes(&mut self.bytes, rest),
            "zeros" => add_zeros(&mut self.bytes, rest),
            "patch" => Ok(patch(&mut self.bytes, rest)),
            "mode" => Ok(self.set_mode(rest)),
            "hello" => {
                self.bytes.extend_from_slice(&HELLO)?;
                Ok(true)
            }
            _ => Ok(false),
        }
    }

    fn set_mode(&mut self, text: &str) -> bool {
        match mode_of(text) {
            Some(mode) => {
                self.mode = mode;
                true
            }
            None => false,
        }
    }
}

impl Root {
    /// A folder with nothing in it.
    pub fn new(alloc: Global) -> Root {
        Root {
            mode: Some(0o755),
            nodes: Vec::new(alloc),
        }
    }

    /// Does a line; whether it is one of the folder:
    ///
    /// - `root none`, `root 677`: there is no such folder, or it has that mode;
    /// - `file NAME`, `file NAME GUEST`: a file that may be executed, with nothing in it or with the image of a guest;
    /// - `folder NAME`, `link NAME TARGET`: another node;
    /// - and those that change the node last put.
    pub fn set(&mut self, rt: &HostRuntime, verb: &str, rest: &str) -> Result<bool, Bad> {
        match verb {
            "root" => Ok(self.set_mode(rest)),
            "file" => self.add_file(rt, rest),
            "folder" => self.add(rt.alloc(), rest, Stands::Folder, Vec::new(rt.alloc())),
            "link" => self.add_link(rt.alloc(), rest),
            _ => self.set_last(verb, rest),
        }
    }

    fn set_mode(&mut self, text: &str) -> bool {
        self.mode = mode_of(text);
        self.mode.is_some() || text == "none"
    }

    fn add_file(&mut self, rt: &HostRuntime, text: &str) -> Result<bool, Bad> {
        let (name, words) = parted(text);
        let bytes = if words.is_empty() {
            Vec::new(rt.alloc())
        } else {
            guest(rt, words)?
        };
        self.add(rt.alloc(), name, Stands::File, bytes)
    }

    fn add_link(&mut self, alloc: Global, text: &str) -> Result<bool, Bad> {
        let (name, target) = parted(text);
        let bytes = Vec::from_slice(alloc, target.as_bytes())?;
        self.add(alloc, name, Stands::Link, bytes)
    }

    fn add(
        &mut self,
        alloc: Global,
        name: &str,
        stands: Stands,
        bytes: Vec<u8>,
    ) -> Result<bool, Bad> {
        let node = Node {
            name: String::from_str(alloc, name)?,
            stands,
            mode: 0o755,
            bytes,
        };
        self.nodes.push(node)?;
        Ok(true)
    }

    fn set_last(&mut self, verb: &str, rest: &str) -> Result<bool, Bad> {
        match self.nodes.last_mut() {
            Some(node) => node.set(verb, rest),
            None => Ok(false),
        }
    }
}
