//! The hosts that cases are done over.

use crate::made::{Made, made_of};
use crate::memory::Memory;
use crate::names::folder_of;
use crate::{machine, visits};
use host_folder::Folders;
use read_cases::{Bad, Cases, parted};
use sn_text::Folder;

/// Which hosts the cases of a file are done over.
#[derive(Clone, Copy, PartialEq, Eq)]
enum Over {
    World,
    Folders,
    Both,
}

fn over_of(word: &str) -> Option<Over> {
    match word {
        "world" => Some(Over::World),
        "folders" => Some(Over::Folders),
        "both" => Some(Over::Both),
        _ => None,
    }
}

/// A host in memory, and the folders of the machine.
#[derive(Drop)]
pub struct Hosts {
    over: Over,
    memory: Memory,
    folders: Folders<HostRuntime>,
}

/// Does a case over the machine's folders.
fn ask_folders(
    rt: &HostRuntime,
    folders: &mut Folders<HostRuntime>,
    case: &str,
    came: &mut String,
) -> Result<(), Bad> {
    match parted(case) {
        ("bury", words) => visits::bury(rt, folders, words, came),
        ("see", path) => machine::see(rt, &folder_of(rt.alloc(), path)?, came),
        _ => visits::ask(rt, folders, case, came),
    }
}

/// Does a case over the host in memory.
fn ask_memory(
    rt: &HostRuntime,
    memory: &mut Memory,
    case: &str,
    came: &mut String,
) -> Result<(), Bad> {
    match parted(case) {
        ("bury", words) => memory.bury(rt, words, came),
        ("see", path) => memory.see(&folder_of(rt.alloc(), path)?, came),
        ("met", path) => memory.met(&folder_of(rt.alloc(), path)?, came),
        ("fail", words) => memory.fail(rt.alloc(), words, came),
        _ => memory.ask(rt, case, came),
    }
}

impl Hosts {
    pub fn new(rt: &HostRuntime) -> Hosts {
        Hosts {
            over: Over::World,
            memory: Memory::new(rt.alloc()),
            folders: Folders::new(*rt),
        }
    }

    /// `over HOSTS`.
    fn set_over(&mut self, word: &str, came: &mut String) -> Result<(), Bad> {
        match over_of(word) {
            Some(over) => self.over = over,
            None => came.push_str("unread")?,
        }
        Ok(())
    }

    /// Makes a directory, a file or a link in each of the hosts.
    fn make(
        &mut self,
        rt: &HostRuntime,
        folder: &Folder,
        made: Made<'_>,
        came: &mut String,
    ) -> Result<(), Bad> {
        if self.over != Over::World {
            machine::make(rt, folder, made)?;
        }
        if self.over == Over::Folders {
            return Ok(());
        }
        self.memory.make(rt.alloc(), folder, made, came)
    }

    /// Does a case over both. Where they differ, both are told.
    fn ask_both(&mut self, rt: &HostRuntime, case: &str, came: &mut String) -> Result<(), Bad> {
        let mut other = String::new(rt.alloc());
        ask_folders(rt, &mut self.folders, case, &mut other)?;
        ask_memory(rt, &mut self.memory, case, came)?;
        if other.as_str() != came.as_str() {
            came.push_str(", and over folders ")?;
            came.push_str(other.as_str())?;
        }
        Ok(())
    }

    fn ask(&mut self, rt: &HostRuntime, case: &str, came: &mut String) -> Result<(), Bad> {
        match self.over {
            Over::World => ask_memory(rt, &mut self.memory, case, came),
            Over::Folders => ask_folders(rt, &mut self.folders, case, came),
            Over::Both => self.ask_both(rt, case, came),
        }
    }
}

impl Cases for Hosts {
    /// Empties both hosts, but for the folder of all that cases make.
    fn begin(&mut self, rt: &HostRuntime) -> Result<(), Bad> {
        machine::begin(rt)?;
        self.folders = Folders::new(*rt);
        self.memory = Memory::new(rt.alloc());
        let mut came = String::new(rt.alloc());
        let root = folder_of(rt.alloc(), "")?;
        self.memory
            .make(rt.alloc(), &root, Made::Directory(0o755), &mut came)
    }

    fn answer(&mut self, rt: &HostRuntime, case: &str, came: &mut String) -> Result<(), Bad> {
        let (verb, words) = parted(case);
        if verb == "over" {
            return self.set_over(words, came);
        }
        match made_of(verb, words) {
            Some((path, made)) => self.make(rt, &folder_of(rt.alloc(), path)?, made, came),
            None => self.ask(rt, case, came),
        }
    }
}
