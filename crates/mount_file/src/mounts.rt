//! What a mount file says, as records, and why one is refused.

ghost use Rattle.std.specs.Prelude.{◌≡◌, IfOk};
ghost use Rattle.mount_file.specs.Read.{fault_of_name};
ghost use Rattle.mount_file.specs.declared.mounts.MountFault.TheVariants.{Memory as WantOfMemory};

use sn_base::{List, Memory};
use sn_text::{Folder, Name, NameFault, Text};
use std::alloc::Global;

/// A mounted folder. `at` is `None` for the mount at `/`, and else the name of a directory in `/`.
#[derive(Drop)]
pub struct Mount {
    pub at: Option<Name>,
    pub folder: Folder,
    pub write: bool,
}

impl Mount {
    /// The same mount, in memory of its own.
    pub fn copy(&self, alloc: Global) -> Result<Mount, Memory>
        ensures { IfOk result (λ m. m ≡ self.now) }
    {
        let at = match &self.at {
            Some(name) => Some(name.copy(alloc)?),
            None => None,
        };
        Ok(Mount {
            at,
            folder: self.folder.copy(alloc)?,
            write: self.write,
        })
    }
}

/// The same mounts, in memory of their own.
pub fn copied_mounts(alloc: Global, mounts: &[Mount]) -> Result<List<Mount>, Memory>
    ensures { IfOk result (λ ms. ms ≡ mounts.now) }
{
    let mut copies = List::new(alloc);
    for mount in mounts {
        copies.push(mount.copy(alloc)?)?;
    }
    Ok(copies)
}

/// A task of the mount file: the name of its image, which stands in `/`, its arguments and its environment.
#[derive(Drop)]
pub struct Program {
    pub name: Name,
    pub args: List<Text>,
    pub env: List<Text>,
}

/// What a mount file says: the longest trace, the seed of the random bytes, mounts and tasks in the file's order.
#[derive(Drop)]
pub struct Mounts {
    pub entries: u64,
    pub seed: List<u8>,
    pub mounts: List<Mount>,
    pub tasks: List<Program>,
}

/// Why a mount file is refused, in the order in which the rules are looked at.
///
/// - `Long`: above 65,536 bytes.
/// - `Utf8`: not UTF-8.
/// - `Toml`: not TOML.
/// - `Field`: a key missing, unknown or of another type.
/// - `Range`: a number, seed, path, folder or text outside its form.
/// - `NoRoot`: nothing is mounted at `/`.
/// - `Twice`: two mounts at one place, or one folder inside another.
/// - `TooMany`: more mounts or tasks than may be.
/// - `Memory`: there was no memory to read it in; this says nothing of the file.
#[derive(Clone, Copy, Debug, PartialEq, Eq)]
pub enum MountFault {
    Long,
    Utf8,
    Toml,
    Field,
    Range,
    NoRoot,
    Twice,
    TooMany,
    Memory,
}

impl From<Memory> for MountFault {
    ghost from_gives = { λ _ fault. fault ≡ WantOfMemory };

    fn from(_: Memory) -> MountFault {
        MountFault::Memory
    }
}

impl From<NameFault> for MountFault {
    ghost from_gives = { λ e fault. fault ≡ fault_of_name e };

    fn from(fault: NameFault) -> MountFault {
        match fault {
            NameFault::Memory => MountFault::Memory,
            _ => MountFault::Range,
        }
    }
}
