//! The reader: a mount file's bytes to what they say, or to their first fault.

ghost use Rattle.std.specs.Prelude.{◌≡◌, ◌⊎◌, Err, IfOk, IfErr};
ghost use Rattle.mount_file.specs.Form.{HasForm};
ghost use Rattle.mount_file.specs.MountFile.{IsMountFile, IsFaultOf, ruled, document_read};
ghost use Rattle.mount_file.specs.Read.{Reads};
ghost use Rattle.mount_file.specs.declared.mounts.MountFault.{MountFault as Fault};
ghost use Rattle.mount_file.specs.declared.mounts.MountFault.TheVariants.{Memory};
ghost use Rattle.toml.specs.View.{table_view};

use crate::keys::has_keys;
use crate::mounts::{MountFault, Mounts};
use crate::rules::rule_broken;
use crate::tables::mounts_in;
use std::alloc::Global;
use toml::Table;

/// The longest mount file, in bytes.
pub const LONGEST_MOUNT_FILE: usize = 65_536;

/// What a mount file's bytes say, or their first fault, in the order of `MountFault`. Want of memory is told where
/// there is no room to read them in, whatever they say.
#[tactic(auto, using(crate::proofs::Faults::fault_told, crate::proofs::Forms::form_read))]
pub fn read_mounts(alloc: Global, bytes: &[u8]) -> Result<Mounts, MountFault>
    ensures ok { IfOk result (λ m. IsMountFile bytes.now m) }
    ensures form { IfOk result HasForm }
    ensures fault { IfErr result (λ f. (f ≡ Memory) ⊎ IsFaultOf bytes.now f) }
    ensures faulty { (f : Fault) → IsFaultOf bytes.now f → (result ≡ Err f) ⊎ (result ≡ Err Memory) }
{
    if bytes.len() > LONGEST_MOUNT_FILE {
        return Err(MountFault::Long);
    }
    let Ok(text) = std::str::from_utf8(bytes) else {
        return Err(MountFault::Utf8);
    };
    match toml::table_from_str(alloc, text) {
        Ok(document) => document_read(alloc, &document),
        Err(e) if e.is_memory() => Err(MountFault::Memory),
        Err(_) => Err(MountFault::Toml),
    }
}

/// What a document says, or its first fault.
fn document_read(alloc: Global, document: &Table) -> Result<Mounts, MountFault>
    ensures { Reads (document_read (table_view document.now)) result }
{
    if !has_keys(document) {
        return Err(MountFault::Field);
    }
    ruled(mounts_in(alloc, document)?)
}

/// Mounts that break no rule, or the rule that they break first.
fn ruled(mounts: Mounts) -> Result<Mounts, MountFault>
    ensures { result ≡ ruled mounts }
{
    match rule_broken(&mounts) {
        Some(fault) => Err(fault),
        None => Ok(mounts),
    }
}
