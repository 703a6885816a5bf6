//! What the system tells of a directory's entries.

ghost use Rattle.std.specs.Prelude.{◌≡◌, IfOk, IfErr, IsOk, IsOkUnless, IsErrAnd, string_bytes};
ghost use Rattle.host_folder.specs.Entries.{AreSeen, IsSeen};
ghost use Rattle.host_folder.specs.Failures.{IsRefusalOf};
ghost use Rattle.host_folder.specs.Kinds.{IsKindOf};

use crate::attributes::kind_of;
use crate::failures::answer_from;
use host_node::{HostErr, Kind};
use std::alloc::Global;
use std::fs::{DirEntry, Files, Metadata};
use std::io;

/// An entry of a directory: its name, and what stands there for us, or `None` where that is hidden.
#[derive(Drop)]
pub(crate) struct SeenEntry {
    pub(crate) text: String,
    pub(crate) kind: Option<Kind>,
}

/// An entry from its name and what a look at it tells.
fn seen_as(alloc: Global, text: &str, found: io::Result<Metadata>) -> Result<SeenEntry, HostErr>
    ensures text { IfOk result (λ seen. string_bytes seen.text ≡ text.now) }
    ensures kind { IfOk found (λ metadata. IfOk result (λ seen. IsKindOf metadata seen.kind)) }
    ensures refused { IfErr found (λ error. IsErrAnd result (IsRefusalOf error)) }
    ensures memory { IsOk found → IsOkUnless result HostErr.Memory }
{
    let metadata = answer_from(found)?;
    let kind = kind_of(&metadata);
    let text = String::from_str(alloc, text)?;
    Ok(SeenEntry { text, kind })
}

/// An entry as the system told it, with a look at it.
fn see<R: Files + Drop>(alloc: Global, told: io::Result<DirEntry<R>>) -> Result<SeenEntry, HostErr>
    ensures seen { IfOk result (IsSeen told) }
    ensures refused { IfErr told (λ error. IsErrAnd result (IsRefusalOf error)) }
{
    let entry = answer_from(told)?;
    seen_as(alloc, entry.file_name(), entry.metadata())
}

/// All that was told of a directory, with a look at each entry. One that can't be read or looked at is a failure.
pub(crate) fn see_all<R: Files + Drop>(
    alloc: Global,
    told: Vec<io::Result<DirEntry<R>>>,
) -> Result<Vec<SeenEntry>, HostErr>
    ensures { IfOk result (λ seen. AreSeen told.items seen.items) }
{
    let mut seen = Vec::new(alloc);
    for entry in told {
        seen.push(see(alloc, entry)?)?;
    }
    Ok(seen)
}
