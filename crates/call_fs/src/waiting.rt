//! What a read or a write has used that waits.

ghost use Rattle.std.specs.Prelude.{◌≡◌, ℕ, min, true, false, []};
ghost use Rattle.kernel_model.specs.declared.open_files.OpenFiles.{OpenFiles as AFiles};
ghost use Rattle.sn_base.specs.declared.made.Made.{Made as AName};
ghost use Rattle.kernel_model.specs.entries.Areas.{access_row};
ghost use Rattle.kernel_model.specs.entries.Parts.{Parts, uses};
ghost use Rattle.call_fs.specs.Lookups.{StandsFor, end_by, end_in};

use crate::lookups::FileInHand;
use fd_table::Object;
use guest_access::asks_for_area;
use kernel_calls::{Awaited, UsedEnd};
use kernel_model::{GuestSpace, MOST_MOVED};
use mm_areas::Rights;
use sn_base::Made;
use std::alloc::Global;

/// What a read or a write has used that waits, by what it has open: the end of a pipe, and the shared areas where its
/// buffer lies in any.
pub(crate) fn awaited_by(
    alloc: Global,
    opened: Option<FileInHand<'_>>,
    right: Rights,
    buffer: u64,
    count: u64,
    space: &GuestSpace,
) -> Awaited
    ensures end { (files : AFiles) (table : AName) (number : ℕ) → StandsFor files table number opened.entry →
        result.end ≡ end_in files table number }
    ensures areas { result.areas ≡ false → (s : Parts) →
        uses s (access_row right space.now buffer (min count MOST_MOVED)) ≡ [] }
{
    let most = count.min(MOST_MOVED);
    Awaited {
        end: used_end(opened),
        areas: asks_for_area(alloc, space, right, buffer, most),
    }
}

/// What a read or a write by records of buffers has used that waits: the end of a pipe, and any shared areas.
pub(crate) fn awaited_with_areas(opened: Option<FileInHand<'_>>) -> Awaited
    ensures end { (files : AFiles) (table : AName) (number : ℕ) → StandsFor files table number opened.entry →
        result.end ≡ end_in files table number }
    ensures areas { result.areas ≡ true }
{
    let end = used_end(opened);
    Awaited { end, areas: true }
}

/// The end of a pipe that is open so, where one is.
fn used_end(opened: Option<FileInHand<'_>>) -> Option<UsedEnd>
    ensures { (files : AFiles) (table : AName) (number : ℕ) → StandsFor files table number opened.entry →
        result ≡ end_in files table number }
{
    let opened = opened?;
    end_of(
        opened.descriptor.description,
        opened.file.description.object,
    )
}

/// The end of a pipe that is open by an open file description of that name, where one is.
fn end_of(name: Made, object: Object) -> Option<UsedEnd>
    ensures { result ≡ end_by name object }
{
    match object {
        Object::PipeEnd { pipe, .. } => Some(UsedEnd {
            description: name,
            pipe,
        }),
        Object::Node(_) => None,
        Object::Console => None,
        Object::EmptyInput => None,
    }
}
