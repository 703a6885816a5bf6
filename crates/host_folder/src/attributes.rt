//! What a file of the machine is for us, and what a node tells of it.

ghost use Rattle.std.specs.Prelude.{◌≡◌};
ghost use Rattle.std.specs.Fs.{metadata_len};
ghost use Rattle.host_folder.specs.Kinds.{IsKindOf, attr_by};

use host_node::{Attr, Kind};
use std::fs::Metadata;

/// What a file is for us: `None` of a device, a socket or a pipe.
pub(crate) fn kind_of(metadata: &Metadata) -> Option<Kind>
    ensures { IsKindOf metadata.now result }
{
    if metadata.is_dir() {
        Some(Kind::Dir)
    } else if metadata.is_file() {
        Some(Kind::File)
    } else if metadata.is_symlink() {
        Some(Kind::Link)
    } else {
        None
    }
}

/// The attributes of a node of a kind.
pub(crate) fn attributes(kind: Kind, metadata: &Metadata) -> Attr
    ensures { result ≡ attr_by kind (metadata_len metadata.now) }
{
    match kind {
        Kind::Dir => Attr {
            kind,
            mode: 0o755,
            size: 0,
        },
        Kind::File => Attr {
            kind,
            mode: 0o755,
            size: metadata.len(),
        },
        Kind::Link => Attr {
            kind,
            mode: 0o777,
            size: metadata.len(),
        },
    }
}
