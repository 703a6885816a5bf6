//! How a node stands to its file.

/// How a node stands to its file (open(2)).
#[derive(Drop)]
pub(crate) enum FileAccess<F: Drop> {
    /// It isn't open.
    Shut,
    /// It is a directory that is open for reading.
    Listable,
    /// It is a file that is open for reading.
    Readable(F),
    /// It is a file that is open for reading and writing.
    Writable(F),
}
