//! File types, and what stat(2) tells of a node.

/// What a node of a host is, of the file types of inode(7). A host has no others for us.
#[derive(Clone, Copy, Debug, PartialEq, Eq)]
pub enum Kind {
    /// A directory.
    Dir,
    /// A regular file.
    File,
    /// A symbolic link.
    Link,
}

/// What a host tells of a node, as stat(2).
#[derive(Clone, Copy, Debug, PartialEq, Eq)]
pub struct Attr {
    /// The file type.
    pub kind: Kind,
    /// The permission bits, at most 0o777.
    pub mode: u32,
    /// The bytes of a file, or of a link's text; 0 of a directory.
    pub size: u64,
}
