//! What a node is.

ghost use Rattle.std.specs.Prelude.{◌≡◌};
ghost use Rattle.stat_layout.specs.Kinds.{entry_type, type_bits};

/// What a node is, of the file types of inode(7).
#[derive(Clone, Copy, Debug, PartialEq, Eq)]
pub enum FileKind {
    /// A directory.
    Directory,
    /// A regular file.
    File,
    /// A symbolic link.
    Link,
    /// A pipe.
    Pipe,
    /// The console, a character device.
    Console,
}

impl FileKind {
    /// The type as bits of a mode, `S_IFMT`.
    pub(crate) fn type_bits(self) -> u32
        ensures { result ≡ type_bits self }
    {
        match self {
            FileKind::Directory => 0o40000,
            FileKind::File => 0o100000,
            FileKind::Link => 0o120000,
            FileKind::Pipe => 0o10000,
            FileKind::Console => 0o20000,
        }
    }

    /// The type as `d_type`.
    pub(crate) fn entry_type(self) -> u8
        ensures { result ≡ entry_type self }
    {
        match self {
            FileKind::Directory => 4,
            FileKind::File => 8,
            FileKind::Link => 10,
            FileKind::Pipe => 1,
            FileKind::Console => 2,
        }
    }
}
