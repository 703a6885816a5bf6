//! What is known of a node.

ghost use Rattle.std.specs.Prelude.{◌≡◌};
ghost use Rattle.lisafs_wire.specs.Messages.{kind_number};

/// The kind of a node.
#[derive(Clone, Copy, Debug, PartialEq, Eq)]
pub enum FileKind {
    Directory,
    File,
    Link,
}

impl FileKind {
    /// The number that stands for it: DT_DIR, DT_REG or DT_LNK of readdir(3).
    pub fn number(&self) -> u8
        ensures { result ≡ kind_number self.now }
    {
        match self {
            FileKind::Directory => 4,
            FileKind::File => 8,
            FileKind::Link => 10,
        }
    }
}

/// What is known of a node: its kind, its permission bits, which are at most 0777, and its size in bytes.
#[derive(Clone, Copy, Debug, PartialEq, Eq)]
pub struct FileAttr {
    pub kind: FileKind,
    pub mode: u32,
    pub size: u64,
}
