//! The flags of open(2), and what they let a caller do with an open file.

ghost use Rattle.std.specs.Prelude.{⊤, ◌≡◌};

use bitflags::{Flag, Flags, bitflag_items};

/// O_APPEND: a write goes behind the last byte. open(2); Linux's asm-generic/fcntl.h, which riscv64 has.
pub const O_APPEND: u32 = 0o2000;

/// O_NONBLOCK: no call waits. open(2); Linux's asm-generic/fcntl.h, which riscv64 has.
pub const O_NONBLOCK: u32 = 0o4000;

/// O_CLOEXEC: execve(2) closes the descriptor. open(2); Linux's asm-generic/fcntl.h, which riscv64 has.
pub const O_CLOEXEC: u32 = 0o2000000;

/// What an open file may be used for.
#[derive(Clone, Copy, Debug, PartialEq, Eq)]
pub enum AccessMode {
    Read,
    Write,
    Both,
}

impl AccessMode {
    ghost use Rattle.fd_table.specs.Flags.{access_number, may_read, may_write};

    /// Whether the file may be read.
    pub fn may_read(self) -> bool
        ensures { result ≡ may_read self }
    {
        match self {
            AccessMode::Read | AccessMode::Both => true,
            AccessMode::Write => false,
        }
    }

    /// Whether the file may be written.
    pub fn may_write(self) -> bool
        ensures { result ≡ may_write self }
    {
        match self {
            AccessMode::Write | AccessMode::Both => true,
            AccessMode::Read => false,
        }
    }

    /// The access mode: O_RDONLY 0, O_WRONLY 1 or O_RDWR 2.
    pub fn number(self) -> u32
        ensures { result ≡ access_number self }
    {
        match self {
            AccessMode::Read => 0,
            AccessMode::Write => 1,
            AccessMode::Both => 2,
        }
    }
}

/// The flags of open(2), by the values that they have on riscv64. Other bits are kept, and no question asks for them.
#[derive(Clone, Copy, Debug, PartialEq, Eq)]
pub struct OpenFlags(u32);

bitflag_items! {
    impl OpenFlags: u32 {
        const WRONLY = 0o1;
        const RDWR = 0o2;
        const CREAT = 0o100;
        const EXCL = 0o200;
        const TRUNC = 0o1000;
        const APPEND = O_APPEND;
        const NONBLOCK = O_NONBLOCK;
        const LARGEFILE = 0o100000;
        const DIRECTORY = 0o200000;
        const NOFOLLOW = 0o400000;
        const CLOEXEC = O_CLOEXEC;
    }
}

impl Flags for OpenFlags {
    ghost use Rattle.fd_table.specs.Flags.{open_flags};

    type Bits = u32;

    ghost exact = { ⊤ };

    ghost table = { open_flags };

    ghost set_of = { λ flags. flags.0 };

    fn flags<'a>() -> &'a [Flag<OpenFlags>] {
        OpenFlags::FLAGS
    }

    fn bits(&self) -> u32 {
        self.0
    }

    fn from_bits_retain(bits: u32) -> OpenFlags {
        OpenFlags(bits)
    }
}

impl OpenFlags {
    ghost use Rattle.fd_table.specs.Flags.{access_in};

    /// What the access mode in the low two bits lets a caller do, or `None` for the mode 3.
    pub fn access(self) -> Option<AccessMode>
        ensures { result ≡ access_in self.0 }
    {
        match self.0 & 3 {
            0 => Some(AccessMode::Read),
            1 => Some(AccessMode::Write),
            2 => Some(AccessMode::Both),
            _ => None,
        }
    }
}
