//! The file header and the program headers, as they stand in the bytes.

ghost use Rattle.std.specs.Prelude.{◌≡◌, ◌+◌, ◌*◌, ◌≤◌, length};
ghost use Rattle.elf_image.specs.Faults.{is_misplaced, is_executed, meet};
ghost use Rattle.elf_image.specs.Headers.{file_header, program_header, is_interpreter, is_load, is_loaded};
ghost use Rattle.elf_image.specs.Images.{holds_table};

use sn_bytes::{u16_at, u32_at, u64_at};

/// What stands in a file's own header, of what is looked at.
///
/// ELF-64 Object File Format, File Header.
#[derive(Clone, Copy)]
pub struct FileHeader {
    pub e_type: u16,
    pub e_machine: u16,
    pub e_entry: u64,
    pub e_phoff: u64,
    pub e_flags: u32,
    pub e_phentsize: u16,
    pub e_phnum: u16,
}

/// What stands in a program header, of what is looked at.
///
/// ELF-64 Object File Format, Program Header Table.
#[derive(Clone, Copy)]
pub struct ProgramHeader {
    pub p_type: u32,
    pub p_flags: u32,
    pub p_offset: u64,
    pub p_vaddr: u64,
    pub p_filesz: u64,
    pub p_memsz: u64,
}

/// The size of the file header, in bytes: ELF-64 Object File Format, File Header.
pub const FILE_HEADER_SIZE: usize = 64;

/// The size of a program header, in bytes: ELF-64 Object File Format, Program Header Table.
pub const PROGRAM_HEADER_SIZE: usize = 56;

/// The most program headers that a file may have: profile.
pub const MOST_HEADERS: u16 = 64;

/// The type of a loadable segment.
const PT_LOAD: u32 = 1;

/// The type of the path of an interpreter.
const PT_INTERP: u32 = 3;

/// The lowest address that a segment may have.
const LOWEST: u64 = 4096;

/// The end of the addresses that segments may have.
const HIGHEST: u128 = 1 << 37;

/// The header of a file with room for one.
#[tactic(auto, unfolding(crate::specs::Headers::file_header))]
pub(crate) fn file_header(bytes: &[u8]) -> FileHeader
    requires { FILE_HEADER_SIZE ≤ length bytes.now }
    ensures { result ≡ file_header bytes.now }
{
    FileHeader {
        e_type: u16_at(bytes, 16).unwrap(),
        e_machine: u16_at(bytes, 18).unwrap(),
        e_entry: u64_at(bytes, 24).unwrap(),
        e_phoff: u64_at(bytes, 32).unwrap(),
        e_flags: u32_at(bytes, 48).unwrap(),
        e_phentsize: u16_at(bytes, 54).unwrap(),
        e_phnum: u16_at(bytes, 56).unwrap(),
    }
}

/// The program header at an offset.
#[tactic(auto, unfolding(crate::specs::Headers::program_header))]
pub(crate) fn program_header(bytes: &[u8], offset: usize) -> ProgramHeader
    requires { offset + PROGRAM_HEADER_SIZE ≤ length bytes.now }
    ensures { result ≡ program_header bytes.now offset }
{
    ProgramHeader {
        p_type: u32_at(bytes, offset).unwrap(),
        p_flags: u32_at(bytes, offset + 4).unwrap(),
        p_offset: u64_at(bytes, offset + 8).unwrap(),
        p_vaddr: u64_at(bytes, offset + 16).unwrap(),
        p_filesz: u64_at(bytes, offset + 32).unwrap(),
        p_memsz: u64_at(bytes, offset + 40).unwrap(),
    }
}

impl FileHeader {
    /// The offset behind the program header table.
    fn table_end(&self) -> u128
        ensures { result ≡ self.now.e_phoff + PROGRAM_HEADER_SIZE * self.now.e_phnum }
    {
        u128::from(self.e_phoff) + PROGRAM_HEADER_SIZE as u128 * u128::from(self.e_phnum)
    }
}

impl ProgramHeader {
    /// Whether the header names an interpreter.
    pub(crate) fn is_interpreter(&self) -> bool
        ensures { result ≡ is_interpreter self.now }
    {
        self.p_type == PT_INTERP
    }

    /// Whether the header is of a loadable segment.
    pub(crate) fn is_load(&self) -> bool
        ensures { result ≡ is_load self.now }
    {
        self.p_type == PT_LOAD
    }

    /// Whether the header is of a loadable segment that has a byte of memory.
    pub(crate) fn is_loaded(&self) -> bool
        ensures { result ≡ is_loaded self.now }
    {
        self.is_load() && 0 < self.p_memsz
    }

    /// Whether the segment has an offset, a size or an address that it may not have in a file of a size.
    pub(crate) fn is_misplaced(&self, size: usize) -> bool
        ensures { result ≡ is_misplaced size self.now }
    {
        self.is_load()
            && (self.p_memsz < self.p_filesz
                || (size as u128) < self.file_end()
                || self.p_vaddr < LOWEST
                || HIGHEST < self.memory_end())
    }

    /// Whether two segments have an address in common.
    pub(crate) fn meets(&self, other: &ProgramHeader) -> bool
        ensures { result ≡ meet (self.now, other.now) }
    {
        u128::from(self.p_vaddr.max(other.p_vaddr)) < self.memory_end().min(other.memory_end())
    }

    /// Whether an address is in a segment that may be executed.
    pub(crate) fn is_executed(&self, address: u64) -> bool
        ensures { result ≡ is_executed address self.now }
    {
        self.is_load()
            && self.p_flags % 2 == 1
            && self.p_vaddr <= address
            && u128::from(address) < self.memory_end()
    }

    /// Whether what the segment has of the file holds the whole program header table.
    pub(crate) fn holds_table(&self, file: &FileHeader) -> bool
        ensures { result ≡ holds_table file.now self.now }
    {
        self.is_load() && self.p_offset <= file.e_phoff && file.table_end() <= self.file_end()
    }

    fn file_end(&self) -> u128
        ensures { result ≡ self.now.p_offset + self.now.p_filesz }
    {
        u128::from(self.p_offset) + u128::from(self.p_filesz)
    }

    fn memory_end(&self) -> u128
        ensures { result ≡ self.now.p_vaddr + self.now.p_memsz }
    {
        u128::from(self.p_vaddr) + u128::from(self.p_memsz)
    }
}
