//! Why bytes are no image.

ghost use Rattle.std.specs.Prelude.{◌≡◌, ◌≤◌, ◌&&◌, length};
ghost use Rattle.std.specs.List.{list_any};
ghost use Rattle.elf_image.specs.Faults.{has_other_magic, has_other_class, has_no_table, has_interpreter};
ghost use Rattle.elf_image.specs.Faults.{has_misplaced, meet, is_misplaced, has_overlap, is_executed, has_no_entry};
ghost use Rattle.elf_image.specs.Faults.{image_fault};
ghost use Rattle.elf_image.specs.Headers.{is_load, is_loaded};
ghost use Rattle.elf_image.specs.declared.fault.ImageFault.TheVariants.{Memory as WantOfMemory};

use crate::header::{
    FILE_HEADER_SIZE, FileHeader, MOST_HEADERS, PROGRAM_HEADER_SIZE, ProgramHeader, file_header,
};
use crate::table::Headers;
use sn_base::Memory;

/// Why bytes are no image. Where several fit, the first in this order is told.
#[derive(Clone, Copy, Debug, PartialEq, Eq)]
pub enum ImageFault {
    /// There are fewer than 64 bytes, so that there is no file header.
    Short,
    /// The bytes don't begin with 7f and `ELF`.
    Magic,
    /// The file isn't one of 64 bits, little-endian, version 1.
    Class,
    /// The file isn't for RISC-V: `e_machine` isn't 243.
    Machine,
    /// The file isn't an executable with fixed addresses: `e_type` isn't 2.
    Kind,
    /// `e_flags` asks for compressed instructions, floating point or fewer registers.
    Flags,
    /// The program headers aren't of 56 bytes, are none or more than 64, or aren't inside the file.
    Headers,
    /// A program header names an interpreter.
    Interp,
    /// There is nothing to load, or a segment has an offset, a size or an address that it may not have.
    Range,
    /// Two segments have an address in common.
    Overlap,
    /// The start isn't in a segment that may be executed, or isn't divisible by 4.
    Entry,
    /// The bytes are an image, and there was no memory to keep it in.
    Memory,
}

impl From<Memory> for ImageFault {
    ghost from_gives = { λ _ e. e ≡ WantOfMemory };

    fn from(_e: Memory) -> ImageFault {
        ImageFault::Memory
    }
}

/// The first bytes of every ELF file.
const MAGIC: [u8; 4] = [0x7f, b'E', b'L', b'F'];

/// The bytes behind them: of 64 bits, little-endian, version 1.
const CLASS: [u8; 3] = [2, 1, 1];

/// `e_machine` of RISC-V.
const EM_RISCV: u16 = 243;

/// `e_type` of an executable with fixed addresses.
const ET_EXEC: u16 = 2;

/// The first fault, in the order of `ImageFault`, of bytes that are no image, or `None` for an image. It takes no
/// memory.
#[tactic(auto, unfolding(crate::specs::Faults::image_fault))]
pub fn image_fault(bytes: &[u8]) -> Option<ImageFault>
    ensures { result ≡ image_fault bytes.now }
{
    if bytes.len() < FILE_HEADER_SIZE {
        return Some(ImageFault::Short);
    }
    let file = file_header(bytes);
    if has_other_magic(bytes) {
        Some(ImageFault::Magic)
    } else if has_other_class(bytes) {
        Some(ImageFault::Class)
    } else if file.e_machine != EM_RISCV {
        Some(ImageFault::Machine)
    } else if file.e_type != ET_EXEC {
        Some(ImageFault::Kind)
    } else if file.e_flags % 16 != 0 {
        Some(ImageFault::Flags)
    } else if has_no_table(bytes.len(), &file) {
        Some(ImageFault::Headers)
    } else if has_interpreter(Headers::new(bytes, &file)) {
        Some(ImageFault::Interp)
    } else if has_misplaced(bytes.len(), Headers::new(bytes, &file)) {
        Some(ImageFault::Range)
    } else if has_overlap(Headers::new(bytes, &file)) {
        Some(ImageFault::Overlap)
    } else if has_no_entry(file.e_entry, Headers::new(bytes, &file)) {
        Some(ImageFault::Entry)
    } else {
        None
    }
}

fn has_other_magic(bytes: &[u8]) -> bool
    requires { FILE_HEADER_SIZE ≤ length bytes.now }
    ensures { result ≡ has_other_magic bytes.now }
{
    bytes[..4] != MAGIC[..]
}

fn has_other_class(bytes: &[u8]) -> bool
    requires { FILE_HEADER_SIZE ≤ length bytes.now }
    ensures { result ≡ has_other_class bytes.now }
{
    bytes[4..7] != CLASS[..]
}

fn has_no_table(size: usize, file: &FileHeader) -> bool
    ensures { result ≡ has_no_table size file.now }
{
    let table_size = PROGRAM_HEADER_SIZE * usize::from(file.e_phnum);
    usize::from(file.e_phentsize) != PROGRAM_HEADER_SIZE
        || file.e_phnum == 0
        || MOST_HEADERS < file.e_phnum
        || (size as u128) < u128::from(file.e_phoff) + table_size as u128
}

fn has_interpreter(mut headers: Headers<'_>) -> bool
    ensures { result ≡ has_interpreter headers.entry }
{
    headers.any(|header| header.is_interpreter())
}

fn has_misplaced(size: usize, headers: Headers<'_>) -> bool
    ensures { result ≡ has_misplaced size headers.entry }
{
    !any_loaded(headers.copy()) || any_misplaced(size, headers)
}

fn any_loaded(mut headers: Headers<'_>) -> bool
    ensures { result ≡ list_any is_loaded headers.entry }
{
    headers.any(|header| header.is_loaded())
}

fn any_misplaced(size: usize, mut headers: Headers<'_>) -> bool
    ensures { result ≡ list_any (is_misplaced size) headers.entry }
{
    headers.any(|header| header.is_misplaced(size))
}

#[tactic(auto, using(crate::proofs::HeaderPairs::overlap_none, crate::proofs::HeaderPairs::overlap_more))]
fn has_overlap(headers: Headers<'_>) -> bool
    ensures { result ≡ has_overlap headers.entry }
{
    let mut later = headers;
    while let Some(header) = later.next() {
        if header.is_load() && meets_any(&header, later.copy()) {
            return true;
        }
    }
    false
}

fn meets_any(header: &ProgramHeader, mut others: Headers<'_>) -> bool
    ensures { result ≡ list_any (λ other. is_load other && meet (header.now, other)) others.entry }
{
    others.any(|other| other.is_load() && header.meets(&other))
}

fn has_no_entry(entry: u64, headers: Headers<'_>) -> bool
    ensures { result ≡ has_no_entry entry headers.entry }
{
    !any_executed(entry, headers) || entry % 4 != 0
}

fn any_executed(address: u64, mut headers: Headers<'_>) -> bool
    ensures { result ≡ list_any (is_executed address) headers.entry }
{
    headers.any(|header| header.is_executed(address))
}
