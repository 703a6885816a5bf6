//! Executable images, and how one is read from a file.

ghost use Rattle.std.specs.Prelude.{◌≡◌, ◌+◌, ◌*◌, ◌≤◌, IfOk, IfErr, OnOk, ◌∷◌, [], false, length, AllPairs};
ghost use Rattle.std.specs.List.{list_any};
ghost use Rattle.elf_image.specs.Faults.{is_misplaced, image_fault, IsImageFaultOf};
ghost use Rattle.elf_image.specs.Loadable.{AreApart, StartsInCode};
ghost use Rattle.elf_image.specs.Headers.{file_header, program_headers};
ghost use Rattle.elf_image.specs.Images.{rights_of, segment_of, segments_of, headers_in_memory, image_in};
ghost use Rattle.elf_image.specs.declared.fault.ImageFault.{ImageFault as Fault};
ghost use Rattle.elf_image.specs.declared.header.TheConstants.{PROGRAM_HEADER_SIZE};

use crate::fault::{ImageFault, image_fault};
use crate::header::{FileHeader, ProgramHeader, file_header};
use crate::table::Headers;
use sn_base::{List, Memory};
use std::alloc::Global;
use std::marker::Model;

/// What may be done with the bytes of a segment.
///
/// ELF-64 Object File Format, `p_flags`.
#[derive(Clone, Copy, Debug, PartialEq, Eq)]
pub struct SegmentRights {
    pub read: bool,
    pub write: bool,
    pub execute: bool,
}

/// A loadable segment: `size` bytes from `address` on, of which the first are the file's `bytes` and the rest are 0.
///
/// ELF-64 Object File Format, Program Header: `p_vaddr`, `p_memsz`, the file's part, `p_flags`.
#[derive(Debug, Drop)]
pub struct Segment {
    pub address: u64,
    pub size: u64,
    pub bytes: List<u8>,
    pub rights: SegmentRights,
}

/// An executable image: where it starts, its loadable segments in the file's order, and where it finds the table of its
/// program headers. There are at most 64 segments, each of at least one byte and of no fewer than the file has, between
/// the addresses 4,096 and 2^37.
#[derive(Debug, Drop)]
pub struct Image {
    pub entry: u64,
    pub segments: List<Segment>,
    /// The address in memory of the table of program headers, or 0 where no segment's part of the file holds all of it.
    ///
    /// ELF-64 Object File Format, `e_phoff`; getauxval(3), `AT_PHDR`.
    pub headers: u64,
    /// How many program headers there are, with those that aren't loadable.
    ///
    /// ELF-64 Object File Format, `e_phnum`; getauxval(3), `AT_PHNUM`.
    pub header_count: u64,
}

impl Model for Image {
    ghost use Rattle.elf_image.specs.Loadable.{Loadable, AreLoadable};

    ghost Value = { Loadable };

    ghost view = { λ a. record {
      entry = a.entry;
      segments = a.segments;
      headers = a.headers;
      header_count = a.header_count;
    } };

    ghost invariant = { λ a. AreLoadable a.segments };
}

/// Reads an executable image.
///
/// The faults come in the order of `ImageFault`, so a fault of the bytes comes before want of memory, and nothing is
/// allocated for what is refused.
#[rattlefmt::skip]
#[tactic(auto, using(crate::proofs::ImageFaults::fault_of_first, crate::proofs::ImageFaults::without_fault,
    crate::proofs::LoadableImages::loadable), unfolding(crate::specs::Images::image_in))]
pub fn read_image(alloc: Global, bytes: &[u8]) -> Result<Image, ImageFault>
    ensures ok { IfOk result (λ image. image ≡ image_in bytes.now) }
    ensures sound { OnOk result (image_fault bytes.now ≡ None) }
    ensures fault { IfErr result (IsImageFaultOf bytes.now) }
    ensures apart { IfOk result (λ image. AllPairs AreApart image.segments) }
    ensures starts { IfOk result StartsInCode }
    ensures faulty { (f : Fault) → image_fault bytes.now ≡ Some f → result ≡ Err f }
{
    if let Some(fault) = image_fault(bytes) {
        return Err(fault);
    }
    let file = file_header(bytes);
    let segments = segments_of(alloc, bytes, Headers::new(bytes, &file))?;
    Ok(Image {
        entry: file.e_entry,
        segments,
        headers: headers_in_memory(bytes, &file),
        header_count: u64::from(file.e_phnum),
    })
}

/// Where the program header table stands in memory: in the first segment whose part of the file holds all of it, or 0
/// where none does.
fn headers_in_memory(bytes: &[u8], file: &FileHeader) -> u64
    requires same { file.now ≡ file_header bytes.now }
    requires inside { file.now.e_phoff + PROGRAM_HEADER_SIZE * file.now.e_phnum ≤ length bytes.now }
    requires placed { list_any (is_misplaced (length bytes.now)) (program_headers bytes.now) ≡ false }
    ensures { result ≡ headers_in_memory file.now (program_headers bytes.now) }
{
    for header in Headers::new(bytes, file) {
        if header.holds_table(file) {
            return header.p_vaddr + (file.e_phoff - header.p_offset);
        }
    }
    0
}

fn rights_of(flags: u32) -> SegmentRights
    ensures { result ≡ rights_of flags }
{
    SegmentRights {
        read: flags / 4 % 2 == 1,
        write: flags / 2 % 2 == 1,
        execute: flags % 2 == 1,
    }
}

fn segment_of(alloc: Global, bytes: &[u8], header: &ProgramHeader) -> Result<Segment, Memory>
    requires { header.now.p_offset + header.now.p_filesz ≤ length bytes.now }
    ensures { IfOk result (λ segment. segment ≡ segment_of bytes.now header.now) }
{
    let start = header.p_offset as usize;
    Ok(Segment {
        address: header.p_vaddr,
        size: header.p_memsz,
        bytes: List::from_slice(alloc, &bytes[start..start + header.p_filesz as usize])?,
        rights: rights_of(header.p_flags),
    })
}

/// The segments of the headers that are left, of which none is misplaced in the file.
fn segments_of(alloc: Global, bytes: &[u8], headers: Headers<'_>) -> Result<List<Segment>, Memory>
    requires { list_any (is_misplaced (length bytes.now)) headers ≡ false }
    ensures { IfOk result (λ segments. segments ≡ segments_of bytes.now headers.entry) }
{
    let mut segments = List::new(alloc);
    for header in headers {
        if header.is_loaded() {
            segments.push(segment_of(alloc, bytes, &header)?)?;
        }
    }
    Ok(segments)
}
