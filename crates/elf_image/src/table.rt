//! The program header table, header by header.

ghost use Rattle.std.specs.Prelude.{◌≡◌, ◌+◌, ◌*◌, ◌≤◌, length};
ghost use Rattle.std.specs.Iterator.{YieldsFirst, item_count};
ghost use Rattle.elf_image.specs.Headers.{file_header, program_headers};

use crate::header::{FileHeader, PROGRAM_HEADER_SIZE, ProgramHeader, program_header};
use std::marker::Model;

/// The program headers that are left to look at, in the file's order. Contracts see it as the list of them.
#[derive(Drop)]
pub(crate) struct Headers<'a> {
    bytes: &'a [u8],
    /// Where the table is in the file.
    offset: usize,
    /// The number of the first header that is left.
    first: usize,
    /// How many are left.
    count: usize,
}

impl<'a> Model for Headers<'a> {
    ghost use Rattle.std.specs.Prelude.{◌+◌, ◌*◌, ◌≤◌, List, length};
    ghost use Rattle.elf_image.specs.declared.header.ProgramHeader.{ProgramHeader};
    ghost use Rattle.elf_image.specs.declared.header.TheConstants.{PROGRAM_HEADER_SIZE};

    ghost Value = { List ProgramHeader };

    ghost use Rattle.elf_image.specs.Headers.{headers_from};

    ghost view = { λ a. headers_from a.bytes.now a.offset a.first a.count };

    ghost invariant = { λ a. a.offset + PROGRAM_HEADER_SIZE * (a.first + a.count) ≤ length a.bytes.now };
}

impl<'a> Headers<'a> {
    /// The program headers of a file whose table is inside.
    #[tactic(auto, unfolding(crate::specs::Headers::program_headers))]
    pub(crate) fn new(bytes: &'a [u8], file: &FileHeader) -> Self
        requires same { file.now ≡ file_header bytes.now }
        requires inside { file.now.e_phoff + PROGRAM_HEADER_SIZE * file.now.e_phnum ≤ length bytes.now }
        ensures { result ≡ program_headers bytes.now }
    {
        Headers {
            bytes,
            offset: file.e_phoff as usize,
            first: 0,
            count: usize::from(file.e_phnum),
        }
    }

    /// The headers that are left, to be looked at once more.
    pub(crate) fn copy(&self) -> Headers<'a>
        ensures { result ≡ self.now }
    {
        Headers {
            bytes: self.bytes,
            offset: self.offset,
            first: self.first,
            count: self.count,
        }
    }
}

impl<'a> Iterator for Headers<'a> {
    type Item = ProgramHeader;

    ghost next_gives = { YieldsFirst (λ rest. rest) };

    ghost remaining = { item_count (λ rest. rest) };

    fn next(&mut self) -> Option<ProgramHeader> {
        if self.count == 0 {
            return None;
        }
        let header = program_header(self.bytes, self.offset + PROGRAM_HEADER_SIZE * self.first);
        self.first += 1;
        self.count -= 1;
        Some(header)
    }
}
