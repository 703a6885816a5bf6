//! An image made of a program's words, field by field of its headers.

ghost use Rattle.std.specs.Prelude.{◌≡◌, IfOk};
ghost use Rattle.sn_vectors.specs.Images.{image};

use std::alloc::{AllocError, Global};

/// The headers of an image, up to the size of its segment.
#[rattlefmt::skip]
const HEADERS: [u8; 96] = [
    0x7f, 0x45, 0x4c, 0x46, 2, 1, 1, 0, 0, 0, 0, 0, 0, 0, 0, 0,
    2, 0, 243, 0, 1, 0, 0, 0, 0x78, 0, 1, 0, 0, 0, 0, 0,
    64, 0, 0, 0, 0, 0, 0, 0, 0, 0, 0, 0, 0, 0, 0, 0,
    0, 0, 0, 0, 64, 0, 56, 0, 1, 0, 0, 0, 0, 0, 0, 0,
    1, 0, 0, 0, 5, 0, 0, 0, 0, 0, 0, 0, 0, 0, 0, 0,
    0, 0, 1, 0, 0, 0, 0, 0, 0, 0, 1, 0, 0, 0, 0, 0,
];

/// The alignment of a segment, which ends its header.
const ALIGNMENT: [u8; 8] = [0, 16, 0, 0, 0, 0, 0, 0];

/// The file of a program with these words. It is loaded whole at 65,536, to be read and run, and entered at its first
/// word, at 65,656.
pub fn image_of(alloc: Global, words: &[u32]) -> Result<Vec<u8>, AllocError>
    ensures { IfOk result (λ file. file.items ≡ image words.now) }
{
    let size = 120 + 4 * words.len() as u64;
    let mut file = Vec::from_slice(alloc, &HEADERS)?;
    file.extend_from_slice(&size.to_le_bytes())?;
    file.extend_from_slice(&size.to_le_bytes())?;
    file.extend_from_slice(&ALIGNMENT)?;
    for word in words {
        file.extend_from_slice(&word.to_le_bytes())?;
    }
    Ok(file)
}
