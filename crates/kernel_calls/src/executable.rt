//! Images as execve takes them.

ghost use Rattle.std.specs.Prelude.{◌≡◌, true, Some, IfOk};
ghost use Rattle.kernel_model.specs.machine.Image.{image_of};
ghost use Rattle.kernel_model.specs.opening.Opening.{image_within};
ghost use Rattle.kernel_model.specs.laws.Room.{fits};

use elf_image::{Image, ImageFault, read_image};
use image_load::has_too_many_pages;
use sn_base::Memory;
use sn_errno::Errno;
use std::alloc::Global;

/// The image that a file's bytes are, or the error with which execve refuses them: ENOEXEC where they are none, and
/// ENOMEM where its pages and those of the stack are more than 16,384.
///
/// execve(2), ERRORS.
#[tactic(auto, using(crate::proofs::Executables::image_none), unfolding(kernel_model::specs::machine::Image::image_of))]
pub fn read_executable(alloc: Global, bytes: &[u8]) -> Result<Result<Image, Errno>, Memory>
    ensures image { IfOk result (λ image. image ≡ image_within (image_of bytes.now)) }
    ensures pages { IfOk result (λ image. fits image ≡ true) }
{
    match read_image(alloc, bytes) {
        Ok(image) => Ok(within(image)),
        Err(ImageFault::Memory) => Err(Memory),
        Err(_) => Ok(Err(Errno::ENOEXEC)),
    }
}

/// An image, or ENOMEM where its pages and those of the stack are too many.
#[tactic(auto, using(crate::proofs::Executables::room_test))]
fn within(image: Image) -> Result<Image, Errno>
    ensures image { result ≡ image_within (Some image) }
    ensures pages { fits result ≡ true }
{
    if has_too_many_pages(&image) {
        Err(Errno::ENOMEM)
    } else {
        Ok(image)
    }
}
