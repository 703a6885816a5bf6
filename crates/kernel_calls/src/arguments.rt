//! The strings that an image is started with.

ghost use Rattle.std.specs.Prelude.{◌≡◌};
ghost use Rattle.kernel_model.specs.opening.Arguments.{is_too_long};

use image_load::is_too_big;
use mount_file::Program;

/// Whether the arguments and the environment of a program are too many or too long: then execve answers E2BIG
/// (execve(2)).
#[tactic(auto, using(crate::proofs::Strings::too_long))]
pub fn is_too_long(program: &Program) -> bool
    ensures { result ≡ is_too_long program.now.args program.now.env }
{
    is_too_big(program.args.as_slice(), program.env.as_slice())
}
