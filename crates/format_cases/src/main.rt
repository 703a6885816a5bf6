//! The program `format_cases`: it reads mount files and images of programs, as the files that its words name write
//! them, and compares what each comes to.
//!
//! The lines of a file are those of `read_cases`. A block writes a mount file, or from a line `image NAME` on it is
//! about the bytes of an image.
//!
//! - A line that begins with two spaces is a line of the mount file, and one that begins with `+` a text of it with no
//!   newline. `fill N BYTE` adds a byte so many times, `bytes BYTE ..` these, `times N TEXT` a text so many times, and
//!   `each FROM TO TEXT` a text for each number, which stands in the place of `#`. In texts behind a word `\n` is a
//!   newline.
//! - The first `...` is a gap: `with TEXT` puts a text there and tells the fault, and `put TEXT` tells nothing.
//! - `fault` is the first fault, or `none`; `mounts.rt` has the questions about a file that is read. `cut LINE` adds a
//!   line byte by byte, and tells the fault of the file that ends behind each of them, as runs: `1..8 Toml, 9..10
//!   Field`.
//! - Of an image (`images.rt`) `with FIELD = N, ..` changes fields by their names in elf(5), and tells the fault; `put`
//!   tells nothing. Each begins with the image as it was named. `cuts` tells the faults of its beginnings, as runs.
//!
//! Proved: the functions here are safe, and end. What the bytes come to is proved of `mount_file` and `elf_image`.
//!
//! Not said: that the cases are enough.
#![tactic(auto)]

mod blocks;
mod drafts;
mod fields;
mod images;
mod mounts;
mod runs;
mod texts;

use blocks::Block;
use read_cases::do_all;
use std::process::ExitCode;

fn main(rt: HostRuntime) -> ExitCode {
    let mut block = Block::new(rt.alloc());
    do_all(&rt, &mut block)
}
