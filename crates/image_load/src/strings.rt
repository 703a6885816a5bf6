//! The strings that a program is started with: whether they're too big, how many bytes they take, and those bytes.

ghost use Rattle.std.specs.Prelude.{◌≡◌, ◌↔◌, ◌≤◌, ◌+◌, ◌++◌, min, IsTrue, OnOk};
ghost use Rattle.image_load.specs.Stacks.{IsTooBig, strings_bytes, strings_length, strings_room};

use sn_base::{List, Memory};
use sn_text::Text;

/// How many strings a program may have: execve(2), E2BIG.
pub const MOST_STRINGS: usize = 1_024;

/// How many bytes they may take, with a NUL behind each and eight bytes for the pointer to it.
pub const MOST_STRING_BYTES: usize = 65_536;

/// Whether strings are too many or too long for a program.
pub fn is_too_big(args: &[Text], env: &[Text]) -> bool
    ensures { IsTrue result ↔ IsTooBig args.now env.now }
{
    if args.len() > MOST_STRINGS || env.len() > MOST_STRINGS - args.len() {
        return true;
    }
    capped_room(args) + capped_room(env) > MOST_STRING_BYTES
}

/// How many bytes strings take with the pointers to them, or one more than there may be where it's more.
fn capped_room(strings: &[Text]) -> usize
    ensures { result ≡ min (strings_room strings.now) (MOST_STRING_BYTES + 1) }
{
    let mut room = 0;
    for string in strings {
        room = (room + string.as_bytes().len() + 9).min(MOST_STRING_BYTES + 1);
    }
    room
}

/// How many bytes strings take.
pub(crate) fn strings_length(strings: &[Text]) -> u64
    requires { strings_length strings.now ≤ MOST_STRING_BYTES }
    ensures { result ≡ strings_length strings.now }
{
    let mut length = 0;
    for string in strings {
        length += string.as_bytes().len() as u64 + 1;
    }
    length
}

/// Adds strings at the end, one behind the other, each with its NUL.
pub(crate) fn put_strings(out: &mut List<u8>, strings: &[Text]) -> Result<(), Memory>
    ensures { OnOk result (out.new ≡ out.old ++ strings_bytes strings.now) }
{
    for string in strings {
        out.extend_from_slice(string.as_bytes())?;
        out.push(0)?;
    }
    Ok(())
}
