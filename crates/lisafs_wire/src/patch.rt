//! A number put over four bytes that are there.

ghost use Rattle.std.specs.Prelude.{◌≡◌, ◌+◌, ◌≤◌, ◌++◌, length};
ghost use Rattle.sn_bytes.specs.Fields.{little_bytes};
ghost use Rattle.std.specs.Prelude.{take, drop};

use sn_base::List;

/// Puts a number over the four bytes at an offset.
pub(crate) fn put_over(out: &mut List<u8>, at: usize, number: u32)
    requires { at + 4 ≤ length out.old }
    ensures { out.new ≡ take at out.old ++ (little_bytes 4 number ++ drop (at + 4) out.old) }
{
    let len = out.len();
    prove!(at < len);
    let bytes: [u8; 4] = number.to_le_bytes();
    out.set(at, bytes[0]);
    out.set(at + 1, bytes[1]);
    out.set(at + 2, bytes[2]);
    out.set(at + 3, bytes[3]);
}
