//! Reads of bytes at an offset.

ghost use Rattle.std.specs.Prelude.{◌≡◌, ◌-◌, ◌++◌, length, take, drop, min};

/// Copies bytes from an offset to the front of a buffer, all that are there, up to the buffer's length, and
/// answers how many those are.
pub(crate) fn copy_from(bytes: &[u8], at: u64, buf: &mut [u8]) -> usize
    ensures count { result ≡ min (length buf.old) (length bytes.now - at) }
    ensures bytes { buf.new ≡ take result (drop at bytes.now) ++ drop result buf.old }
{
    if at >= bytes.len() as u64 {
        return 0;
    }
    let rest = &bytes[at as usize..];
    let count = buf.len().min(rest.len());
    buf[..count].copy_from_slice(&rest[..count]);
    count
}
