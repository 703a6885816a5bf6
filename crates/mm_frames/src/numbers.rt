//! Numbers and runs of bytes in a page: each is one move.

ghost use Rattle.std.specs.Prelude.{◌≡◌, ◌+◌, ◌<◌, ◌≤◌, ◌%◌, ◌↔◌, length, slice_set, SomeIff, IsTrue};
ghost use Rattle.std.specs.Bool.{OnTrue, OnFalse};
ghost use Rattle.mm_frames.specs.Numbers.{IsInPage, little_number_at, with_number, with_run};

/// A page's bytes are 4,096: for a proof alone, it does nothing.
pub(crate) fn is_whole(bytes: &[u8; 4096])
    ensures { length bytes.now ≡ 4096 }
{
    let _ = bytes;
}

/// The number of so many bytes from an offset on, or `None` where the page doesn't reach so far or no access is so
/// wide.
#[inline(always)]
pub(crate) fn number_at(bytes: &[u8; 4096], offset: usize, width: u8) -> Option<u64>
    ensures { SomeIff result (IsInPage offset width) (little_number_at bytes.now offset width) }
{
    match width {
        8 if offset <= 4088 => Some(double_at(bytes, offset)),
        4 if offset <= 4092 => Some(u64::from(word_at(bytes, offset))),
        2 if offset <= 4094 => Some(u64::from(half_at(bytes, offset))),
        1 if offset <= 4095 => Some(u64::from(bytes[offset])),
        _ => None,
    }
}

/// Whether the page reaches so far and an access is so wide.
#[inline(always)]
pub(crate) fn is_in_page(offset: usize, width: u8) -> bool
    ensures { IsTrue result ↔ (IsInPage offset width) }
{
    match width {
        8 => offset <= 4088,
        4 => offset <= 4092,
        2 => offset <= 4094,
        1 => offset <= 4095,
        _ => false,
    }
}

#[inline(always)]
fn half_at(bytes: &[u8; 4096], offset: usize) -> u16
    requires { offset + 2 ≤ 4096 }
    ensures { result ≡ little_number_at bytes.now offset 2 }
{
    u16::from_le_bytes([bytes[offset], bytes[offset + 1]])
}

#[inline(always)]
pub(crate) fn word_at(bytes: &[u8; 4096], offset: usize) -> u32
    requires { offset + 4 ≤ 4096 }
    ensures { result ≡ little_number_at bytes.now offset 4 }
{
    u32::from_le_bytes([
        bytes[offset],
        bytes[offset + 1],
        bytes[offset + 2],
        bytes[offset + 3],
    ])
}

#[inline(always)]
fn double_at(bytes: &[u8; 4096], offset: usize) -> u64
    requires { offset + 8 ≤ 4096 }
    ensures { result ≡ little_number_at bytes.now offset 8 }
{
    u64::from_le_bytes([
        bytes[offset],
        bytes[offset + 1],
        bytes[offset + 2],
        bytes[offset + 3],
        bytes[offset + 4],
        bytes[offset + 5],
        bytes[offset + 6],
        bytes[offset + 7],
    ])
}

/// Puts a byte at an offset.
pub(crate) fn put_byte(bytes: &mut [u8; 4096], offset: usize, value: u8)
    requires { offset < 4096 }
    ensures bytes { bytes.new ≡ slice_set bytes.old offset value }
    ensures len { length bytes.new ≡ 4096 }
{
    bytes[offset] = value;
}

/// Puts a run of bytes from an offset on.
pub(crate) fn put_bytes(bytes: &mut [u8; 4096], offset: usize, run: &[u8])
    requires { offset + length run.now ≤ 4096 }
    ensures bytes { bytes.new ≡ with_run bytes.old offset run.now }
    ensures len { length bytes.new ≡ 4096 }
{
    bytes[offset..offset + run.len()].copy_from_slice(run);
}

/// Puts so many of a number's bytes from an offset on, and answers whether it has: not where the page doesn't reach so
/// far, or no access is so wide.
#[inline(always)]
pub(crate) fn put_number(bytes: &mut [u8; 4096], offset: usize, width: u8, value: u64) -> bool
    ensures fits { IsTrue result ↔ (IsInPage offset width) }
    ensures bytes { OnTrue result (bytes.new ≡ with_number bytes.old offset width value) }
    ensures unchanged { OnFalse result (bytes.new ≡ bytes.old) }
    ensures len { length bytes.new ≡ 4096 }
{
    match width {
        8 if offset <= 4088 => put_double(bytes, offset, value),
        4 if offset <= 4092 => put_word(bytes, offset, value),
        2 if offset <= 4094 => put_half(bytes, offset, value),
        1 if offset <= 4095 => put_single(bytes, offset, value),
        _ => return false,
    }
    true
}

#[inline(always)]
fn put_lowest(bytes: &mut [u8; 4096], offset: usize, value: u64)
    requires { offset < 4096 }
    ensures bytes { bytes.new ≡ slice_set bytes.old offset (value % 256) }
    ensures len { length bytes.new ≡ 4096 }
{
    bytes[offset] = (value % 256) as u8;
}

#[tactic(auto, unfolding(crate::specs::Numbers::with_number))]
#[inline(always)]
fn put_single(bytes: &mut [u8; 4096], offset: usize, value: u64)
    requires { offset < 4096 }
    ensures bytes { bytes.new ≡ with_number bytes.old offset 1 value }
    ensures len { length bytes.new ≡ 4096 }
{
    put_lowest(bytes, offset, value);
}

#[tactic(auto, unfolding(crate::specs::Numbers::with_number))]
#[inline(always)]
fn put_half(bytes: &mut [u8; 4096], offset: usize, value: u64)
    requires { offset + 2 ≤ 4096 }
    ensures bytes { bytes.new ≡ with_number bytes.old offset 2 value }
    ensures len { length bytes.new ≡ 4096 }
{
    put_lowest(bytes, offset + 1, value / 256);
    put_lowest(bytes, offset, value);
}

#[tactic(auto, unfolding(crate::specs::Numbers::with_number))]
#[inline(always)]
fn put_word(bytes: &mut [u8; 4096], offset: usize, value: u64)
    requires { offset + 4 ≤ 4096 }
    ensures bytes { bytes.new ≡ with_number bytes.old offset 4 value }
    ensures len { length bytes.new ≡ 4096 }
{
    let second = value / 256;
    let third = second / 256;
    let fourth = third / 256;
    put_lowest(bytes, offset + 3, fourth);
    put_lowest(bytes, offset + 2, third);
    put_lowest(bytes, offset + 1, second);
    put_lowest(bytes, offset, value);
}

#[tactic(auto, unfolding(crate::specs::Numbers::with_number))]
#[inline(always)]
fn put_double(bytes: &mut [u8; 4096], offset: usize, value: u64)
    requires { offset + 8 ≤ 4096 }
    ensures bytes { bytes.new ≡ with_number bytes.old offset 8 value }
    ensures len { length bytes.new ≡ 4096 }
{
    let second = value / 256;
    let third = second / 256;
    let fourth = third / 256;
    let fifth = fourth / 256;
    let sixth = fifth / 256;
    let seventh = sixth / 256;
    let eighth = seventh / 256;
    put_lowest(bytes, offset + 7, eighth);
    put_lowest(bytes, offset + 6, seventh);
    put_lowest(bytes, offset + 5, sixth);
    put_lowest(bytes, offset + 4, fifth);
    put_lowest(bytes, offset + 3, fourth);
    put_lowest(bytes, offset + 2, third);
    put_lowest(bytes, offset + 1, second);
    put_lowest(bytes, offset, value);
}
