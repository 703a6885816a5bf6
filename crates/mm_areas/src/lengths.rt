//! Bytes as whole pages: lengths that round up, and addresses and lengths that no call takes.

ghost use Rattle.std.specs.Prelude.{◌≡◌};
ghost use Rattle.mm_areas.specs.Mappings.{pages_in, is_no_range, is_no_length};

/// The size of a page, in bytes: getpagesize(2); RISC-V Privileged ISA 20211203, 4.4, Sv39.
pub const PAGE_SIZE: u64 = 4_096;

/// The page that the address space ends at: its addresses are below 2^38.
pub(crate) const END: u64 = 0x400_0000;

/// How many pages so many bytes take.
pub(crate) fn pages_in(length: u64) -> u64
    ensures { result ≡ pages_in length }
{
    length.div_ceil(PAGE_SIZE)
}

/// Whether an address is no multiple of a page's bytes, or the end above that of the address space.
pub(crate) fn is_no_range(address: u64, length: u64) -> bool
    ensures { result ≡ is_no_range address length }
{
    address % PAGE_SIZE != 0 || address / PAGE_SIZE + pages_in(length) > END
}

/// Whether no mapping has that length.
pub(crate) fn is_no_length(length: u64) -> bool
    ensures { result ≡ is_no_length length }
{
    length == 0 || pages_in(length) > 1 << 51
}
