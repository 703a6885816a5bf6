//! Accesses that ask for a shared area, and others.

use area_laws::trying;
use guest_access::asks_for_area;
use kernel_model::{GuestSpace, locality};
use mm_areas::{AreaErr, Areas, Backing, Rights};
use mm_space::Space;
use rv_table::Area;
use std::alloc::Global;
use std::test::Fail;

/// A heap of two pages, a private page, and a shared one above it.
const HEAP: u64 = 69_632;

const LOWER: u64 = 0x3f_ffef_e000;

const UPPER: u64 = 0x3f_ffef_f000;

/// A mapping that may be read and written.
fn map(
    alloc: Global,
    space: &mut Space,
    at: u64,
    length: u64,
    backing: Backing,
) -> Result<(), AreaErr> {
    let rights = Rights::READ | Rights::WRITE;
    let _ = space.map(alloc, Some(at), length, rights, backing)?;
    Ok(())
}

/// A space with these.
fn space(alloc: Global) -> Result<GuestSpace, AreaErr> {
    let mut space = Space::of(alloc, Areas::new(alloc, 4096));
    let area = Area { place: 1, index: 0 };
    map(alloc, &mut space, HEAP, 8_192, Backing::Zeros)?;
    map(alloc, &mut space, LOWER, 4_096, Backing::Zeros)?;
    map(alloc, &mut space, UPPER, 4_096, Backing::Of(area))?;
    Ok(GuestSpace { space })
}

/// A right, an address and a count: whether the access asks for a shared area.
#[rattlefmt::skip]
const ASKS: &[(Rights, u64, u64, bool)] = &[
    (Rights::READ, HEAP, 8_192, false),
    (Rights::READ, LOWER, 4_096, false),
    (Rights::READ, LOWER, 4_097, true),
    (Rights::READ, UPPER + 4_095, 1, true),
    (Rights::WRITE, UPPER, 4_096, true),
    (Rights::WRITE, UPPER, 0, false),
    (Rights::READ, 0, 1, false),
];

/// That each of these is so.
fn expect_asks(alloc: Global, space: &GuestSpace) -> Result<(), Fail> {
    for &(right, at, count, asks) in ASKS {
        if asks_for_area(alloc, space, right, at, count) != asks {
            return Err(Fail::new(format_args!("{count} bytes at {at:x}")));
        }
    }
    Ok(())
}

#[test]
fn an_access_asks_for_the_areas_of_its_shared_pages(rt: HostRuntime) -> Result<(), Fail> {
    locality();
    trying();
    let space = space(rt.alloc()).ok().ok_or("no space")?;
    expect_asks(rt.alloc(), &space)
}
