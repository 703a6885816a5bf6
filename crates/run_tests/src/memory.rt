//! The shared area of a guest: its name, and what was stored there.

use crate::turns::left;
use call_table::Processes;
use sn_vectors::programs::STORES_IN_A_SHARED_PAGE;
use std::alloc::Global;
use std::test::Fail;

/// The byte at the begin of the shared area that the call of the second entry made, or `None`.
fn shared_byte(processes: &Processes) -> Option<u8> {
    let made = processes.cells.areas.get(2, 0)?;
    made.area.frames.byte(0, 0)
}

/// The same after so many entries.
fn byte_after(alloc: Global, entries: u64) -> Result<Option<u8>, Fail> {
    let processes = left(alloc, STORES_IN_A_SHARED_PAGE, entries)?;
    Ok(shared_byte(&processes))
}

/// The byte that is there after so many entries.
const BYTES: &[(u64, Option<u8>)] = &[
    (1, None),
    (2, Some(0)),
    (3, Some(0)),
    (4, Some(3)),
    (4096, Some(3)),
];

#[test]
fn a_shared_area_has_the_name_of_its_entry_and_what_was_stored(
    rt: HostRuntime,
) -> Result<(), Fail> {
    for &(entries, byte) in BYTES {
        assert_eq!(rt; byte_after(rt.alloc(), entries)?, byte, "after {entries}");
    }
    Ok(())
}
