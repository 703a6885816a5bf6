//! Things by the names that entries gave them.

use kernel_model::Named;
use sn_base::Memory;
use std::alloc::Global;
use std::test::Fail;

/// What stands under a name.
fn value(names: &Named<u8>, place: u64, index: u32) -> Option<u8> {
    names.get(place, index).copied()
}

/// Puts values under names: each row has a place, an index and the value.
fn insert(alloc: Global, names: &mut Named<u8>, rows: &[(u64, u32, u8)]) -> Result<(), Memory> {
    for (place, index, value) in rows {
        names.insert(alloc, *place, *index, *value)?;
    }
    Ok(())
}

/// Puts 2, 3 and 4 under names of two places, and gives back what was there, the last first.
fn put_and_give_back(alloc: Global, names: &mut Named<u8>) -> Result<[Option<u8>; 3], Memory> {
    let first = names.put(alloc, 7, 0, 2)?;
    let beside = names.put(alloc, 7, 1, 3)?;
    let apart = names.put(alloc, 8, 0, 4)?;
    let there = values(names);
    names.give_back(8, 0, apart);
    names.give_back(7, 1, beside);
    names.give_back(7, 0, first);
    Ok(there)
}

/// What stands under three names of two places.
fn values(names: &Named<u8>) -> [Option<u8>; 3] {
    [value(names, 7, 0), value(names, 7, 1), value(names, 8, 0)]
}

/// Things by their places and indices: the fourth takes the place of the first.
#[rattlefmt::skip]
const ROWS: &[(u64, u32, u8)] = &[
    (7, 0, 1),
    (7, 1, 2),
    (8, 0, 3),
    (7, 0, 4),
    (u64::MAX, u32::MAX, 5),
];

/// What stands under the greatest name, and under two that nothing has.
fn at_the_ends(names: &Named<u8>) -> [Option<u8>; 3] {
    [
        value(names, u64::MAX, u32::MAX),
        value(names, 8, 1),
        value(names, 0, 7),
    ]
}

/// Changes two of them, and answers whether a third name has nothing that could be.
fn change(names: &mut Named<u8>) -> bool {
    if names.contains(7, 1) {
        names.replace(7, 1, 6);
    }
    if let Some(value) = names.get_mut(8, 0) {
        *value = 9;
    }
    names.get_mut(8, 1).is_none()
}

#[test]
fn things_of_one_entry_have_names_of_their_own(rt: HostRuntime) -> Result<(), Fail> {
    let mut names: Named<u8> = Named::new(rt.alloc());
    insert(rt.alloc(), &mut names, ROWS)?;
    let put = (values(&names), at_the_ends(&names));
    assert_eq!(rt; put, ([Some(4), Some(2), Some(3)], [Some(5), None, None]));
    let is_missing = change(&mut names);
    let removed = (names.remove(7, 1), names.remove(7, 1));
    let left = values(&names);
    assert_eq!(rt; (is_missing, removed), (true, (Some(6), None)));
    assert_eq!(rt; left, [Some(4), None, Some(9)]);
    Ok(())
}

#[test]
fn what_was_put_is_given_back(rt: HostRuntime) -> Result<(), Fail> {
    let mut names: Named<u8> = Named::new(rt.alloc());
    names.insert(rt.alloc(), 7, 0, 1)?;
    let there = put_and_give_back(rt.alloc(), &mut names)?;
    let left = values(&names);
    assert_eq!(rt;
        (there, left),
        ([Some(2), Some(3), Some(4)], [Some(1), None, None])
    );
    Ok(())
}
