//! Values on the heap, and lists of what isn't plain.

use sn_base::{Boxed, List};
use std::test::Fail;

#[test]
fn a_list_is_made_of_a_vector_and_gives_it_back(rt: HostRuntime) -> Result<(), Fail> {
    let mut list = List::with_capacity(rt.alloc(), 2)?;
    assert!(rt; list.is_empty());
    list.push(vec![in rt.alloc(); 7]?)?;
    let back = List::from_vec(list.into_vec());
    assert_eq!(rt; back.len(), 1);
    Ok(())
}

#[test]
fn a_boxed_value_is_the_value(rt: HostRuntime) -> Result<(), Fail> {
    let boxed = Boxed::new(rt.alloc(), [7_u8, 9])?;
    assert_eq!(rt; boxed.into_inner(), [7, 9]);
    Ok(())
}
