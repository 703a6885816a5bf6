//! Names and folders of the tests.

use sn_text::{Folder, Name, Route, name_of};
use std::alloc::Global;
use std::test::Fail;

pub fn name(alloc: Global, text: &str) -> Result<Name, Fail> {
    Ok(name_of(alloc, text.as_bytes())?)
}

fn push_names(alloc: Global, route: &mut Route, path: &str) -> Result<(), Fail> {
    for part in path.split('/') {
        route.push(name(alloc, part)?)?;
    }
    Ok(())
}

/// The folder at a path from the root, or from here.
pub fn folder_from(alloc: Global, rooted: bool, path: &str) -> Result<Folder, Fail> {
    let mut route = Route::new(alloc);
    push_names(alloc, &mut route, path)?;
    if route.is_empty() {
        return Err(Fail::from("a folder has a name"));
    }
    Ok(Folder::new(rooted, route))
}

pub fn folder(alloc: Global, path: &str) -> Result<Folder, Fail> {
    folder_from(alloc, false, path)
}
