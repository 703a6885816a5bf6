//! Names, routes and folders of cases.

use read_cases::Bad;
use sn_text::{Folder, Name, Route, name_of};
use std::alloc::Global;

/// The folder of the machine, where the program runs, in which all that cases make stands.
pub const MADE: &str = "made";

fn digit(byte: u8) -> Option<u8> {
    match byte {
        b'0'..=b'9' => Some(byte - b'0'),
        b'a'..=b'f' => Some(byte - b'a' + 10),
        _ => None,
    }
}

/// Adds what stands behind a `\x`: two digits of a byte, and text.
fn add_part(bytes: &mut Vec<u8>, part: &[u8]) -> Result<(), Bad> {
    let [high, low, rest @ ..] = part else {
        return Err(Bad::Setup);
    };
    let (Some(high), Some(low)) = (digit(*high), digit(*low)) else {
        return Err(Bad::Setup);
    };
    bytes.push((high << 4) | low)?;
    bytes.extend_from_slice(rest)?;
    Ok(())
}

/// Adds the bytes of a text, in which `\xNN` stands for one.
fn add_text(bytes: &mut Vec<u8>, text: &str) -> Result<(), Bad> {
    for (index, part) in text.split("\\x").enumerate() {
        if index == 0 {
            bytes.extend_from_slice(part.as_bytes())?;
        } else {
            add_part(bytes, part.as_bytes())?;
        }
    }
    Ok(())
}

/// The bytes of a text, in which `\xNN` stands for one.
pub fn bytes_of(alloc: Global, text: &str) -> Result<Vec<u8>, Bad> {
    let mut bytes = Vec::new(alloc);
    match add_text(&mut bytes, text) {
        Ok(()) => Ok(bytes),
        Err(bad) => Err(bad),
    }
}

/// The name that a text is.
pub fn name_from(alloc: Global, text: &str) -> Result<Name, Bad> {
    let bytes = bytes_of(alloc, text)?;
    name_of(alloc, bytes.as_slice()).map_err(|_| Bad::Setup)
}

/// Adds the names of a path, of which a slash parts each from the next; of no text there are none.
fn push_names(alloc: Global, route: &mut Route, path: &str) -> Result<(), Bad> {
    if path.is_empty() {
        return Ok(());
    }
    for part in path.split('/') {
        route.push(name_from(alloc, part)?)?;
    }
    Ok(())
}

/// The route of a path.
pub fn route_of(alloc: Global, path: &str) -> Result<Route, Bad> {
    let mut route = Route::new(alloc);
    match push_names(alloc, &mut route, path) {
        Ok(()) => Ok(route),
        Err(bad) => Err(bad),
    }
}

/// The route of what stands under a name.
pub fn route_below(alloc: Global, route: &Route, name: &Name) -> Result<Route, Bad> {
    let mut below = route.copy(alloc)?;
    below.push(name.copy(alloc)?)?;
    Ok(below)
}

/// The folder of a path, below the one of all that cases make.
pub fn folder_of(alloc: Global, path: &str) -> Result<Folder, Bad> {
    let mut route = route_of(alloc, MADE)?;
    push_names(alloc, &mut route, path)?;
    if route.is_empty() {
        return Err(Bad::Setup);
    }
    Ok(Folder::new(false, route))
}
