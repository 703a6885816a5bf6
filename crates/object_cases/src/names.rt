//! Names, paths, routes, folders and texts. In a text `\0` is a byte 0, and `*N` behind it says how often its last byte
//! stands there.
//!
//! - `name fault TEXT`: what is wrong of it, or `none`; `name same NAME NAME`: whether they are the same, either way;
//! - `path parts PATH`: its parts, or `none`; `path same PATH PATH`: whether these are the same, either way;
//! - `route of PATH` makes the block's route of a path; `route names`, `route copied`: its names, and those of a copy;
//!   `route len`, `route is_empty`, `route is INDEX NAME`: whether that name stands there;
//! - `folder NAME`: how the copy of a folder lies that is below the root, `folder_here NAME`: or of one that isn't;
//! - `text from TEXT` makes the block's text, `text add TEXT` adds to it, `text copy` keeps a copy, `text clear`;
//!   `text bytes`, `text copied`: its bytes, and those of the copy.

use crate::notation::{add_text, count, space, tell_bool, tell_bytes};
use read_cases::{Bad, parted};
use sn_text::{
    Folder, Name, NameFault, Route, Text, is_same_name, name_fault, name_of, parts, same_names,
};
use std::alloc::Global;

/// A route, a text and a copy of it, and the bytes of a case.
#[derive(Drop)]
pub struct Names {
    route: Route,
    text: Text,
    copy: Text,
    noted: Vec<u8>,
}

fn fault_name(fault: NameFault) -> &'static str {
    match fault {
        NameFault::Empty => "empty",
        NameFault::Long => "long",
        NameFault::Slash => "slash",
        NameFault::Nul => "nul",
        NameFault::Dot => "dot",
        NameFault::Memory => "memory",
    }
}

fn tell_characters(came: &mut String, bytes: &[u8]) -> Result<(), Bad> {
    for byte in bytes {
        came.push(char::from(*byte))?;
    }
    Ok(())
}

fn tell_parts(path: &str, came: &mut String) -> Result<bool, Bad> {
    for part in parts(path.as_bytes()) {
        space(came)?;
        tell_characters(came, part)?;
    }
    if came.is_empty() {
        came.push_str("none")?;
    }
    Ok(true)
}

fn tell_names(came: &mut String, names: &[Name]) -> Result<bool, Bad> {
    for name in names {
        space(came)?;
        tell_characters(came, name.as_bytes())?;
    }
    if names.is_empty() {
        came.push_str("none")?;
    }
    Ok(true)
}

/// Adds the parts of a path to a route; whether each is a name.
fn push_parts(alloc: Global, route: &mut Route, path: &str) -> Result<bool, Bad> {
    for part in parts(path.as_bytes()) {
        match name_of(alloc, part) {
            Ok(name) => route.push(name)?,
            Err(NameFault::Memory) => return Err(Bad::Memory),
            Err(_) => return Ok(false),
        }
    }
    Ok(true)
}

/// The route of a path, whose parts are names.
fn route_of(alloc: Global, path: &str) -> Result<Route, Bad> {
    let mut route = Route::new(alloc);
    if push_parts(alloc, &mut route, path)? {
        Ok(route)
    } else {
        Err(Bad::Setup)
    }
}

/// Tells what a question answers either way.
fn tell_ways(came: &mut String, one: bool, other: bool) -> Result<bool, Bad> {
    tell_bool(came, one)?;
    came.push_str(" ")?;
    tell_bool(came, other)?;
    Ok(true)
}

fn same_name(alloc: Global, text: &str, came: &mut String) -> Result<bool, Bad> {
    let (one, other) = parted(text);
    let one = route_of(alloc, one)?;
    let other = route_of(alloc, other)?;
    match (one.names(), other.names()) {
        ([one], [other]) => tell_ways(came, is_same_name(one, other), is_same_name(other, one)),
        _ => Ok(false),
    }
}

fn same_path(alloc: Global, text: &str, came: &mut String) -> Result<bool, Bad> {
    let (one, other) = parted(text);
    let one = route_of(alloc, one)?;
    let other = route_of(alloc, other)?;
    let (names, others) = (one.names(), other.names());
    tell_ways(came, same_names(names, others), same_names(others, names))
}

/// Tells how a folder's copy lies.
fn tell_folder(alloc: Global, is_rooted: bool, path: &str, came: &mut String) -> Result<bool, Bad> {
    let route = route_of(alloc, path)?;
    if route.is_empty() {
        return Ok(false);
    }
    let folder = Folder::new(is_rooted, route);
    let copy = folder.copy(alloc)?;
    came.push_str(if copy.is_rooted() { "rooted" } else { "here" })?;
    tell_names(came, copy.route().names())
}

fn tell_copied(alloc: Global, route: &Route, came: &mut String) -> Result<bool, Bad> {
    let copy = route.copy(alloc)?;
    tell_names(came, copy.names())
}

/// Tells whether a name stands at an index.
fn tell_is(route: &Route, text: &str, came: &mut String) -> Result<bool, Bad> {
    let (index, name) = parted(text);
    let Some(index) = count(index) else {
        return Ok(false);
    };
    match route.get(index) {
        Some(found) => tell_bool(came, found.is(name.as_bytes()))?,
        None => came.push_str("none")?,
    }
    Ok(true)
}

impl Names {
    /// No names and no bytes.
    pub fn new(alloc: Global) -> Names {
        Names {
            route: Route::new(alloc),
            text: Text::new(alloc),
            copy: Text::new(alloc),
            noted: Vec::new(alloc),
        }
    }

    fn note(&mut self, text: &str) -> Result<bool, Bad> {
        self.noted.clear();
        add_text(&mut self.noted, text)
    }

    fn tell_fault(&mut self, text: &str, came: &mut String) -> Result<bool, Bad> {
        if !self.note(text)? {
            return Ok(false);
        }
        came.push_str(match name_fault(self.noted.as_slice()) {
            Some(fault) => fault_name(fault),
            None => "none",
        })?;
        Ok(true)
    }

    fn do_route(&mut self, alloc: Global, case: &str, came: &mut String) -> Result<bool, Bad> {
        let (verb, rest) = parted(case);
        match verb {
            "of" => self.route = route_of(alloc, rest)?,
            "names" => return tell_names(came, self.route.names()),
            "copied" => return tell_copied(alloc, &self.route, came),
            "len" => write!(came, "{}", self.route.len())?,
            "is_empty" => tell_bool(came, self.route.is_empty())?,
            "is" => return tell_is(&self.route, rest, came),
            _ => return Ok(false),
        }
        Ok(true)
    }

    fn change_text(&mut self, alloc: Global, verb: &str, text: &str) -> Result<bool, Bad> {
        if !self.note(text)? {
            return Ok(false);
        }
        match verb {
            "from" => self.text = Text::from_slice(alloc, self.noted.as_slice())?,
            "add" => self.text.extend(self.noted.as_slice())?,
            "copy" => self.copy = self.text.copy(alloc)?,
            "clear" => self.text.clear(),
            _ => return Ok(false),
        }
        Ok(true)
    }

    fn do_text(&mut self, alloc: Global, case: &str, came: &mut String) -> Result<bool, Bad> {
        let (verb, rest) = parted(case);
        match verb {
            "bytes" => tell_bytes(came, self.text.as_bytes())?,
            "copied" => tell_bytes(came, self.copy.as_bytes())?,
            _ => return self.change_text(alloc, verb, rest),
        }
        Ok(true)
    }

    fn do_name(&mut self, alloc: Global, case: &str, came: &mut String) -> Result<bool, Bad> {
        let (verb, rest) = parted(case);
        match verb {
            "fault" => self.tell_fault(rest, came),
            "same" => same_name(alloc, rest, came),
            _ => Ok(false),
        }
    }

    /// Does a case on an object; whether it is one.
    pub fn do_case(
        &mut self,
        alloc: Global,
        object: &str,
        case: &str,
        came: &mut String,
    ) -> Result<bool, Bad> {
        match object {
            "name" => self.do_name(alloc, case, came),
            "path" => do_path(alloc, case, came),
            "route" => self.do_route(alloc, case, came),
            "folder" => tell_folder(alloc, true, case, came),
            "folder_here" => tell_folder(alloc, false, case, came),
            _ => self.do_text(alloc, case, came),
        }
    }
}

fn do_path(alloc: Global, case: &str, came: &mut String) -> Result<bool, Bad> {
    let (verb, rest) = parted(case);
    match verb {
        "parts" => tell_parts(rest, came),
        "same" => same_path(alloc, rest, came),
        _ => Ok(false),
    }
}
