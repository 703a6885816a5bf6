//! Maps and lists of numbers, and sums that stop at the greatest count.
//!
//! - `map insert KEY VALUE`, `replace KEY VALUE` of a key that is there, `change KEY VALUE`: `changed` or `none`;
//!   `get KEY`, `remove KEY`: the value or `none`; `contains KEY`, `is_empty`, `len`, `keys`, `first_above KEY`;
//! - `list from NUMBER ..`, `push NUMBER`, `extend NUMBER ..`, `set INDEX NUMBER`, `truncate COUNT`, `pop`, `at INDEX`,
//!   `get INDEX`, `len`, `is_empty`, `items`;
//! - `sum A B`: their sum.

use crate::notation::{count, space, tell_bool, tell_number, two};
use read_cases::{Bad, number, parted};
use sn_base::{List, Map, capped_add};
use std::alloc::Global;

/// A map and a list, and the numbers of a case.
#[derive(Drop)]
pub struct Containers {
    map: Map<u64>,
    list: List<u64>,
    noted: Vec<u64>,
}

/// Tells numbers, or `none`.
fn tell_numbers(came: &mut String, numbers: &[u64]) -> Result<bool, Bad> {
    if numbers.is_empty() {
        came.push_str("none")?;
    }
    for number in numbers {
        space(came)?;
        write!(came, "{number}")?;
    }
    Ok(true)
}

/// Adds numbers between single spaces; whether each is one.
fn add_numbers(numbers: &mut Vec<u64>, text: &str) -> Result<bool, Bad> {
    for text in text.split(' ') {
        match number(text) {
            Some(number) => numbers.push(number)?,
            None => return Ok(false),
        }
    }
    Ok(true)
}

/// Sets what a key has that is there; whether it is.
fn replace(map: &mut Map<u64>, key: u64, value: u64) -> bool {
    let is_there = map.contains(key);
    if is_there {
        map.replace(key, value);
    }
    is_there
}

/// Changes what a key has, where it lies.
fn change(map: &mut Map<u64>, key: u64, value: u64) -> &'static str {
    match map.get_mut(key) {
        Some(place) => {
            *place = value;
            "changed"
        }
        None => "none",
    }
}

/// Does a case that has a key and a value.
fn do_entry(map: &mut Map<u64>, verb: &str, text: &str, came: &mut String) -> Result<bool, Bad> {
    let Some((key, value)) = two(text) else {
        return Ok(false);
    };
    match verb {
        "insert" => map.insert(key, value)?,
        "replace" => return Ok(replace(map, key, value)),
        _ => came.push_str(change(map, key, value))?,
    }
    Ok(true)
}

/// Does a case that has a key.
fn do_key(map: &mut Map<u64>, verb: &str, text: &str, came: &mut String) -> Result<bool, Bad> {
    let Some(key) = number(text) else {
        return Ok(false);
    };
    match verb {
        "get" => tell_number(came, map.get(key).copied())?,
        "remove" => tell_number(came, map.remove(key))?,
        "contains" => tell_bool(came, map.contains(key))?,
        "first_above" => tell_number(came, map.first_above(key))?,
        _ => return Ok(false),
    }
    Ok(true)
}

fn tell_keys(alloc: Global, map: &Map<u64>, came: &mut String) -> Result<bool, Bad> {
    let keys = map.keys(alloc)?;
    tell_numbers(came, keys.as_slice())
}

/// Sets an item of a list; whether it is there.
fn set(list: &mut List<u64>, text: &str) -> bool {
    let (index, item) = parted(text);
    let (Some(index), Some(item)) = (count(index), number(item)) else {
        return false;
    };
    let is_there = index < list.len();
    if is_there {
        list.set(index, item);
    }
    is_there
}

/// Tells the item at an index, which has to be there.
fn tell_item(list: &List<u64>, index: usize, came: &mut String) -> Result<bool, Bad> {
    if index >= list.len() {
        return Ok(false);
    }
    write!(came, "{}", list.at(index))?;
    Ok(true)
}

/// Does a case that has an index, a count or an item.
fn do_index(list: &mut List<u64>, verb: &str, text: &str, came: &mut String) -> Result<bool, Bad> {
    let Some(index) = count(text) else {
        return Ok(false);
    };
    match verb {
        "push" => list.push(index as u64)?,
        "truncate" => list.truncate(index),
        "get" => tell_number(came, list.get(index).copied())?,
        "at" => return tell_item(list, index, came),
        _ => return Ok(false),
    }
    Ok(true)
}

impl Containers {
    /// Nothing.
    pub fn new(alloc: Global) -> Containers {
        Containers {
            map: Map::new(alloc),
            list: List::new(alloc),
            noted: Vec::new(alloc),
        }
    }

    /// Does a case on the map; whether it is one.
    pub fn do_map(&mut self, alloc: Global, case: &str, came: &mut String) -> Result<bool, Bad> {
        let (verb, rest) = parted(case);
        match verb {
            "insert" | "replace" | "change" => return do_entry(&mut self.map, verb, rest, came),
            "keys" => return tell_keys(alloc, &self.map, came),
            "len" => write!(came, "{}", self.map.len())?,
            "is_empty" => tell_bool(came, self.map.is_empty())?,
            _ => return do_key(&mut self.map, verb, rest, came),
        }
        Ok(true)
    }

    /// Makes the list of numbers, or adds them to it; whether each is one.
    fn do_numbers(&mut self, alloc: Global, verb: &str, text: &str) -> Result<bool, Bad> {
        self.noted.clear();
        if !add_numbers(&mut self.noted, text)? {
            return Ok(false);
        }
        if verb == "from" {
            self.list = List::from_slice(alloc, self.noted.as_slice())?;
        } else {
            self.list.extend_from_slice(self.noted.as_slice())?;
        }
        Ok(true)
    }

    /// Does a case on the list; whether it is one.
    pub fn do_list(&mut self, alloc: Global, case: &str, came: &mut String) -> Result<bool, Bad> {
        let (verb, rest) = parted(case);
        match verb {
            "from" | "extend" => return self.do_numbers(alloc, verb, rest),
            "set" => return Ok(set(&mut self.list, rest)),
            "pop" => tell_number(came, self.list.pop())?,
            "len" => write!(came, "{}", self.list.len())?,
            "is_empty" => tell_bool(came, self.list.is_empty())?,
            "items" => return tell_numbers(came, self.list.as_slice()),
            _ => return do_index(&mut self.list, verb, rest, came),
        }
        Ok(true)
    }
}

/// Tells the sum of two counts; whether there are two.
pub fn do_sum(case: &str, came: &mut String) -> Result<bool, Bad> {
    let Some((one, other)) = two(case) else {
        return Ok(false);
    };
    write!(came, "{}", capped_add(one, other))?;
    Ok(true)
}
