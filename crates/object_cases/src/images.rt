//! Images of programs, as the bytes of a block.
//!
//! - `image WORDS`: those of the image of a program with these words, each of eight hexadecimal digits, or the sample
//!   program `writes_nothing`, `stores` or `atomics`, or `nops COUNT`;
//! - `guest`: those of the image that stands written out.

use crate::records::Records;
use read_cases::{Bad, number, parted};
use sn_base::List;
use sn_vectors::image_of;
use sn_vectors::images::GUEST;
use sn_vectors::programs::{ATOMICS, STORES, WRITES_NOTHING};
use sn_vectors::words::NOP;
use std::alloc::Global;

/// Adds the words that a text has; whether each is one.
fn add_words(words: &mut Vec<u32>, text: &str) -> Result<bool, Bad> {
    for text in text.split(' ') {
        match u32::from_str_radix(text, 16) {
            Ok(word) => words.push(word)?,
            Err(_) => return Ok(false),
        }
    }
    Ok(true)
}

fn add_nops(words: &mut Vec<u32>, times: &str) -> Result<bool, Bad> {
    let Some(times) = number(times) else {
        return Ok(false);
    };
    for _ in 0..times {
        words.push(NOP)?;
    }
    Ok(true)
}

/// Adds the words of a program; whether there is one.
fn add_program(words: &mut Vec<u32>, text: &str) -> Result<bool, Bad> {
    match parted(text) {
        ("writes_nothing", "") => words.extend_from_slice(WRITES_NOTHING.words)?,
        ("stores", "") => words.extend_from_slice(STORES.words)?,
        ("atomics", "") => words.extend_from_slice(ATOMICS.words)?,
        ("nops", times) => return add_nops(words, times),
        _ => return add_words(words, text),
    }
    Ok(true)
}

fn put_image(alloc: Global, records: &mut Records, text: &str) -> Result<bool, Bad> {
    let mut words = Vec::new(alloc);
    let is_program = add_program(&mut words, text)?;
    let image = image_of(alloc, words.as_slice())?;
    records.bytes = List::from_vec(image);
    Ok(is_program)
}

/// Does a case; whether it is one.
pub fn do_image(alloc: Global, records: &mut Records, verb: &str, text: &str) -> Result<bool, Bad> {
    if verb == "guest" {
        records.bytes = List::from_slice(alloc, &GUEST)?;
        return Ok(true);
    }
    put_image(alloc, records, text)
}
