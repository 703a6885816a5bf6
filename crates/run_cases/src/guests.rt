//! Guests: words in a file, made into an image.

use read_cases::{Bad, parted};
use sn_vectors::image_of;
use std::alloc::Global;
use std::fs;

/// The words of a guest: the first eight digits of each line.
fn words_of(alloc: Global, text: &str) -> Result<Vec<u32>, Bad> {
    let mut words = Vec::new(alloc);
    for line in text.lines() {
        match u32::from_str_radix(parted(line).0, 16) {
            Ok(word) => words.push(word)?,
            Err(_) => return Err(Bad::Setup),
        }
    }
    Ok(words)
}

/// The image of the guest whose words are in that file of `guests`.
pub fn guest(rt: &HostRuntime, name: &str) -> Result<Vec<u8>, Bad> {
    let path = format!(in rt.alloc(); "guests/{name}")?;
    let text = fs::read_to_string(rt, path.as_str())?;
    let words = words_of(rt.alloc(), text.as_str())?;
    Ok(image_of(rt.alloc(), words.as_slice())?)
}
