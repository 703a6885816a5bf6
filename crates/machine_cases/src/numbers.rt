//! Numbers and bytes in text.

use read_cases::number;
use rv_table::Area;

/// Puts a number into a place; whether it is one.
pub fn put(place: &mut u64, text: &str) -> bool {
    match number(text) {
        Some(number) => {
            *place = number;
            true
        }
        None => false,
    }
}

/// Two numbers between which a space stands.
pub fn two(text: &str) -> Option<(u64, u64)> {
    let (first, second) = text.split_once(' ')?;
    Some((number(first)?, number(second)?))
}

/// The name of a shared area: two numbers between which a colon stands.
pub fn area(text: &str) -> Option<Area> {
    let (place, index) = text.split_once(':')?;
    Some(Area {
        place: number(place)?,
        index: u32::try_from(number(index)?).ok()?,
    })
}

/// A task's number.
pub fn task_number(text: &str) -> Option<u32> {
    u32::from_str_radix(text, 10).ok()
}

/// An instruction's word: eight hexadecimal digits.
pub fn word(text: &str) -> Option<u32> {
    if text.len() != 8 {
        return None;
    }
    u32::from_str_radix(text, 16).ok()
}

/// Puts sixteen bytes into a place, the first digits first; whether they are so many.
pub fn put_bytes(place: &mut [u8; 16], text: &str) -> bool {
    match u128::from_str_radix(text, 16) {
        Ok(number) if text.len() == 32 => {
            *place = number.to_be_bytes();
            true
        }
        _ => false,
    }
}
