//! The words of a case, read one after another.

ghost use Rattle.std.specs.Prelude.{IfSome};
ghost use Rattle.rv_table.specs.Words.{IsWidth};

use mm_areas::{Backing, Rights};
use read_cases::{Bad, add_bytes, number, parted};
use rv_table::Area;

/// Words between single spaces, of which the first is the next to be read.
#[derive(Clone, Copy)]
pub struct Words<'a> {
    pub left: &'a str,
}

/// An address, and the task that does something there.
#[derive(Clone, Copy)]
pub struct Place {
    pub task: u32,
    pub at: u64,
}

/// A text as a number below 2^32.
fn small(text: &str) -> Option<u32> {
    u32::from_str_radix(text, 10).ok()
}

/// A width that an access has.
fn width_of(text: &str) -> Option<u8>
    ensures { IfSome result (λ width. IsWidth width) }
{
    match text {
        "1" => Some(1),
        "2" => Some(2),
        "4" => Some(4),
        "8" => Some(8),
        _ => None,
    }
}

/// Rights by their letters, in any order: `r` to read, `w` to write, `x` to execute, and `-` for none.
fn rights_of(text: &str) -> Rights {
    Rights::of(text.contains('r'), text.contains('w'), text.contains('x'))
}

/// The name of a shared area: `PLACE:INDEX`.
pub fn area_of(text: &str) -> Option<Area> {
    let (place, index) = text.split_once(':')?;
    Some(Area {
        place: number(place)?,
        index: small(index)?,
    })
}

/// `TASK@ADDRESS`.
pub fn place_of(text: &str) -> Option<Place> {
    let (task, at) = text.split_once('@')?;
    Some(Place {
        task: small(task)?,
        at: number(at)?,
    })
}

impl<'a> Words<'a> {
    /// The words of a text.
    pub fn of(text: &'a str) -> Words<'a> {
        Words { left: text }
    }

    /// The next word, or nothing where none is left.
    pub fn word(&mut self) -> Option<&'a str> {
        if self.left.is_empty() {
            return None;
        }
        let (word, left) = parted(self.left);
        self.left = left;
        Some(word)
    }

    /// The next word as a number.
    pub fn number(&mut self) -> Option<u64> {
        number(self.word()?)
    }

    /// The same, of bytes, pages or things.
    pub fn count(&mut self) -> Option<usize> {
        Some(self.number()? as usize)
    }

    /// The same, below 256.
    pub fn byte(&mut self) -> Option<u8> {
        let number = self.number()?;
        if number < 256 {
            Some(number as u8)
        } else {
            None
        }
    }

    /// The next word as a width that an access has.
    pub fn width(&mut self) -> Option<u8>
        ensures { IfSome result (λ width. IsWidth width) }
    {
        width_of(self.word()?)
    }

    pub fn rights(&mut self) -> Option<Rights> {
        Some(rights_of(self.word()?))
    }

    pub fn area(&mut self) -> Option<Area> {
        area_of(self.word()?)
    }

    pub fn place(&mut self) -> Option<Place> {
        place_of(self.word()?)
    }

    /// The next word as an address that is asked for: `any` where none is.
    pub fn asked(&mut self) -> Option<Option<u64>> {
        match self.word()? {
            "any" => Some(None),
            word => Some(Some(number(word)?)),
        }
    }

    /// What new pages are made of: zeros where no word is left.
    pub fn backing(&mut self) -> Option<Backing> {
        if self.left.is_empty() {
            return Some(Backing::Zeros);
        }
        Some(Backing::Of(self.area()?))
    }
}

/// Adds a byte so many times.
fn add_times(bytes: &mut Vec<u8>, pair: &str, times: &str) -> Result<bool, Bad> {
    let (Ok(byte), Some(times)) = (u8::from_str_radix(pair, 16), number(times)) else {
        return Ok(false);
    };
    for _ in 0..times {
        bytes.push(byte)?;
    }
    Ok(true)
}

/// Puts the bytes that words say in the place of others: two hexadecimal digits each, or `PAIR*TIMES`. Whether each
/// word is so.
pub fn read_run(bytes: &mut Vec<u8>, text: &str) -> Result<bool, Bad> {
    bytes.clear();
    if text.is_empty() {
        return Ok(true);
    }
    for word in text.split(' ') {
        let is_read = match word.split_once('*') {
            Some((pair, times)) => add_times(bytes, pair, times)?,
            None => add_bytes(bytes, word)?,
        };
        if !is_read {
            return Ok(false);
        }
    }
    Ok(true)
}
