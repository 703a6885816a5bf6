//! The file of an image, and what is asked about it.
//!
//! - `image guest`, `image two_segments`, `image hello`: the images of `sn_vectors`.
//! - `put FIELD = N, ..`: the image as it was named, with other fields. `with FIELD = N, ..`: this, and its fault.
//! - `fault`: the first fault, or `none`, and what it is read to where that differs; `cuts`: the fault of each of its
//!   beginnings.
//! - `entry`, `segments`, `headers`: where it starts, how many segments, how many program headers and where in memory.
//! - `segment N`: its address, its size and its rights; `holds N FROM TO`: whether its bytes are those of the file from
//!   one place up to another.

use crate::fields::change;
use crate::runs::Runs;
use elf_image::{Image, ImageFault, Segment, SegmentRights, image_fault, read_image};
use read_cases::{Bad, parted};
use sn_vectors::images::{GUEST, HELLO, TWO_SEGMENTS};
use std::alloc::Global;

/// The bytes of an image as it is named, and as they are now. There are none where none is named.
pub struct ImageFile {
    named: Vec<u8>,
    file: Vec<u8>,
}

/// Lets both go by one call.
impl Drop for ImageFile {
    fn drop(self) {
        let ImageFile { named: _, file: _ } = self;
    }
}

/// A question about a file that is read. Places of segments are counted from 0 here, and from 1 in a case.
#[derive(Clone, Copy)]
enum Question {
    Entry,
    Segments,
    Headers,
    Segment(usize),
    Holds {
        place: usize,
        from: usize,
        to: usize,
    },
}

fn decimal(text: &str) -> Option<usize> {
    usize::from_str_radix(text, 10).ok()
}

/// `PLACE FROM TO`
fn holds(text: &str) -> Option<Question> {
    let (place, rest) = text.split_once(' ')?;
    let (from, to) = rest.split_once(' ')?;
    Some(Question::Holds {
        place: decimal(place)?.checked_sub(1)?,
        from: decimal(from)?,
        to: decimal(to)?,
    })
}

fn question_of(verb: &str, rest: &str) -> Option<Question> {
    match (verb, rest) {
        ("entry", "") => Some(Question::Entry),
        ("segments", "") => Some(Question::Segments),
        ("headers", "") => Some(Question::Headers),
        ("segment", place) => Some(Question::Segment(decimal(place)?.checked_sub(1)?)),
        ("holds", text) => holds(text),
        _ => None,
    }
}

fn tell_fault(came: &mut String, fault: Option<ImageFault>) -> Result<(), Bad> {
    match fault {
        Some(fault) => write!(came, "{fault:?}")?,
        None => came.push_str("none")?,
    }
    Ok(())
}

/// The fault that is told, and the one with which it isn't read, where that is another.
fn tell_faults(alloc: Global, came: &mut String, file: &[u8]) -> Result<(), Bad> {
    let told = image_fault(file);
    let read = read_image(alloc, file).err();
    tell_fault(came, told)?;
    if read != told {
        came.push_str(" but read ")?;
        tell_fault(came, read)?;
    }
    Ok(())
}

fn tell_cuts(alloc: Global, came: &mut String, file: &[u8]) -> Result<(), Bad> {
    let mut runs = Runs::new(alloc);
    let mut fault = String::new(alloc);
    for length in 0..file.len() {
        fault.clear();
        tell_fault(&mut fault, image_fault(&file[..length]))?;
        runs.add(length, fault.as_str(), came)?;
    }
    runs.end(came)
}

fn letter(is_so: bool, letter: char) -> char {
    if is_so { letter } else { '-' }
}

fn tell_rights(came: &mut String, rights: SegmentRights) -> Result<(), Bad> {
    came.push(letter(rights.read, 'r'))?;
    came.push(letter(rights.write, 'w'))?;
    came.push(letter(rights.execute, 'x'))?;
    Ok(())
}

fn tell_segment(came: &mut String, segment: &Segment) -> Result<(), Bad> {
    write!(came, "{:#x} size {} ", segment.address, segment.size)?;
    tell_rights(came, segment.rights)
}

/// The segment at a place.
fn tell_segment_at(came: &mut String, segments: &[Segment], place: usize) -> Result<(), Bad> {
    match segments.get(place) {
        Some(segment) => tell_segment(came, segment),
        None => {
            came.push_str("none")?;
            Ok(())
        }
    }
}

/// Whether the bytes of the segment at a place are those of a file from one place up to another.
fn tell_holds(
    came: &mut String,
    segments: &[Segment],
    place: usize,
    bytes: Option<&[u8]>,
) -> Result<(), Bad> {
    match (segments.get(place), bytes) {
        (Some(segment), Some(bytes)) => {
            write!(came, "{}", segment.bytes.as_slice() == bytes)?;
        }
        _ => came.push_str("none")?,
    }
    Ok(())
}

/// The answer to a question about a file that is read.
fn tell(came: &mut String, image: &Image, file: &[u8], asks: Question) -> Result<(), Bad> {
    let segments = image.segments.as_slice();
    match asks {
        Question::Entry => write!(came, "{:#x}", image.entry)?,
        Question::Segments => write!(came, "{}", segments.len())?,
        Question::Headers => write!(came, "{} at {:#x}", image.header_count, image.headers)?,
        Question::Segment(place) => tell_segment_at(came, segments, place)?,
        Question::Holds { place, from, to } => {
            tell_holds(came, segments, place, file.get(from..to))?;
        }
    }
    Ok(())
}

fn tell_read(alloc: Global, came: &mut String, file: &[u8], asks: Question) -> Result<(), Bad> {
    match read_image(alloc, file) {
        Ok(image) => tell(came, &image, file, asks),
        Err(fault) => tell_fault(came, Some(fault)),
    }
}

impl ImageFile {
    /// None is named.
    pub fn new(alloc: Global) -> ImageFile {
        ImageFile {
            named: Vec::new(alloc),
            file: Vec::new(alloc),
        }
    }

    /// Forgets the one that is named.
    pub fn clear(&mut self) {
        self.named.clear();
        self.file.clear();
    }

    /// Whether one is named.
    pub fn is_named(&self) -> bool {
        !self.named.is_empty()
    }

    /// Names one; adds `unread` where there is none of that name.
    pub fn name(&mut self, name: &str, came: &mut String) -> Result<(), Bad> {
        self.clear();
        match name {
            "guest" => self.named.extend_from_slice(&GUEST)?,
            "two_segments" => self.named.extend_from_slice(&TWO_SEGMENTS)?,
            "hello" => self.named.extend_from_slice(&HELLO)?,
            _ => came.push_str("unread")?,
        }
        self.file.extend_from_slice(self.named.as_slice())?;
        Ok(())
    }

    /// Makes it the one that is named, with other fields. Whether these are fields.
    fn put(&mut self, changes: &str) -> Result<bool, Bad> {
        self.file.clear();
        self.file.extend_from_slice(self.named.as_slice())?;
        for text in changes.split(", ") {
            if !change(self.file.as_mut_slice(), text) {
                return Ok(false);
            }
        }
        Ok(true)
    }

    /// Adds the answer to a question about the image as it is: `unread` where it is none.
    fn ask(&self, alloc: Global, verb: &str, rest: &str, came: &mut String) -> Result<(), Bad> {
        match (verb, rest) {
            ("fault", "") => return tell_faults(alloc, came, self.file.as_slice()),
            ("cuts", "") => return tell_cuts(alloc, came, self.file.as_slice()),
            _ => (),
        }
        match question_of(verb, rest) {
            Some(asks) => tell_read(alloc, came, self.file.as_slice(), asks),
            None => {
                came.push_str("unread")?;
                Ok(())
            }
        }
    }

    /// Does a case about an image, and adds what it came to: `unread` where it is none.
    pub fn answer(
        &mut self,
        alloc: Global,
        verb: &str,
        rest: &str,
        came: &mut String,
    ) -> Result<(), Bad> {
        match verb {
            "put" | "with" if !self.put(rest)? => {
                came.push_str("unread")?;
                Ok(())
            }
            "put" => Ok(()),
            "with" => tell_faults(alloc, came, self.file.as_slice()),
            _ => self.ask(alloc, verb, rest, came),
        }
    }
}
