//! The verbs of runs of bytes in an address space.
//!
//! A long run is told by two patterns: the byte of the one at an address differs from page to page, and no page repeats
//! at a power of two; the other has nowhere the same byte.

use crate::answers::{Answer, OK, of_access, of_memory, tell, tell_bytes};
use crate::hands::Hands;
use crate::words::{Place, Words};
use mm_frames::Frames;
use mm_space::Space;
use read_cases::Bad;
use rv_table::MemErr;
use std::alloc::{AllocError, Global};

/// The longest run.
const LONGEST: usize = 1 << 22;

/// The byte of the pattern at an address.
fn pattern(address: u64) -> u8 {
    ((address / 4096 % 16 * 13 + address % 4096) % 251) as u8
}

/// What a byte of a run is.
#[derive(Clone, Copy, PartialEq, Eq)]
enum Kind {
    Pattern,
    Other,
    Byte(u8),
}

fn kind_of(address: u64, byte: u8) -> Kind {
    let pattern = pattern(address);
    if byte == pattern {
        Kind::Pattern
    } else if byte == 255 - pattern {
        Kind::Other
    } else {
        Kind::Byte(byte)
    }
}

/// Bytes of one kind, one behind another.
#[derive(Clone, Copy)]
struct Stretch {
    kind: Kind,
    count: u64,
}

fn tell_stretch(came: &mut String, stretch: Stretch) -> Result<(), AllocError> {
    let count = stretch.count;
    if count == 0 {
        return Ok(());
    }
    if !came.is_empty() {
        came.push(' ')?;
    }
    match stretch.kind {
        Kind::Pattern => write!(came, "pattern*{count}"),
        Kind::Other => write!(came, "other*{count}"),
        Kind::Byte(byte) => write!(came, "{byte:02x}*{count}"),
    }
}

/// Tells bytes from an address on by the patterns.
fn tell_stretches(came: &mut String, at: u64, bytes: &[u8]) -> Result<(), AllocError> {
    let mut stretch = Stretch {
        kind: Kind::Pattern,
        count: 0,
    };
    let mut address = at;
    for byte in bytes {
        let kind = kind_of(address, *byte);
        if kind != stretch.kind {
            tell_stretch(came, stretch)?;
            stretch = Stretch { kind, count: 0 };
        }
        stretch.count = stretch.count.saturating_add(1);
        address = address.wrapping_add(1);
    }
    tell_stretch(came, stretch)
}

/// Puts the bytes of a pattern from an address on in the place of others.
fn fill(run: &mut Vec<u8>, at: u64, count: usize, is_other: bool) -> Result<(), Bad> {
    run.clear();
    let mut address = at;
    for _ in 0..count.min(LONGEST) {
        let byte = pattern(address);
        run.push(if is_other { 255 - byte } else { byte })?;
        address = address.wrapping_add(1);
    }
    Ok(())
}

/// Puts the pattern from an address on into pages.
pub fn fill_pages(
    alloc: Global,
    frames: &mut Frames,
    at: u64,
    run: &mut Vec<u8>,
) -> Result<Option<Answer>, Bad> {
    let mut address = at;
    for page in 0..frames.len() {
        fill(run, address, 4096, false)?;
        if page < frames.len() && run.len() <= 4096 {
            frames.write_bytes(alloc, page, 0, run)?;
        }
        address = address.wrapping_add(4096);
    }
    Ok(Some(Answer::Silent))
}

/// Reads so many bytes; where that is refused, whether it left the buffer as it was.
fn read(
    alloc: Global,
    space: &Space,
    hands: &Hands,
    (at, count): (u64, usize),
    run: &mut Vec<u8>,
) -> Result<Result<(), MemErr>, Bad> {
    *run = vec![in alloc; 0xee; count.min(LONGEST)]?;
    Ok(space.read(&hands.handed, at, run))
}

/// Whether each byte is still what it was before a run was read there.
fn are_untouched(bytes: &[u8]) -> bool {
    bytes.iter().all(|byte| *byte == 0xee)
}

/// Reads a run, and tells its bytes, by the patterns where that is asked.
fn tell_read(
    alloc: Global,
    space: &Space,
    hands: &Hands,
    words: &mut Words<'_>,
    run: &mut Vec<u8>,
    came: &mut String,
    is_long: bool,
) -> Result<bool, Bad> {
    let (Some(at), Some(count)) = (words.number(), words.count()) else {
        return Ok(false);
    };
    match read(alloc, space, hands, (at, count), run)? {
        Ok(()) if is_long => tell_stretches(came, at, run)?,
        Ok(()) => tell_bytes(came, run)?,
        Err(refusal) => {
            tell(came, of_access(Err(refusal)))?;
            if !are_untouched(run) {
                came.push_str(" touched")?;
            }
        }
    }
    Ok(true)
}

/// Tells the bytes that are lent of a page.
fn tell_piece(
    space: &Space,
    hands: &Hands,
    words: &mut Words<'_>,
    came: &mut String,
) -> Result<bool, Bad> {
    let (Some(at), Some(count)) = (words.number(), words.count()) else {
        return Ok(false);
    };
    tell_bytes(came, space.piece(&hands.handed, at, count))?;
    Ok(true)
}

/// Does a verb that tells bytes, where it is one.
pub fn do_read(
    alloc: Global,
    space: &Space,
    hands: &Hands,
    verb: &str,
    words: &mut Words<'_>,
    run: &mut Vec<u8>,
    came: &mut String,
) -> Result<bool, Bad> {
    match verb {
        "read" => tell_read(alloc, space, hands, words, run, came, false),
        "read_long" => tell_read(alloc, space, hands, words, run, came, true),
        "piece" => tell_piece(space, hands, words, came),
        _ => Ok(false),
    }
}

/// Puts so many bytes of a pattern.
pub fn write_pattern(
    alloc: Global,
    space: &mut Space,
    hands: &mut Hands,
    words: &mut Words<'_>,
    run: &mut Vec<u8>,
    is_other: bool,
) -> Result<Option<Answer>, Bad> {
    let (Some(place), Some(count)) = (words.place(), words.count()) else {
        return Ok(None);
    };
    fill(run, place.at, count, is_other)?;
    let done = space.write(alloc, &mut hands.handed, place.task, place.at, run);
    Ok(Some(of_access(done)))
}

/// Puts a run in two parts, of which the first has so many bytes, once its pages have their bytes for themselves.
fn put_two(
    alloc: Global,
    space: &mut Space,
    hands: &mut Hands,
    place: Place,
    first: &[u8],
    second: &[u8],
) -> Answer {
    if first.len() > LONGEST || second.len() > LONGEST {
        return Answer::Word("unread");
    }
    let count = first.len() + second.len();
    match space.own_run(alloc, &mut hands.handed, place.at, count) {
        Ok(()) => {
            space.put_two(&mut hands.handed, place.task, place.at, first, second);
            OK
        }
        Err(err) => of_memory(Err(err)),
    }
}

/// Puts a run of bytes at an address, in two parts where it is told how long the first is.
pub fn do_run(
    alloc: Global,
    space: &mut Space,
    hands: &mut Hands,
    place: Place,
    first: Option<usize>,
    run: &[u8],
) -> Option<Answer> {
    let Some(length) = first else {
        let done = space.write(alloc, &mut hands.handed, place.task, place.at, run);
        return Some(of_access(done));
    };
    if length > run.len() {
        return None;
    }
    let (first, second) = run.split_at(length);
    Some(put_two(alloc, space, hands, place, first, second))
}

/// Puts the words of instructions from an address on, eight hexadecimal digits each.
pub fn write_code(
    alloc: Global,
    space: &mut Space,
    hands: &mut Hands,
    words: &mut Words<'_>,
    run: &mut Vec<u8>,
) -> Result<Option<Answer>, Bad> {
    let Some(place) = words.place() else {
        return Ok(None);
    };
    run.clear();
    for word in words.left.split(' ') {
        let Ok(code) = u32::from_str_radix(word, 16) else {
            return Ok(None);
        };
        run.extend_from_slice(&code.to_le_bytes())?;
    }
    let done = space.write(alloc, &mut hands.handed, place.task, place.at, run);
    Ok(Some(of_access(done)))
}
