//! What a case comes to, as text.

use mm_areas::{AreaErr, AreaFault, Rights, SharedPage};
use rv_table::{Area, Instr, MemErr};
use sn_base::Memory;
use std::alloc::AllocError;

/// What a verb comes to.
#[derive(Clone, Copy)]
pub enum Answer {
    /// Nothing is told.
    Silent,
    Word(&'static str),
    Truth(bool),
    /// A number in hexadecimal digits.
    Number(u64),
    /// One in decimal digits.
    Count(u64),
    May(Rights),
    Area(Area),
    Shared(SharedPage),
    /// The first byte that may not be accessed.
    Fault(u64),
    /// The area that isn't handed in.
    Missing(Area),
}

pub const OK: Answer = Answer::Word("ok");

const NONE: Answer = Answer::Word("none");

const MEMORY: Answer = Answer::Word("memory");

pub fn of_number(number: Option<u64>) -> Answer {
    match number {
        Some(number) => Answer::Number(number),
        None => NONE,
    }
}

pub fn of_byte(byte: Option<u8>) -> Answer {
    match byte {
        Some(byte) => Answer::Number(u64::from(byte)),
        None => NONE,
    }
}

pub fn of_count(count: Option<usize>) -> Answer {
    match count {
        Some(count) => Answer::Count(count as u64),
        None => NONE,
    }
}

pub fn of_truth(truth: Option<bool>) -> Answer {
    match truth {
        Some(truth) => Answer::Truth(truth),
        None => NONE,
    }
}

pub fn of_rights(rights: Option<Rights>) -> Answer {
    match rights {
        Some(rights) => Answer::May(rights),
        None => NONE,
    }
}

pub fn of_shared(page: Option<SharedPage>) -> Answer {
    match page {
        Some(page) => Answer::Shared(page),
        None => NONE,
    }
}

pub fn of_memory(done: Result<(), Memory>) -> Answer {
    match done {
        Ok(()) => OK,
        Err(_) => MEMORY,
    }
}

fn of_refusal(refusal: MemErr) -> Answer {
    match refusal {
        MemErr::Fault { addr } => Answer::Fault(addr),
        MemErr::Shared(area) => Answer::Missing(area),
        MemErr::Memory => MEMORY,
    }
}

pub fn of_access(done: Result<(), MemErr>) -> Answer {
    match done {
        Ok(()) => OK,
        Err(refusal) => of_refusal(refusal),
    }
}

pub fn of_load(number: Result<u64, MemErr>) -> Answer {
    match number {
        Ok(number) => Answer::Number(number),
        Err(refusal) => of_refusal(refusal),
    }
}

fn of_fault(fault: AreaFault) -> Answer {
    match fault {
        AreaFault::Invalid => Answer::Word("invalid"),
        AreaFault::Hole => Answer::Word("hole"),
        AreaFault::Limit => Answer::Word("limit"),
        AreaFault::NoRange => Answer::Word("no_range"),
    }
}

fn of_error(error: AreaErr) -> Answer {
    match error {
        AreaErr::Fault(fault) => of_fault(fault),
        AreaErr::Memory => MEMORY,
    }
}

pub fn of_unmapping(done: Result<(), AreaErr>) -> Answer {
    match done {
        Ok(()) => OK,
        Err(error) => of_error(error),
    }
}

pub fn of_protection(done: Result<(), AreaFault>) -> Answer {
    match done {
        Ok(()) => OK,
        Err(fault) => of_fault(fault),
    }
}

pub fn of_place(page: Result<u64, AreaFault>) -> Answer {
    match page {
        Ok(page) => Answer::Number(page),
        Err(fault) => of_fault(fault),
    }
}

pub fn of_mapping(address: Result<u64, AreaErr>) -> Answer {
    match address {
        Ok(address) => Answer::Number(address),
        Err(error) => of_error(error),
    }
}

pub fn of_break(address: Result<u64, Memory>) -> Answer {
    match address {
        Ok(address) => Answer::Number(address),
        Err(_) => MEMORY,
    }
}

/// A decoded word, by the name of its instruction.
pub fn of_word(word: Option<Instr>) -> Answer {
    match word {
        Some(Instr::Addi { .. }) => Answer::Word("addi"),
        Some(Instr::Sub { .. }) => Answer::Word("sub"),
        Some(Instr::Ecall) => Answer::Word("ecall"),
        Some(Instr::Illegal) => Answer::Word("illegal"),
        Some(_) => Answer::Word("other"),
        None => NONE,
    }
}

/// Rights by their letters.
fn letters(rights: Rights) -> &'static str {
    match (
        rights.allows(Rights::READ),
        rights.allows(Rights::WRITE),
        rights.allows(Rights::EXECUTE),
    ) {
        (false, false, false) => "-",
        (true, false, false) => "r",
        (false, true, false) => "w",
        (true, true, false) => "rw",
        (false, false, true) => "x",
        (true, false, true) => "rx",
        (false, true, true) => "wx",
        (true, true, true) => "rwx",
    }
}

/// Adds what a verb came to, behind a space where something is told already.
pub fn tell(came: &mut String, answer: Answer) -> Result<(), AllocError> {
    if !came.is_empty() {
        came.push(' ')?;
    }
    match answer {
        Answer::Silent => Ok(()),
        Answer::Word(word) => came.push_str(word),
        Answer::Truth(truth) => write!(came, "{truth}"),
        Answer::Number(number) => write!(came, "{number:#x}"),
        Answer::Count(count) => write!(came, "{count}"),
        Answer::May(rights) => came.push_str(letters(rights)),
        Answer::Area(area) => write!(came, "{}:{}", area.place, area.index),
        Answer::Shared(page) => write!(
            came,
            "{}:{}+{}",
            page.area.place, page.area.index, page.number
        ),
        Answer::Fault(address) => write!(came, "fault={address:#x}"),
        Answer::Missing(area) => write!(came, "shared={}:{}", area.place, area.index),
    }
}

/// Adds bytes, two digits each.
pub fn tell_bytes(came: &mut String, bytes: &[u8]) -> Result<(), AllocError> {
    for byte in bytes {
        if !came.is_empty() {
            came.push(' ')?;
        }
        write!(came, "{byte:02x}")?;
    }
    Ok(())
}
