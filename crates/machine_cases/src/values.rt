//! What words are decoded to, and what instructions compute, compare and store.

use crate::instrs::tell_instr;
use crate::numbers::{two, word};
use read_cases::{Bad, number, parted};
use rv_alu::{alu, is_taken};
use rv_atomic::amo;
use rv_table::{Instr, Reg, decode, low_word, signed_word};

/// What a function answers of an instruction and two numbers.
fn compute(verb: &str, instr: &Instr, a: u64, b: u64, came: &mut String) -> Result<(), Bad> {
    match verb {
        "alu" => write!(came, "{:#x}", alu(instr, a, b))?,
        "taken" => write!(came, "{}", is_taken(instr, a, b))?,
        _ => write!(came, "{:#x}", amo(instr, a, b))?,
    }
    Ok(())
}

fn register(text: &str, came: &mut String) -> Result<(), Bad> {
    match u8::from_str_radix(text, 10) {
        Ok(number) if number < 32 => write!(came, "{}", Reg::new(number).number())?,
        _ => came.push_str("unread")?,
    }
    Ok(())
}

fn low(text: &str, came: &mut String) -> Result<(), Bad> {
    match number(text) {
        Some(number) => write!(came, "{:#x} {}", low_word(number), signed_word(number))?,
        None => came.push_str("unread")?,
    }
    Ok(())
}

/// Does a case that has an instruction's word.
fn of_word(verb: &str, rest: &str, came: &mut String) -> Result<(), Bad> {
    let (code, numbers) = parted(rest);
    match (word(code), two(numbers)) {
        (Some(code), None) if verb == "decode" => Ok(tell_instr(came, &decode(code))?),
        (Some(code), Some((a, b))) if verb != "decode" => compute(verb, &decode(code), a, b, came),
        _ => Ok(came.push_str("unread")?),
    }
}

/// Does a case of a value.
pub fn answer(verb: &str, rest: &str, came: &mut String) -> Result<(), Bad> {
    match verb {
        "register" => register(rest, came),
        "low" => low(rest, came),
        _ => of_word(verb, rest, came),
    }
}
