//! The files of a program's cases, done in order.

use crate::bad::Bad;
use crate::cases::Cases;
use crate::line::{Line, expecting, setting_up};
use std::process::ExitCode;
use std::{env, fs};

/// How many lines of a file expected something, and how many lines failed.
#[derive(Clone, Copy)]
struct Tally {
    cases: u64,
    failed: u64,
}

/// A line of a file, and its number there.
#[derive(Clone, Copy)]
struct Place<'a> {
    file: &'a str,
    number: usize,
    text: &'a str,
}

/// Shows a line that failed, and what came.
fn show(rt: &HostRuntime, place: Place<'_>, came: &str) -> Result<(), Bad> {
    let file = place.file;
    let number = place.number;
    let text = place.text;
    println!(rt; "{file}:{number}: {text}\n  came: {came}")?;
    eprintln!(rt; "{file}:{number}: {text}\n  came: {came}")?;
    Ok(())
}

/// Whether a case comes to what it has to; what it came to is in `came`.
fn is_well<C: Cases>(
    rt: &HostRuntime,
    cases: &mut C,
    line: Line<'_>,
    came: &mut String,
) -> Result<bool, Bad> {
    came.clear();
    cases.answer(rt, line.case, came)?;
    Ok((came.as_str() == line.expected) == line.is_to_meet)
}

/// Does a line, and counts it.
fn do_line<C: Cases>(
    rt: &HostRuntime,
    cases: &mut C,
    place: Place<'_>,
    tally: &mut Tally,
    came: &mut String,
) -> Result<(), Bad> {
    let line = match expecting(place.text) {
        Some(line) => {
            tally.cases = tally.cases.saturating_add(1);
            line
        }
        None => setting_up(place.text),
    };
    if is_well(rt, cases, line, came)? {
        return Ok(());
    }
    tally.failed = tally.failed.saturating_add(1);
    show(rt, place, came.as_str())
}

/// Does the lines of a file's text.
fn do_lines<C: Cases>(
    rt: &HostRuntime,
    cases: &mut C,
    file: &str,
    text: &str,
) -> Result<Tally, Bad> {
    let mut tally = Tally {
        cases: 0,
        failed: 0,
    };
    let mut came = String::new(rt.alloc());
    cases.begin(rt)?;
    for (index, text) in text.lines().enumerate() {
        let number = index.saturating_add(1);
        if text.is_empty() {
            cases.begin(rt)?;
        } else if !text.starts_with('#') {
            let place = Place { file, number, text };
            do_line(rt, cases, place, &mut tally, &mut came)?;
        }
    }
    Ok(tally)
}

/// Does a file, and shows its counts; how many of its lines failed.
fn do_file<C: Cases>(rt: &HostRuntime, cases: &mut C, file: &str) -> Result<u64, Bad> {
    let text = fs::read_to_string(rt, file)?;
    let tally = do_lines(rt, cases, file, text.as_str())?;
    println!(rt; "{file}: {} cases, {} failed", tally.cases, tally.failed)?;
    Ok(tally.failed)
}

fn do_files<C: Cases>(rt: &HostRuntime, cases: &mut C) -> Result<u64, Bad> {
    let mut failed = 0_u64;
    for file in env::args(rt)?.skip(1) {
        failed = failed.saturating_add(do_file(rt, cases, file.as_str())?);
    }
    Ok(failed)
}

/// Does the files that the program's words name, in their order: the whole of a program of cases.
pub fn do_all<C: Cases>(rt: &HostRuntime, cases: &mut C) -> ExitCode {
    match do_files(rt, cases) {
        Ok(0) => ExitCode::SUCCESS,
        Ok(_) => ExitCode::FAILURE,
        Err(bad) => {
            let _ = eprintln!(rt; "{bad:?}");
            ExitCode::from(2)
        }
    }
}
