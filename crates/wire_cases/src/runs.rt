//! Runs of lengths that have one fault.

use read_cases::Bad;

/// The run that is being told: from which length on, and its fault.
#[derive(Clone, Copy)]
pub struct Run {
    pub from: usize,
    pub fault: &'static str,
}

/// Tells a run that ends before a length.
pub fn put_run(text: &mut String, run: Run, end: usize) -> Result<(), Bad> {
    if run.from > 0 {
        text.push_str(", ")?;
    }
    write!(
        text,
        "{}..{} {}",
        run.from,
        end.saturating_sub(1),
        run.fault
    )?;
    Ok(())
}
