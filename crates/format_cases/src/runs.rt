//! Answers to one text after another, told as runs of those that are the same.

use read_cases::Bad;
use std::alloc::Global;

/// The answer that came last, to the texts from one length to another. An empty one: none came.
pub struct Runs {
    answer: String,
    first: usize,
    last: usize,
}

/// Lets all of it go by one call.
impl Drop for Runs {
    fn drop(self) {
        let Runs {
            answer: _,
            first: _,
            last: _,
        } = self;
    }
}

impl Runs {
    /// No answer so far.
    pub fn new(alloc: Global) -> Runs {
        Runs {
            answer: String::new(alloc),
            first: 0,
            last: 0,
        }
    }

    /// Takes the answer to the text of a length; tells the run that ends before it, if one does.
    pub fn add(&mut self, length: usize, answer: &str, came: &mut String) -> Result<(), Bad> {
        if self.answer.as_str() != answer {
            self.end(came)?;
            self.answer.clear();
            self.answer.push_str(answer)?;
            self.first = length;
        }
        self.last = length;
        Ok(())
    }

    /// Tells the run that came last.
    pub fn end(&self, came: &mut String) -> Result<(), Bad> {
        if self.answer.is_empty() {
            return Ok(());
        }
        if !came.is_empty() {
            came.push_str(", ")?;
        }
        write!(
            came,
            "{}..{} {}",
            self.first,
            self.last,
            self.answer.as_str()
        )?;
        Ok(())
    }
}
