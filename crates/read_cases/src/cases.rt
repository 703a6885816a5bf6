//! What does the cases of a program.

use crate::bad::Bad;

/// A state over which the cases of a block are done, one after another.
pub trait Cases {
    /// Begins a block anew: at the head of a file, and at each empty line.
    fn begin(&mut self, rt: &HostRuntime) -> Result<(), Bad>;

    /// Does a case, and adds to `came` what it came to: `unread` where it is none.
    fn answer(&mut self, rt: &HostRuntime, case: &str, came: &mut String) -> Result<(), Bad>;
}
