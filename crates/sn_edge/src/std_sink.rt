//! A writer of the system, such as the standard output, as a sink.

ghost use Rattle.std.specs.Prelude.{◌≡◌, ◌<◌, ◌≤◌, length, take, IfOk};
ghost use Rattle.std.specs.Io.KnownBytes.{Appends};
ghost use Rattle.sn_base.specs.Faults.{HasCause};
ghost use Rattle.sn_edge.specs.Errors.{has_failed};

use crate::system::failure;
use crate::{EdgeErr, Sink};
use std::io;
use std::io::{ErrorKind, Write};

/// A writer as a sink, such as the standard output by `io::writer(&rt)`. It tells nothing.
///
/// It flushes after each piece, so that what it took is out. An error of the kind `OutOfMemory` is want of
/// memory, and any other is a fault, as is a writer that takes no byte of a piece which has some: write(2),
/// ERRORS. After an error of the flush some of the piece may be out.
#[derive(Drop)]
pub struct StdSink<W: Write> {
    out: W,
    faults: u64,
}

impl<W: Write> StdSink<W> {
    /// A sink over a writer.
    pub fn new(out: W) -> Self
        ensures { ⟦<StdSink<W> as Sink>⟧.count result ≡ 0 }
    {
        StdSink { out, faults: 0 }
    }
}

/// Writes some of the bytes, and lets none of those wait in a buffer.
fn write_through<W: Write>(out: &mut W, bytes: &[u8]) -> io::Result<usize>
    ensures bound { IfOk result (λ n. n ≤ length bytes.now) }
    ensures some { IfOk result (λ n. 0 < length bytes.now → 0 < n) }
    ensures bytes { IfOk result (λ n. Appends (W.contents out.old) (W.contents out.new) (take n bytes.now)) }
{
    let count = out.write(bytes)?;
    if count == 0 && !bytes.is_empty() {
        let message = "the writer took no byte";
        return Err(io::Error::new(ErrorKind::WriteZero, message));
    }
    out.flush()?;
    Ok(count)
}

impl<W: Write> Sink for StdSink<W> {
    ghost use Rattle.std.specs.Prelude.{None};

    ghost count = { λ sink. sink.faults };

    ghost told = { λ _. None };

    fn faults(&self) -> u64 {
        self.faults
    }

    fn write(&mut self, bytes: &[u8]) -> Result<usize, EdgeErr>
        ensures bound { IfOk result (λ n. n ≤ length bytes.now) }
        ensures some { IfOk result (λ n. 0 < length bytes.now → 0 < n) }
        ensures cause { HasCause (has_failed result) self.old.faults self.new.faults }

        // The writer got what was taken, as far as it is known what it holds.
        ensures bytes { IfOk result (λ n.
            Appends (W.contents self.old.out) (W.contents self.new.out) (take n bytes.now)) }
    {
        match write_through(&mut self.out, bytes) {
            Ok(count) => Ok(count),
            Err(error) => Err(failure(&mut self.faults, &error)),
        }
    }
}
