//! The line that tells what doing a trace again came to.

ghost use Rattle.std.specs.Prelude.{OnOk};
ghost use Rattle.std.specs.Io.KnownBytes.{Appends};
ghost use Rattle.run_replay.specs.Lines.{replay_line};

use crate::replays::Replayed;
use std::io;
use std::io::Write;

/// Writes the line of an answer, a row an answer. It takes no memory.
#[rattlefmt::skip]
pub fn write_replayed<W: Write>(out: &mut W, replayed: Replayed) -> io::Result<()>
    ensures { OnOk result (Appends (W.contents out.old) (W.contents out.new) (replay_line replayed)) }
{
    match replayed {
        Replayed::Same { entries } => writeln!(out, "replay: {entries} entries done again"),
        Replayed::Unopened { task } => writeln!(out, "replay: task {task} is not opened so"),
        Replayed::Step { done } => writeln!(out, "replay: {done} entries done again, the next is no step"),
        Replayed::Text { same } => writeln!(out, "replay: the text is another behind {same} bytes"),
        Replayed::Beyond => writeln!(out, "replay: too many tasks or entries"),
    }
}
