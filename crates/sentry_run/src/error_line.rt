//! The line on standard error of a run that came to nothing.

ghost use Rattle.std.specs.Prelude.{◌≡◌, OnOk};
ghost use Rattle.std.specs.Io.KnownBytes.{Appends};
ghost use Rattle.sentry_run.specs.ErrorLine.{image_line, line_of, word_of};

use crate::outcome::Fault;
use mount_file::MountFault;
use std::io;
use std::io::Write;

/// Writes the one line of a run that came to nothing to standard error. A run that has its text has no line.
pub fn report(rt: HostRuntime, fault: Fault) -> io::Result<()> {
    write_line(&mut rt.stderr(), fault)
}

/// Writes the line of a cause, a row a cause. It takes no memory.
#[rattlefmt::skip]
pub fn write_line<W: Write>(out: &mut W, fault: Fault) -> io::Result<()>
    ensures { OnOk result (Appends (W.contents out.old) (W.contents out.new) (line_of fault)) }
{
    match fault {
        Fault::Done => write!(out, ""),
        Fault::Usage => writeln!(out, "sentry: usage"),
        Fault::Mounts(reason) => writeln!(out, "sentry: mounts {}", word_of(reason)),
        Fault::Image { task, errno } => write_image(out, task, errno.number()),
        Fault::SourceFault => writeln!(out, "sentry: source"),
        Fault::SinkFault => writeln!(out, "sentry: sink"),
        Fault::Stuck => write!(out, ""),
        Fault::Full => write!(out, ""),
        Fault::Memory => writeln!(out, "sentry: memory"),
        Fault::HostFault => writeln!(out, "sentry: host"),
        Fault::Grant { mount } => writeln!(out, "sentry: grant {mount}"),
    }
}

/// Writes the line of a task whose opening execve answers the error of that number.
fn write_image<W: Write>(out: &mut W, task: u32, errno: u8) -> io::Result<()>
    ensures { OnOk result (Appends (W.contents out.old) (W.contents out.new) (image_line task errno)) }
{
    write!(out, "sentry: image {task}")?;
    writeln!(out, " {errno}")
}

/// The word of a fault of the mount file.
fn word_of(fault: MountFault) -> &'static str
    ensures { result.now ≡ word_of fault }
{
    match fault {
        MountFault::Long => "Long",
        MountFault::Utf8 => "Utf8",
        MountFault::Toml => "Toml",
        MountFault::Field => "Field",
        MountFault::Range => "Range",
        MountFault::NoRoot => "NoRoot",
        MountFault::Twice => "Twice",
        MountFault::TooMany => "TooMany",
        MountFault::Memory => "Memory",
    }
}
