//! Reads of a file at an offset.

ghost use Rattle.std.specs.Prelude.{◌<◌, ◌≤◌, length, take, IfOk};
ghost use Rattle.std.specs.Io.KnownBytes.{Consumes, IsAtEnd};
ghost use Rattle.host_folder.specs.Offsets.{ReadsFrom};

use std::io;
use std::io::{Read, Seek, SeekFrom};

/// Reads a file from an offset until the buffer is full, or a read gets nothing, and answers how many
/// bytes came (pread(2)).
pub(crate) fn read_from<F: Read + Seek>(file: &mut F, at: u64, buf: &mut [u8]) -> io::Result<usize>
    ensures within { IfOk result (λ n. n ≤ length buf.old) }
    ensures bytes { IfOk result (λ n.
        ReadsFrom F.stream_position F.remaining at file.old file.new n buf.new) }
{
    file.seek(SeekFrom::Start(at))?;
    fill(file, buf)
}

/// Reads until the buffer is full, or a read gets nothing. As far as it is known what the file has left, that is
/// all that there is.
fn fill<F: Read>(file: &mut F, buf: &mut [u8]) -> io::Result<usize>
    ensures within { IfOk result (λ n. n ≤ length buf.old) }
    ensures bytes { IfOk result (λ n.
        Consumes (F.remaining file.old) (F.remaining file.new) (take n buf.new)) }
    ensures end { IfOk result (λ n. n < length buf.old → IsAtEnd (F.remaining file.new)) }
{
    let mut done = 0;
    while done < buf.len() {
        let count = file.read(&mut buf[done..])?;
        if count == 0 {
            return Ok(done);
        }
        done += count;
    }
    Ok(done)
}
