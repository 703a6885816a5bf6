//! Files of the system, and sinks over writers: what they give and take, and where they fail.

use sn_edge::{EdgeErr, FileSource, Sink, Source, StdSink, read_all, write_all};
use std::alloc::Global;
use std::io::{ErrorKind, Write};
use std::test::Fail;
use std::{fs, io};

/// Whether what is read of a file, up to one byte past the limit, is just this.
fn reads<S: Source>(
    alloc: Global,
    source: &mut S,
    name: &str,
    limit: usize,
    bytes: &[u8],
) -> Result<bool, EdgeErr> {
    let read = read_all(alloc, source, name, limit)?;
    Ok(read.as_slice() == bytes)
}

#[test]
fn the_files_of_the_system_are_read(rt: HostRuntime) -> Result<(), Fail> {
    fs::write(&rt, "sn_edge_test", "twelve bytes")?;
    let mut source = FileSource::new(&rt);
    let is_read = reads(
        rt.alloc(),
        &mut source,
        "sn_edge_test",
        100,
        b"twelve bytes",
    )?;
    let is_missing = source.open("sn_edge_none").is_err();
    assert_eq!(rt; (is_read, is_missing, source.faults()), (true, true, 1));
    fs::remove_file(&rt, "sn_edge_test")?;
    Ok(())
}

#[test]
fn a_writer_that_takes_nothing_is_a_fault(rt: HostRuntime) -> Result<(), Fail> {
    let mut room = [0; 4];
    let mut sink = StdSink::new(room.as_mut_slice());
    write_all(&mut sink, b"ten")?;
    let has_failed = write_all(&mut sink, b"six").is_err();
    let faults = sink.faults();
    assert!(rt; has_failed && faults == 1 && room.as_slice() == b"tens".as_slice());
    Ok(())
}

#[test]
fn a_name_of_the_system_keeps_the_spaces_at_its_ends(rt: HostRuntime) -> Result<(), Fail> {
    fs::write(&rt, " sn edge test ", "three")?;
    let mut source = FileSource::new(&rt);
    let is_read = reads(rt.alloc(), &mut source, " sn edge test ", 100, b"three");
    let is_missing = source.open("sn edge test").is_err();
    fs::remove_file(&rt, " sn edge test ")?;
    assert!(rt; is_read? && is_missing && source.faults() == 1);
    Ok(())
}

/// A writer that takes all bytes, and whose flush fails so.
#[derive(Drop)]
struct Unflushed {
    kind: ErrorKind,
}

impl Write for Unflushed {
    fn write(&mut self, bytes: &[u8]) -> io::Result<usize> {
        Ok(bytes.len())
    }

    fn flush(&mut self) -> io::Result<()> {
        Err(io::Error::from(self.kind))
    }
}

#[test]
fn a_flush_that_fails_is_a_fault(rt: HostRuntime) -> Result<(), Fail> {
    let mut sink = StdSink::new(Unflushed {
        kind: ErrorKind::StorageFull,
    });
    let answers = (sink.write(b"one"), write_all(&mut sink, b"two"));
    assert_eq!(rt; answers, (Err(EdgeErr::Failed), Err(EdgeErr::Failed)));
    assert_eq!(rt; sink.faults(), 2);
    Ok(())
}

#[test]
fn a_flush_without_memory_is_no_fault(rt: HostRuntime) -> Result<(), Fail> {
    let mut sink = StdSink::new(Unflushed {
        kind: ErrorKind::OutOfMemory,
    });
    let answer = sink.write(b"one");
    assert_eq!(rt; (answer, sink.faults()), (Err(EdgeErr::Memory), 0));
    Ok(())
}
