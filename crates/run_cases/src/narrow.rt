//! A sink that may take a few bytes at a time.

ghost use Rattle.std.specs.Prelude.{Some};

use sn_edge::{EdgeErr, MemSink, Sink};

/// A sink in memory that takes what it is given, or at most sixteen bytes at a time.
#[derive(Drop)]
pub struct NarrowSink {
    pub inner: MemSink,
    pub is_narrow: bool,
}

impl Sink for NarrowSink {
    ghost use Rattle.std.specs.Prelude.{Some};
    ghost use Rattle.sn_edge.specs.Plan.{fails_no_more};

    ghost count = { λ sink. sink.inner.plan.faults };

    ghost told = { λ sink. Some sink.inner.taken };

    ghost unfailing = { λ sink. fails_no_more sink.inner.plan };

    fn faults(&self) -> u64 {
        self.inner.faults()
    }

    fn write(&mut self, bytes: &[u8]) -> Result<usize, EdgeErr> {
        if !self.is_narrow {
            return self.inner.write(bytes);
        }
        let most = bytes.len().min(16);
        self.inner.write(&bytes[..most])
    }
}
