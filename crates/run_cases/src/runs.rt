//! A run, and what it came to.

ghost use Rattle.std.specs.Prelude.{◌≡◌, true};
ghost use Rattle.host_node.specs.Tree.{none_lent};

use crate::narrow::NarrowSink;
use crate::placed::PlacedWorld;
use crate::setup::{Setup, Whose};
use crate::worlds::world_of;
use host_memory::World;
use read_cases::Bad;
use sentry_run::{Outcome, run_sentry};
use sn_edge::{MemSink, MemSource};
use std::alloc::Global;

/// What a run came to, and the source, the host and the sink then.
pub struct Told {
    pub outcome: Outcome,
    pub files: MemSource,
    pub world: PlacedWorld<World>,
    pub out: NarrowSink,
}

/// Lets all of it go by one call.
impl Drop for Told {
    fn drop(self) {
        let Told {
            outcome: _,
            files: _,
            world: _,
            out: _,
        } = self;
    }
}

/// The source, whose file `m` is the mount file.
fn source_of(alloc: Global, setup: &Setup) -> Result<MemSource, Bad> {
    let bytes = setup.mounts.bytes(alloc)?;
    let mut files = MemSource::new(alloc);
    files.put(alloc, "m", bytes.as_slice())?;
    if setup.failing.whose == Whose::Source {
        files.fail(setup.failing.call)?;
    }
    Ok(files)
}

fn sink_of(alloc: Global, setup: &Setup) -> Result<NarrowSink, Bad> {
    let mut inner = MemSink::new(alloc);
    if setup.failing.whose == Whose::Sink {
        inner.fail(setup.failing.call)?;
    }
    Ok(NarrowSink {
        inner,
        is_narrow: setup.is_narrow,
    })
}

/// The run itself. What comes out says nothing of how it came to be, so that no other proof has its contract before it.
fn ran(
    alloc: Global,
    words: &[String],
    files: &mut MemSource,
    world: &mut PlacedWorld<World>,
    out: &mut NarrowSink,
) -> Outcome
    requires { none_lent world.old.inner.tree ≡ true }
{
    run_sentry(alloc, words, files, world, out)
}

fn done(
    alloc: Global,
    words: &[String],
    files: MemSource,
    world: PlacedWorld<World>,
    out: NarrowSink,
) -> Told
    requires { none_lent world.inner.tree ≡ true }
{
    let mut files = files;
    let mut world = world;
    let mut out = out;
    let outcome = ran(alloc, words, &mut files, &mut world, &mut out);
    Told {
        outcome,
        files,
        world,
        out,
    }
}

/// What a run comes to.
pub fn told_of(alloc: Global, setup: &Setup) -> Result<Told, Bad> {
    let files = source_of(alloc, setup)?;
    let out = sink_of(alloc, setup)?;
    let world = world_of(alloc, setup)?;
    Ok(done(alloc, setup.words.as_slice(), files, world, out))
}
