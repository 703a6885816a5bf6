//! A run over copies of the folders that it is granted, with all that came of it.

ghost use Rattle.std.specs.Prelude.{◌≡◌, ◌↔◌, ◌≤◌, length, true, None, Err, IfOk, IsTrue, map, string_bytes};
ghost use Rattle.host_node.specs.Tree.{none_lent};
ghost use Rattle.kernel_model.specs.Words.{accepted};
ghost use Rattle.sentry_run.specs.Causes.{HasText};
ghost use Rattle.sentry_run.specs.Outcome.{asks_trace};
ghost use Rattle.mount_file.specs.declared.rules.TheConstants.{MOST_MOUNTS};

use host_copy::{copied_folder, put_folder};
use host_memory::{PutErr, World};
use host_node::{HostErr, HostWorld, Tree};
use mount_file::Mount;
use sentry_run::{Fault, Outcome, load_mounts, read_words, run_sentry};
use sn_base::List;
use sn_edge::{MemSink, Source};
use sn_text::Folder;
use std::alloc::Global;

/// A run over copies of the folders that it was granted: its outcome, the copies in order of the mounts, whether its
/// text has the trace, and the sink that took the text.
pub struct Recording {
    pub outcome: Outcome,
    pub trees: List<Tree>,
    pub flag: bool,
    pub out: MemSink,
}

/// Lets all of it go. Who owns a recording lets go of it by this one call, at each exit.
impl Drop for Recording {
    fn drop(self) {
        let Recording {
            outcome: _,
            trees: _,
            flag: _,
            out: _,
        } = self;
    }
}

/// Whether a run that came out so has its text.
fn has_text(fault: Fault) -> bool
    ensures { IsTrue result ↔ HasText fault }
{
    match fault {
        Fault::Done => true,
        Fault::Stuck => true,
        Fault::Full => true,
        Fault::Usage => false,
        Fault::Mounts(_) => false,
        Fault::Image { .. } => false,
        Fault::SourceFault => false,
        Fault::SinkFault => false,
        Fault::Memory => false,
        Fault::HostFault => false,
        Fault::Grant { .. } => false,
    }
}

/// A copy of the folder of the mount of that number.
fn granted_copy<W: HostWorld>(
    alloc: Global,
    number: u32,
    folder: &Folder,
    host: &mut W,
) -> Result<Tree, Fault>
    requires silent { W.told host.old ≡ None }
    ensures lent { IfOk result (λ tree. none_lent tree ≡ true) }
    ensures silent { W.told host.new ≡ None }
{
    match copied_folder(alloc, host, folder) {
        Ok(Some(tree)) => Ok(tree),
        Ok(None) => Err(Fault::Grant { mount: number }),
        Err(HostErr::Failed) => Err(Fault::HostFault),
        Err(HostErr::Memory) => Err(Fault::Memory),
    }
}

/// Puts a copy of a tree where the folder of the mount of that number is, and gives the tree back.
fn put_copy(
    alloc: Global,
    number: u32,
    folder: &Folder,
    world: &mut World,
    tree: Tree,
) -> Result<Tree, Fault>
    requires world { none_lent world.old.tree ≡ true }
    requires tree { none_lent tree ≡ true }
    ensures same { IfOk result (λ same. same ≡ tree) }
    ensures lent { none_lent world.new.tree ≡ true }
{
    let Ok(copy) = tree.copy(alloc) else {
        return Err(Fault::Memory);
    };
    match put_folder(alloc, world, folder, copy) {
        Ok(()) => Ok(tree),
        Err(PutErr::Memory) => Err(Fault::Memory),
        Err(PutErr::NoParent) => Err(Fault::Grant { mount: number }),
        Err(PutErr::Taken) => Err(Fault::Grant { mount: number }),
    }
}

/// Copies the folders of mounts into a host in memory, and gives the trees in order.
fn granted<W: HostWorld>(
    alloc: Global,
    mounts: &[Mount],
    host: &mut W,
    world: &mut World,
) -> Result<List<Tree>, Fault>
    requires few { length mounts.now ≤ MOST_MOUNTS }
    requires silent { W.told host.old ≡ None }
    requires lent { none_lent world.old.tree ≡ true }
    ensures { none_lent world.new.tree ≡ true }
{
    let mut trees = List::new(alloc);
    for index in 0..mounts.len() {
        let number = index as u32 + 1;
        let folder = &mounts[index].folder;
        let tree = granted_copy(alloc, number, folder, host)?;
        let tree = put_copy(alloc, number, folder, world, tree)?;
        if trees.push(tree).is_err() {
            return Err(Fault::Memory);
        }
    }
    Ok(trees)
}

/// Runs the words over a host in memory: what the run came to, and what its sink took.
fn run_over<S: Source>(
    alloc: Global,
    words: &[String],
    files: &mut S,
    world: World,
) -> (Outcome, MemSink)
    requires { none_lent world.tree ≡ true }
{
    let mut world = world;
    let mut out = MemSink::new(alloc);
    let outcome = run_sentry(alloc, words, files, &mut world, &mut out);
    (outcome, out)
}

/// The run, where it has its text.
fn with_text(run: Recording) -> Result<Recording, Fault>
    ensures same { IfOk result (λ one. one ≡ run) }
    ensures text { IfOk result (λ one. HasText one.outcome.fault) }
{
    if has_text(run.outcome.fault) {
        Ok(run)
    } else {
        Err(run.outcome.fault)
    }
}

/// Runs the words over copies of the folders that their mount file grants, which are read first, and keeps what comes
/// of it. A run without a text is its fault, as is what goes before it.
pub fn record_run<S: Source, W: HostWorld>(
    alloc: Global,
    words: &[String],
    files: &mut S,
    host: &mut W,
) -> Result<Recording, Fault>
    requires silent { W.told host.old ≡ None }
    ensures usage { accepted (map string_bytes words.now) ≡ None → result ≡ Err Fault.Usage }
    ensures flag { IfOk result (λ run. run.flag ≡ asks_trace (accepted (map string_bytes words.now))) }
    ensures text { IfOk result (λ run. HasText run.outcome.fault) }
{
    let Some(command) = read_words(words) else {
        return Err(Fault::Usage);
    };
    let mounts = load_mounts(alloc, &command, files)?;
    let mut world = World::new(alloc);
    let trees = granted(alloc, mounts.mounts.as_slice(), host, &mut world)?;
    let (outcome, out) = run_over(alloc, words, files, world);
    with_text(Recording {
        outcome,
        trees,
        flag: command.trace,
        out,
    })
}
