//! What is done over a system that knows which calls it is to be asked for: it must be asked for just these.

use crate::held::{Held, Row, expect_by, granted_for, is_granted};
use crate::routes::{folder, folder_from};
use crate::scripted::{Line, Scripted, are_met};
use host_folder::Folders;
use host_node::{HostErr, HostWorld};
use sn_text::Folder;
use std::alloc::Global;
use std::sync::atomic::AtomicU64;
use std::test::Fail;

/// That the script's calls were met, each in its turn, and no other.
fn expect_met(script: &[Line], met: &AtomicU64) -> Result<(), Fail> {
    if are_met(script, met) {
        Ok(())
    } else {
        Err(Fail::new("other calls than the script's"))
    }
}

/// That the directory at a path is granted, and these rows are so of it.
pub fn expect_script(
    rt: HostRuntime,
    path: &str,
    script: &[Line],
    rows: &[Row],
) -> Result<(), Fail> {
    let met = AtomicU64::new(0);
    expect_over(rt, path, script, &met, rows)?;
    expect_met(script, &met)
}

/// The same over the calls of a script, which are counted.
fn expect_over(
    rt: HostRuntime,
    path: &str,
    script: &[Line],
    met: &AtomicU64,
    rows: &[Row],
) -> Result<(), Fail> {
    expect_by(Scripted::new(rt, script, met), path, rows)
}

/// The calls of a system, and what is asked of a granted directory over it.
pub type Trial = (&'static [Line], &'static [Row]);

/// The same of each of these trials.
pub fn expect_trials(rt: HostRuntime, path: &str, trials: &[Trial]) -> Result<(), Fail> {
    for (script, rows) in trials {
        expect_script(rt, path, script, rows)?;
    }
    Ok(())
}

/// Whether a grant gives a directory, or how it fails, and how many calls of the host failed then.
type Granted = (Result<bool, HostErr>, u64);

/// What the grant of a folder comes to over the calls of a script, which are counted.
fn granted_by(rt: HostRuntime, script: &[Line], met: &AtomicU64, folder: &Folder) -> Granted {
    let mut world = Folders::new(Scripted::new(rt, script, met));
    let answer = is_granted(&mut world, folder);
    (answer, world.faults())
}

/// The same, of which the script's calls must be all.
fn granted_over(rt: HostRuntime, script: &[Line], folder: &Folder) -> Result<Granted, Fail> {
    let met = AtomicU64::new(0);
    let granted = granted_by(rt, script, &met, folder);
    expect_met(script, &met)?;
    Ok(granted)
}

/// Whether a grant of `a/b`, from the root or from here, gives a directory.
fn grants(rt: HostRuntime, rooted: bool, script: &[Line]) -> Result<bool, Fail> {
    let folder = folder_from(rt.alloc(), rooted, "a/b")?;
    let (answer, _) = granted_over(rt, script, &folder)?;
    Ok(answer?)
}

/// That it does, or gives none.
pub fn expect_grant(
    rt: HostRuntime,
    rooted: bool,
    script: &[Line],
    wanted: bool,
) -> Result<(), Fail> {
    if grants(rt, rooted, script)? == wanted {
        Ok(())
    } else {
        Err(Fail::new("the grant"))
    }
}

/// That a grant of a folder fails: how, and how many calls of the host failed then.
pub fn expect_not_granted(
    rt: HostRuntime,
    path: &str,
    script: &[Line],
    wanted: HostErr,
    faults: u64,
) -> Result<(), Fail> {
    if not_granted(rt, path, script)? == (Err(wanted), faults) {
        Ok(())
    } else {
        Err(Fail::new("the grant"))
    }
}

/// What the grant of the folder at a path comes to over the calls of a script.
fn not_granted(rt: HostRuntime, path: &str, script: &[Line]) -> Result<Granted, Fail> {
    let folder = folder(rt.alloc(), path)?;
    granted_over(rt, script, &folder)
}

/// Lends a file of a directory, and takes it back.
fn lend(root: &mut Held<Scripted<'_>>) -> Result<(), Fail> {
    let file = root.lent("f")?;
    root.take_back("f", file)
}

/// Grants a folder, lends a file of it, and takes all back.
fn come_back(
    world: &mut Folders<Scripted<'_>>,
    alloc: Global,
    folder: &Folder,
) -> Result<(), Fail> {
    let mut root = granted_for(world, alloc, folder)?;
    let lent = lend(&mut root);
    let Held { node, .. } = root;
    world.settle(folder, node);
    lent
}

/// The same over the calls of a script, which are counted.
fn come_back_by(rt: HostRuntime, script: &[Line], met: &AtomicU64) -> Result<(), Fail> {
    let folder = folder(rt.alloc(), "a")?;
    let mut world = Folders::new(Scripted::new(rt, script, met));
    come_back(&mut world, rt.alloc(), &folder)
}

/// That it all comes back, and the system is asked for the script alone.
pub fn expect_back(rt: HostRuntime, script: &[Line]) -> Result<(), Fail> {
    let met = AtomicU64::new(0);
    come_back_by(rt, script, &met)?;
    expect_met(script, &met)
}
