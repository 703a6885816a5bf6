//! The grants of the mounts' folders in order, the run over them, and their return to the world.

ghost use Rattle.std.specs.Prelude.{◌≡◌, ◌+◌, ◌<◌, ◌≤◌, ◌^◌, drop, length, [], true, None, Some, option_map};
ghost use Rattle.std.specs.Prelude.{IfErr, IfOk, IsSome, OnErr, OnOk};
ghost use Rattle.host_node.specs.Routes.{put_subtree};
ghost use Rattle.host_node.specs.Told.{CanGrant, TellsGranted};
ghost use Rattle.host_node.specs.Tree.{Shape, lent};
ghost use Rattle.host_node.specs.declared.kind.Kind.TheVariants.{Dir as Directory};
ghost use Rattle.sn_base.specs.Faults.{HasCause};
ghost use Rattle.kernel_model.specs.opening.Opening.{root_among, root_of};
ghost use Rattle.mount_file.specs.Form.{HasForm};
ghost use Rattle.mount_file.specs.Rules.{has_root};
ghost use Rattle.image_walk.specs.Granted.{CanGiveBack, told_of};
ghost use Rattle.image_walk.specs.Standing.{StandsLent};
ghost use Rattle.image_walk.specs.Walking.{IsRoot};
ghost use Rattle.run_opening.specs.Openings.{numbering_of};
ghost use Rattle.sentry_run.specs.Granted.{CanGrantAll, IsPlayed, IsUngranted, NotGranted, PlaysBehind, PlaysIn};
ghost use Rattle.sentry_run.specs.Granted.{PlaysRoot, RunsBehind, is_ungrantable};

use crate::play::{End, Played, play_granted, stopped};
use host_node::{HostErr, HostNode, HostWorld};
use image_walk::Granted;
use mount_file::Mounts;
use run_opening::numbering;
use sn_text::Folder;
use std::alloc::Global;

/// A granted root after a run over it, with all its nodes back, and the run.
#[derive(Drop)]
struct Visit<N: Drop> {
    root: N,
    played: Played,
}

/// Grants the folder of the mount of that number.
fn grant_folder<W: HostWorld>(folder: &Folder, mount: u32, host: &mut W) -> Result<W::Node, End>
    requires { CanGrant folder.now.names (W.told host.old) }
    ensures root { IfOk result (λ root. TellsGranted folder.now.names (W.told host.old)
        (W.Node.told root) (W.Node.count root) (W.Node.what root)) }
    ensures small { IfOk result (λ root. W.Node.count root < 2 ^ 64) }
    ensures lends { OnOk result (W.told host.new ≡
        option_map (put_subtree folder.now.names (lent Directory)) (W.told host.old)) }
    ensures same { OnErr result (W.told host.new ≡ W.told host.old) }
    ensures why { IfErr result (NotGranted mount folder.now.names (W.told host.old)) }
    ensures cause { HasCause (is_ungrantable result) (W.count host.old) (W.count host.new) }
{
    match host.grant(folder) {
        Ok(Some(root)) => {
            let _faults = root.faults();
            Ok(root)
        }
        Ok(None) => Err(End::Grant { mount }),
        Err(HostErr::Failed) => Err(End::HostFault),
        Err(HostErr::Memory) => Err(End::Memory),
    }
}

/// Grants the folders of the mounts from an index on, which are behind the mount at `/`, opens and runs the tasks over
/// the granted root of that mount, and settles the folders.
fn play_behind<W: HostWorld>(
    alloc: Global,
    mounts: &Mounts,
    index: usize,
    granted: &mut Granted<W::Node>,
    host: &mut W,
) -> Played
    requires form { HasForm mounts.now }
    requires within { index ≤ length mounts.now.mounts }
    requires free { CanGrantAll (drop index mounts.now.mounts) (W.told host.old) }
    requires root { IsRoot (W.Node.told granted.old.root) }
    requires numbers { granted.old.numbers ≡ numbering_of mounts.now.mounts }
    requires stands { (t : Shape) → W.Node.told granted.old.root ≡ Some t →
        StandsLent granted.old.numbers t [] [] (W.Node.told granted.old.root)
        (told_of W.Node.told granted.old.lent.items) }
    requires lent { granted.old.lent.items ≡ [] }
    ensures world { W.told host.new ≡ W.told host.old }
    ensures ended { RunsBehind mounts.now index (W.told host.old) (W.Node.told granted.old.root)
        (W.Node.told granted.new.root) (told_of W.Node.told granted.new.lent.items) result }
    ensures tells { IsSome (W.Node.told granted.old.root) → IsSome (W.Node.told granted.new.root) }
    ensures can { CanGiveBack (W.Node.told granted.new.root) (told_of W.Node.told granted.new.lent.items) }
    ensures played { IsPlayed mounts.now (W.count host.old) (W.count host.new) result }
{
    if index == mounts.mounts.len() {
        return play_granted(alloc, mounts, granted);
    }
    let folder = &mounts.mounts.at(index).folder;
    match grant_folder(folder, index as u32 + 1, host) {
        Ok(root) => {
            let played = play_behind(alloc, mounts, index + 1, granted, host);
            host.settle(folder, root);
            played
        }
        Err(end) => stopped(alloc, end),
    }
}

/// Runs over the granted root of the mount at `/`, with the folders of the mounts from an index on behind it, and gives
/// its nodes back to it.
fn play_root<W: HostWorld>(
    alloc: Global,
    mounts: &Mounts,
    index: usize,
    root: W::Node,
    host: &mut W,
) -> Visit<W::Node>
    requires form { HasForm mounts.now }
    requires within { index ≤ length mounts.now.mounts }
    requires free { CanGrantAll (drop index mounts.now.mounts) (W.told host.old) }
    requires root { IsRoot (W.Node.told root) }
    ensures world { W.told host.new ≡ W.told host.old }
    ensures plays { PlaysRoot mounts.now index (W.told host.old) (W.Node.told root) (W.Node.told result.root)
        result.played }
    ensures played { IsPlayed mounts.now (W.count host.old) (W.count host.new) result.played }
{
    let numbers = numbering(mounts.mounts.as_slice());
    let mut granted = Granted::new(alloc, root, numbers);
    let played = play_behind(alloc, mounts, index, &mut granted, host);
    Visit {
        root: granted.give_back(),
        played,
    }
}

/// Grants the folders of the mounts from an index on, that at `/` among them, opens and runs the tasks over its root,
/// and settles the folders.
fn play_from<W: HostWorld>(alloc: Global, mounts: &Mounts, index: usize, host: &mut W) -> Played
    requires form { HasForm mounts.now }
    requires within { index < length mounts.now.mounts }
    requires rooted { has_root (drop index mounts.now.mounts) ≡ true }
    requires place { root_of mounts.now.mounts ≡ root_among (index + 1) (drop index mounts.now.mounts) }
    requires free { CanGrantAll (drop index mounts.now.mounts) (W.told host.old) }
    ensures plays { PlaysBehind mounts.now index (W.told host.old) (W.told host.new) result }
    ensures played { IsPlayed mounts.now (W.count host.old) (W.count host.new) result }
{
    let mount = mounts.mounts.at(index);
    match grant_folder(&mount.folder, index as u32 + 1, host) {
        Ok(root) => {
            if mount.at.is_none() {
                let Visit { root, played } = play_root(alloc, mounts, index + 1, root, host);
                host.settle(&mount.folder, root);
                return played;
            }
            let played = play_from(alloc, mounts, index + 1, host);
            host.settle(&mount.folder, root);
            played
        }
        Err(end) => stopped(alloc, end),
    }
}

/// Grants the folders of the mounts in order, opens and runs the tasks over that of the mount at `/`, and settles them.
pub fn play<W: HostWorld>(alloc: Global, mounts: &Mounts, host: &mut W) -> Played
    requires form { HasForm mounts.now }
    requires ungranted { IsUngranted (W.told host.old) }
    ensures plays { PlaysIn mounts.now (W.told host.old) (W.told host.new) result }
    ensures played { IsPlayed mounts.now (W.count host.old) (W.count host.new) result }
{
    play_from(alloc, mounts, 0, host)
}
