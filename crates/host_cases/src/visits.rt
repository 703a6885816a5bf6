//! Folders that are granted, and nodes below them that are lent, have calls made of them, and are taken back.

ghost use Rattle.std.specs.Prelude.{◌≡◌, is_some};
ghost use Rattle.host_cases.specs.Whole.{IsWhole};

use crate::asked::Asked;
use crate::calls::{Spot, do_calls};
use crate::names::{folder_of, route_below, route_of};
use crate::told::{tell_kind, tell_refusal};
use host_node::{HostNode, HostWorld};
use read_cases::{Bad, parted};
use sn_text::{Folder, Name, Route};

/// Makes calls of the node where names lead from another, which lends what is on the way and takes it back.
#[tactic(auto, using(crate::proofs::Wholes::whole_kept, crate::proofs::Wholes::some_kept, crate::proofs::Wholes::whole_lent, crate::proofs::Wholes::whole_back, crate::proofs::Wholes::some_back, host_node::proofs::ToldLemmas::can_take_back))]
fn visit<N: Asked>(
    spot: Spot<'_>,
    node: &mut N,
    names: &[Name],
    calls: &str,
    came: &mut String,
) -> Result<(), Bad>
    requires whole { IsWhole (N.told node.old) }
    ensures whole { IsWhole (N.told node.new) }
    ensures told { is_some (N.told node.new) ≡ is_some (N.told node.old) }
{
    let Some((name, rest)) = names.split_first() else {
        return do_calls(spot, node, calls, came);
    };
    if !node.may_lend(name) {
        return Ok(came.push_str("barred")?);
    }
    let below = route_below(spot.rt.alloc(), spot.route, name)?;
    match node.lend(spot.route, name) {
        Ok(Some(child)) => {
            let mut child = child;
            let route = &below;
            let done = visit(Spot { route, ..spot }, &mut child, rest, calls, came);
            node.take_back(name, child);
            done
        }
        Ok(None) => Ok(came.push_str("none")?),
        Err(refusal) => tell_refusal(came, refusal),
    }
}

/// What calls are made of: a granted folder, or the node where a route leads below it.
#[derive(Drop)]
struct Place {
    folder: Folder,
    below: Route,
}

/// The place `FOLDER` or `FOLDER ROUTE`.
fn place_of(rt: &HostRuntime, place: &str) -> Result<Place, Bad> {
    let (folder, route) = parted(place);
    let folder = folder_of(rt.alloc(), folder)?;
    let below = route_of(rt.alloc(), route)?;
    Ok(Place { folder, below })
}

/// Makes calls below a folder, which is granted for them and settled.
#[tactic(auto, using(crate::proofs::Wholes::can_grant, crate::proofs::Wholes::whole_granted, crate::proofs::Wholes::whole_settled, crate::proofs::Wholes::some_settled, host_node::proofs::ToldLemmas::can_settle))]
fn do_visit<H: HostWorld>(
    rt: &HostRuntime,
    host: &mut H,
    place: &Place,
    calls: &str,
    came: &mut String,
) -> Result<(), Bad>
where
    H::Node: Asked,
    requires { IsWhole (H.told host.old) }
    ensures whole { IsWhole (H.told host.new) }
    ensures told { is_some (H.told host.new) ≡ is_some (H.told host.old) }
{
    match host.grant(&place.folder) {
        Ok(Some(root)) => {
            let mut root = root;
            let route = &Route::new(rt.alloc());
            let done = visit(
                Spot { rt, route },
                &mut root,
                place.below.names(),
                calls,
                came,
            );
            host.settle(&place.folder, root);
            done
        }
        Ok(None) => Ok(came.push_str("none")?),
        Err(refusal) => tell_refusal(came, refusal),
    }
}

/// `at FOLDER: CALLS` and `at FOLDER ROUTE: CALLS`.
fn at<H: HostWorld>(
    rt: &HostRuntime,
    host: &mut H,
    words: &str,
    came: &mut String,
) -> Result<(), Bad>
where
    H::Node: Asked,
    requires { IsWhole (H.told host.old) }
    ensures whole { IsWhole (H.told host.new) }
    ensures told { is_some (H.told host.new) ≡ is_some (H.told host.old) }
{
    let Some((place, calls)) = words.split_once(": ") else {
        return Ok(came.push_str("unread")?);
    };
    let place = place_of(rt, place)?;
    do_visit(rt, host, &place, calls, came)
}

/// Does a case of a host.
pub fn ask<H: HostWorld>(
    rt: &HostRuntime,
    host: &mut H,
    case: &str,
    came: &mut String,
) -> Result<(), Bad>
where
    H::Node: Asked,
    requires { IsWhole (H.told host.old) }
    ensures whole { IsWhole (H.told host.new) }
    ensures told { is_some (H.told host.new) ≡ is_some (H.told host.old) }
{
    match parted(case) {
        ("at", words) => at(rt, host, words, came),
        ("faults", "") => Ok(write!(came, "{}", host.faults())?),
        _ => Ok(came.push_str("unread")?),
    }
}

/// Makes calls of a folder that is granted, and buries its node; then it is told how many calls of the host failed.
#[tactic(auto, using(crate::proofs::Wholes::can_grant, crate::proofs::Wholes::whole_granted))]
fn bury_at<H: HostWorld>(
    rt: &HostRuntime,
    host: &mut H,
    folder: &Folder,
    calls: &str,
    came: &mut String,
) -> Result<(), Bad>
where
    H::Node: Asked,
    requires { IsWhole (H.told host.old) }
{
    match host.grant(folder) {
        Ok(Some(root)) => {
            let mut root = root;
            let route = &Route::new(rt.alloc());
            let done = do_calls(Spot { rt, route }, &mut root, calls, came);
            host.bury(root)?;
            write!(came, "; {}", host.faults())?;
            done
        }
        Ok(None) => Ok(came.push_str("none")?),
        Err(refusal) => tell_refusal(came, refusal),
    }
}

/// `bury FOLDER: CALLS`, after which the host isn't to be used any more.
pub fn bury<H: HostWorld>(
    rt: &HostRuntime,
    host: &mut H,
    words: &str,
    came: &mut String,
) -> Result<(), Bad>
where
    H::Node: Asked,
    requires { IsWhole (H.told host.old) }
{
    let Some((folder, calls)) = words.split_once(": ") else {
        return Ok(came.push_str("unread")?);
    };
    let folder = folder_of(rt.alloc(), folder)?;
    bury_at(rt, host, &folder, calls, came)
}
