//! The calls of a node.

ghost use Rattle.std.specs.Prelude.{◌≡◌, ◌≢◌, true, is_some};
ghost use Rattle.host_node.specs.Told.{Closed};
ghost use Rattle.host_cases.specs.Whole.{IsWhole};

use crate::asked::Asked;
use crate::machine;
use crate::names::name_from;
use crate::told::{tell_attr, tell_content, tell_kind, tell_listing, tell_refusal};
use host_node::{HostErr, Listing};
use read_cases::{Bad, number, parted};
use sn_text::{Name, Route};

/// Where a node stands: the route that leads to it from the folder that was granted.
#[derive(Clone, Copy)]
pub struct Spot<'a> {
    pub rt: &'a HostRuntime,
    pub route: &'a Route,
}

/// What a call answers that gives nothing.
fn tell_done(came: &mut String, done: Result<(), HostErr>) -> Result<(), Bad> {
    match done {
        Ok(()) => came.push_str("ok")?,
        Err(refusal) => tell_refusal(came, refusal)?,
    }
    Ok(())
}

#[tactic(auto, using(crate::proofs::Wholes::whole_kept, crate::proofs::Wholes::some_kept))]
fn stat<N: Asked>(spot: Spot<'_>, node: &mut N, came: &mut String) -> Result<(), Bad>
    requires { IsWhole (N.told node.old) }
    ensures whole { IsWhole (N.told node.new) }
    ensures told { is_some (N.told node.new) ≡ is_some (N.told node.old) }
    ensures opened { N.opened node.new ≡ N.opened node.old }
{
    match node.stat(spot.route) {
        Ok(attr) => tell_attr(came, &attr),
        Err(refusal) => tell_refusal(came, refusal),
    }
}

#[tactic(auto, using(crate::proofs::Wholes::whole_kept, crate::proofs::Wholes::some_kept))]
fn list<N: Asked>(spot: Spot<'_>, node: &mut N, came: &mut String) -> Result<(), Bad>
    requires { IsWhole (N.told node.old) }
    ensures whole { IsWhole (N.told node.new) }
    ensures told { is_some (N.told node.new) ≡ is_some (N.told node.old) }
    ensures opened { N.opened node.new ≡ N.opened node.old }
{
    if !node.may_list() {
        came.push_str("barred")?;
        return Ok(());
    }
    let mut listing = Listing::new(spot.rt.alloc());
    match node.list(spot.route, &mut listing) {
        Ok(()) => tell_listing(came, &listing),
        Err(refusal) => tell_refusal(came, refusal),
    }
}

/// Lends what stands under a name, and takes it back.
#[tactic(auto, using(crate::proofs::Wholes::whole_kept, crate::proofs::Wholes::some_kept, crate::proofs::Wholes::whole_lent, crate::proofs::Wholes::whole_back, crate::proofs::Wholes::some_back, host_node::proofs::ToldLemmas::can_take_back))]
fn lend<N: Asked>(spot: Spot<'_>, node: &mut N, name: &Name, came: &mut String) -> Result<(), Bad>
    requires { IsWhole (N.told node.old) }
    ensures whole { IsWhole (N.told node.new) }
    ensures told { is_some (N.told node.new) ≡ is_some (N.told node.old) }
    ensures opened { N.opened node.new ≡ N.opened node.old }
{
    if !node.may_lend(name) {
        came.push_str("barred")?;
        return Ok(());
    }
    match node.lend(spot.route, name) {
        Ok(Some(child)) => {
            let kind = child.kind();
            node.take_back(name, child);
            tell_kind(came, kind)
        }
        Ok(None) => Ok(came.push_str("none")?),
        Err(refusal) => tell_refusal(came, refusal),
    }
}

/// `open read`, `open write`; `is_open` is whether the node is.
#[tactic(auto, using(crate::proofs::Wholes::whole_kept, crate::proofs::Wholes::some_kept))]
fn open<N: Asked>(
    spot: Spot<'_>,
    node: &mut N,
    is_open: &mut bool,
    write: bool,
    came: &mut String,
) -> Result<(), Bad>
    requires whole { IsWhole (N.told node.old) }
    requires opened { is_open.old ≡ true → N.opened node.old ≢ Closed }
    ensures whole { IsWhole (N.told node.new) }
    ensures told { is_some (N.told node.new) ≡ is_some (N.told node.old) }
    ensures opened { is_open.new ≡ true → N.opened node.new ≢ Closed }
{
    if !node.may_open(write) {
        came.push_str("barred")?;
        return Ok(());
    }
    let done = node.open(spot.route, write);
    *is_open = *is_open || done.is_ok();
    tell_done(came, done)
}

/// A read from an offset into so many dots: how many bytes came, and all that stands there then.
#[tactic(auto, using(crate::proofs::Wholes::whole_kept, crate::proofs::Wholes::some_kept))]
fn read<N: Asked>(
    node: &mut N,
    is_open: bool,
    at: u64,
    dots: &mut [u8],
    came: &mut String,
) -> Result<(), Bad>
    requires whole { IsWhole (N.told node.old) }
    requires opened { is_open ≡ true → N.opened node.old ≢ Closed }
    ensures whole { IsWhole (N.told node.new) }
    ensures told { is_some (N.told node.new) ≡ is_some (N.told node.old) }
    ensures opened { N.opened node.new ≡ N.opened node.old }
{
    if !node.may_read(is_open) {
        came.push_str("barred")?;
        return Ok(());
    }
    match node.read_at(at, dots) {
        Ok(count) => {
            write!(came, "{count}")?;
            tell_content(came, dots)
        }
        Err(refusal) => tell_refusal(came, refusal),
    }
}

/// `read AT COUNT`.
fn read_of<N: Asked>(
    spot: Spot<'_>,
    node: &mut N,
    is_open: bool,
    words: &str,
    came: &mut String,
) -> Result<(), Bad>
    requires whole { IsWhole (N.told node.old) }
    requires opened { is_open ≡ true → N.opened node.old ≢ Closed }
    ensures whole { IsWhole (N.told node.new) }
    ensures told { is_some (N.told node.new) ≡ is_some (N.told node.old) }
    ensures opened { N.opened node.new ≡ N.opened node.old }
{
    let (at, count) = parted(words);
    let (Some(at), Some(count)) = (number(at), number(count)) else {
        return Ok(came.push_str("unread")?);
    };
    let Ok(count) = usize::try_from(count) else {
        return Ok(came.push_str("unread")?);
    };
    let mut dots = vec![in spot.rt.alloc(); b'.'; count]?;
    read(node, is_open, at, dots.as_mut_slice(), came)
}

/// `lend NAME`.
fn lend_of<N: Asked>(spot: Spot<'_>, node: &mut N, text: &str, came: &mut String) -> Result<(), Bad>
    requires { IsWhole (N.told node.old) }
    ensures whole { IsWhole (N.told node.new) }
    ensures told { is_some (N.told node.new) ≡ is_some (N.told node.old) }
    ensures opened { N.opened node.new ≡ N.opened node.old }
{
    let name = name_from(spot.rt.alloc(), text)?;
    lend(spot, node, &name, came)
}

/// Makes a call, and adds what it answered. A new call of the trait is a line here.
fn do_call<N: Asked>(
    spot: Spot<'_>,
    node: &mut N,
    is_open: &mut bool,
    call: &str,
    came: &mut String,
) -> Result<(), Bad>
    requires whole { IsWhole (N.told node.old) }
    requires opened { is_open.old ≡ true → N.opened node.old ≢ Closed }
    ensures whole { IsWhole (N.told node.new) }
    ensures told { is_some (N.told node.new) ≡ is_some (N.told node.old) }
    ensures opened { is_open.new ≡ true → N.opened node.new ≢ Closed }
{
    match parted(call) {
        ("kind", "") => tell_kind(came, node.kind()),
        ("faults", "") => Ok(write!(came, "{}", node.faults())?),
        ("stat", "") => stat(spot, node, came),
        ("list", "") => list(spot, node, came),
        ("lend", name) => lend_of(spot, node, name, came),
        ("open", "read") => open(spot, node, is_open, false, came),
        ("open", "write") => open(spot, node, is_open, true, came),
        ("read", words) => read_of(spot, node, *is_open, words, came),
        ("gone", "") => Ok(came.push_str(machine::clear(spot.rt))?),
        _ => Ok(came.push_str("unread")?),
    }
}

/// Makes calls, each but the first behind a semicolon, and adds what they answered.
pub fn do_calls<N: Asked>(
    spot: Spot<'_>,
    node: &mut N,
    calls: &str,
    came: &mut String,
) -> Result<(), Bad>
    requires { IsWhole (N.told node.old) }
    ensures whole { IsWhole (N.told node.new) }
    ensures told { is_some (N.told node.new) ≡ is_some (N.told node.old) }
{
    let mut is_open = false;
    let mut is_first = true;
    for call in calls.split("; ") {
        if !is_first {
            came.push_str("; ")?;
        }
        is_first = false;
        do_call(spot, node, &mut is_open, call, came)?;
    }
    Ok(())
}
