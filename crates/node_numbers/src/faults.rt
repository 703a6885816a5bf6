//! What a call leaves in which a host call failed: fresh numbers, and rises of nodes' counts of faults.

ghost use Rattle.std.specs.Prelude.{◌≡◌, nat_lt, is_some, unwrap_or, IsTrue, IfOk, OnOk, OnErr};
ghost use Rattle.std.specs.FinMap as map;
ghost use Rattle.std.specs.List.{list_all, list_any};
ghost use Rattle.kernel_model.specs.entries.Given.{ascend_from, numbers_of, same_child, are_apart, nodes_of};
ghost use Rattle.kernel_model.specs.entries.Given.{is_in_order};
ghost use Rattle.kernel_model.specs.entries.Given.{risen, faulted};
ghost use Rattle.kernel_model.specs.entries.Parts.{parts, outcome_in as outcome, set_at};
ghost use Rattle.kernel_model.specs.laws.InPlace.{changed_by};
ghost use Rattle.node_numbers.specs.Unused.{AreUnused};

use crate::numbering::{number_all, unnumber_all};
use kernel_model::{Fresh, Given, Kernel, Rise};
use sn_base::{Map, Memory, capped_add};
use std::alloc::Global;

/// Whether fresh numbers ascend, each of another child, rises ascend by node, and each rise is of at least 1.
pub fn is_in_order(given: &Given) -> bool
    ensures { result ≡ is_in_order given.now }
{
    let fresh = given.fresh.as_slice();
    let rises = given.rises.as_slice();
    numbers_ascend(fresh) && are_apart(fresh) && nodes_ascend(rises) && are_rises(rises)
}

fn numbers_ascend(fresh: &[Fresh]) -> bool
    ensures { result ≡ ascend_from 0 (numbers_of fresh.now) }
{
    let mut last = 0;
    for one in fresh {
        if one.ino <= last {
            return false;
        }
        last = one.ino;
    }
    true
}

/// Whether each child has one number at most. It compares each fresh number with those behind it.
fn are_apart(fresh: &[Fresh]) -> bool
    ensures { result ≡ are_apart fresh.now }
{
    for index in 0..fresh.len() {
        if is_among(&fresh[index], &fresh[index + 1..]) {
            return false;
        }
    }
    true
}

/// Whether one of these fresh numbers is of the same child.
fn is_among(one: &Fresh, fresh: &[Fresh]) -> bool
    ensures { result ≡ list_any (same_child one.now) fresh.now }
{
    fresh.iter().any(|other| same_child(one, other))
}

fn same_child(a: &Fresh, b: &Fresh) -> bool
    ensures { result ≡ same_child a.now b.now }
{
    a.dir == b.dir && a.name.is(b.name.as_bytes())
}

fn nodes_ascend(rises: &[Rise]) -> bool
    ensures { result ≡ ascend_from 0 (nodes_of rises.now) }
{
    let mut last = 0;
    for rise in rises {
        if rise.ino <= last {
            return false;
        }
        last = rise.ino;
    }
    true
}

fn are_rises(rises: &[Rise]) -> bool
    ensures { result ≡ list_all (λ r. nat_lt 0 r.count) rises.now }
{
    rises.iter().all(|rise| 0 < rise.count)
}

/// Adds each rise to its node's count. An `Err` leaves the counts as they were. There is at most one rise for each
/// node, so that calls are no deeper than there are nodes.
fn raise(failed: &mut Map<u64>, rises: &[Rise]) -> Result<(), Memory>
    ensures ok { OnOk result (failed.new ≡ risen rises.now failed.old) }
    ensures err { OnErr result (failed.new ≡ failed.old) }
{
    let [first, rest @ ..] = rises else {
        return Ok(());
    };
    let before = failed.get(first.ino).copied();
    let count = capped_add(before.unwrap_or(0), first.count);
    failed.insert(first.ino, count)?;
    match raise(failed, rest) {
        Ok(()) => Ok(()),
        Err(error) => {
            restore(failed, first.ino, before);
            Err(error)
        }
    }
}

/// Sets a count back that has a value.
fn restore(failed: &mut Map<u64>, ino: u64, before: Option<u64>)
    requires { IsTrue (map.contains_key failed.old ino) }
    ensures { failed.new ≡ set_at ino before failed.old }
{
    match before {
        Some(count) => failed.replace(ino, count),
        None => {
            let _ = failed.remove(ino);
        }
    }
}

/// Does what a call leaves in which a host call failed, and answers whether the fresh numbers fit. A refusal or want of
/// memory leaves the kernel as it was.
pub fn faulted(alloc: Global, kernel: &mut Kernel, given: &Given) -> Result<bool, Memory>
    requires { AreUnused given.now.fresh kernel.old }
    ensures fits { IfOk result (λ b. b ≡ is_some (outcome (parts kernel.old) (faulted given.now))) }
    ensures ok { OnOk result
        (kernel.new ≡ unwrap_or (changed_by (outcome (parts kernel.old) (faulted given.now)) kernel.old) kernel.old) }
    ensures err { OnErr result (kernel.new ≡ kernel.old) }
{
    let fresh = given.fresh.as_slice();
    if !number_all(alloc, kernel, fresh)? {
        return Ok(false);
    }
    match raise(&mut kernel.failed, given.rises.as_slice()) {
        Ok(()) => Ok(true),
        Err(error) => {
            unnumber_all(kernel, fresh);
            Err(error)
        }
    }
}
