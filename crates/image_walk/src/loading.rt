//! The image of a program's node.

ghost use Rattle.std.specs.Prelude.{◌≡◌, ◌≢◌, ◌+◌, ◌<◌, true, None, Some, IfOk, OnOk};
ghost use Rattle.host_node.specs.Faults.{host_failed};
ghost use Rattle.host_node.specs.Told.{kept, Reading, Writing};
ghost use Rattle.sn_base.specs.Faults.{HasCause, Rose};
ghost use Rattle.sn_base.specs.Sums.{capped};
ghost use Rattle.image_walk.specs.Loading.{Classified, FileRefusal, IsFileOf, IsHere, LoadsWhere, ReadsFile, Refusal};
ghost use Rattle.image_walk.specs.Loading.{is_roomy};
ghost use Rattle.image_walk.specs.Loading.{FailedBy};

use elf_image::Image;
use host_node::{Attr, HostErr, HostNode, Kind};
use kernel_calls::read_executable;
use kernel_model::LONGEST_IMAGE;
use sn_base::Memory;
use sn_errno::Errno;
use sn_text::Route;
use std::alloc::Global;

/// What an opening execve answers: an image to begin with, an error, or want of memory.
#[derive(Drop)]
pub enum ImageAnswer {
    Starts(Image),
    Refuses(Errno),
    Memory,
}

/// What a node gave: by how much its count of faults rose, where one of its calls failed, and what the execve answers.
#[derive(Drop)]
pub(crate) struct NodeAnswer {
    pub(crate) risen: Option<u64>,
    pub(crate) answer: ImageAnswer,
    ghost pages: { is_roomy answer ≡ true },
}

/// By how much a count of faults rose in a call that failed: 1 where it stands at its type's end.
pub(crate) fn risen(before: u64, now: u64) -> u64
    requires { Rose before now }
    ensures some { 0 < result }
    ensures sum { now ≡ capped (before + result) }
{
    if now > before { now - before } else { 1 }
}

/// Whether a node is no executable file of a length that an image may have.
fn refusal(attr: &Attr) -> Option<Errno>
    ensures { Refusal attr.now result }
{
    match attr.kind {
        Kind::Link => Some(Errno::ELOOP),
        Kind::Dir => Some(Errno::EACCES),
        Kind::File => file_refusal(attr.mode, attr.size),
    }
}

fn file_refusal(mode: u32, size: u64) -> Option<Errno>
    ensures { FileRefusal mode size result }
{
    if mode / 64 % 2 == 0 {
        return Some(Errno::EACCES);
    }
    if size > LONGEST_IMAGE {
        return Some(Errno::ENOEXEC);
    }
    None
}

/// The image that a file's bytes are.
fn classify(alloc: Global, bytes: &[u8]) -> ImageAnswer
    ensures image { Classified bytes.now result }
    ensures pages { is_roomy result ≡ true }
{
    match read_executable(alloc, bytes) {
        Ok(Ok(image)) => ImageAnswer::Starts(image),
        Ok(Err(errno)) => ImageAnswer::Refuses(errno),
        Err(Memory) => ImageAnswer::Memory,
    }
}

/// A file's bytes, all of the size that its attributes told. It is opened for reading alone.
fn read_file<N: HostNode>(
    alloc: Global,
    node: &mut N,
    route: &Route,
    size: u64,
) -> Result<Vec<u8>, HostErr>
    requires { IsFileOf size (N.told node.old) }
    ensures bytes { IfOk result (λ v. ReadsFile (N.told node.old) v.items) }
    ensures tells { N.told node.new ≡ kept (N.count node.new) (N.told node.old) }
    ensures opened { OnOk result (N.opened node.new ≡ Reading) }
    ensures unwritten { N.opened node.old ≢ Writing → N.opened node.new ≢ Writing }
    ensures faults { HasCause (host_failed result) (N.count node.old) (N.count node.new) }
{
    let mut bytes = vec![in alloc; 0u8; size as usize]?;
    node.open(route, false)?;
    let n = node.read_at(0, bytes.as_mut_slice())?;
    bytes.truncate(n);
    Ok(bytes)
}

/// A node fails in a call: EIO, with its rise.
pub(crate) fn failed<N: HostNode>(before: u64, node: &N) -> NodeAnswer
    requires { Rose before (N.count node.now) }
    ensures { FailedBy before (N.count node.now) result.risen result.answer }
{
    NodeAnswer {
        risen: Some(risen(before, node.faults())),
        answer: ImageAnswer::Refuses(Errno::EIO),
    }
}

/// An answer of nodes that did not fail.
pub(crate) fn answered(answer: ImageAnswer) -> NodeAnswer
    requires { is_roomy answer ≡ true }
    ensures risen { result.risen ≡ None }
    ensures answer { result.answer ≡ answer }
{
    NodeAnswer {
        risen: None,
        answer,
    }
}

/// Loads the image of a program's node, which is opened for reading alone.
pub(crate) fn load<N: HostNode>(alloc: Global, node: &mut N, route: &Route) -> NodeAnswer
    requires { IsHere (N.told node.old) }
    ensures loads { LoadsWhere (N.told node.old) (N.told node.new) result.risen result.answer }
    ensures unwritten { N.opened node.old ≢ Writing → N.opened node.new ≢ Writing }
{
    let before = node.faults();
    let attr = match node.stat(route) {
        Ok(attr) => attr,
        Err(HostErr::Failed) => return failed(before, node),
        Err(HostErr::Memory) => return answered(ImageAnswer::Memory),
    };
    if let Some(errno) = refusal(&attr) {
        return answered(ImageAnswer::Refuses(errno));
    }
    match read_file(alloc, node, route, attr.size) {
        Ok(bytes) => answered(classify(alloc, bytes.as_slice())),
        Err(HostErr::Failed) => failed(before, node),
        Err(HostErr::Memory) => answered(ImageAnswer::Memory),
    }
}
