//! The walk of an opening execve, and the image that it comes to.

ghost use Rattle.std.specs.Prelude.{◌≡◌, true, false, IfOk};
ghost use Rattle.std.specs.FinMap as map;
ghost use Rattle.std.specs.List.{list_any};
ghost use Rattle.kernel_model.specs.files.FileTree.{owner_executes};
ghost use Rattle.kernel_model.specs.entries.Given.{has_any, above_last, may_meet};
ghost use Rattle.kernel_model.specs.opening.Opening.{image_or_errno, executed, numbered_image, walk_of, draws_just};
ghost use Rattle.kernel_model.specs.opening.Opening.{by_walk, root_of, execve_of};
ghost use Rattle.kernel_model.specs.entries.Parts.{parts, outcome_in as outcome};
ghost use Rattle.kernel_model.specs.laws.Room.{fits};
ghost use Rattle.plain_kernel.specs.OpeningTasks.{ExecutesInPlace, IsFrom, MayStart};

use elf_image::Image;
use host_node::{Kind, Tree};
use kernel_calls::{is_too_long, read_executable, root_of};
use kernel_model::{Fresh, Given, Kernel, LAST_NUMBER, LONGEST_IMAGE};
use mount_file::Program;
use node_numbers::{faulted, is_in_order, number_all, number_of};
use sn_base::Memory;
use sn_errno::Errno;
use std::alloc::Global;

/// What a walk comes to: whether it is to a child without a number, and its image or error.
#[derive(Drop)]
struct Walk {
    draws: bool,
    image: Result<Image, Errno>,
    ghost pages: { fits image ≡ true },
}

impl Walk {
    fn refused(errno: Errno) -> Walk
        ensures draws { result.draws ≡ false }
        ensures image { result.image ≡ Err errno }
    {
        Walk {
            draws: false,
            image: Err(errno),
        }
    }
}

/// What an opening execve does: it starts an image, or fails, or what it drew and met does not fit it.
#[derive(Drop)]
pub enum Execved {
    Starts(Image),
    Fails(Errno),
    Unfit,
}

impl Execved {
    ghost use Rattle.plain_kernel.specs.OpeningTasks.{IsByImage};

    fn by_image(image: Result<Image, Errno>) -> Execved
        ensures { IsByImage image result }
    {
        match image {
            Ok(image) => Execved::Starts(image),
            Err(errno) => Execved::Fails(errno),
        }
    }
}

/// The image of a file's bytes, as execve takes it.
fn image_in(alloc: Global, bytes: &[u8]) -> Result<Result<Image, Errno>, Memory>
    ensures image { IfOk result (λ image. image ≡ image_or_errno bytes.now) }
    ensures pages { IfOk result (λ image. fits image ≡ true) }
{
    if LONGEST_IMAGE < bytes.len() as u64 {
        return Ok(Err(Errno::ENOEXEC));
    }
    read_executable(alloc, bytes)
}

fn owner_executes(tree: &Tree) -> bool
    ensures { result ≡ owner_executes tree.now }
{
    tree.attr().mode / 64 % 2 == 1
}

/// The image of a node, or the error with which execve refuses it.
fn executed(alloc: Global, tree: &Tree) -> Result<Result<Image, Errno>, Memory>
    ensures image { IfOk result (λ image. image ≡ executed tree.now) }
    ensures pages { IfOk result (λ image. fits image ≡ true) }
{
    if !owner_executes(tree) {
        return Ok(Err(Errno::EACCES));
    }
    match tree.kind() {
        Kind::Dir => Ok(Err(Errno::EACCES)),
        Kind::Link => Ok(Err(Errno::ELOOP)),
        Kind::File => image_in(alloc, tree.bytes()),
    }
}

/// The number of the root of the mount at `/`.
pub(crate) fn root_number(kernel: &Kernel) -> u64
    ensures { result ≡ root_of kernel.now.mounts }
{
    root_of(kernel.mounts.as_slice())
}

/// Whether the fresh numbers are just those that a walk from the root to a name draws.
fn draws_just(kernel: &Kernel, draws: bool, name: &[u8], fresh: &[Fresh]) -> bool
    ensures { result ≡ draws_just (root_of kernel.now.mounts) draws name.now fresh.now }
{
    match fresh {
        [] => !draws,
        [one] => { draws && one.dir == root_number(kernel) && one.name.is(name) && 0 < one.ino }
        _ => false,
    }
}

fn any_above_last(fresh: &[Fresh]) -> bool
    ensures { result ≡ list_any above_last fresh.now }
{
    fresh.iter().any(|one| LAST_NUMBER < one.ino)
}

/// The image of the node of a number, or the error with which execve refuses it.
fn numbered_image(alloc: Global, kernel: &Kernel, ino: u64) -> Result<Result<Image, Errno>, Memory>
    ensures image { IfOk result (λ image. image ≡ numbered_image (map.get kernel.now.nodes ino)) }
    ensures pages { IfOk result (λ image. fits image ≡ true) }
{
    match kernel.nodes.get(ino) {
        Some(node) => executed(alloc, &node.tree),
        None => Ok(Err(Errno::ENOENT)),
    }
}

/// Walks from the root of the mount at `/` to a name.
fn walk_to(alloc: Global, kernel: &Kernel, name: &[u8]) -> Result<Walk, Memory>
    ensures { IfOk result (λ w.
        outcome (parts kernel.now) (walk_of (root_of kernel.now.mounts) name.now)
        ≡ record { draws = w.draws; image = w.image }) }
{
    let Some(root) = kernel.nodes.get(root_number(kernel)) else {
        return Ok(Walk::refused(Errno::ENOENT));
    };
    if !owner_executes(&root.tree) {
        return Ok(Walk::refused(Errno::EACCES));
    }
    if let Some(ino) = number_of(root, name) {
        let image = numbered_image(alloc, kernel, ino)?;
        return Ok(Walk {
            draws: false,
            image,
        });
    }
    match root.tree.find_bytes(name) {
        Some(tree) => {
            let image = executed(alloc, tree)?;
            Ok(Walk { draws: true, image })
        }
        None => Ok(Walk::refused(Errno::ENOENT)),
    }
}

/// Does the opening execve of a program with what it drew and met.
#[tactic(auto, using(crate::proofs::WalkLemmas::as_refused, crate::proofs::WalkLemmas::as_walked))]
pub(crate) fn execve(
    alloc: Global,
    kernel: &mut Kernel,
    program: &Program,
    given: &Given,
) -> Result<Execved, Memory>
    requires { may_meet kernel.old.nodes given.now ≡ true }
    ensures does { IfOk result
        (ExecutesInPlace (outcome (parts kernel.old) (execve_of (root_of kernel.old.mounts) program.now given.now))
        kernel.old kernel.new) }
    ensures may { IfOk result (MayStart program.now) }
{
    let name = program.name.as_bytes();
    if is_too_long(program) {
        return execve_walked(alloc, kernel, name, given, Walk::refused(Errno::E2BIG));
    }
    let walk = walk_to(alloc, kernel, name)?;
    execve_walked(alloc, kernel, name, given, walk)
}

/// Does an execve of a name that walked there: with a rise it answers EIO.
fn execve_walked(
    alloc: Global,
    kernel: &mut Kernel,
    name: &[u8],
    given: &Given,
    walk: Walk,
) -> Result<Execved, Memory>
    requires { may_meet kernel.old.nodes given.now ≡ true }
    ensures does { IfOk result (ExecutesInPlace (outcome (parts kernel.old)
        (by_walk (root_of kernel.old.mounts) name.now given.now
        (record { draws = walk.draws; image = walk.image }))) kernel.old kernel.new) }
    ensures from { IfOk result (IsFrom walk.image) }
{
    if given.rises.is_empty() {
        return execve_unfailed(alloc, kernel, name, given, walk);
    }
    if !is_in_order(given) {
        return Ok(Execved::Unfit);
    }
    if !faulted(alloc, kernel, given)? {
        return Ok(Execved::Unfit);
    }
    Ok(Execved::Fails(Errno::EIO))
}

/// Does an execve that met no rise: its image, where the numbers are just those that its walk draws.
fn execve_unfailed(
    alloc: Global,
    kernel: &mut Kernel,
    name: &[u8],
    given: &Given,
    walk: Walk,
) -> Result<Execved, Memory>
    requires may { may_meet kernel.old.nodes given.now ≡ true }
    requires unfailed { has_any given.now.rises ≡ false }
    ensures does { IfOk result (ExecutesInPlace (outcome (parts kernel.old)
        (by_walk (root_of kernel.old.mounts) name.now given.now
        (record { draws = walk.draws; image = walk.image }))) kernel.old kernel.new) }
    ensures from { IfOk result (IsFrom walk.image) }
{
    let Walk { draws, image } = walk;
    let fresh = given.fresh.as_slice();
    if !draws_just(kernel, draws, name, fresh) {
        return Ok(Execved::Unfit);
    }
    if any_above_last(fresh) {
        return Ok(Execved::Fails(Errno::ENFILE));
    }
    if !number_all(alloc, kernel, fresh)? {
        return Ok(Execved::Unfit);
    }
    Ok(Execved::by_image(image))
}
