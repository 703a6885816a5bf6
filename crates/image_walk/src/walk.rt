//! The walk of an opening execve, from a granted root to the image of a program.

ghost use Rattle.std.specs.Prelude.{◌≡◌, ◌<◌, ◌∷◌, [], length, None, Some, true, false, IfOk, IfSome, OnErr, slice_get};
ghost use Rattle.host_node.specs.Told.{CanLend};
ghost use Rattle.image_walk.specs.Granted.{place_of_child, told_of};
ghost use Rattle.image_walk.specs.Loading.{IsHere};
ghost use Rattle.image_walk.specs.Standing.{IsNumbering};
ghost use Rattle.image_walk.specs.Walking.{DrawsNext, IsGrant, LendsWhere, LoadsAt, SearchedFor, WalksWhere};

use crate::granted::{Granted, Lent, Numbering, place_of_child};
use crate::loading::{ImageAnswer, NodeAnswer, answered, failed, load};
use host_node::{HostErr, HostNode};
use sn_base::Memory;
use sn_errno::Errno;
use sn_text::{Name, Route};
use std::alloc::Global;

/// What a walk came to: whether it drew a number, the number of the node that it came to, and what that node gave.
#[derive(Drop)]
pub(crate) struct WalkEnd {
    pub(crate) drawn: bool,
    pub(crate) ino: u64,
    pub(crate) loaded: NodeAnswer,
}

/// The routes of the root and of the program's node.
#[derive(Drop)]
struct Routes {
    root: Route,
    program: Route,
}

/// The routes for a program of that name in the root.
fn make_routes(alloc: Global, name: &Name) -> Result<Routes, Memory>
    ensures { IfOk result (λ routes. (routes.root ≡ []) × (routes.program ≡ name.now ∷ [])) }
{
    let mut program = Route::new(alloc);
    program.push(name.copy(alloc)?)?;
    Ok(Routes {
        root: Route::new(alloc),
        program,
    })
}

/// What a root gives that its owner may not search, or `None` where the owner may.
fn search<N: HostNode>(root: &mut N, route: &Route) -> Option<NodeAnswer>
    ensures { SearchedFor (N.told root.old) (N.told root.new) result }
{
    let before = root.faults();
    match root.stat(route) {
        Ok(attr) => {
            if attr.mode / 64 % 2 == 0 {
                return Some(answered(ImageAnswer::Refuses(Errno::EACCES)));
            }
            None
        }
        Err(HostErr::Failed) => Some(failed(before, root)),
        Err(HostErr::Memory) => Some(answered(ImageAnswer::Memory)),
    }
}

/// Loads the image of the child at a place.
fn load_known<N: HostNode>(
    alloc: Global,
    lent: &mut Vec<Lent<N>>,
    place: usize,
    route: &Route,
) -> NodeAnswer
    requires within { place < length lent.old.items }
    requires here { IfSome (slice_get (told_of N.told lent.old.items) place) (λ c. IsHere c.1) }
    ensures length { length lent.new.items ≡ length lent.old.items }
    ensures loads { LoadsAt place (told_of N.told lent.old.items) (told_of N.told lent.new.items)
        result.risen result.answer }
{
    let child = &mut lent[place];
    load(alloc, &mut child.node, route)
}

/// Lends the child of a name, which was not lent so far, and loads its image. An `Err` leaves all as it was.
fn lend_program<N: HostNode>(
    alloc: Global,
    granted: &mut Granted<N>,
    routes: &Routes,
    name: &Name,
) -> Result<WalkEnd, Memory>
    requires numbers { IsNumbering granted.old.numbers }
    requires lend { CanLend name.now (N.told granted.old.root) }
    ensures same { granted.new.numbers ≡ granted.old.numbers }
    ensures numbers { IfOk result (λ step. DrawsNext granted.old.numbers step.drawn step.ino
        (length granted.old.lent.items) (length granted.new.lent.items)) }
    ensures lends { IfOk result (LendsWhere granted.old.numbers (N.told granted.old.root) name.now
        (told_of N.told granted.old.lent.items) (told_of N.told granted.new.lent.items) (N.told granted.new.root)) }
    ensures err { OnErr result (N.told granted.new.root ≡ N.told granted.old.root) }
    ensures err_lent { OnErr result (told_of N.told granted.new.lent.items ≡ told_of N.told granted.old.lent.items) }
{
    let kept = name.copy(alloc)?;
    granted.lent.reserve(1)?;
    let before = granted.root.faults();
    let Numbering { root, first } = granted.numbers;
    match granted.root.lend(&routes.root, name) {
        Ok(Some(child)) => {
            let mut child = child;
            let loaded = load(alloc, &mut child, &routes.program);
            let ino = first + granted.lent.len() as u64;
            granted.lent.push_reserved(Lent {
                name: kept,
                node: child,
            });
            Ok(WalkEnd {
                drawn: true,
                ino,
                loaded,
            })
        }
        Ok(None) => Ok(at_root(root, answered(ImageAnswer::Refuses(Errno::ENOENT)))),
        Err(HostErr::Failed) => Ok(at_root(root, failed(before, &granted.root))),
        Err(HostErr::Memory) => Err(Memory),
    }
}

/// A walk that ended at the root, of that number.
fn at_root(root: u64, loaded: NodeAnswer) -> WalkEnd
    ensures drawn { result.drawn ≡ false }
    ensures ino { result.ino ≡ root }
    ensures loaded { result.loaded ≡ loaded }
{
    WalkEnd {
        drawn: false,
        ino: root,
        loaded,
    }
}

/// Walks from the root of a granted folder to the program of that name, and loads its image. An `Err` leaves all as it
/// was, but for counts that rose by nothing.
pub(crate) fn walk<N: HostNode>(
    alloc: Global,
    granted: &mut Granted<N>,
    name: &Name,
) -> Result<WalkEnd, Memory>
    requires numbers { IsNumbering granted.old.numbers }
    requires grant { IsGrant granted.old.numbers (N.told granted.old.root) (told_of N.told granted.old.lent.items) }
    ensures same { granted.new.numbers ≡ granted.old.numbers }
    ensures numbers { IfOk result (λ step. DrawsNext granted.old.numbers step.drawn step.ino
        (length granted.old.lent.items) (length granted.new.lent.items)) }
    ensures walks { IfOk result (WalksWhere granted.old.numbers (N.told granted.old.root) name.now
        (told_of N.told granted.old.lent.items) (told_of N.told granted.new.lent.items) (N.told granted.new.root)) }
    ensures err { OnErr result (N.told granted.new.root ≡ N.told granted.old.root) }
    ensures err_lent { OnErr result (told_of N.told granted.new.lent.items ≡ told_of N.told granted.old.lent.items) }
{
    let routes = make_routes(alloc, name)?;
    let Numbering { root, first } = granted.numbers;
    if let Some(loaded) = search(&mut granted.root, &routes.root) {
        return Ok(at_root(root, loaded));
    }
    match place_of_child(name, granted.lent.as_slice()) {
        Some(place) => Ok(WalkEnd {
            drawn: false,
            ino: first + place as u64,
            loaded: load_known(alloc, &mut granted.lent, place, &routes.program),
        }),
        None => lend_program(alloc, granted, &routes, name),
    }
}
