//! A granted folder: its root, and the children of the root that were lent.

ghost use Rattle.std.specs.Prelude.{◌≡◌, ◌<◌, [], length, IfSome};
ghost use Rattle.host_node.specs.Tree.{Shape};
ghost use Rattle.image_walk.specs.Granted.{CanGiveBack, GivesBack, place_of_child, told_of};

use host_node::HostNode;
use sn_text::{Name, is_same_name};
use std::alloc::Global;

/// A child of a granted folder's root that was lent, and its name.
#[derive(Drop)]
pub struct Lent<N: Drop> {
    pub name: Name,
    pub node: N,
}

/// How many roots the numbers of granted folders leave room for, below the first for a child.
pub const MOST_ROOTS: u64 = 16;

/// The inode numbers of a granted folder: that of its root, and the first for a child of the root.
#[derive(Clone, Copy, Debug, PartialEq, Eq)]
pub struct Numbering {
    pub root: u64,
    pub first: u64,
}

/// A granted folder: its root, and the children of the root that were lent, in order of their inode numbers.
#[derive(Drop)]
pub struct Granted<N: Drop> {
    pub root: N,
    pub numbers: Numbering,
    pub lent: Vec<Lent<N>>,
}

impl<N: HostNode> Granted<N> {
    ghost use Rattle.std.specs.Prelude.{None, Some};
    ghost use Rattle.image_walk.specs.Standing.{StandsLent};
    ghost use Rattle.image_walk.specs.Walking.{IsGrant, IsRoot};

    /// A root as it is granted, with nothing lent, whose nodes have these numbers.
    #[tactic(auto, using(crate::proofs::Roots::root_grants, crate::proofs::Roots::root_stands))]
    pub fn new(alloc: Global, root: N, numbers: Numbering) -> Granted<N>
        requires { IsRoot (N.told root) }
        ensures grant { IsGrant numbers (N.told result.root) (told_of N.told result.lent.items) }
        ensures root { N.told result.root ≡ N.told root }
        ensures numbers { result.numbers ≡ numbers }
        ensures lent { result.lent.items ≡ [] }
        ensures stands { (t : Shape) → N.told root ≡ Some t →
            StandsLent numbers t [] [] (N.told result.root) (told_of N.told result.lent.items) }
        ensures faults { N.count result.root ≡ N.count root }
    {
        let _faults = root.faults();
        Granted {
            root,
            numbers,
            lent: Vec::new(alloc),
        }
    }

    /// The root, with all children back in their places.
    pub fn give_back(self) -> N
        requires { CanGiveBack (N.told self.root) (told_of N.told self.lent.items) }
        ensures tells { GivesBack (N.told self.root) (told_of N.told self.lent.items) (N.told result) }
        ensures faults { N.count result ≡ N.count self.root }
    {
        let Granted { root, lent, .. } = self;
        let mut root = root;
        for child in lent {
            let Lent { name, node } = child;
            root.take_back(&name, node);
        }
        root
    }
}

/// Which of the children has that name, counted from 0.
pub(crate) fn place_of_child<N: HostNode>(name: &Name, lent: &[Lent<N>]) -> Option<usize>
    ensures place { result ≡ place_of_child name.now (told_of N.told lent.now) }
    ensures within { IfSome result (λ i. i < length lent.now) }
{
    match lent {
        [] => None,
        [first, rest @ ..] => {
            if is_same_name(name, &first.name) {
                return Some(0);
            }
            match place_of_child(name, rest) {
                Some(place) => Some(place + 1),
                None => None,
            }
        }
    }
}
