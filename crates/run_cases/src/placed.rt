//! A host that knows where its nodes are: each call has to name the place of its node.

use host_node::{Attr, HostErr, HostNode, HostWorld, Kind, Listing};
use sn_base::Memory;
use sn_text::{Folder, Name, Route};
use std::alloc::Global;

/// Whether a route leads to a place.
fn leads_to(route: &Route, place: &Route) -> bool {
    if route.len() != place.len() {
        return false;
    }
    for (name, wanted) in route.names().iter().zip(place.names()) {
        if !name.is(wanted.as_bytes()) {
            return false;
        }
    }
    true
}

/// A host around another, whose nodes answer want of memory where a route doesn't lead to them, and to an open that
/// isn't for reading alone.
#[derive(Drop)]
pub struct PlacedWorld<W> {
    pub alloc: Global,
    pub inner: W,
}

/// A node of it, and where that is below the granted folder.
#[derive(Drop)]
pub struct PlacedNode<N> {
    pub alloc: Global,
    pub inner: N,
    pub place: Route,
}

impl<N> PlacedNode<N> {
    /// The place of what stands under a name.
    fn place_below(&self, name: &Name) -> Result<Route, Memory> {
        let mut place = self.place.copy(self.alloc)?;
        place.push(name.copy(self.alloc)?)?;
        Ok(place)
    }
}

impl<N: HostNode> HostNode for PlacedNode<N> {
    ghost count = { λ n. N.count n.inner };

    ghost told = { λ n. N.told n.inner };

    ghost what = { λ n. N.what n.inner };

    ghost opened = { λ n. N.opened n.inner };

    fn faults(&self) -> u64 {
        self.inner.faults()
    }

    fn kind(&self) -> Kind {
        self.inner.kind()
    }

    fn stat(&mut self, route: &Route) -> Result<Attr, HostErr> {
        if !leads_to(route, &self.place) {
            return Err(HostErr::Memory);
        }
        self.inner.stat(route)
    }

    fn list(&mut self, route: &Route, out: &mut Listing) -> Result<(), HostErr> {
        if !leads_to(route, &self.place) {
            return Err(HostErr::Memory);
        }
        self.inner.list(route, out)
    }

    fn lend(&mut self, route: &Route, name: &Name) -> Result<Option<Self>, HostErr> {
        if !leads_to(route, &self.place) {
            return Err(HostErr::Memory);
        }
        let place = self.place_below(name)?;
        match self.inner.lend(route, name) {
            Ok(Some(inner)) => Ok(Some(PlacedNode {
                alloc: self.alloc,
                inner,
                place,
            })),
            Ok(None) => Ok(None),
            Err(e) => Err(e),
        }
    }

    fn open(&mut self, route: &Route, write: bool) -> Result<(), HostErr> {
        if write || !leads_to(route, &self.place) {
            return Err(HostErr::Memory);
        }
        self.inner.open(route, write)
    }

    fn read_at(&mut self, at: u64, buf: &mut [u8]) -> Result<usize, HostErr> {
        self.inner.read_at(at, buf)
    }

    fn take_back(&mut self, name: &Name, node: Self) {
        let PlacedNode { inner, .. } = node;
        self.inner.take_back(name, inner);
    }

    ghost tells_itself = { λ n. N.tells_itself n.inner };
}

impl<W: HostWorld> HostWorld for PlacedWorld<W> {
    type Node = PlacedNode<W::Node>;

    ghost count = { λ w. W.count w.inner };

    ghost told = { λ w. W.told w.inner };

    ghost buried = { λ w. W.buried w.inner };

    fn faults(&self) -> u64 {
        self.inner.faults()
    }

    fn grant(&mut self, folder: &Folder) -> Result<Option<PlacedNode<W::Node>>, HostErr> {
        match self.inner.grant(folder) {
            Ok(Some(inner)) => Ok(Some(PlacedNode {
                alloc: self.alloc,
                inner,
                place: Route::new(self.alloc),
            })),
            Ok(None) => Ok(None),
            Err(e) => Err(e),
        }
    }

    fn settle(&mut self, folder: &Folder, node: PlacedNode<W::Node>) {
        let PlacedNode { inner, .. } = node;
        self.inner.settle(folder, inner);
    }

    fn bury(&mut self, node: PlacedNode<W::Node>) -> Result<(), Memory> {
        let PlacedNode { inner, .. } = node;
        self.inner.bury(inner)
    }
}
