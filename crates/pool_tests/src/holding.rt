//! A gate that makes turns overlap.

use pool_turn::{Gate, Point};
use std::sync::{Condvar, Mutex, Wait};
use std::time::Duration;

/// How many waits there are for another worker, all in all.
const WAITS: u32 = 1000;

/// Who has come.
#[derive(Drop)]
pub struct Comers {
    /// The worker that came first.
    pub first: Option<u32>,
    /// Whether another came.
    pub met: bool,
    /// How many waits are left.
    pub waits: u32,
}

/// Holds the worker that comes first until another has come, for at most 1,000 waits of a millisecond.
#[derive(Drop)]
pub struct Held {
    pub comers: Mutex<Comers>,
    pub changed: Condvar,
}

impl Held {
    /// None has come.
    pub fn new() -> Held {
        Held {
            comers: Mutex::new(Comers {
                first: None,
                met: false,
                waits: WAITS,
            }),
            changed: Condvar::new(),
        }
    }

    /// Whether two workers have come.
    pub fn met<R: Wait>(&self, rt: &R) -> bool {
        self.comers.lock(rt).met
    }

    // This worker comes.
    fn come<R: Wait>(&self, rt: &R, worker: u32) {
        let mut comers = self.comers.lock(rt);
        match comers.first {
            None => comers.first = Some(worker),
            Some(first) if first != worker => comers.met = true,
            Some(_) => {}
        }
    }

    // Whether a worker is to wait once more.
    fn holds<R: Wait>(&self, rt: &R) -> bool {
        let mut comers = self.comers.lock(rt);
        if comers.met || comers.waits == 0 {
            return false;
        }
        comers.waits -= 1;
        true
    }
}

impl Gate for Held {
    fn pass<R: Wait>(&self, rt: &R, worker: u32, _task: u32, _point: Point) {
        self.come(rt, worker);
        self.changed.notify_all();
        for _ in 0..WAITS {
            let seen = self.changed.notifications();
            if !self.holds(rt) {
                break;
            }
            self.changed.sleep(rt, seen, Duration::from_millis(1));
        }
    }
}
