//! The same rounds over numbers behind locks, with a list of entries behind another, which nothing ties to them.

use crate::failure::Failure;
use crate::machine::Mark;
use crate::rows::Kind;
use std::alloc::Global;
use std::sync::{Mutex, Wait};

/// Numbers, each behind a lock, and the entries.
#[derive(Drop)]
pub struct Locked {
    pub numbers: Vec<Mutex<u64>>,
    pub entries: Mutex<Vec<Mark>>,
}

impl Locked {
    /// So many numbers, each 0, and no entry.
    pub fn new(alloc: Global, count: usize) -> Result<Locked, Failure> {
        let mut numbers = Vec::new(alloc);
        for _ in 0..count {
            numbers.reserve(1)?;
            numbers.push_reserved(Mutex::new(0));
        }
        Ok(Locked {
            numbers,
            entries: Mutex::new(Vec::new(alloc)),
        })
    }

    /// Makes so many rounds over the numbers from this one on.
    pub fn work<R: Wait>(
        &self,
        rt: &R,
        task: u64,
        first: usize,
        kind: Kind,
        rounds: u64,
    ) -> Result<(), Failure> {
        let Some((_, numbers)) = self.numbers.as_slice().split_at_checked(first) else {
            return Err(Failure::Lacking);
        };
        for _ in 0..rounds {
            self.enter(rt, task, numbers, kind)?;
        }
        Ok(())
    }

    fn enter<R: Wait>(
        &self,
        rt: &R,
        task: u64,
        numbers: &[Mutex<u64>],
        kind: Kind,
    ) -> Result<(), Failure> {
        match (kind, numbers) {
            (Kind::One, [number, ..]) => {
                let mut held = number.lock(rt);
                *held = held.wrapping_add(1);
                self.append(rt, Mark::One { task, page: 0 })
            }
            (Kind::Five, [low, high, looks @ ..]) => {
                let seen = sum_of(rt, looks);
                let mut held = low.lock(rt);
                let mut other = high.lock(rt);
                *held = held.wrapping_add(1);
                *other = other.wrapping_add(1);
                self.append(
                    rt,
                    Mark::Two {
                        task,
                        low: seen,
                        high: 1,
                    },
                )
            }
            _ => Err(Failure::Lacking),
        }
    }

    fn append<R: Wait>(&self, rt: &R, mark: Mark) -> Result<(), Failure> {
        let mut entries = self.entries.lock(rt);
        entries.reserve(1)?;
        entries.push_reserved(mark);
        Ok(())
    }
}

/// The sum of the first three numbers.
fn sum_of<R: Wait>(rt: &R, numbers: &[Mutex<u64>]) -> u64 {
    let mut sum = 0_u64;
    for number in numbers.iter().take(3) {
        let seen = number.lock(rt);
        sum = sum.wrapping_add(*seen);
    }
    sum
}
