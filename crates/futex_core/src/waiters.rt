//! The futex list, and the calls on it.

ghost use Rattle.std.specs.Prelude.{◌≡◌, ◌≢◌, ◌+◌, ◌≤◌, ◌↔◌, [], ◌++◌, length, min};
ghost use Rattle.std.specs.Prelude.{take, IsFalse, OnErr, vec_len, vec_capacity};
ghost use Rattle.futex_core.specs.Waiters.{EachOnce, after_leave, after_sleep, after_wake, first_waiters};
ghost use Rattle.futex_core.specs.Waiters.{is_asleep, is_woken, sleepers_without, waiters_on};
ghost use Rattle.futex_core.specs.Least.{IsNextAmong, is_below_other};

use crate::FutexKey;
use sn_base::Memory;
use std::alloc::Global;
use std::marker::Model;

/// A task that sleeps, and the word that it sleeps on.
#[derive(Clone, Copy, Debug, PartialEq, Eq)]
pub struct Sleeper {
    pub task: u32,
    pub key: FutexKey,
}

/// What became of a task that wanted to sleep.
#[derive(Clone, Copy, Debug, PartialEq, Eq)]
pub enum Waited {
    /// It sleeps.
    Slept,
    /// The word isn't what the task expected, and it doesn't sleep.
    Differs,
}

/// The futex list: the sleepers, and the tasks that were woken and whose call isn't entered yet. Contracts see the two
/// lists, in order of sleeping and of waking.
#[derive(Debug, Drop)]
pub struct Waiters {
    sleepers: Vec<Sleeper>,
    /// There is always room here for all sleepers, so waking takes no memory.
    woken: Vec<u32>,
}

impl Model for Waiters {
    ghost use Rattle.std.specs.Prelude.{◌+◌, ◌≤◌, vec_len, vec_capacity};
    ghost use Rattle.futex_core.specs.Waiters.{FutexList, EachOnce};

    ghost Value = { FutexList };

    ghost view = { λ a. record { sleepers = a.sleepers.items; woken = a.woken.items } };

    ghost invariant = { λ a.
        EachOnce (record { sleepers = a.sleepers.items; woken = a.woken.items })
        × (vec_len a.sleepers + vec_len a.woken ≤ vec_capacity a.woken) };
}

impl Waiters {
    /// The list in which nobody sleeps and nobody was woken. It takes no memory.
    #[tactic(auto, using(crate::proofs::Once::once_of_none))]
    pub fn new(alloc: Global) -> Self
        ensures { result ≡ record { sleepers = []; woken = [] } }
    {
        Waiters {
            sleepers: Vec::new(alloc),
            woken: Vec::new(alloc),
        }
    }

    /// Puts a task to sleep on a word that holds `word`, behind all who sleep, unless the task expected another value
    /// there. It takes the room for the task's waking too. An `Err` leaves the list as it was.
    #[tactic(auto, using(crate::proofs::Once::once_of_same, crate::proofs::Once::once_after_sleep))]
    pub fn wait(&mut self, task: u32, key: FutexKey, word: u32, val: u32) -> Result<Waited, Memory>
        requires not_asleep { IsFalse (is_asleep self.old task) }
        requires not_woken { IsFalse (is_woken self.old task) }

        ensures slept { result ≡ Ok Waited.Slept → self.new ≡ after_sleep self.old task key }
        ensures equal { result ≡ Ok Waited.Slept → word ≡ val }

        ensures differs { (result ≡ Ok Waited.Differs) ↔ (word ≢ val) }
        ensures unchanged { word ≢ val → self.new ≡ self.old }

        ensures err { OnErr result (self.new ≡ self.old) }
        ensures err_equal { OnErr result (word ≡ val) }
    {
        if word != val {
            return Ok(Waited::Differs);
        }
        self.sleepers.reserve(1)?;
        self.woken.reserve(self.sleepers.len() + 1)?;
        self.sleepers.push_reserved(Sleeper { task, key });
        Ok(Waited::Slept)
    }

    /// Wakes the first who sleep on a word, at most `n`, and answers how many. It takes no memory.
    #[tactic(auto, using(crate::proofs::Picks::how_many))]
    pub fn wake(&mut self, key: FutexKey, n: u32) -> u64
        ensures after { self.new ≡ after_wake self.old key n }
        ensures count { result ≡ min n (length (waiters_on self.old.sleepers key)) }
    {
        let before = self.woken.len();
        let left = pick(&mut self.sleepers, &mut self.woken, key, n);
        self.sleepers.truncate(left);
        (self.woken.len() - before) as u64
    }

    /// How many tasks sleep on a word.
    pub fn count_on(&self, key: FutexKey) -> u64
        ensures { result ≡ length (waiters_on self.now.sleepers key) }
    {
        count_on(self.sleepers.as_slice(), &key) as u64
    }

    /// Whether a task was woken and its call isn't entered yet.
    pub fn is_woken(&self, task: u32) -> bool
        ensures woken { result ≡ is_woken self.now task }
        ensures once { EachOnce self.now }
    {
        self.woken.iter().any(|woken| *woken == task)
    }

    /// Whether a task sleeps.
    pub fn is_asleep(&self, task: u32) -> bool
        ensures asleep { result ≡ is_asleep self.now task }
        ensures once { EachOnce self.now }
    {
        self.sleepers.iter().any(|sleeper| sleeper.task == task)
    }

    /// The least number above another of a task that was woken and whose call isn't entered yet.
    pub fn woken_above(&self, after: u32) -> Option<u32>
        ensures least { IsNextAmong self.now.woken after result }
        ensures once { EachOnce self.now }
    {
        least_above(self.woken.as_slice(), after)
    }

    /// Takes a task out, whether it sleeps or was woken: it ended, or its call was entered. It takes no memory.
    pub fn leave(&mut self, task: u32)
        ensures { self.new ≡ after_leave self.old task }
    {
        self.sleepers.retain(|sleeper| sleeper.task != task);
        self.woken.retain(|woken| *woken != task);
    }
}

/// How many tasks sleep on a word.
fn count_on(sleepers: &[Sleeper], key: &FutexKey) -> usize
    ensures { result ≡ length (waiters_on sleepers.now key.now) }
{
    sleepers
        .iter()
        .filter(|sleeper| sleeper.key.is_same_word(key))
        .count()
}

/// The least of some numbers that is above another.
fn least_above(numbers: &[u32], after: u32) -> Option<u32>
    ensures { IsNextAmong numbers.now after result }
{
    let [first, rest @ ..] = numbers else {
        return None;
    };
    let behind = least_above(rest, after);
    if *first > after && is_below_other(*first, behind) {
        Some(*first)
    } else {
        behind
    }
}

/// Whether a number is below another, or there is no other.
fn is_below_other(number: u32, other: Option<u32>) -> bool
    ensures { result ≡ is_below_other number other }
{
    match other {
        Some(other) => number < other,
        None => true,
    }
}

/// Adds the first `n` tasks that sleep on a word to those woken, moves all other sleepers to the front in their order,
/// and answers how many these are.
#[tactic(auto, using(crate::proofs::Picks::picked_none, crate::proofs::Picks::picked_all))]
fn pick(sleepers: &mut [Sleeper], woken: &mut Vec<u32>, key: FutexKey, n: u32) -> usize
    requires once { EachOnce (record { sleepers = sleepers.old; woken = woken.old.items }) }
    requires room { length sleepers.old + vec_len woken.old ≤ vec_capacity woken.old }
    ensures left { take result sleepers.new ≡ sleepers_without sleepers.old (first_waiters sleepers.old key n) }
    ensures within { result ≤ length sleepers.old }
    ensures woken { woken.new.items ≡ woken.old.items ++ first_waiters sleepers.old key n }
    ensures len { result + vec_len woken.new ≡ length sleepers.old + vec_len woken.old }
    ensures capacity { vec_capacity woken.new ≡ vec_capacity woken.old }
{
    let mut count = 0;
    let mut left = 0;
    for at in 0..sleepers.len() {
        let sleeper = sleepers[at];
        if count < n && sleeper.key.is_same_word(&key) {
            woken.push_reserved(sleeper.task);
            count += 1;
        } else {
            sleepers[left] = sleeper;
            left += 1;
        }
    }
    left
}
