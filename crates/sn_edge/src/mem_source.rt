//! Files in memory as a source, which fails where it is told to.

ghost use Rattle.std.specs.Prelude.{◌≡◌, ◌<◌, ◌≤◌, ◌++◌, ◌||◌, [], length, take, drop, min, IfOk, OnOk, OnErr, IsTrue};
ghost use Rattle.std.specs.Prelude.{IsFalse, is_err, is_none, MatchOption, Some, None};
ghost use Rattle.sn_base.specs.Faults.{HasCause};
ghost use Rattle.sn_edge.specs.Errors.{has_failed};
ghost use Rattle.sn_edge.specs.Shelf.{content_at, HasFile, after_open, left_after_read, after_failed_read, Gets, IsAtEnd};
ghost use Rattle.sn_edge.specs.Plan.{no_plan, fails_next, fails_no_more, with_failing, plan_after};
ghost use Rattle.sn_edge.specs.InMemory.{empty_shelf, with_file_added};
ghost use Rattle.sn_edge.specs.FilePlace.{content_of};

use crate::named_file::NamedFile;
use crate::plan::EdgePlan;
use crate::tally::Tally;
use crate::{EdgeErr, Source};
use sn_base::{List, Memory};
use std::alloc::Global;
use std::marker::Model;

/// Files in memory. A call fails where it is told to, and an open of a name that isn't there does.
#[derive(Drop)]
pub struct MemSource {
    files: List<NamedFile>,
    opened: Option<usize>,
    done: usize,
    plan: EdgePlan,
    reads: Tally,
    taken: Tally,
}

impl Model for MemSource {
    ghost use Rattle.std.specs.Prelude.{◌<◌, ◌≤◌, length};
    ghost use Rattle.std.specs.Option.{ForSome};
    ghost use Rattle.sn_edge.specs.InMemory.{SourceInMemory};
    ghost use Rattle.sn_edge.specs.FilePlace.{content_of, rest_of};

    ghost Value = { SourceInMemory };

    ghost view = { λ a. record {
      shelf = record {
        files = a.files;
        rest = rest_of a.files a.opened a.done;
        reads = a.reads.count;
        taken = a.taken.count;
      };
      plan = a.plan;
    } };

    ghost invariant = { λ a. ForSome a.opened (λ place.
        (place < length a.files) × (a.done ≤ length (content_of a.files place))) };
}

impl MemSource {
    /// A source of no files, and no call of which is to fail.
    pub fn new(alloc: Global) -> Self
        ensures shelf { result.shelf ≡ empty_shelf }
        ensures plan { result.plan ≡ no_plan }
    {
        MemSource {
            files: List::new(alloc),
            opened: None,
            done: 0,
            plan: EdgePlan::new(alloc),
            reads: Tally::new(),
            taken: Tally::new(),
        }
    }

    /// Adds a file. Where there is one of that name already, that one counts.
    pub fn put(&mut self, alloc: Global, name: &str, content: &[u8]) -> Result<(), Memory>
        ensures ok { OnOk result
            (self.new ≡ record self.old { shelf = with_file_added self.old.shelf name.now content.now }) }
        ensures err { OnErr result (self.new ≡ self.old) }
    {
        self.files.push(NamedFile::new(alloc, name, content)?)
    }

    /// From now on the call of that number is to fail. Calls of `open` and `read` count from 1, together, and
    /// from `u64::MAX` on all have that number.
    pub fn fail(&mut self, call: u64) -> Result<(), Memory>
        ensures ok { OnOk result (self.new ≡ record self.old { plan = with_failing self.old.plan call }) }
        ensures err { OnErr result (self.new ≡ self.old) }
    {
        self.plan.fail(call)
    }

    /// Moves as many bytes as fit from the front of what is left to the front of the buffer.
    fn take_front(&mut self, buf: &mut [u8]) -> usize
        ensures count { result ≡ min (length self.old.shelf.rest) (length buf.old) }
        ensures copied { buf.new ≡ take result self.old.shelf.rest ++ drop result buf.old }
        ensures rest { self.new
            ≡ record self.old { shelf = record self.old.shelf { rest = drop result self.old.shelf.rest } } }
    {
        let Some(place) = self.opened else {
            return 0;
        };
        let content = self.files.at(place).content();
        let count = copy_front(&content[self.done..], buf);
        self.done += count;
        count
    }
}

/// The place of the first file of that name.
#[tactic(auto, using(crate::proofs::Files::search_steps))]
fn place_of(files: &[NamedFile], name: &[u8]) -> Option<usize>
    ensures { MatchOption result (content_at files.now name.now ≡ None)
        (λ place. (place < length files.now) × (content_at files.now name.now ≡ Some (content_of files.now place))) }
{
    for (place, file) in files.iter().enumerate() {
        if file.name() == name {
            return Some(place);
        }
    }
    None
}

/// Copies as many bytes as both have from the front of the one to the front of the other.
fn copy_front(from: &[u8], to: &mut [u8]) -> usize
    ensures count { result ≡ min (length from.now) (length to.old) }
    ensures copied { to.new ≡ take result from.now ++ drop result to.old }
{
    let count = from.len().min(to.len());
    to[..count].copy_from_slice(&from[..count]);
    count
}

impl Source for MemSource {
    ghost use Rattle.std.specs.Prelude.{Some};
    ghost use Rattle.sn_edge.specs.Plan.{fails_no_more};

    ghost count = { λ source. source.plan.faults };

    ghost told = { λ source. Some source.shelf };

    ghost unfailing = { λ source. fails_no_more source.plan };

    fn faults(&self) -> u64 {
        self.plan.faults()
    }

    fn open(&mut self, name: &str) -> Result<(), EdgeErr>
        ensures ok { OnOk result (Some self.new.shelf ≡ after_open (Some self.old.shelf) name.now) }
        ensures there { OnOk result (HasFile (Some self.old.shelf) name.now) }
        ensures err { OnErr result (self.new.shelf ≡ self.old.shelf) }
        ensures cause { HasCause (has_failed result) self.old.plan.faults self.new.plan.faults }
        ensures unfailing { IsTrue (fails_no_more self.old.plan) → IsTrue (fails_no_more self.new.plan) }
        ensures succeeds { IsTrue (fails_no_more self.old.plan) → HasFile (Some self.old.shelf) name.now
            → IsFalse (has_failed result) }

        // It fails where the plan says so or there is no such file, and is never out of memory.
        ensures failed { has_failed result
            ≡ (fails_next self.old.plan || is_none (content_at self.old.shelf.files name.now)) }
        ensures no_other { is_err result ≡ has_failed result }
        ensures plan { self.new.plan ≡ plan_after self.old.plan (has_failed result) }
    {
        let place = place_of(self.files.as_slice(), name.as_bytes());
        self.plan.begin(place.is_none())?;
        self.opened = place;
        self.done = 0;
        Ok(())
    }

    fn read(&mut self, buf: &mut [u8]) -> Result<usize, EdgeErr>
        ensures bound { IfOk result (λ n. n ≤ length buf.old) }
        ensures bytes { IfOk result (λ n. Gets (Some self.old.shelf) n buf.old buf.new) }
        ensures ok { IfOk result (λ n. Some self.new.shelf ≡ left_after_read (Some self.old.shelf) n) }
        ensures end { IfOk result (λ n. n ≡ 0 → 0 < length buf.old → IsAtEnd (Some self.old.shelf)) }
        ensures err { OnErr result (Some self.new.shelf ≡ after_failed_read (Some self.old.shelf)) }
        ensures cause { HasCause (has_failed result) self.old.plan.faults self.new.plan.faults }
        ensures unfailing { IsTrue (fails_no_more self.old.plan) → IsTrue (fails_no_more self.new.plan) }
        ensures succeeds { IsTrue (fails_no_more self.old.plan) → IsFalse (has_failed result) }

        // It gives all that fits, fails where the plan says so, and is never out of memory.
        ensures count { IfOk result (λ n. n ≡ min (length self.old.shelf.rest) (length buf.old)) }
        ensures failed { has_failed result ≡ fails_next self.old.plan }
        ensures no_other { is_err result ≡ has_failed result }
        ensures plan { self.new.plan ≡ plan_after self.old.plan (has_failed result) }
    {
        self.reads = self.reads.more(&1);
        self.plan.begin(false)?;
        let count = self.take_front(buf);
        self.taken = self.taken.more(&count);
        Ok(count)
    }
}
