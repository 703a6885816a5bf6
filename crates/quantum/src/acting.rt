//! A task's memory, as its instructions use it: an address space, with the shared areas that are handed in.

ghost use Rattle.std.specs.Prelude.{true};
ghost use Rattle.mm_space.specs.Spaces.{reach};

use mm_space::{Handed, Hints, Space};
use rv_exec::Mem;
use rv_table::MemErr;
use sn_base::Memory;
use std::alloc::Global;

/// A task at work over its address space, with the shared areas that it reaches, and guesses at where pages lie.
#[derive(Drop)]
pub(crate) struct Acting {
    pub(crate) alloc: Global,
    pub(crate) task: u32,
    pub(crate) space: Space,
    pub(crate) handed: Handed,
    pub(crate) hints: Hints,
}

impl Mem for Acting {
    ghost use Rattle.std.specs.Prelude.{true};
    ghost use Rattle.mm_space.specs.Places.{takes_no_memory};
    ghost use Rattle.mm_space.specs.Spaces.{reach};
    ghost use Rattle.quantum.specs.Acting.{Acting as State, acting_on, acting_after_write, instrs_of, is_same, memory_of};
    ghost use Rattle.quantum.specs.laws.Writes.{written};
    ghost use Rattle.quantum.specs.laws.Places.{itself};
    ghost use Rattle.quantum.specs.laws.Decoded.{decoded};

    ghost State = { State };

    ghost told = { λ a. acting_on a.task (reach a.space a.handed) };

    ghost seen = { memory_of };

    ghost after = { acting_after_write };

    ghost is_same = { is_same };

    ghost instrs = { instrs_of };

    ghost is_ready = { λ a at width. takes_no_memory a.space a.handed at width };

    ghost takes_memory = { true };

    fn fetch(&mut self, at: u64) -> Result<u32, MemErr> {
        self.space.fetch(&self.handed, at)
    }

    fn load(&mut self, at: u64, width: u8) -> Result<u64, MemErr> {
        self.space.load(&self.handed, at, width)
    }

    fn writable(&mut self, at: u64, width: u8) -> Result<(), MemErr> {
        self.space.writable(self.alloc, &mut self.handed, at, width)
    }

    fn store(&mut self, at: u64, width: u8, value: u64) -> Result<(), MemErr> {
        self.space
            .store(self.alloc, &mut self.handed, self.task, at, width, value)
    }

    fn reserve(&mut self, at: u64, width: u8) -> Result<(), Memory> {
        self.space.reserve(&mut self.handed, self.task, at, width)
    }

    #[tactic(auto, using(crate::proofs::Ready::as_ready))]
    fn take(&mut self, at: u64, width: u8) -> bool {
        self.space.take(&mut self.handed, self.task, at, width)
    }

    #[inline(always)]
    fn load_near(&mut self, at: u64, width: u8) -> Option<u64> {
        self.space.load_near(&mut self.hints, at, width)
    }

    #[inline(always)]
    fn store_near(&mut self, at: u64, width: u8, value: u64) -> bool {
        self.space
            .store_near(&mut self.hints, self.task, at, width, value)
    }

    #[inline(always)]
    fn conditional_near(&mut self, at: u64, width: u8, value: u64) -> Option<bool> {
        self.space
            .conditional_near(&mut self.hints, self.task, at, width, value)
    }

    ghost written = { written };

    ghost itself = { itself };

    ghost decoded = { decoded };
}
