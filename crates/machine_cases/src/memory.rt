//! A small memory: a page of bytes to be executed, and sixteen to be read and written.

ghost use Rattle.std.specs.Prelude.{◌≡◌, ◌≢◌, nat_eq};
ghost use Rattle.rv_table.specs.Words.{IsWidth};
ghost use Rattle.rv_table.specs.Bytes.{AllowsAs, AnswersAs, loaded};
ghost use Rattle.rv_exec.specs.Writes.{Stores};
ghost use Rattle.machine_cases.specs.MemoryAfter.{memory_after};
ghost use Rattle.machine_cases.specs.Places.{reached};

use crate::bytes::{Bytes, Reached, Right, Stretch, access};
use rv_exec::Mem;
use rv_table::MemErr;
use sn_base::Memory as Wanting;

/// An address and a number of bytes that a task has reserved.
#[derive(Clone, Copy, PartialEq, Eq)]
pub struct Reserved {
    pub address: u64,
    pub width: u8,
}

/// The memory of a task: a page of bytes that may be executed and sixteen bytes that may be read and written, where it
/// says so, and the task's reservation. A store changes both where they lie over one another.
#[derive(Clone, Copy, PartialEq, Eq)]
pub struct Small {
    pub code: Reached<4096>,
    pub data: Stretch<16>,
    pub readable: Right,
    pub writable: Right,
    pub reserved: Option<Reserved>,
    /// How many calls are answered before memory is wanting. `take` and a store that is ready want none.
    pub accesses: u64,
    /// Whether bytes that may be written were found since the last fetch, load or reservation.
    pub ready: bool,
    /// Whether the sixteen bytes are at hand.
    pub is_near: bool,
}

impl Small {
    /// Puts a word into the page, by the word's number; nothing behind its end.
    pub fn put_word(&mut self, place: usize, word: u32) {
        let bytes = word.to_le_bytes();
        for offset in 0..4 {
            let at = place.wrapping_mul(4).wrapping_add(offset);
            if let Some(byte) = self.code.stretch.bytes.get_mut(at) {
                *byte = bytes[offset];
            }
        }
    }

    /// A word of the page, by its number.
    pub fn word(&self, place: usize) -> u32 {
        let mut bytes = [0; 4];
        for offset in 0..4 {
            let at = place.wrapping_mul(4).wrapping_add(offset);
            if let Some(byte) = self.code.stretch.bytes.get(at) {
                bytes[offset] = *byte;
            }
        }
        u32::from_le_bytes(bytes)
    }

    /// The address of a word of the page, by its number.
    pub fn address(&self, place: usize) -> u64 {
        self.code
            .stretch
            .from
            .wrapping_add((place as u64).wrapping_mul(4))
    }

    /// Whether memory is wanting at a call. Nothing is ready behind it.
    fn is_wanting(&mut self) -> bool
        ensures { ⟦<Small as Mem>⟧.told self.new ≡ ⟦<Small as Mem>⟧.told self.old }
    {
        self.ready = false;
        if self.accesses == 0 {
            return true;
        }
        self.accesses -= 1;
        false
    }

    /// The number of so many bytes at an address, each of which may be read.
    fn number(&self, at: u64, width: u8) -> Result<u64, MemErr>
        requires { IsWidth width }
        ensures answer { AnswersAs (loaded
            (reached self.now.readable (⟦<Stretch<16> as Bytes>⟧.byte_at self.now.data))
            at width) result }
        ensures lean { result ≢ Err MemErr.Memory }
    {
        let bytes = Reached {
            stretch: self.data,
            right: self.readable,
        };
        access(&bytes, at, width)
    }

    /// Whether each of so many bytes at an address may be written.
    fn room(&self, at: u64, width: u8) -> Result<(), MemErr>
        requires { IsWidth width }
        ensures answer { AllowsAs (loaded
            (reached self.now.writable (⟦<Stretch<16> as Bytes>⟧.byte_at self.now.data))
            at width) result }
        ensures lean { result ≢ Err MemErr.Memory }
    {
        let bytes = Reached {
            stretch: self.data,
            right: self.writable,
        };
        match access(&bytes, at, width) {
            Ok(_) => Ok(()),
            Err(refusal) => Err(refusal),
        }
    }

    /// Stores so many of a number's bytes at an address, where bytes of memory lie there.
    fn put(&mut self, at: u64, width: u8, value: u64)
        requires { IsWidth width }
        ensures { ⟦<Small as Mem>⟧.told self.new ≡
            memory_after nat_eq (Stores at width value) (⟦<Small as Mem>⟧.told self.old) }
    {
        self.code.stretch.put(at, width, value);
        self.data.put(at, width, value);
    }
}

impl Mem for Small {
    ghost use Rattle.std.specs.Prelude.{true, false, nat_eq, ◌==◌, ◌&&◌};
    ghost use Rattle.std.specs.Option.{option_map_or};
    ghost use Rattle.rv_table.specs.Bytes.{SeenMemory as Seen};
    ghost use Rattle.machine_cases.specs.MemoryAfter.{is_memory_after, memory_after};
    ghost use Rattle.machine_cases.specs.Pages.{page_instrs};
    ghost use Rattle.machine_cases.specs.Places.{itself, reached};
    ghost use Rattle.machine_cases.specs.Decoded.{decoded};

    ghost State = { Seen };

    ghost told = { λ memory. record {
      code = ⟦<Reached<4096> as Bytes>⟧.byte_at memory.code;
      data_ = reached memory.readable (⟦<Stretch<16> as Bytes>⟧.byte_at memory.data);
      room = reached memory.writable (⟦<Stretch<16> as Bytes>⟧.byte_at memory.data);
      reserves = λ address width. option_map_or
          (λ reserved. (reserved.address == address) && (reserved.width == width)) memory.reserved false;
    } };

    ghost seen = { λ state. state };

    ghost after = { memory_after nat_eq };

    ghost is_same = { λ state. nat_eq };

    ghost instrs = { λ state. page_instrs state.code };

    ghost is_ready = { λ memory at width. memory.ready };

    ghost takes_memory = { true };

    fn fetch(&mut self, at: u64) -> Result<u32, MemErr> {
        if self.is_wanting() {
            return Err(MemErr::Memory);
        }
        match access(&self.code, at, 4) {
            Ok(word) => Ok(word as u32),
            Err(refusal) => Err(refusal),
        }
    }

    fn load(&mut self, at: u64, width: u8) -> Result<u64, MemErr> {
        if self.is_wanting() {
            return Err(MemErr::Memory);
        }
        self.number(at, width)
    }

    fn writable(&mut self, at: u64, width: u8) -> Result<(), MemErr> {
        if self.is_wanting() {
            return Err(MemErr::Memory);
        }
        let answer = self.room(at, width);
        self.ready = answer.is_ok();
        answer
    }

    fn store(&mut self, at: u64, width: u8, value: u64) -> Result<(), MemErr> {
        if !self.ready && self.is_wanting() {
            return Err(MemErr::Memory);
        }
        match self.room(at, width) {
            Ok(()) => {
                self.put(at, width, value);
                Ok(())
            }
            Err(refusal) => Err(refusal),
        }
    }

    fn reserve(&mut self, at: u64, width: u8) -> Result<(), Wanting> {
        if self.is_wanting() {
            return Err(Wanting);
        }
        self.reserved = Some(Reserved { address: at, width });
        Ok(())
    }

    fn take(&mut self, at: u64, width: u8) -> bool {
        let is_held = match self.reserved {
            Some(reserved) => reserved.address == at && reserved.width == width,
            None => false,
        };
        self.reserved = None;
        is_held
    }

    fn load_near(&mut self, at: u64, width: u8) -> Option<u64> {
        if !self.is_near {
            return None;
        }
        match self.number(at, width) {
            Ok(number) => Some(number),
            Err(_) => None,
        }
    }

    fn store_near(&mut self, at: u64, width: u8, value: u64) -> bool {
        if !self.is_near || at % 4096 + u64::from(width) > 4096 {
            return false;
        }
        match self.room(at, width) {
            Ok(()) => {
                self.put(at, width, value);
                true
            }
            Err(_) => false,
        }
    }

    fn conditional_near(&mut self, at: u64, width: u8, value: u64) -> Option<bool> {
        if !self.is_near || at % 4096 + u64::from(width) > 4096 || self.room(at, width).is_err() {
            return None;
        }
        let is_held = self.take(at, width);
        if is_held {
            self.put(at, width, value);
        }
        Some(is_held)
    }

    ghost written = { is_memory_after nat_eq };

    ghost itself = { λ state. itself };

    ghost decoded = { λ state. decoded state.code };
}
