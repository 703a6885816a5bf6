//! Memory as instructions use it.

ghost use Rattle.std.specs.Prelude.{◌≡◌, ◌≢◌, ℕ, ◌/◌, ◌<◌, ◌^◌, Bool, true, false, Ok, List, Option, Some, IsOk};
ghost use Rattle.std.specs.Prelude.{IfSome};
ghost use Rattle.std.specs.Prelude.{OnOk, OnErr, is_some};
ghost use Rattle.std.specs.Bool.{OnTrue, OnFalse};
ghost use Rattle.rv_table.specs.declared.instr.Instr.{Instr};
ghost use Rattle.rv_table.specs.Words.{IsWidth};
ghost use Rattle.rv_table.specs.Bytes.{SeenMemory as Seen, AnswersAs, AllowsAs, Value, loaded};
ghost use Rattle.rv_exec.specs.Rows.{AreOfPage};
ghost use Rattle.rv_exec.specs.Writes.{Write, Stores, Reserves, Releases, IsAfter, all_after, conditional_writes};

use rv_table::MemErr;
use sn_base::Memory;

/// The memory of a task, with the task's reservation.
pub trait Mem {
    /// What contracts see of it.
    ghost State: { Type 0 };

    ghost told: { Self → State };

    /// What each byte is then to a fetch, a load and a store, and what the task has reserved.
    ghost seen: { State → Seen };

    /// What is told of it after a write.
    ghost after: { Write → State → State };

    /// Whether two addresses are of one byte of memory, as where it is mapped twice.
    ghost is_same: { State → (a b : ℕ) → Bool };

    /// The instructions of a page's words, decoded, of a page that may be executed and has them.
    ghost instrs: { State → (page : ℕ) → Option (List Instr) };

    /// Whether a store of so many bytes there is sure not to want memory.
    ghost is_ready: { Self → (at width : ℕ) → Bool };

    /// Whether a call may answer want of memory.
    ghost takes_memory: { Bool };

    /// The word of four bytes at an address, each of which may be executed.
    fn fetch(&mut self, at: u64) -> Result<u32, MemErr>
        ensures word { AnswersAs (loaded (seen (told self.old)).code at 4) result }
        ensures lean { takes_memory ≡ false → result ≢ Err MemErr.Memory }
        ensures same { told self.new ≡ told self.old };

    /// The number of so many bytes at an address, each of which may be read. It needs no alignment.
    fn load(&mut self, at: u64, width: u8) -> Result<u64, MemErr>
        requires { IsWidth width }
        ensures number { AnswersAs (loaded (seen (told self.old)).data_ at width) result }
        ensures lean { takes_memory ≡ false → result ≢ Err MemErr.Memory }
        ensures same { told self.new ≡ told self.old };

    /// Whether each of so many bytes at an address may be written. Where it is so, a store there takes no memory.
    fn writable(&mut self, at: u64, width: u8) -> Result<(), MemErr>
        requires { IsWidth width }
        ensures room { AllowsAs (loaded (seen (told self.old)).room at width) result }
        ensures ready { OnOk result (is_ready self.new at width ≡ true) }
        ensures lean { takes_memory ≡ false → result ≢ Err MemErr.Memory }
        ensures same { told self.new ≡ told self.old };

    /// Stores so many of a number's bytes, the lowest first, at an address, each of which may be written, and ends
    /// other tasks' reservations of the granules that it meets. It needs no alignment. A refusal changes nothing.
    fn store(&mut self, at: u64, width: u8, value: u64) -> Result<(), MemErr>
        requires { IsWidth width }
        ensures room { AllowsAs (loaded (seen (told self.old)).room at width) result }
        ensures ready { is_ready self.old at width ≡ true → result ≢ Err MemErr.Memory }
        ensures lean { takes_memory ≡ false → result ≢ Err MemErr.Memory }
        ensures ok { OnOk result (told self.new ≡ after (Stores at width value) (told self.old)) }
        ensures err { OnErr result (told self.new ≡ told self.old) };

    /// Puts the task's reservation of an address and so many bytes in the place of the one that it had. A refusal
    /// changes nothing.
    fn reserve(&mut self, at: u64, width: u8) -> Result<(), Memory>
        requires { IsWidth width }
        ensures lean { takes_memory ≡ false → IsOk result }
        ensures ok { OnOk result (told self.new ≡ after (Reserves at width) (told self.old)) }
        ensures rows { (page : ℕ) → instrs (told self.new) page ≡ instrs (told self.old) page }
        ensures err { OnErr result (told self.new ≡ told self.old) };

    /// Ends the task's reservation, and answers whether it was of just that address and so many bytes.
    fn take(&mut self, at: u64, width: u8) -> bool
        ensures held { result ≡ (seen (told self.old)).reserves at width }
        ensures ended { told self.new ≡ after (Releases at) (told self.old) }
        ensures ready { is_ready self.new at width ≡ is_ready self.old at width };

    /// What `load` answers, where that is a number and at hand: a fast form of it, which may do nothing at any address.
    fn load_near(&mut self, at: u64, width: u8) -> Option<u64>
        requires { IsWidth width }
        ensures number { IfSome result (λ n. loaded (seen (told self.old)).data_ at width ≡ Value n) }
        ensures same { told self.new ≡ told self.old };

    /// Stores as `store` does, where that is granted, takes no memory, and is at hand, in the page of the address
    /// alone; and answers whether it has. It may do nothing at any address.
    fn store_near(&mut self, at: u64, width: u8, value: u64) -> bool
        requires { IsWidth width }
        ensures room { OnTrue result (AllowsAs (loaded (seen (told self.old)).room at width) (Ok tt)) }
        ensures ok { OnTrue result (told self.new ≡ after (Stores at width value) (told self.old)) }
        ensures rows { OnTrue result ((page : ℕ) → (page ≡ at / 4096 → ⊥) →
            instrs (told self.new) page ≡ instrs (told self.old) page) }
        ensures unchanged { OnFalse result (told self.new ≡ told self.old) };

    /// Does what a store-conditional does where a store is granted, takes no memory, and is at hand, in the page of the
    /// address alone: ends the task's reservation, and stores where that was of just that address and so many bytes,
    /// which it answers. It may do nothing at any address, and answers `None` then.
    fn conditional_near(&mut self, at: u64, width: u8, value: u64) -> Option<bool>
        requires { IsWidth width }
        ensures room { IfSome result (λ held. AllowsAs (loaded (seen (told self.old)).room at width) (Ok tt)) }
        ensures held { IfSome result (λ held. held ≡ (seen (told self.old)).reserves at width) }
        ensures done { IfSome result (λ held.
            told self.new ≡ all_after after (conditional_writes held at width value) (told self.old)) }
        ensures rows { IfSome result (λ held. (page : ℕ) → (page ≡ at / 4096 → ⊥) →
            instrs (told self.new) page ≡ instrs (told self.old) page) }
        ensures unchanged { is_some result ≡ false → told self.new ≡ told self.old };

    /// After a write, memory is what the write says.
    ghost written: { (state : State) → (write : Write) →
        IsAfter (is_same state) write (seen state) (seen (after write state)) };

    /// An address is of its own byte.
    ghost itself: { (state : State) → (address : ℕ) → address < 2 ^ 64 → is_same state address address ≡ true };

    /// A page's instructions are those of its words.
    ghost decoded: { (state : State) → (page : ℕ) → (words : List Instr) → instrs state page ≡ Some words →
        AreOfPage (seen state).code page words };
}
