//! Changes of what is mapped, which end the reservations over the range.

ghost use Rattle.std.specs.Prelude.{◌≡◌, ◌*◌, ◌<◌, ◌^◌, false, Some, Ok, Err, IfOk, IfErr, IfSome, OnOk, OnErr};
ghost use Rattle.mm_areas.specs.declared.fault.AreaErr.TheVariants as AreaErr;
ghost use Rattle.mm_areas.specs.declared.fault.AreaFault.{AreaFault as AFault};
ghost use Rattle.mm_areas.specs.Mappings.{address_of, is_break, map_fault, pages_in, first_page_for, protect_fault};
ghost use Rattle.mm_areas.specs.Mappings.{unmap_fault};
ghost use Rattle.mm_space.specs.Changes.{broken_in, mapped_in, righted_in, unmapped_in};
ghost use Rattle.mm_space.specs.Spaces.{space_of};

use crate::Space;
use mm_areas::{AreaErr, AreaFault, Backing, Rights};
use sn_base::Memory;
use std::alloc::Global;

impl Space {
    /// Maps so many bytes, in whole pages: at an address, in the place of what is there, or at the highest free range.
    /// The answer is the address. Faults come in the order of `Areas::map`; an error changes nothing.
    ///
    /// mmap(2), MAP_ANONYMOUS.
    pub fn map(
        &mut self,
        alloc: Global,
        at: Option<u64>,
        length: u64,
        rights: Rights,
        backing: Backing,
    ) -> Result<u64, AreaErr>
        ensures place { IfOk result (λ address.
            address_of (first_page_for (space_of self.old).mapping.pages at (pages_in length)) ≡ Some address) }
        ensures ok { IfOk result (λ address.
            space_of self.new ≡ mapped_in (space_of self.old) address length rights backing) }
        ensures fault { (fault : AFault) → result ≡ Err (AreaErr.Fault fault) →
            map_fault (space_of self.old).mapping at length ≡ Some fault }
        ensures faulty { IfSome (map_fault (space_of self.old).mapping at length) (λ fault.
            result ≡ Err (AreaErr.Fault fault)) }
        ensures err { OnErr result (space_of self.new ≡ space_of self.old) }
    {
        let address = self.areas.map(alloc, at, length, rights, backing)?;
        self.reservations.drop_range(address, whole_pages(length));
        Ok(address)
    }

    /// Takes out the pages of a range, also where some of them aren't mapped. An error changes nothing.
    ///
    /// munmap(2).
    pub fn unmap(&mut self, address: u64, length: u64) -> Result<(), AreaErr>
        ensures ok { OnOk result (space_of self.new ≡ unmapped_in (space_of self.old) address length) }
        ensures fault { (fault : AFault) → result ≡ Err (AreaErr.Fault fault) →
            unmap_fault address length ≡ Some fault }
        ensures faulty { IfSome (unmap_fault address length) (λ fault. result ≡ Err (AreaErr.Fault fault)) }
        ensures err { OnErr result (space_of self.new ≡ space_of self.old) }
    {
        self.areas.unmap(address, length)?;
        self.reservations.drop_range(address, whole_pages(length));
        Ok(())
    }

    /// Gives the pages of a range other rights. It takes no memory, and an error changes nothing.
    ///
    /// mprotect(2).
    pub fn protect(&mut self, address: u64, length: u64, rights: Rights) -> Result<(), AreaFault>
        ensures ok { OnOk result (space_of self.new ≡ righted_in (space_of self.old) address length rights) }
        ensures fault { IfErr result (λ e. protect_fault (space_of self.old).mapping address length ≡ Some e) }
        ensures faulty { IfSome (protect_fault (space_of self.old).mapping address length) (λ fault.
            result ≡ Err fault) }
        ensures err { OnErr result (space_of self.new ≡ space_of self.old) }
    {
        self.areas.protect(address, length, rights)?;
        self.reservations.drop_range(address, whole_pages(length));
        Ok(())
    }

    /// Puts the break at an address, if it may be put there, and answers where it is then. Where it stays, no memory is
    /// taken. An `Err` changes nothing.
    ///
    /// brk(2).
    pub fn brk(&mut self, alloc: Global, to: u64) -> Result<u64, Memory>
        ensures ok { OnOk result (space_of self.new ≡ broken_in (space_of self.old) to) }
        ensures answer { IfOk result (λ at. at ≡ (space_of self.new).mapping.program_break) }
        ensures refused { is_break (space_of self.old).mapping to ≡ false →
            result ≡ Ok (space_of self.old).mapping.program_break }
        ensures err { OnErr result (space_of self.new ≡ space_of self.old) }
    {
        self.areas.brk(alloc, to)
    }
}

/// How many bytes the pages of so many bytes have.
fn whole_pages(length: u64) -> u64
    requires { 4096 * pages_in length < 2 ^ 64 }
    ensures { result ≡ 4096 * pages_in length }
{
    length.div_ceil(4096) * 4096
}
