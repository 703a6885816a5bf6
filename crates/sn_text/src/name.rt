//! Names: single components of a path.

ghost use Rattle.std.specs.Prelude.{◌≡◌, ◌↔◌, IsTrue, IfOk, IfErr};
ghost use Rattle.std.specs.Str.{bytes_eq};
ghost use lib.Pointwise.{pointwise};
ghost use Rattle.sn_text.specs.Names.{name_fault_of, IsName, IsNameFaultOf};
ghost use Rattle.sn_text.specs.declared.fault.NameFault.{NameFault as Fault};

use crate::fault::{NameFault, name_fault};
use sn_base::Memory;
use std::alloc::Global;
use std::marker::Model;

/// One component of a path: 1 to 255 bytes, none of them `/` or 0, and neither `.` nor `..`.
/// Contracts see it as its bytes.
#[derive(Debug, Drop)]
pub struct Name {
    bytes: Vec<u8>,
}

impl Model for Name {
    ghost use Rattle.std.specs.Prelude.{ℕ, List};
    ghost use Rattle.std.specs.Coded.{coded_list, coded_ℕ};

    ghost Value = { List ℕ };

    ghost coded = { coded_list coded_ℕ };

    ghost use Rattle.sn_text.specs.Names.{IsName};

    ghost view = { λ a. a.bytes.items };

    ghost invariant = { λ a. IsName a.bytes.items };
}

impl Name {
    /// The bytes of the name.
    pub fn as_bytes(&self) -> &[u8]
        ensures value { result.now ≡ self.now }
        ensures is_name { IsName self.now }
    {
        self.bytes.as_slice()
    }

    /// The name in memory of its own.
    pub fn copy(&self, alloc: Global) -> Result<Name, Memory>
        ensures { IfOk result (λ n. n ≡ self.now) }
    {
        Ok(Name {
            bytes: Vec::from_slice(alloc, self.bytes.as_slice())?,
        })
    }

    /// Whether the name has these bytes. Any bytes may be asked for.
    pub fn is(&self, bytes: &[u8]) -> bool
        ensures { IsTrue result ↔ (self.now ≡ bytes.now) }
    {
        self.bytes.as_slice() == bytes
    }
}

/// The name with these bytes, in memory of its own.
///
/// The faults come in the order of `NameFault`, so a fault of the bytes comes before want of memory.
#[tactic(auto, using(crate::proofs::NameFaults::fault_of_first))]
pub fn name_of(alloc: Global, bytes: &[u8]) -> Result<Name, NameFault>
    ensures ok { IfOk result (λ n. (n ≡ bytes.now) × IsName bytes.now) }
    ensures fault { IfErr result (IsNameFaultOf bytes.now) }
    ensures faulty { (e : Fault) → name_fault_of bytes.now ≡ Some e → result ≡ Err e }
{
    match name_fault(bytes) {
        Some(fault) => Err(fault),
        None => Ok(Name {
            bytes: Vec::from_slice(alloc, bytes)?,
        }),
    }
}

/// Whether these are the same name.
pub fn is_same_name(name: &Name, other: &Name) -> bool
    ensures { result ≡ bytes_eq name.now other.now }
{
    name.as_bytes() == other.as_bytes()
}

/// Whether these are the same names, in the same order.
pub fn same_names(names: &[Name], others: &[Name]) -> bool
    ensures { result ≡ pointwise bytes_eq names.now others.now }
{
    match (names, others) {
        ([], []) => true,
        ([name, rest @ ..], [other, more @ ..]) => {
            is_same_name(name, other) && same_names(rest, more)
        }
        _ => false,
    }
}
