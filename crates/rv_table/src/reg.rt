//! Registers by number.

ghost use Rattle.std.specs.Prelude.{◌≡◌, ◌<◌};

use std::marker::Model;

/// The number of an integer register: `x0` to `x31`. Contracts see it as that number.
#[derive(Clone, Copy, Debug, PartialEq, Eq)]
pub struct Reg {
    number: u8,
}

impl Model for Reg {
    ghost use Rattle.std.specs.Prelude.{ℕ, ◌<◌};

    ghost Value = { ℕ };

    ghost view = { λ a. a.number };

    ghost invariant = { λ a. a.number < 32 };

    ghost inverse = { λ n. record { number = n } };
}

impl Reg {
    /// The register of that number.
    pub fn new(number: u8) -> Reg
        requires { number < 32 }
        ensures { result ≡ number }
    {
        Reg { number }
    }

    /// Its number, below 32.
    pub fn number(self) -> usize
        ensures number { result ≡ self }
        ensures below { result < 32 }
    {
        usize::from(self.number)
    }
}
