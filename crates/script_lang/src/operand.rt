//! Operands: registers, and places of scripts and gates.

ghost use Rattle.std.specs.Prelude.{◌≡◌, ◌≤◌, IsSome, IfSome, ◌↔◌};

use std::marker::Model;

/// A register, from 0 to 15.
#[derive(Clone, Copy, Debug, PartialEq, Eq)]
pub struct Reg {
    number: u8,
}

impl Model for Reg {
    ghost use Rattle.std.specs.Prelude.{ℕ, ◌≤◌};

    ghost Value = { ℕ };

    ghost view = { λ r. r.number };

    ghost invariant = { λ r. r.number ≤ 15 };

    ghost inverse = { λ n. record { number = n } };
}

impl Reg {
    /// The register of this number. None exactly above 15.
    pub fn new(number: u8) -> Option<Reg>
        ensures some { IsSome result ↔ (number ≤ 15) }
        ensures number { IfSome result (λ r. r ≡ number) }
    {
        if number > 15 {
            return None;
        }
        Some(Reg { number })
    }

    /// Its number, from 0 to 15.
    pub fn number(&self) -> u8
        ensures number { result ≡ self.now }
        ensures range { result ≤ 15 }
    {
        self.number
    }
}

/// The place of a script or a gate, from 0 to 31.
#[derive(Clone, Copy, Debug, PartialEq, Eq)]
pub struct Index {
    number: u8,
}

impl Model for Index {
    ghost use Rattle.std.specs.Prelude.{ℕ, ◌≤◌};

    ghost Value = { ℕ };

    ghost view = { λ r. r.number };

    ghost invariant = { λ r. r.number ≤ 31 };

    ghost inverse = { λ n. record { number = n } };
}

impl Index {
    /// The place of this number. None exactly above 31.
    pub fn new(number: u8) -> Option<Index>
        ensures some { IsSome result ↔ (number ≤ 31) }
        ensures number { IfSome result (λ i. i ≡ number) }
    {
        if number > 31 {
            return None;
        }
        Some(Index { number })
    }

    /// Its number, from 0 to 31.
    pub fn number(&self) -> u8
        ensures number { result ≡ self.now }
        ensures range { result ≤ 31 }
    {
        self.number
    }
}
