//! Rings and ring brackets. Ring 0 is the most privileged.
#![tactic(auto)]

ghost use Rattle.std.specs.Prelude.{◌≡◌, ◌<◌, ◌≤◌, ◌↔◌, IfSome, IsSome, true};
ghost use Rattle.rings.specs.Brackets.{in_order, may_read, may_write, call_ring};

use std::marker::Model;

/// The least privileged ring.
const LAST_RING: u8 = 7;

/// A ring, from 0 to 7.
#[derive(Clone, Copy, Debug, PartialEq, Eq)]
pub struct Ring(pub u8);

impl Model for Ring {
    ghost use Rattle.std.specs.Prelude.{ℕ, ◌≤◌};

    ghost Value = { ℕ };

    ghost view = { λ r. r.0 };

    ghost invariant = { λ r. r.0 ≤ 7 };

    ghost inverse = { λ n. record { 0 = n } };
}

impl Ring {
    /// The ring of this number. None exactly above 7.
    pub fn new(number: u8) -> Option<Ring>
        ensures some { IsSome result ↔ (number ≤ 7) }
        ensures value { IfSome result (λ ring. ring ≡ number) }
    {
        if number <= LAST_RING {
            Some(Ring(number))
        } else {
            None
        }
    }

    /// The number of the ring, from 0 to 7.
    pub fn number(&self) -> u8
        ensures value { result ≡ self.now }
        ensures range { result ≤ 7 }
    {
        self.0
    }
}

/// Ring brackets: `r1 <= r2 <= r3 <= 7`.
#[derive(Clone, Copy, Debug, PartialEq, Eq)]
pub struct Brackets {
    /// Writing is for the rings up to this one.
    pub r1: u8,
    /// Reading is for the rings up to this one.
    pub r2: u8,
    /// Gate calls are for the rings up to this one.
    pub r3: u8,
}

impl Model for Brackets {
    ghost use Rattle.std.specs.Prelude.{◌≤◌};
    ghost use Rattle.rings.specs.Brackets.{Brackets as BracketsValue};

    ghost Value = { BracketsValue };

    ghost view = { λ b. record { r1 = b.r1; r2 = b.r2; r3 = b.r3 } };

    ghost invariant = { λ b. (b.r1 ≤ b.r2) × (b.r2 ≤ b.r3) × (b.r3 ≤ 7) };

    ghost inverse = { λ v. record { r1 = v.r1; r2 = v.r2; r3 = v.r3 } };
}

impl Brackets {
    /// The brackets of these three rings. None exactly where not `r1 <= r2 <= r3 <= 7`.
    pub fn new(r1: u8, r2: u8, r3: u8) -> Option<Brackets>
        ensures some { IsSome result ↔ (in_order (record { r1 = r1; r2 = r2; r3 = r3 }) ≡ true) }
        ensures value { IfSome result (λ b. b ≡ record { r1 = r1; r2 = r2; r3 = r3 }) }
    {
        if r1 <= r2 && r2 <= r3 && r3 <= LAST_RING {
            Some(Brackets { r1, r2, r3 })
        } else {
            None
        }
    }

    /// Whether the ring may read: rings up to r2 may.
    pub fn may_read(&self, ring: Ring) -> bool
        ensures { result ≡ may_read self.now ring }
    {
        ring.number() <= self.r2
    }

    /// Whether the ring may write: rings up to r1 may.
    pub fn may_write(&self, ring: Ring) -> bool
        ensures { result ≡ may_write self.now ring }
    {
        ring.number() <= self.r1
    }

    /// The ring in which a gate call from this ring goes on: the same for r1 to r2, r2 for r2 + 1 to r3, and
    /// None exactly elsewhere.
    pub fn call_ring(&self, ring: Ring) -> Option<Ring>
        ensures { result ≡ call_ring self.now ring }
    {
        if self.r1 <= ring.0 && ring.0 <= self.r2 {
            Some(ring)
        } else if self.r2 < ring.0 && ring.0 <= self.r3 {
            Some(Ring(self.r2))
        } else {
            None
        }
    }
}
