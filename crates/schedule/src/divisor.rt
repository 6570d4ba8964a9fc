//! Remainders by one small number, many times over.

ghost use Rattle.std.specs.Prelude.{◌≡◌, ◌%◌, ◌^◌, ◌<◌, ◌≤◌};

use std::marker::Model;

/// The inverse of a divisor is counted in parts of this number.
const WHOLE: u64 = 1_099_511_627_776;

/// A divisor from 1 to 16, and its inverse: a remainder takes two multiplications, where a division would take three times as long.
/// Contracts see the divisor.
#[derive(Drop)]
pub struct Divisor {
    by: u64,
    inverse: u64,
}

impl Model for Divisor {
    ghost use Rattle.std.specs.Prelude.{◌≡◌, ℕ, ◌+◌, ◌/◌, ◌<◌, ◌≤◌};

    ghost Value = { ℕ };

    ghost view = { λ d. d.by };

    ghost invariant = { λ d. (0 < d.by) × (d.by ≤ 16) × (d.inverse ≡ 1099511627776 / d.by + 1) };
}

impl Divisor {
    /// This divisor.
    pub fn new(by: u8) -> Divisor
        requires some { 0 < by }
        requires few { by ≤ 16 }
        ensures { result ≡ by }
    {
        let by = u64::from(by);
        Divisor {
            by,
            inverse: WHOLE / by + 1,
        }
    }

    /// The remainder of a number below 2 ^ 31.
    pub fn remainder(&self, number: u64) -> u8
        requires { number < 2 ^ 31 }
        ensures { result ≡ number % self.now }
    {
        let parts = self.inverse.wrapping_mul(number) % WHOLE;
        (parts * self.by / WHOLE) as u8
    }
}
