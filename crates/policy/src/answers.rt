//! Who calls a gate, and what a gate answers.

ghost use Rattle.std.specs.Prelude.{◌≡◌};
ghost use Rattle.policy.specs.Verdict.{number};

use crate::rule::Rule;
use rings::Ring;

/// The caller of a gate: its class, and its ring now.
#[derive(Clone, Copy, Debug, PartialEq, Eq)]
pub struct Caller {
    pub class: u8,
    pub ring: Ring,
}

/// The reply to an instruction: code 0 for Ok with its value, else the number of the rule with value 0.
#[derive(Clone, Copy, Debug, PartialEq, Eq)]
pub struct Reply {
    pub code: u8,
    pub value: u64,
}

/// What a step of a gate comes to.
#[derive(Clone, Copy, Debug, PartialEq, Eq)]
pub enum Outcome {
    /// The gate has a further step.
    Going,
    /// The gate waits: a step is taken again, and the next slot has its turn.
    Poll,
    /// The gate is at its end.
    Done(Reply),
}

impl Reply {
    /// Ok, with this value.
    pub fn ok(value: u64) -> Reply
        ensures { result ≡ record { code = 0; value = value } }
    {
        Reply { code: 0, value }
    }

    /// Refused by this rule.
    pub fn refused(rule: Rule) -> Reply
        ensures { result ≡ record { code = number rule; value = 0 } }
    {
        Reply {
            code: rule.number(),
            value: 0,
        }
    }
}
