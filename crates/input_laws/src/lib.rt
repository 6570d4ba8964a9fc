//! The laws of valid inputs: each is read wherever no count of the host rises, and nothing but it.
#![tactic(auto)]

ghost use Rattle.input_laws.specs.Laws.{ValidInputIsRead, ConfigIsRead, ReadsTheInput, HasOneInput, WhatIsReadIsValid, CalmNeverRises};

/// Where a command is given a valid input and no count of the host rises, the only answer without an input is that memory
/// ran out; and whatever is read is that input. There is at most one. Whatever is read
/// without a fault is valid. Over a calm host no count rises.
pub fn input_laws()
    ensures read { ValidInputIsRead }
    ensures config { ConfigIsRead }
    ensures same { ReadsTheInput }
    ensures one { HasOneInput }
    ensures valid { WhatIsReadIsValid }
    ensures calm { CalmNeverRises }
{}
