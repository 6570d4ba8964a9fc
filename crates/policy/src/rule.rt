//! The rules by which an instruction is refused.

ghost use Rattle.std.specs.Prelude.{◌≡◌, ◌≤◌};
ghost use Rattle.policy.specs.Verdict.{number};

/// What a refusal names.
#[derive(Clone, Copy, Debug, PartialEq, Eq)]
pub enum Rule {
    /// The segment number is above 15, or nothing is known by it.
    UnknownSegno,
    /// The known table has no empty place.
    KstFull,
    /// The entry is above 7.
    BadEntry,
    /// The entry is empty.
    NoEntry,
    /// The entry isn't empty.
    EntryTaken,
    /// The subject's secrecy doesn't dominate the object's.
    SecrecyRead,
    /// The object's integrity doesn't dominate the subject's.
    IntegrityRead,
    /// The object's secrecy doesn't dominate the subject's.
    SecrecyWrite,
    /// The subject's integrity doesn't dominate the object's.
    IntegrityWrite,
    /// The ring may not read.
    RingRead,
    /// The ring may not write.
    RingWrite,
    /// The ring may not call.
    RingCall,
    /// The segment is known without the right.
    NotModify,
    /// The class doesn't dominate the mentor's.
    Compat,
    /// There is no such class.
    BadClass,
    /// The number is that of no brackets.
    BadBrackets,
    /// The size isn't from 1 to 64, or is 0.
    BadSize,
    /// Words past the end, or none.
    Bounds,
    /// The segment is deleted.
    Gone,
    /// The segment isn't swapped in.
    NotIn,
    /// The segment is swapped in.
    AlreadyIn,
    /// No frame is free.
    NoFrame,
    /// No page is free.
    NoPage,
    /// All serials are given out.
    SerialsUsed,
    /// The child has an entry.
    NotEmpty,
    /// The console has no place.
    ConsoleFull,
    /// No slot is free.
    NoSlot,
    /// No such script or gate at or below the class.
    NoScript,
    /// The ring stack is full.
    StackFull,
    /// The ring stack is empty.
    StackEmpty,
    /// The mode isn't 1, 2 or 3.
    BadMode,
}

/// The number of the rule, from 1 to 31, as a reply's code has it.
fn number_of(rule: Rule) -> u8
    ensures { result ≡ number rule }
{
    match rule {
        Rule::UnknownSegno => 1,
        Rule::KstFull => 2,
        Rule::BadEntry => 3,
        Rule::NoEntry => 4,
        Rule::EntryTaken => 5,
        Rule::SecrecyRead => 6,
        Rule::IntegrityRead => 7,
        Rule::SecrecyWrite => 8,
        Rule::IntegrityWrite => 9,
        Rule::RingRead => 10,
        Rule::RingWrite => 11,
        Rule::RingCall => 12,
        Rule::NotModify => 13,
        Rule::Compat => 14,
        Rule::BadClass => 15,
        Rule::BadBrackets => 16,
        Rule::BadSize => 17,
        Rule::Bounds => 18,
        Rule::Gone => 19,
        Rule::NotIn => 20,
        Rule::AlreadyIn => 21,
        Rule::NoFrame => 22,
        Rule::NoPage => 23,
        Rule::SerialsUsed => 24,
        Rule::NotEmpty => 25,
        Rule::ConsoleFull => 26,
        Rule::NoSlot => 27,
        Rule::NoScript => 28,
        Rule::StackFull => 29,
        Rule::StackEmpty => 30,
        Rule::BadMode => 31,
    }
}

impl Rule {
    ghost use Rattle.policy.specs.Verdict.{number};

    /// The number of the rule, from 1 to 31, as a reply's code has it.
    pub fn number(&self) -> u8
        ensures value { result ≡ number self.now }
        ensures range { (1 ≤ result) × (result ≤ 31) }
    {
        number_of(*self)
    }
}
