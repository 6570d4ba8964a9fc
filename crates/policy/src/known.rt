//! What a process knows of a segment, and the entries that segments are known by.

ghost use Rattle.std.specs.Prelude.{◌≡◌, ◌↔◌, true, IsSome, IfSome};
ghost use Rattle.std.specs.Option.{option_map};
ghost use Rattle.rings.specs.Brackets.{in_order};
ghost use Rattle.policy.specs.Known.{usable, alias_brackets, known_by, in_table};

use crate::rights::Rights;
use labels::ClassTable;
use rings::Brackets;
use std::marker::Model;
use words_layout::{Alias, SegId};

/// A known segment: its identity, class, brackets and size in words, and the rights by which it is known.
#[derive(Clone, Copy, Debug, PartialEq, Eq)]
pub struct Known {
    pub seg: SegId,
    pub class: u8,
    pub brackets: Brackets,
    pub size: u8,
    pub rights: Rights,
}

impl Model for Known {
    ghost use Rattle.policy.specs.Known.{Known as KnownValue};

    ghost Value = { KnownValue };

    ghost view = { λ k. record { seg = k.seg; class = k.class; brackets = k.brackets; size = k.size; rights = k.rights.0 } };

    ghost inverse = { λ v. record { seg = v.seg; class = v.class; brackets = v.brackets; size = v.size; rights = record { 0 = v.rights } } };
}

/// The known segment, unless it is known to be signalled alone: such a place counts as empty for every
/// instruction but `advance` and `terminate`.
pub fn usable(known: Option<&Known>) -> Option<&Known>
    ensures { option_map (λ k. k.now) result ≡ usable (option_map (λ k. k.now) known.entry) }
{
    let known = known?;
    if known.rights.signals() {
        None
    } else {
        Some(known)
    }
}

/// The brackets of an entry. None exactly where they aren't in order.
pub fn brackets_in(alias: &Alias) -> Option<Brackets>
    ensures some { IsSome result ↔ (in_order (alias_brackets alias.now) ≡ true) }
    ensures value { IfSome result (λ b. b ≡ alias_brackets alias.now) }
{
    Brackets::new(alias.r1, alias.r2, alias.r3)
}

/// The segment of an entry of a mentor of class `mentor_class`, known with these rights.
pub fn known_by(mentor_class: u8, alias: &Alias, rights: Rights) -> Known
    requires { in_order (alias_brackets alias.now) ≡ true }
    ensures { result ≡ known_by mentor_class alias.now rights.0 }
{
    Known {
        seg: SegId {
            mentor: mentor_class,
            serial: alias.serial,
        },
        class: alias.class,
        brackets: Brackets {
            r1: alias.r1,
            r2: alias.r2,
            r3: alias.r3,
        },
        size: alias.size,
        rights,
    }
}

/// The entry of a word, as it counts in the table: an entry whose class isn't there or whose brackets aren't in
/// order is taken as empty.
pub fn in_table(table: &ClassTable, entry: Option<Alias>) -> Option<Alias>
    ensures { result ≡ in_table table.now entry }
{
    let alias = entry?;
    if alias.class < table.count() && brackets_in(&alias).is_some() {
        Some(alias)
    } else {
        None
    }
}
