//! The rule of the shared words, and what each kind of step tells.

ghost use Rattle.std.specs.Prelude.{◌≡◌, None};
ghost use Rattle.words_layout.specs.declared.op.Op.TheVariants.{Load, Store, Add};
ghost use Rattle.shared_words.specs.Rule.{Kept};
ghost use Rattle.shared_words.specs.Views.{opening, entered, own, second, with_held, alone, both, spent, later};

use crate::view::View;
use atomic_table::{Join, Play, Split, TableRule};
use words_layout::PlainWords;

/// All operations stand in one order, which leaves the words.
pub struct OneOrder;

impl TableRule<u8, View, PlainWords> for OneOrder {
    ghost holds = { λ opened s. Kept opened s.words s.views };

    ghost first = { λ _. opening };
}

pub struct Loads;

impl Play<u8, View> for Loads {
    ghost then = { λ s me n after. after ≡ (entered me.0 (Load record { 0 = s.word }) n, me.1) };
}

pub struct Stores;

impl Play<u8, View> for Stores {
    ghost then = { λ s me n after. after ≡ (entered me.0 (Store record { 0 = s.word } n) 0, me.1) };
}

pub struct Adds;

impl Play<u8, View> for Adds {
    ghost then = { λ s me n after. after ≡ (entered me.0 (Add record { 0 = s.word } s.first) n, me.1) };
}

pub struct Marks;

impl Play<u8, View> for Marks {
    ghost then = { λ s me n after. after ≡ (later me.0, me.1) };
}

/// The second of the numbers is given away, with its entries.
pub struct Gives;

impl Split<View> for Gives {
    ghost left = { λ v. with_held v (second v) None };

    ghost right = { λ v. alone v (second v) };
}

/// The numbers of another seat are taken in.
pub struct Takes;

impl Join<View> for Takes {
    ghost both = { both };

    ghost spent = { spent };
}
