//! Where each segment stands.

ghost use Rattle.std.specs.Prelude.{◌≡◌, ◌<◌, ℕ, ◌*◌, if◌then◌else◌, Some, None, IfSome};
ghost use Rattle.words_layout.specs.Segments.{numbered, same_seg};
ghost use Rattle.words_layout.specs.Limits.{IsIdentity};
ghost use Rattle.words_layout.specs.Sizes.{entry_count};
ghost use Rattle.words_layout.specs.declared.segment.SegId.{SegId};
ghost use Rattle.class_model.specs.Config.{classes};
ghost use Rattle.machine.specs.Banks.{machine_of};
ghost use Rattle.end_volumes.specs.After.{Gains, IsOrigin, tree_of_words, listed, origin_at, origin_in, origin_under, origin};

use crate::cells::entry_at;
use machine::Machine;
use std::marker::Model;
use words_layout::{Alias, ENTRY_COUNT, PlainWords, SERIAL_LIMIT, SegId, seg_number};

/// Where a segment stands: in an entry of its mentor, which says its class, brackets and size.
#[derive(Clone, Copy)]
pub struct Origin {
    pub mentor: SegId,
    pub entry: u8,
    pub alias: Alias,
}

/// Where each segment stands, if it stands anywhere. Contracts see the list in the order of the segments' numbers.
#[derive(Drop)]
pub struct Origins {
    list: [Option<Origin>; 1024],
}

impl Model for Origins {
    ghost use Rattle.std.specs.Prelude.{◌≡◌, ℕ, List, Option, length, IfSome};
    ghost use Rattle.words_layout.specs.Limits.{IsIdentity};
    ghost use Rattle.end_volumes.specs.declared.origins.Origin.{Origin};
    ghost use Rattle.end_volumes.specs.After.{AreOrigins};

    ghost Value = { List (Option Origin) };

    ghost view = { λ o. o.list };

    ghost invariant = { λ o. (length o.list ≡ 1024) × AreOrigins o.list };
}

/// The identity of a number.
pub fn numbered(number: u16) -> SegId
    requires { number < 1024 }
    ensures value { result ≡ numbered number }
    ensures range { IsIdentity result }
{
    let limit = SERIAL_LIMIT as u16;
    SegId {
        mentor: (number / limit) as u8,
        serial: (number % limit) as u8,
    }
}

impl Origins {
    /// None stands anywhere.
    fn nowhere() -> Origins
        ensures { (u : SegId) → listed result u ≡ None }
    {
        Origins { list: [None; 1024] }
    }

    /// Where a segment stands.
    pub fn at(&self, seg: SegId) -> Option<Origin>
        requires { IsIdentity seg }
        ensures value { result ≡ listed self.now seg }
        ensures range { IfSome result IsOrigin }
    {
        self.list[seg_number(seg) as usize]
    }

    /// A segment stands there, unless an earlier entry names it.
    fn offer(&mut self, seg: SegId, place: Origin)
        requires seg { IsIdentity seg }
        requires place { IsOrigin place }
        ensures { Gains self.old self.new (λ u. if same_seg seg u then Some place else None) }
    {
        let number = seg_number(seg) as usize;
        if self.list[number].is_none() {
            self.list[number] = Some(place);
        }
    }

    /// Takes an entry of a cell.
    fn take_entry(&mut self, machine: &Machine<PlainWords>, class: u8, mentor: SegId, entry: u8)
        requires class { class < classes machine.now.shared }
        requires mentor { IsIdentity mentor }
        requires entry { entry < entry_count }
        ensures { Gains self.old self.new (λ u. origin_at (tree_of_words (machine_of machine.now)) u class mentor entry) }
    {
        machine.shared().table().table_law();
        if let Some(alias) = entry_at(machine, class, mentor, entry) {
            let seg = SegId {
                mentor: class,
                serial: alias.serial,
            };
            self.offer(
                seg,
                Origin {
                    mentor,
                    entry,
                    alias,
                },
            );
        }
    }

    /// Takes the entries of a cell in order.
    fn take_cell(&mut self, machine: &Machine<PlainWords>, class: u8, mentor: SegId)
        requires class { class < classes machine.now.shared }
        requires mentor { IsIdentity mentor }
        ensures { Gains self.old self.new (λ u. origin_in (tree_of_words (machine_of machine.now)) u class mentor) }
    {
        for entry in 0..ENTRY_COUNT {
            self.take_entry(machine, class, mentor, entry);
        }
    }

    /// Takes the entries of the cells of a class, by identity.
    fn take_class(&mut self, machine: &Machine<PlainWords>, class: u8)
        requires { class < classes machine.now.shared }
        ensures { Gains self.old self.new (λ u. origin_under (tree_of_words (machine_of machine.now)) u class) }
    {
        let table = machine.shared().table();
        table.table_law();
        for number in 0..SERIAL_LIMIT as u16 * table.count() as u16 {
            self.take_cell(machine, class, numbered(number));
        }
    }

    /// Where each segment stands by the words of a machine.
    pub fn of(machine: &Machine<PlainWords>) -> Origins
        ensures { (u : SegId) → IsIdentity u → u.mentor < classes machine.now.shared → listed result u ≡ origin (tree_of_words (machine_of machine.now)) u }
    {
        let mut origins = Origins::nowhere();
        for class in 0..machine.shared().table().count() {
            origins.take_class(machine, class);
        }
        origins
    }
}
