//! The tickets that were drawn from the segments of a class, by the words of its sequencers.

ghost use Rattle.std.specs.Prelude.{◌≡◌, ◌<◌, ◌≤◌, ◌*◌};
ghost use Rattle.std.specs.List.{sum_by};
ghost use Rattle.lists.specs.Lists.{below};
ghost use Rattle.words_layout.specs.Limits.{IsIdentity};
ghost use Rattle.words_layout.specs.Named.{words_in};
ghost use Rattle.words_layout.specs.Segments.{seg};
ghost use Rattle.words_layout.specs.Sizes.{most_classes, most_serials};
ghost use Rattle.class_model.specs.Config.{classes};
ghost use Rattle.class_model.specs.State.{identities};

use machine::Machine;
use words_layout::{PlainWords, SERIAL_LIMIT, SegId, address_laws, sequencer_addr};

/// The sequencer of a segment: how many tickets were drawn from it.
fn sequencer(machine: &Machine<PlainWords>, class: u8, seg: SegId) -> u64
    requires class { class < classes machine.now.shared }
    requires seg { IsIdentity seg }
    ensures { result ≡ (words_in machine.now.words class).sequencer seg }
{
    machine.plain_law();
    machine.shared().table().table_law();
    address_laws();
    machine.words().word(sequencer_addr(class, seg))
}

/// The tickets drawn from the segments with mentors of one class.
fn mentor_tickets(machine: &Machine<PlainWords>, class: u8, mentor: u8) -> u128
    requires class { class < classes machine.now.shared }
    requires mentor { mentor < most_classes }
    ensures sum { result ≡ sum_by (λ s. (words_in machine.now.words class).sequencer (seg mentor s)) (below 64) }
    ensures most { result ≤ most_serials * 18446744073709551616 }
{
    let mut tickets = 0u128;
    for serial in 0..SERIAL_LIMIT {
        tickets += u128::from(sequencer(machine, class, SegId { mentor, serial }));
    }
    tickets
}

/// The tickets drawn from all segments of a class.
pub fn class_tickets(machine: &Machine<PlainWords>, class: u8) -> u128
    requires { class < classes machine.now.shared }
    ensures { result ≡ sum_by (words_in machine.now.words class).sequencer (identities (classes machine.now.shared)) }
{
    machine.shared().table().table_law();
    let mut tickets = 0u128;
    for mentor in 0..machine.shared().table().count() {
        tickets += mentor_tickets(machine, class, mentor);
    }
    tickets
}
