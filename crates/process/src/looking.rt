//! The looks of a read or an await.

ghost use Rattle.std.specs.Prelude.{◌≡◌, ◌<◌, None, length, slice_index};
ghost use Rattle.policy.specs.Outcome.{components};
ghost use Rattle.gate_parts.specs.Replies.{IsKnown};
ghost use Rattle.evc_gates.specs.Counting.{classes_of, sum_act};
ghost use Rattle.evc_gates.specs.Summing.{next_look, tally_of};

use class_model::Tally;
use evc_gates::Await;
use labels::ClassTable;
use policy::Known;

/// The classes at or below a class, as bits.
pub fn classes_below(table: &ClassTable, class: u8) -> u16
    requires { class < length table.now }
    ensures { classes_of result ≡ components table.now class }
{
    table.table_law();
    let mut bits = 0u16;
    for low in 0..table.count() {
        if table.below(low, class) {
            bits |= 1 << low;
        }
    }
    bits
}

/// The next look at the components of a known segment's eventcount.
pub fn next_look(table: &ClassTable, known: &Known, wanted: u64, tally: Tally) -> Await
    requires class { known.now.class < length table.now }
    requires known { IsKnown known.now }
    ensures act { next_look result.looks ≡ sum_act None (components table.now known.now.class) known.now wanted tally }
    ensures tally { tally_of result.looks ≡ tally }
{
    let below = classes_below(table, known.class);
    Await::go_on(known, below, wanted, tally.seen, tally.sum)
}
