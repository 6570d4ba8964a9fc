//! The first step of an instruction that looks or takes turns.

ghost use Rattle.std.specs.Prelude.{◌≡◌, ◌<◌, ◌≤◌, false, Some, None, List, length};
ghost use Rattle.labels.specs.Label.{ClassEntry};
ghost use Rattle.lists.specs.Lists.{part_of};
ghost use Rattle.words_layout.specs.Sizes.{most_classes, most_frames, most_pages};
ghost use Rattle.words_layout.specs.Words.{OfClass, OfSegment};
ghost use Rattle.policy.specs.Verdict.{first_broken};
ghost use Rattle.policy.specs.Private.{make_known_tests, brackets_of, create_tests, delete_tests, swap_in_tests, swap_out_tests, fetch_tests, update_tests};
ghost use Rattle.turns.specs.Doing.{LookSecond, OuterSecond, InnerSecond};
ghost use Rattle.gate_parts.specs.Replies.{KnownTo};
ghost use Rattle.tree_gates.specs.Tree.{make_known_body, create_body, delete_body};
ghost use Rattle.swap_gates.specs.Swap.{swap_in_body, swap_out_body};
ghost use Rattle.data_gates.specs.Data.{fetch_body, update_body};
ghost use Rattle.class_model.specs.Next.{IsUsable};
ghost use Rattle.process.specs.Standing.{doing_in, IsHeld};

use crate::doing::Doing;
use data_gates::{Fetch, Update};
use labels::ClassTable;
use policy::{Caller, Known};
use swap_gates::{SwapIn, SwapOut};
use tree_gates::{Create, Delete, MakeKnown};

/// Makeknown: the started word of the mentor's class was loaded.
pub fn begin_make_known(
    who: &Caller,
    table: &ClassTable,
    known: &Known,
    entry: u64,
    mode: u64,
    answer: u64,
) -> Doing
    requires class { who.now.class < most_classes }
    requires table { who.now.class < length table.now }
    requires known { KnownTo who.now.class (Some known.now) }
    requires usable { IsUsable known.now }
    requires passed { first_broken (make_known_tests who.now.ring entry mode false known.now) ≡ None }
    ensures doing { doing_in table.now result ≡ LookSecond known.now.class OfClass answer (make_known_body table.now who.now.class who.now.ring known.now entry mode) }
    ensures held { IsHeld who.now.class result }
{
    let mut gate = MakeKnown::start(who, Some(known), entry, mode, false);
    gate.absorb(table, answer);
    Doing::MakeKnown(gate)
}

/// Create: 1 was added to the started word of the class.
pub fn begin_create(
    who: &Caller,
    table: &ClassTable,
    known: &Known,
    entry: u64,
    class: u64,
    brackets: u64,
    size: u64,
    answer: u64,
) -> Doing
    requires class { who.now.class < most_classes }
    requires table { known.now.class < length table.now }
    requires known { KnownTo who.now.class (Some known.now) }
    requires usable { IsUsable known.now }
    requires passed { first_broken (create_tests table.now who.now.ring entry class brackets size known.now) ≡ None }
    ensures doing { (t : List ClassEntry) → doing_in t result ≡ OuterSecond (create_body known.now.seg entry class (brackets_of brackets) size) }
    ensures held { IsHeld who.now.class result }
{
    let mut gate = Create::start(who, Some(known), table, entry, class, brackets, size);
    gate.absorb(answer);
    Doing::Create(gate)
}

/// Delete: 1 was added to the started word of the class.
pub fn begin_delete(who: &Caller, known: &Known, entry: u64, answer: u64) -> Doing
    requires class { who.now.class < most_classes }
    requires known { KnownTo who.now.class (Some known.now) }
    requires usable { IsUsable known.now }
    requires passed { first_broken (delete_tests who.now.ring entry known.now) ≡ None }
    ensures doing { (t : List ClassEntry) → doing_in t result ≡ OuterSecond (delete_body who.now.class known.now.seg entry) }
    ensures held { IsHeld who.now.class result }
{
    let mut gate = Delete::start(who, Some(known), entry);
    gate.absorb(answer);
    Doing::Delete(gate)
}

/// Swapin: 1 was added to the started word of the class, which has so many frames.
pub fn begin_swap_in(who: &Caller, known: &Known, frames: u8, answer: u64) -> Doing
    requires class { who.now.class < most_classes }
    requires known { KnownTo who.now.class (Some known.now) }
    requires frames { frames ≤ most_frames }
    requires usable { IsUsable known.now }
    requires passed { first_broken (swap_in_tests who.now.ring known.now) ≡ None }
    ensures doing { (t : List ClassEntry) → doing_in t result ≡ OuterSecond (swap_in_body frames known.now) }
    ensures held { IsHeld who.now.class result }
{
    let mut gate = SwapIn::start(who, Some(known), frames);
    gate.absorb(answer);
    Doing::SwapIn(gate)
}

/// Swapout: 1 was added to the started word of the class, which has so many pages.
pub fn begin_swap_out(who: &Caller, known: &Known, pages: u8, answer: u64) -> Doing
    requires class { who.now.class < most_classes }
    requires known { KnownTo who.now.class (Some known.now) }
    requires pages { pages ≤ most_pages }
    requires usable { IsUsable known.now }
    requires passed { first_broken (swap_out_tests who.now.ring known.now) ≡ None }
    ensures doing { (t : List ClassEntry) → doing_in t result ≡ OuterSecond (swap_out_body pages known.now) }
    ensures held { IsHeld who.now.class result }
{
    let mut gate = SwapOut::start(who, Some(known), pages);
    gate.absorb(answer);
    Doing::SwapOut(gate)
}

/// Fetch: the started word of the segment was loaded. What the last instruction left of a fetch is begun again.
#[tactic(auto, using(data_gates::proofs::Bounds::fetch_bounds))]
pub fn begin_fetch(
    doing: &mut Doing,
    who: &Caller,
    known: &Known,
    offset: u64,
    count: u64,
    pad: u64,
    answer: u64,
)
    requires class { who.now.class < most_classes }
    requires known { KnownTo who.now.class (Some known.now) }
    requires usable { IsUsable known.now }
    requires passed { first_broken (fetch_tests who.now.ring offset count pad known.now) ≡ None }
    ensures doing { (t : List ClassEntry) → doing_in t doing.new ≡ LookSecond known.now.class (OfSegment known.now.seg) answer (fetch_body known.now.seg offset count pad) }
    ensures held { IsHeld who.now.class doing.new }
{
    match doing {
        Doing::Fetch { gate, pad: place } => {
            gate.restart(known, offset as u8, count as u8, pad as u8);
            gate.absorb(answer);
            *place = pad as u8;
        }
        _ => {
            let mut gate = Fetch::start(who, Some(known), offset, count, pad);
            gate.absorb(answer);
            *doing = Doing::Fetch {
                gate,
                pad: pad as u8,
            };
        }
    }
}

/// Update: 1 was added to the started word of the segment. What the last instruction left of an update is begun again.
#[tactic(auto, using(data_gates::proofs::Bounds::update_bounds))]
pub fn begin_update(
    doing: &mut Doing,
    who: &Caller,
    known: &Known,
    offset: u64,
    count: u64,
    pad: u64,
    words: &[u64; 64],
    answer: u64,
)
    requires class { who.now.class < most_classes }
    requires known { KnownTo who.now.class (Some known.now) }
    requires usable { IsUsable known.now }
    requires passed { first_broken (update_tests who.now.ring offset count pad known.now) ≡ None }
    ensures doing { (t : List ClassEntry) → doing_in t doing.new ≡ InnerSecond None known.now.seg (update_body known.now.seg offset (part_of words.now pad count)) }
    ensures held { IsHeld who.now.class doing.new }
{
    match doing {
        Doing::Update(gate) => {
            gate.restart(
                who.class,
                known,
                offset as u8,
                count as u8,
                pad as u8,
                words,
            );
            gate.absorb(answer);
        }
        _ => {
            let mut gate = Update::start(who, Some(known), offset, count, pad, words);
            gate.absorb(answer);
            *doing = Doing::Update(gate);
        }
    }
}
