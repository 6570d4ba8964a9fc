//! The list of the components of a class.

ghost use Rattle.std.specs.Prelude.{◌≡◌, ◌+◌, ◌<◌, ◌++◌, ◌∷◌, [], true, ℕ, IfOk, OnErr, None, Some, length, position};
ghost use Rattle.lists.specs.Lists.{put};
ghost use Rattle.words_layout.specs.Segments.{put_seg};
ghost use Rattle.words_layout.specs.declared.segment.SegId.{SegId};
ghost use Rattle.class_model.specs.Step.{advance_effect};
ghost use Rattle.whole_machine.specs.Parts.{Counted, is_count, count_in, part_in};
ghost use Rattle.whole_machine.specs.Shows.{ListsAt, SameCounts, RaisesCount, Shows, Stands};

use crate::keyed::push_keyed;
use crate::part::PartState;
use class_model::Shown;
use indexmap::IndexSet;
use std::alloc::{AllocError, Global};
use std::marker::Model;
use words_layout::SegId;

/// A component of the eventcount of the cell of class `class` and identity `seg`.
#[derive(Clone, Copy, Debug)]
struct ListedCount {
    class: u8,
    seg: SegId,
    count: u64,
}

impl Model for ListedCount {
    ghost use Rattle.whole_machine.specs.Parts.{Counted};

    ghost Value = { Counted };

    ghost view = { λ l. record { class = l.class; seg = l.seg; count = l.count } };

    ghost inverse = { λ v. record { class = v.class; seg = v.seg; count = v.count } };
}

/// The components of a class, as they were listed one after the other, and the key of each, by which it is found.
#[derive(Drop)]
pub(crate) struct CountList {
    items: Vec<ListedCount>,
    keys: IndexSet<(u8, (u8, u8))>,
}

impl Model for CountList {
    ghost use Rattle.std.specs.Prelude.{◌≡◌, List, map};
    ghost use Rattle.whole_machine.specs.Parts.{Counted, count_key};

    ghost Value = { List Counted };

    ghost view = { λ l. l.items.items };

    ghost invariant = { λ l. l.keys.keys ≡ map count_key l.items.items };
}

impl CountList {
    /// No component is listed.
    pub(crate) fn new(alloc: Global) -> CountList
        ensures { result ≡ [] }
    {
        CountList {
            items: Vec::new(alloc),
            keys: IndexSet::new(alloc),
        }
    }

    /// Where a component is listed first.
    fn place_of(&self, class: u8, seg: SegId) -> Option<usize>
        ensures { result ≡ position (is_count class seg) self.now }
    {
        self.keys.get_index_of(&(class, (seg.mentor, seg.serial)))
    }

    /// The component of the cell of class `class` and identity `seg`; 0 where none is listed.
    pub(crate) fn count(&self, class: u8, seg: SegId) -> u64
        ensures { result ≡ count_in self.now class seg }
    {
        match self.place_of(class, seg) {
            Some(at) => self.items[at].count,
            None => 0,
        }
    }

    /// A component of 0 that isn't listed is listed last. NoMemory changes nothing.
    fn push(&mut self, class: u8, seg: SegId) -> Result<(), AllocError>
        requires { position (is_count class seg) self.old ≡ None }
        ensures ok { IfOk result (λ _. self.new ≡ self.old ++ record { class = class; seg = seg; count = 0 } ∷ []) }
        ensures err { OnErr result (self.new ≡ self.old) }
    {
        let count = 0;
        let item = ListedCount { class, seg, count };
        let key = (class, (seg.mentor, seg.serial));
        push_keyed(&mut self.items, &mut self.keys, item, key)
    }
}

/// Where a component is listed; one of 0 is listed where none was. NoMemory changes nothing.
pub(crate) fn list_count(counts: &mut CountList, class: u8, seg: SegId) -> Result<usize, AllocError>
    ensures ok { IfOk result (λ at. ListsAt (is_count class seg) counts.new at) }
    ensures same { SameCounts counts.old counts.new }
{
    match counts.place_of(class, seg) {
        Some(at) => Ok(at),
        None => {
            let at = counts.items.len();
            counts.push(class, seg)?;
            Ok(at)
        }
    }
}

/// The component at a place rises by one, and is answered. NoMemory, which comes where it would pass the greatest u64,
/// changes nothing.
pub(crate) fn raise(counts: &mut CountList, at: usize) -> Result<u64, AllocError>
    requires { at < length counts.old }
    ensures count { IfOk result (λ v. (x : ℕ) (u : SegId) → ListsAt (is_count x u) counts.old at → v ≡ count_in counts.old x u + 1) }
    ensures ok { IfOk result (λ v. RaisesCount counts.old counts.new at) }
    ensures err { OnErr result (counts.new ≡ counts.old) }
{
    let item = counts.items[at];
    let Some(count) = item.count.checked_add(1) else {
        return Err(AllocError);
    };
    let class = item.class;
    let seg = item.seg;
    counts.items[at] = ListedCount { class, seg, count };
    Ok(count)
}

impl PartState {
    /// Advance: this class's component of the eventcount of the cell of class `class` rises, and is shown. NoMemory, also
    /// where it would pass the greatest u64, changes nothing.
    pub(crate) fn advance(&mut self, class: u8, seg: SegId) -> Result<Shown<'static>, AllocError>
        ensures ok { IfOk result (λ shown. Shows (advance_effect (part_in self.old) class seg) self.new shown) }
        ensures err { OnErr result (Stands self.new self.old) }
    {
        let at = list_count(&mut self.counts, class, seg)?;
        let count = raise(&mut self.counts, at)?;
        Ok(Shown::Value(count))
    }
}
