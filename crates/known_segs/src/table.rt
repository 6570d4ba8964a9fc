//! Sixteen places for known segments.

ghost use Rattle.std.specs.Prelude.{◌≡◌, ◌∷◌, ◌↔◌, Some, None, IsTrue, IsErr, IfOk, MatchResult, is_none, length, replicate, slice_set};
ghost use Rattle.std.specs.Option.{option_map};
ghost use Rattle.known_segs.specs.Places.{place_at, free_place, IsFull, FillsLeast, Empties};

use arrayvec::ArrayVec;
use policy::{Known, Rule};
use std::marker::Model;

/// How many places there are.
const PLACES: usize = 16;

/// The known segments of a process, in sixteen places that are full or empty. Contracts see the list of the
/// places. A place that may only be signalled is a full one here, so `put` never fills it; that it counts as
/// empty for most instructions is the rule of `policy::usable`, and stands with those who read a place.
#[derive(Drop)]
pub struct KnownTable {
    places: ArrayVec<Option<Known>, 16>,
}

impl Model for KnownTable {
    ghost use Rattle.std.specs.Prelude.{◌≡◌, List, Option, length};
    ghost use Rattle.policy.specs.Known.{Known as KnownValue};

    ghost Value = { List (Option KnownValue) };

    ghost view = { λ t. t.places.items };

    ghost invariant = { λ t. length t.places.items ≡ 16 };
}

/// The least empty place.
fn free_among(places: &[Option<Known>]) -> Option<usize>
    ensures { result ≡ free_place places.now }
{
    places.iter().position(|place| place.is_none())
}

impl KnownTable {
    /// The root in place 0, and the other places empty.
    pub fn new(root: Known) -> KnownTable
        ensures { result ≡ Some root ∷ replicate 15 None }
    {
        let mut places = [None; PLACES];
        places[0] = Some(root);
        KnownTable {
            places: ArrayVec::from(places),
        }
    }

    /// Whether no empty place is found.
    fn lacks_empty_place(&self) -> bool
        ensures computed { result ≡ is_none (free_place self.now) }
        ensures sixteen { length self.now ≡ 16 }
    {
        free_among(self.places.as_slice()).is_none()
    }

    /// Whether no place is empty.
    pub fn is_full(&self) -> bool
        ensures relation { IsTrue result ↔ IsFull self.now }
        ensures computed { result ≡ is_none (free_place self.now) }
    {
        self.lacks_empty_place()
    }

    /// Fills the least empty place, where there is one.
    fn fill(&mut self, item: Known) -> Result<u8, Rule>
        ensures computed { MatchResult result
            (λ place. (free_place self.old ≡ Some place) × (self.new ≡ slice_set self.old place (Some item)))
            (λ rule. (rule ≡ Rule.KstFull) × (free_place self.old ≡ None) × (self.new ≡ self.old)) }
        ensures sixteen { length self.old ≡ 16 }
    {
        match free_among(self.places.as_slice()) {
            None => Err(Rule::KstFull),
            Some(place) => {
                self.places.as_mut_slice()[place] = Some(item);
                Ok(place as u8)
            }
        }
    }

    /// Puts the segment into the least empty place, and answers that place. All others stay. `KstFull` comes
    /// exactly where no place is empty; the table is then as it was.
    pub fn put(&mut self, item: Known) -> Result<u8, Rule>
        ensures computed { MatchResult result
            (λ place. (free_place self.old ≡ Some place) × (self.new ≡ slice_set self.old place (Some item)))
            (λ rule. (rule ≡ Rule.KstFull) × (free_place self.old ≡ None) × (self.new ≡ self.old)) }
        ensures put { IfOk result (λ place. FillsLeast self.old item place self.new) }
        ensures full { IsErr result ↔ IsFull self.old }
    {
        self.fill(item)
    }

    /// What a place holds. None exactly where the number is above 15 or the place is empty.
    pub fn get(&self, segno: u64) -> Option<&Known>
        ensures { option_map (λ k. k.now) result ≡ place_at self.now segno }
    {
        let places = self.places.as_slice();
        if segno >= places.len() as u64 {
            return None;
        }
        places[segno as usize].as_ref()
    }

    /// Empties a place, and answers what it held. None exactly where the number is above 15 or the place was
    /// empty. All other places stay.
    pub fn take_out(&mut self, segno: u64) -> Option<Known>
        ensures taken { result ≡ place_at self.old segno }
        ensures computed { self.new ≡ slice_set self.old segno None }
        ensures emptied { Empties self.old segno self.new }
    {
        let places = self.places.as_slice();
        if segno >= places.len() as u64 {
            return None;
        }
        let taken = places[segno as usize];
        self.places.as_mut_slice()[segno as usize] = None;
        taken
    }
}
