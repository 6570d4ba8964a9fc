//! A label and the order of labels.

ghost use Rattle.std.specs.Prelude.{◌≡◌, ◌↔◌, ◌<◌, ◌≤◌, ◌⊎◌, IsTrue, IfSome, IfNone, MatchOption, Some, Result, slice_index};
ghost use Rattle.labels.specs.Label.{Label as LabelValue, includes as spec_includes, secrecy_at_least, integrity_at_least, dominates as spec_dominates};
ghost use Rattle.labels.specs.Order.{Includes, SecrecyDominates, IntegrityDominates, Dominates, IsLabel, IsJoin, IsMeet};
ghost use Rattle.labels.specs.Bytes.{bytes_of};
ghost use Rattle.labels.specs.Text.{IsAnswer, Spells};
ghost use Rattle.labels.specs.Spelling.{label_text};
ghost use Rattle.labels.specs.Reading.{label_of_halves, read_label};
ghost use Rattle.labels.specs.declared.fault.LabelFault.{LabelFault};

use crate::fault::LabelFault;
use crate::half::{Half, read_form};
use crate::printing::push_half;
use arrayvec::ArrayString;
use std::marker::Model;

/// The greatest level, of secrecy and of integrity.
pub const MAX_LEVEL: u8 = 15;

/// A secrecy level with a set of secrecy categories, and an integrity level with a set of integrity
/// categories. Bit i of a category word says whether category i is in the set.
#[derive(Clone, Copy, Debug, PartialEq, Eq)]
pub struct Label {
    /// From 0 to 15: the more, the more secret.
    pub secrecy_level: u8,
    /// Categories 0 to 31, a bit for each.
    pub secrecy_cats: u32,
    /// From 0 to 15: the more, the more trusted.
    pub integrity_level: u8,
    /// Categories 0 to 31, a bit for each.
    pub integrity_cats: u32,
}

impl Model for Label {
    ghost use Rattle.std.specs.Prelude.{◌≤◌, ◌<◌, ◌^◌};
    ghost use Rattle.labels.specs.Label.{Label as LabelValue};

    ghost Value = { LabelValue };

    ghost view = { λ l. record { secrecy_level = l.secrecy_level; secrecy_cats = l.secrecy_cats; integrity_level = l.integrity_level; integrity_cats = l.integrity_cats } };

    ghost invariant = { λ l. (l.secrecy_level ≤ 15) × (l.secrecy_cats < 2 ^ 32) × (l.integrity_level ≤ 15) × (l.integrity_cats < 2 ^ 32) };

    ghost inverse = { λ v. record { secrecy_level = v.secrecy_level; secrecy_cats = v.secrecy_cats; integrity_level = v.integrity_level; integrity_cats = v.integrity_cats } };
}

/// Whether each category of `b` is a category of `a`.
#[tactic(auto, using(crate::proofs::Words::sets))]
fn includes(a: u32, b: u32) -> bool
    ensures relation { IsTrue result ↔ Includes a b }
    ensures computed { result ≡ spec_includes a b }
{
    a & b == b
}

/// The label of two halves, or what is wrong with their numbers.
fn from_halves(secrecy: Half, integrity: Half) -> Result<Label, LabelFault>
    ensures { result ≡ label_of_halves secrecy integrity }
{
    if secrecy.level > u64::from(MAX_LEVEL) {
        return Err(LabelFault::Level);
    }
    if integrity.level > u64::from(MAX_LEVEL) {
        return Err(LabelFault::Level);
    }
    let (Some(secrecy_cats), Some(integrity_cats)) = (secrecy.cats, integrity.cats) else {
        return Err(LabelFault::Category);
    };
    Ok(Label {
        secrecy_level: secrecy.level as u8,
        secrecy_cats,
        integrity_level: integrity.level as u8,
        integrity_cats,
    })
}

#[tactic(auto, unfolding(crate::specs::Reading::read_label))]
fn read(text: &[u8]) -> Result<Label, LabelFault>
    ensures { result ≡ read_label text.now }
{
    match read_form(text) {
        Some((secrecy, integrity)) => from_halves(secrecy, integrity),
        None => Err(LabelFault::Spelling),
    }
}

fn read_bytes(bytes: &[u8; 10]) -> Option<Label>
    ensures some { IfSome result (λ l. IsLabel l × (bytes.now ≡ bytes_of l)) }
    ensures none { IfNone result ((15 < slice_index bytes.now 0) ⊎ (15 < slice_index bytes.now 5)) }
{
    let [sl, s0, s1, s2, s3, il, i0, i1, i2, i3] = *bytes;
    let secrecy_cats = u32::from_be_bytes([s0, s1, s2, s3]);
    let integrity_cats = u32::from_be_bytes([i0, i1, i2, i3]);
    Label::new(sl, secrecy_cats, il, integrity_cats)
}

impl Label {
    /// The label with these parts. None exactly where a level is above 15.
    pub fn new(
        secrecy_level: u8,
        secrecy_cats: u32,
        integrity_level: u8,
        integrity_cats: u32,
    ) -> Option<Label>
        ensures { MatchOption result ((15 < secrecy_level) ⊎ (15 < integrity_level))
            (λ l. (l ≡ record { secrecy_level = secrecy_level; secrecy_cats = secrecy_cats; integrity_level = integrity_level; integrity_cats = integrity_cats }) × IsLabel l) }
    {
        if secrecy_level > MAX_LEVEL || integrity_level > MAX_LEVEL {
            return None;
        }
        Some(Label {
            secrecy_level,
            secrecy_cats,
            integrity_level,
            integrity_cats,
        })
    }

    /// What holds of every label: its levels are at most 15, and its categories are those from 0 to 31.
    pub fn range_law(&self)
        ensures { IsLabel self.now }
    {
        let _ = &self.secrecy_level;
    }

    /// Whether this secrecy level is at least the other's, and each secrecy category of the other is here.
    pub fn secrecy_dominates(&self, other: &Label) -> bool
        ensures relation { IsTrue result ↔ SecrecyDominates self.now other.now }
        ensures computed { result ≡ secrecy_at_least self.now other.now }
    {
        self.secrecy_level >= other.secrecy_level && includes(self.secrecy_cats, other.secrecy_cats)
    }

    /// Whether this integrity level is at least the other's, and each integrity category of the other is here.
    pub fn integrity_dominates(&self, other: &Label) -> bool
        ensures relation { IsTrue result ↔ IntegrityDominates self.now other.now }
        ensures computed { result ≡ integrity_at_least self.now other.now }
    {
        self.integrity_level >= other.integrity_level
            && includes(self.integrity_cats, other.integrity_cats)
    }

    /// Whether this label is at or above the other: its secrecy dominates, and its integrity is dominated.
    pub fn dominates(&self, other: &Label) -> bool
        ensures relation { IsTrue result ↔ Dominates self.now other.now }
        ensures computed { result ≡ spec_dominates self.now other.now }
    {
        self.secrecy_dominates(other) && other.integrity_dominates(self)
    }

    /// The label that the bytes spell, `L{cats}/L{cats}` with the secrecy half first. A level is at most 15, and
    /// categories rise and are at most 31.
    #[tactic(auto, using(crate::proofs::Answer::answers))]
    pub fn parse_bytes(text: &[u8]) -> Result<Label, LabelFault>
        ensures right { IsAnswer text.now result }
        ensures only { (r : Result LabelValue LabelFault) → IsAnswer text.now r → r ≡ result }
        ensures computed { result ≡ read_label text.now }
    {
        read(text)
    }

    /// The label that the text spells, as `parse_bytes`.
    #[tactic(auto, using(crate::proofs::Answer::answers))]
    pub fn parse(text: &str) -> Result<Label, LabelFault>
        ensures right { IsAnswer text.now result }
        ensures only { (r : Result LabelValue LabelFault) → IsAnswer text.now r → r ≡ result }
        ensures computed { result ≡ read_label text.now }
    {
        read(text.as_bytes())
    }

    /// The one spelling of the label.
    #[tactic(auto, unfolding(crate::specs::Spelling::label_text))]
    fn write_text(&self) -> ArrayString<256>
        ensures { result.bytes ≡ label_text self.now }
    {
        let mut text = ArrayString::new();
        push_half(&mut text, self.secrecy_level, self.secrecy_cats);
        text.push('/');
        push_half(&mut text, self.integrity_level, self.integrity_cats);
        text
    }

    /// The one spelling of the label.
    pub fn text(&self) -> ArrayString<256>
        ensures text { result.bytes ≡ label_text self.now }
        ensures spells { Spells result.bytes self.now }
    {
        self.range_law();
        self.write_text()
    }

    /// The secrecy level, the secrecy categories with the high byte first, and likewise for integrity.
    pub fn to_bytes(&self) -> [u8; 10]
        ensures { result ≡ bytes_of self.now }
    {
        let s = self.secrecy_cats.to_be_bytes();
        let i = self.integrity_cats.to_be_bytes();
        [
            self.secrecy_level,
            s[0],
            s[1],
            s[2],
            s[3],
            self.integrity_level,
            i[0],
            i[1],
            i[2],
            i[3],
        ]
    }

    /// The label that has these bytes. None exactly where a level is above 15.
    pub fn from_bytes(bytes: &[u8; 10]) -> Option<Label>
        ensures some { IfSome result (λ l. IsLabel l × (bytes.now ≡ bytes_of l)) }
        ensures none { IfNone result ((15 < slice_index bytes.now 0) ⊎ (15 < slice_index bytes.now 5)) }
        ensures only { (l : LabelValue) → IsLabel l → bytes.now ≡ bytes_of l → result ≡ Some l }
    {
        read_bytes(bytes)
    }

    /// The least label that dominates both.
    #[tactic(auto, using(crate::proofs::Words::words))]
    pub fn join(&self, other: &Label) -> Label
        ensures { IsJoin result self.now other.now }
    {
        Label {
            secrecy_level: self.secrecy_level.max(other.secrecy_level),
            secrecy_cats: self.secrecy_cats | other.secrecy_cats,
            integrity_level: self.integrity_level.min(other.integrity_level),
            integrity_cats: self.integrity_cats & other.integrity_cats,
        }
    }

    /// The greatest label that both dominate.
    #[tactic(auto, using(crate::proofs::Words::words))]
    pub fn meet(&self, other: &Label) -> Label
        ensures { IsMeet result self.now other.now }
    {
        Label {
            secrecy_level: self.secrecy_level.min(other.secrecy_level),
            secrecy_cats: self.secrecy_cats & other.secrecy_cats,
            integrity_level: self.integrity_level.max(other.integrity_level),
            integrity_cats: self.integrity_cats | other.integrity_cats,
        }
    }
}
