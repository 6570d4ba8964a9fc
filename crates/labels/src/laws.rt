//! What holds of the order of labels, and of their texts.

ghost use Rattle.std.specs.Prelude.{◌≡◌, ◌↔◌, IsTrue, List, ℕ, ◌<◌, length};
ghost use Rattle.labels.specs.Label.{Label, ClassEntry, secrecy_at_least, integrity_at_least, dominates, at_or_below};
ghost use Rattle.labels.specs.Table.{IsTable};
ghost use Rattle.labels.specs.Order.{SecrecyDominates, IntegrityDominates, Dominates, IsLabel};
ghost use Rattle.labels.specs.Text.{Spells, IsAnswer};
ghost use Rattle.labels.specs.Spelling.{label_text};
ghost use Rattle.labels.specs.Reading.{read_label};

/// Dominating is a partial order.
#[tactic(auto, using(crate::proofs::OrderLaws::laws))]
pub fn order_laws()
    ensures reflexive { (a : Label) → Dominates a a }
    ensures transitive { (a b c : Label) → Dominates a b → Dominates b c → Dominates a c }
    ensures antisymmetric { (a b : Label) → IsLabel a → IsLabel b → Dominates a b → Dominates b a → a ≡ b }
{}

/// The tests are those of the relations.
#[tactic(auto, using(crate::proofs::OrderLaws::twins))]
pub fn twin_laws()
    ensures secrecy { (a b : Label) → IsTrue (secrecy_at_least a b) ↔ SecrecyDominates a b }
    ensures integrity { (a b : Label) → IsTrue (integrity_at_least a b) ↔ IntegrityDominates a b }
    ensures whole { (a b : Label) → IsTrue (dominates a b) ↔ Dominates a b }
{}

/// A label has one text, which is read as that label.
#[tactic(auto, using(crate::proofs::OneText::laws))]
pub fn text_laws()
    ensures spelled { (l : Label) → IsLabel l → Spells (label_text l) l }
    ensures one { (text : List ℕ) (l : Label) → Spells text l → text ≡ label_text l }
    ensures read { (text : List ℕ) → IsAnswer text (read_label text) }
{}

/// The classes of a table are partly ordered, and class 0 is at or below each.
#[tactic(auto, using(crate::proofs::Tables::classes))]
pub fn class_laws()
    ensures reflexive { (table : List ClassEntry) (c : ℕ) → IsTrue (at_or_below table c c) }
    ensures transitive { (table : List ClassEntry) (c d e : ℕ) → IsTrue (at_or_below table c d) → IsTrue (at_or_below table d e) → IsTrue (at_or_below table c e) }
    ensures antisymmetric { (table : List ClassEntry) → IsTable table → (c d : ℕ) → c < length table → d < length table → IsTrue (at_or_below table c d) → IsTrue (at_or_below table d c) → c ≡ d }
    ensures lowest { (table : List ClassEntry) → IsTable table → (c : ℕ) → c < length table → IsTrue (at_or_below table 0 c) }
{}
