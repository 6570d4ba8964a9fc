//! What holds of orders, of their texts and of what they make of volumes, apart from any code.

ghost use Rattle.std.specs.Prelude.{◌≡◌, ◌⊎◌, ◌↔◌, ℕ, List};
ghost use Rattle.release_guard.specs.declared.order.Order.{Order};
ghost use Rattle.release_guard.specs.Guard.{Volume, exported, guard, source_words};
ghost use Rattle.release_guard.specs.Text.{Spells, Says, IsFault, SpellsOne, HasFault};

/// A text spells at most one order, and it spells one exactly where no line of it has a code. It spells one or has one
/// first fault, and never both, however long it is and whether or not its numbers are bytes.
pub fn order_laws()
    // No line has a code, and the lines say the order, exactly where the text spells it.
    ensures said { (text : List ℕ) (k : Order) → Says text k ↔ Spells text k }
    ensures one { (text : List ℕ) (a b : Order) → Spells text a → Spells text b → a ≡ b }
    ensures apart { (text : List ℕ) (a : Order) (line code : ℕ) → Spells text a → IsFault text line code → ⊥ }
    ensures always { (text : List ℕ) → SpellsOne text ⊎ HasFault text }
    ensures one_fault { (text : List ℕ) (l c m d : ℕ) → IsFault text l c → IsFault text m d → (l ≡ m) × (c ≡ d) }
{}

/// What is made of a volume is a function of the order, of the records at or below the export class with their words
/// blanked above it, and of the words at the sources. So nothing else flows down.
pub fn flow_law()
    ensures { (k : Order) (v w : Volume) → exported k v ≡ exported k w → source_words k v ≡ source_words k w → guard k v ≡ guard k w }
{}
