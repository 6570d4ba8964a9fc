//! What holds of the texts of configurations and of what they spell, apart from any reading of them.

ghost use Rattle.std.specs.Prelude.{◌≡◌, ◌⊎◌, ◌↔◌, ℕ, List};
ghost use Rattle.config_text.specs.declared.config.Config.{Config};
ghost use Rattle.config_text.specs.Text.{Spells, Says, IsFault, SpellsOne, HasFault};

/// A text spells at most one configuration, and it spells one exactly where no line of it has a code. It spells one or
/// has one first fault, and never both, however long it is and whether or not its numbers are bytes.
pub fn config_laws()
    // No line has a code, and the lines say the configuration, exactly where the text spells it.
    ensures said { (text : List ℕ) (k : Config) → Says text k ↔ Spells text k }
    ensures one { (text : List ℕ) (a b : Config) → Spells text a → Spells text b → a ≡ b }
    ensures apart { (text : List ℕ) (a : Config) (line code : ℕ) → Spells text a → IsFault text line code → ⊥ }
    ensures always { (text : List ℕ) → SpellsOne text ⊎ HasFault text }
    ensures one_fault { (text : List ℕ) (l c m d : ℕ) → IsFault text l c → IsFault text m d → (l ≡ m) × (c ≡ d) }
{}
