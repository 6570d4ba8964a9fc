//! Rights in a segment.

ghost use Rattle.std.specs.Prelude.{⊤, ◌≡◌, ◌==◌, ◌⊎◌, [], ◌∷◌, codes};
ghost use Rattle.policy.specs.Known.{observes, modifies, signals, rights_of};

use bitflags::{Flag, Flags, bitflag_items};

/// A set of rights. Contracts speak of its bits as a number: 1 to observe, 2 to modify, 4 to signal.
#[derive(Clone, Copy, Debug, PartialEq, Eq)]
pub struct Rights(u8);

bitflag_items! {
    impl Rights: u8 {
        const OBSERVE = 1;
        const MODIFY = 2;
        const SIGNAL = 4;
    }
}

impl Flags for Rights {
    type Bits = u8;

    ghost exact = { ⊤ };

    ghost table = { (codes "OBSERVE", 1) ∷ (codes "MODIFY", 2) ∷ (codes "SIGNAL", 4) ∷ [] };

    ghost set_of = { λ r. r.0 };

    fn flags<'a>() -> &'a [Flag<Rights>] {
        Rights::FLAGS
    }

    fn bits(&self) -> u8 {
        self.0
    }

    fn from_bits_retain(bits: u8) -> Rights {
        Rights(bits)
    }
}

impl Rights {
    /// Whether they let observe.
    pub fn observes(self) -> bool
        ensures { result ≡ observes self.0 }
    {
        self.contains(Rights::OBSERVE)
    }

    /// Whether they let modify.
    pub fn modifies(self) -> bool
        ensures { result ≡ modifies self.0 }
    {
        self.contains(Rights::MODIFY)
    }

    /// Whether they let signal alone.
    pub fn signals(self) -> bool
        ensures { result ≡ signals self.0 }
    {
        self.contains(Rights::SIGNAL)
    }

    /// What a mode of `makeknown` wants: 1 to observe, 2 to modify, 3 both.
    pub fn wanted(mode: u64) -> Rights
        requires { (mode ≡ 1) ⊎ (mode ≡ 2) ⊎ (mode ≡ 3) }
        ensures { result.0 ≡ mode }
    {
        Rights(mode as u8)
    }

    /// What a mode of `makeknown` gives: 1 to observe, 2 to signal, 3 to observe and modify.
    pub fn given(mode: u64) -> Rights
        requires { (mode ≡ 1) ⊎ (mode ≡ 2) ⊎ (mode ≡ 3) }
        ensures { result.0 ≡ rights_of mode }
    {
        if mode == 2 {
            Rights::SIGNAL
        } else {
            Rights::wanted(mode)
        }
    }
}
