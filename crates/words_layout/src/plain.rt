//! Words in memory.

ghost use Rattle.std.specs.Prelude.{◌≡◌, ◌/◌, ◌*◌, ◌<◌, ◌≤◌, IfOk, length, replicate, slice_index};
ghost use Rattle.words_layout.specs.Sizes.{class_words, most_classes};
ghost use Rattle.words_layout.specs.Ops.{Performed};

use crate::address::Addr;
use crate::limits::CLASS_WORDS;
use crate::op::{Op, WordPort};
use std::alloc::{AllocError, Global};
use std::marker::Model;

/// The words of 1 to 16 classes, in memory. Contracts see them as the list of the words by address.
#[derive(Drop)]
pub struct PlainWords {
    classes: u8,
    words: Vec<u64>,
}

impl Model for PlainWords {
    ghost use Rattle.std.specs.Prelude.{◌≡◌, ℕ, ◌*◌, ◌≤◌, List, vec_len};
    ghost use Rattle.words_layout.specs.Sizes.{class_words, most_classes};

    ghost Value = { List ℕ };

    ghost view = { λ w. w.words.items };

    ghost invariant = { λ w. (vec_len w.words ≡ class_words * w.classes) × (1 ≤ w.classes) × (w.classes ≤ most_classes) };
}

impl PlainWords {
    /// The words of so many classes, all 0.
    pub fn new(alloc: Global, classes: u8) -> Result<PlainWords, AllocError>
        requires { (1 ≤ classes) × (classes ≤ most_classes) }
        ensures words { IfOk result (λ w. w ≡ replicate (class_words * classes) 0) }
        ensures layout { IfOk result (λ w. length w / class_words ≡ classes) }
    {
        let words = vec![in alloc; 0u64; CLASS_WORDS as usize * classes as usize]?;
        Ok(PlainWords { classes, words })
    }

    /// The word at an address of the layout.
    pub fn word(&self, addr: Addr) -> u64
        requires { addr.0 < length self.now }
        ensures { result ≡ slice_index self.now addr.0 }
    {
        self.words[addr.0 as usize]
    }

    /// All words, by address.
    pub fn as_slice(&self) -> &[u64]
        ensures { result.now ≡ self.now }
    {
        self.words.as_slice()
    }

    /// The number of classes of the layout, from 1 to 16.
    pub fn classes(&self) -> u8
        ensures layout { result ≡ length self.now / class_words }
        ensures length { length self.now ≡ class_words * result }
        ensures range { (1 ≤ result) × (result ≤ most_classes) }
    {
        self.classes
    }
}

impl WordPort for PlainWords {
    ghost classes = { λ w. length w / class_words };

    ghost relation = { λ before op answer after. Performed before op answer after };

    fn perform(&mut self, op: Op) -> u64 {
        match op {
            Op::Nothing => 0,
            Op::Load(addr) => self.words[addr.0 as usize],
            Op::Store(addr, x) => {
                self.words[addr.0 as usize] = x;
                0
            }
            Op::Add(addr, x) => {
                let old = self.words[addr.0 as usize];
                self.words[addr.0 as usize] = old.wrapping_add(x);
                old
            }
        }
    }
}
