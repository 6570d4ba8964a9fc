//! Words that keep a tape of what was performed on them, for tests.

ghost use Rattle.std.specs.Prelude.{◌≡◌, ◌/◌, [], false, length};
ghost use Rattle.words_layout.specs.Sizes.{class_words};
ghost use Rattle.words_layout.specs.Recorded.{Records};

use crate::op::{Op, WordPort};
use crate::plain::PlainWords;
use std::marker::Model;

/// Words with a tape of operations and answers. The tape is torn where it finds no room: it takes no memory
/// of its own, so give it a vector with room.
#[derive(Drop)]
pub struct RecordingWords {
    words: PlainWords,
    entries: Vec<(Op, u64)>,
    torn: bool,
}

impl Model for RecordingWords {
    ghost use Rattle.words_layout.specs.Recorded.{Tape};

    ghost Value = { Tape };

    ghost view = { λ r. record { words = r.words; entries = r.entries.items; torn = r.torn } };
}

impl RecordingWords {
    /// These words, with a tape that begins as it is given.
    pub fn new(words: PlainWords, tape: Vec<(Op, u64)>) -> RecordingWords
        ensures words { result.words ≡ words }
        ensures entries { result.entries ≡ tape.items }
        ensures torn { result.torn ≡ false }
    {
        RecordingWords {
            words,
            entries: tape,
            torn: false,
        }
    }

    /// The operations with their answers, in order.
    pub fn entries(&self) -> &[(Op, u64)]
        ensures { result.now ≡ self.now.entries }
    {
        self.entries.as_slice()
    }

    /// Whether an operation found no room on the tape.
    pub fn is_torn(&self) -> bool
        ensures { result ≡ self.now.torn }
    {
        self.torn
    }
}

impl WordPort for RecordingWords {
    ghost classes = { λ r. length r.words / class_words };

    ghost relation = { λ before op answer after. Records before op answer after };

    fn perform(&mut self, op: Op) -> u64 {
        if op == Op::Nothing {
            return 0;
        }
        let answer = self.words.perform(op);
        if self.entries.len() < self.entries.capacity() {
            self.entries.push_reserved((op, answer));
        } else {
            self.torn = true;
        }
        answer
    }
}
