//! A line in the making.

ghost use Rattle.std.specs.Prelude.{◌≡◌, ◌+◌, ◌≤◌, ◌∷◌, [], ◌++◌, length};
ghost use Rattle.std.specs.Fmt.{decimal};
ghost use Rattle.report.specs.Printing.{line_bytes};

use arrayvec::ArrayVec;
use itoa::Buffer;
use std::marker::Model;

/// How many bytes a line has at most.
const LINE_BYTES: usize = 1408;

/// Words with one blank between them, and a line feed at the end: at most 1,408 bytes, of which no memory is asked.
/// Contracts see its bytes.
#[derive(Drop)]
pub struct Line {
    text: ArrayVec<u8, LINE_BYTES>,
}

impl Model for Line {
    ghost use Rattle.std.specs.Prelude.{ℕ, List};

    ghost Value = { List ℕ };

    ghost view = { λ l. l.text.items };
}

impl Line {
    /// A line of one word.
    pub fn of(word: &[u8]) -> Line
        requires { length word.now ≤ line_bytes }
        ensures { result ≡ word.now }
    {
        let mut text = ArrayVec::new();
        let _ = text.try_extend_from_slice(word);
        Line { text }
    }

    /// These bytes more.
    fn append(&mut self, bytes: &[u8])
        requires { length self.old + length bytes.now ≤ line_bytes }
        ensures text { self.new ≡ self.old ++ bytes.now }
        ensures longer { length self.new ≡ length self.old + length bytes.now }
    {
        let _ = self.text.try_extend_from_slice(bytes);
    }

    /// One word more.
    pub fn word(&mut self, word: &[u8])
        requires { length self.old + length word.now + 1 ≤ line_bytes }
        ensures text { self.new ≡ self.old ++ (32 ∷ word.now) }
        ensures longer { length self.new ≡ length self.old + length word.now + 1 }
    {
        self.append(b" ");
        self.append(word);
    }

    /// One number more, in decimal digits.
    pub fn number(&mut self, number: u64)
        requires { length self.old + 21 ≤ line_bytes }
        ensures text { self.new ≡ self.old ++ (32 ∷ decimal number) }
        ensures longer { length self.new ≤ length self.old + 21 }
    {
        let mut digits = Buffer::new();
        self.word(digits.format(number).as_bytes());
    }

    /// One sum more, in decimal digits.
    pub fn sum(&mut self, sum: u128)
        requires { length self.old + 41 ≤ line_bytes }
        ensures text { self.new ≡ self.old ++ (32 ∷ decimal sum) }
        ensures longer { length self.new ≤ length self.old + 41 }
    {
        let mut digits = Buffer::new();
        self.word(digits.format(sum).as_bytes());
    }

    /// The line feed.
    pub fn end(&mut self)
        requires { length self.old + 1 ≤ line_bytes }
        ensures { self.new ≡ self.old ++ 10 ∷ [] }
    {
        self.append(b"\n");
    }

    /// Its bytes.
    pub fn as_slice(&self) -> &[u8]
        ensures { result.now ≡ self.now }
    {
        self.text.as_slice()
    }
}
