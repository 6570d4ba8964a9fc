//! Names, fixed words and the bytes that a line may have.

ghost use Rattle.std.specs.Prelude.{◌≡◌};
ghost use Rattle.std.specs.List.{list_all};
ghost use Rattle.std.specs.Str.{bytes_eq};
ghost use Rattle.text_lines.specs.Name as spec;

/// Whether the word is this text.
pub fn is_text(word: &[u8], text: &[u8]) -> bool
    ensures { result ≡ bytes_eq word.now text.now }
{
    word == text
}

fn has_name_bytes(word: &[u8]) -> bool
    ensures { result ≡ list_all spec.is_name_byte word.now }
{
    word.iter()
        .all(|b| matches!(*b, b'a'..=b'z') || matches!(*b, b'0'..=b'9'))
}

/// Whether the word is a name: 1 to 16 of `a` to `z` and `0` to `9`.
pub fn is_name(word: &[u8]) -> bool
    ensures { result ≡ spec.is_name word.now }
{
    !word.is_empty() && word.len() <= 16 && has_name_bytes(word)
}

/// Whether the byte is allowed: the tab, and 0x20 to 0x7E.
fn is_allowed(byte: u8) -> bool
    ensures { result ≡ spec.is_allowed byte }
{
    byte == b'\t' || matches!(byte, 0x20..=0x7e)
}

/// Whether each byte of the line is allowed: the tab, and 0x20 to 0x7E. No byte ends the loop early, so that the compiler can
/// test several at once.
pub fn is_allowed_line(line: &[u8]) -> bool
    ensures { result ≡ spec.all_allowed line.now }
{
    let mut all = true;
    for byte in line {
        all &= is_allowed(*byte);
    }
    all
}
