//! Words of a script: names, registers and numbers.

ghost use Rattle.std.specs.Prelude.{◌≡◌, ◌<◌, ◌≤◌, ◌^◌, ◌*◌, ◌+◌, IfSome, Some, option_map, Option, ℕ};
ghost use Rattle.script_asm.specs.Script as spec;

use crate::op::{Op, op_text};
use text_lines::{is_name, is_text, spelled_number};

const ALL: [Op; 26] = [
    Op::Halt,
    Op::Set,
    Op::Copy,
    Op::Add,
    Op::Sub,
    Op::Jump,
    Op::JumpZ,
    Op::JumpL,
    Op::Get,
    Op::Put,
    Op::Call,
    Op::Ret,
    Op::Spawn,
    Op::MakeKnown,
    Op::Terminate,
    Op::Create,
    Op::Delete,
    Op::SwapIn,
    Op::SwapOut,
    Op::Fetch,
    Op::Update,
    Op::Read,
    Op::Await,
    Op::Advance,
    Op::Ticket,
    Op::Out,
];

/// Whether the word begins with `@`.
pub fn begins_at(word: &[u8]) -> bool
    ensures { result ≡ spec.begins_at word.now }
{
    match word {
        [first, ..] => *first == b'@',
        [] => false,
    }
}

/// Whether the word is `@` and a name.
pub fn names_place(word: &[u8]) -> bool
    ensures { result ≡ spec.names_place word.now }
{
    match word {
        [first, name @ ..] => *first == b'@' && is_name(name),
        [] => false,
    }
}

fn op_among(ops: &[Op], word: &[u8]) -> Option<Op>
    ensures { result ≡ spec.op_among ops.now word.now }
{
    match ops {
        [] => None,
        [first, more @ ..] => {
            if is_text(word, op_text(*first)) {
                return Some(*first);
            }
            op_among(more, word)
        }
    }
}

/// The mnemonic that the word is.
#[tactic(auto, unfolding(crate::specs::Script::op_of))]
pub fn op_of(word: &[u8]) -> Option<Op>
    ensures { result ≡ spec.op_of word.now }
{
    op_among(&ALL, word)
}

/// The number that the word spells.
pub fn spelled(word: &[u8]) -> Option<u64>
    ensures { result ≡ spec.spelled word.now }
{
    spelled_number(word)
}

/// The number, where it is at most the bound.
pub fn up_to(bound: u64, number: Option<u64>) -> Option<u64>
    ensures { result ≡ spec.up_to bound number }
{
    let number = number?;
    if number > bound {
        return None;
    }
    Some(number)
}

/// The number of a register, `r0` to `r15`.
pub fn register_of(word: &[u8]) -> Option<u64>
    ensures { result ≡ spec.register_of word.now }
{
    match word {
        [b'r', digits @ ..] => up_to(15, spelled(digits)),
        _ => None,
    }
}

/// A hexadecimal digit of either case.
fn hex_digit(byte: u8) -> Option<u64>
    ensures digit { result ≡ spec.hex_digit byte }
    ensures low { IfSome result (λ d. d < 16) }
{
    match byte {
        b'0'..=b'9' => Some(u64::from(byte - b'0')),
        b'a'..=b'f' => Some(u64::from(byte - 87)),
        b'A'..=b'F' => Some(u64::from(byte - 55)),
        _ => None,
    }
}

/// The number with one more hexadecimal digit behind it, where it stays below 2 ^ 64.
fn with_hex_digit(number: Option<u64>, byte: u8) -> Option<u64>
    ensures { result ≡ spec.with_hex_digit number byte }
{
    let number = number?;
    let digit = hex_digit(byte)?;
    number.checked_mul(16)?.checked_add(digit)
}

/// The number so far with these hexadecimal digits behind it.
fn hex_after(number: Option<u64>, digits: &[u8]) -> Option<u64>
    ensures { result ≡ spec.hex_after number digits.now }
{
    match digits {
        [] => number,
        [first, more @ ..] => hex_after(with_hex_digit(number, *first), more),
    }
}

/// The number of 1 to 16 hexadecimal digits.
fn hex_of(digits: &[u8]) -> Option<u64>
    ensures { result ≡ spec.hex_of digits.now }
{
    if digits.is_empty() {
        return None;
    }
    if digits.len() > 16 {
        return None;
    }
    hex_after(Some(0), digits)
}

/// A number, or `0x` and 1 to 16 hexadecimal digits.
pub fn immediate_of(word: &[u8]) -> Option<u64>
    ensures { result ≡ spec.immediate_of word.now }
{
    match word {
        [zero, x, digits @ ..] => {
            if *zero == b'0' && *x == b'x' {
                return hex_of(digits);
            }
            spelled(word)
        }
        _ => spelled(word),
    }
}
