//! What fields are made of: bytes and numbers at the front of what is left, each with what follows it.

ghost use Rattle.std.specs.Prelude.{◌≡◌};
ghost use Rattle.std.specs.Str.{bytes_eq};
ghost use Rattle.std.specs.Int.{w16, w64};
ghost use Rattle.volume_image.specs.Steps.{Gives, byte_at, front_at, number_at, identity_at};

use crate::fault::{SHORT, Stop};
use byteorder::{BigEndian, ByteOrder};
use words_layout::SegId;

/// Whether both are the same bytes.
pub fn is_same(a: &[u8], b: &[u8]) -> bool
    ensures { result ≡ bytes_eq a.now b.now }
{
    a == b
}

/// The next byte.
pub fn byte_of(bytes: &[u8]) -> Result<(u8, &[u8]), Stop>
    ensures { Gives (λ x. (x.0, x.1.now)) result (byte_at bytes.now) }
{
    match bytes {
        [] => Err(SHORT),
        [byte, rest @ ..] => Ok((*byte, rest)),
    }
}

/// The next bytes, so many of them.
pub fn front_of(bytes: &[u8], count: usize) -> Result<(&[u8], &[u8]), Stop>
    ensures { Gives (λ x. (x.0.now, x.1.now)) result (front_at count bytes.now) }
{
    if bytes.len() < count {
        return Err(SHORT);
    }
    Ok(bytes.split_at(count))
}

/// The number in the next two bytes, the high byte first, and what follows it.
#[tactic(auto, using(crate::proofs::BigEndian::numbers))]
pub fn short_number_of(bytes: &[u8]) -> Result<(u16, &[u8]), Stop>
    ensures { Gives (λ x. (x.0, x.1.now)) result (number_at w16 bytes.now) }
{
    if bytes.len() < 2 {
        return Err(SHORT);
    }
    let (front, rest) = bytes.split_at(2);
    Ok((BigEndian::read_u16(front), rest))
}

/// The number in the next eight bytes, the high byte first, and what follows it.
#[tactic(auto, using(crate::proofs::BigEndian::numbers))]
pub fn word_of(bytes: &[u8]) -> Result<(u64, &[u8]), Stop>
    ensures { Gives (λ x. (x.0, x.1.now)) result (number_at w64 bytes.now) }
{
    if bytes.len() < 8 {
        return Err(SHORT);
    }
    let (front, rest) = bytes.split_at(8);
    Ok((BigEndian::read_u64(front), rest))
}

/// The identity in the next two bytes, and what follows it.
pub fn identity_of(bytes: &[u8]) -> Result<(SegId, &[u8]), Stop>
    ensures { Gives (λ x. (x.0, x.1.now)) result (identity_at bytes.now) }
{
    match bytes {
        [mentor, serial, rest @ ..] => Ok((
            SegId {
                mentor: *mentor,
                serial: *serial,
            },
            rest,
        )),
        _ => Err(SHORT),
    }
}
