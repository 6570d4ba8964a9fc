//! Worked lines, words and numbers.

use super::*;
use std::test::Fail;

/// Words, and the number that each spells below 2 ^ 64.
const NUMBERS: [(&str, Result<u64, NumberFault>); 8] = [
    ("0", Ok(0)),
    ("18446744073709551615", Ok(18_446_744_073_709_551_615)),
    ("18446744073709551616", Err(NumberFault::Large)),
    ("00", Err(NumberFault::Spelling)),
    ("01", Err(NumberFault::Spelling)),
    ("", Err(NumberFault::Spelling)),
    ("1a", Err(NumberFault::Spelling)),
    ("-1", Err(NumberFault::Spelling)),
];

/// Words, and whether each is a name.
const NAMES: [(&str, bool); 5] = [
    ("go", true),
    ("abcdefghij012345", true),
    ("abcdefghij0123456", false),
    ("", false),
    ("Go", false),
];

#[test]
fn lines_words_and_numbers(rt: HostRuntime) -> Result<(), Fail> {
    for (text, wanted) in NUMBERS {
        assert_eq!(rt; number(text.as_bytes()), wanted, "{text}");
    }
    for (text, wanted) in NAMES {
        assert_eq!(rt; is_name(text.as_bytes()), wanted, "{text}");
    }
    let mut counts = Vec::new(rt.alloc());
    for line in Lines::new(b"\tset  r1 2 # three\n\n# none\nhalt") {
        counts.push(word_list(rt.alloc(), line)?.len())?;
    }
    assert_eq!(rt; counts.as_slice(), [3, 0, 0, 1].as_slice());
    assert!(rt; is_allowed_line(b"\t ~") && !is_allowed_line(b"a\r"));
    Ok(())
}
