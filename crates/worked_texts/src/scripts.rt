//! Worked scripts: what is read and how it is printed, and the first fault of what isn't read.

use script_asm::{AsmError, assemble, print, printed_again, read_lines};
use script_lang::Program;
use std::alloc::{AllocError, Global};
use std::test::Fail;

/// Scripts, and how each is printed.
const SCRIPTS: [(&str, &str); 6] = [
    (
        "set r1 0xFf  # hexadecimal\n@go\n\n\tout\tr1\njumpz r15 @go # back\njump 1",
        "set r1 255\nout r1\njumpz r15 1\njump 1\n",
    ),
    (
        "set r0 18446744073709551615\nset r0 0xffffFFFFffffFFFF\nset r0 0x000000000000000a\nset r0 0x0\nset r0 0\nhalt\n",
        "set r0 18446744073709551615\nset r0 18446744073709551615\nset r0 10\nset r0 0\nset r0 0\nhalt\n",
    ),
    (
        "@abcdefghij012345\njumpl r1 r2 @z\n@z\njump @abcdefghij012345\n",
        "jumpl r1 r2 1\njump 0\n",
    ),
    (
        "copy r1 r2\nadd r1 r2\nsub r1 r2\nget r1 r2\nput r1 r2\ncall 31\nret\nspawn 0 r3\nmakeknown r1 r2 r3\nhalt\n",
        "copy r1 r2\nadd r1 r2\nsub r1 r2\nget r1 r2\nput r1 r2\ncall 31\nret\nspawn 0 r3\nmakeknown r1 r2 r3\nhalt\n",
    ),
    (
        "terminate r4\ncreate r1 r2 r3 r4 r5\ndelete r1 r2\nswapin r6\nswapout r7\nfetch r1 r2 r3 r4\nupdate r4 r3 r2 r1\nread r8\nhalt\n",
        "terminate r4\ncreate r1 r2 r3 r4 r5\ndelete r1 r2\nswapin r6\nswapout r7\nfetch r1 r2 r3 r4\nupdate r4 r3 r2 r1\nread r8\nhalt\n",
    ),
    (
        "await r9 r10\nadvance r11\nticket r12\nout r13\nhalt # the last line has no line feed",
        "await r9 r10\nadvance r11\nticket r12\nout r13\nhalt\n",
    ),
];

/// Texts with a fault, its line and its code.
const FAULTS: [(&str, u32, u8); 60] = [
    ("halt\r\n", 1, 1),
    ("halt # \u{7f}\n", 1, 1),
    ("# a comment\n\nHALT\nhalt", 3, 1),
    ("halt2\n", 1, 1),
    ("\u{e9}\nhalt\n", 1, 1),
    ("jump 9 # \u{1}\nhalt\n", 1, 1),
    ("jump 2\nnone\nhalt\n", 2, 1),
    ("copy r1\nhalt\n", 1, 2),
    ("halt r1\n", 1, 2),
    ("create r1 r2 r3 r4\nhalt\n", 1, 2),
    ("set r1 1 1\nhalt\n", 1, 2),
    ("@go halt\nhalt\n", 1, 2),
    ("jump @go\n@go halt\nhalt\n", 2, 2),
    ("@\nhalt\n", 1, 2),
    ("@Go\nhalt\n", 1, 2),
    ("@abcdefghij0123456\nhalt\n", 1, 2),
    ("set r1 01\nhalt\n", 1, 3),
    ("set r1 00\nhalt\n", 1, 3),
    ("set r1 1a\nhalt\n", 1, 3),
    ("set r1 -1\nhalt\n", 1, 3),
    ("set r1 18446744073709551616\nhalt\n", 1, 3),
    ("set r1 0x12345678123456781\nhalt\n", 1, 3),
    ("set r1 0x00000000000000001\nhalt\n", 1, 3),
    ("set r1 0x\nhalt\n", 1, 3),
    ("set r1 0xg\nhalt\n", 1, 3),
    ("set r1 0X1\nhalt\n", 1, 3),
    ("set r16 01\nhalt\n", 1, 3),
    ("call 32\nhalt\n", 1, 3),
    ("call r1\nhalt\n", 1, 3),
    ("call 0x1\nhalt\n", 1, 3),
    ("spawn 32 r16\nhalt\n", 1, 3),
    ("jump go\nhalt\n", 1, 3),
    ("jump 00\nhalt\n", 1, 3),
    ("jump 18446744073709551616\nhalt\n", 1, 3),
    ("jumpz r16 go\nhalt\n", 1, 3),
    ("set r16 1\nhalt\n", 1, 4),
    ("copy r01 r1\nhalt\n", 1, 4),
    ("copy r1 r\nhalt\n", 1, 4),
    ("copy R1 r1\nhalt\n", 1, 4),
    ("out 1\nhalt\n", 1, 4),
    ("spawn 31 @go\n@go\nhalt\n", 1, 4),
    ("jumpz r16 @stop\nhalt\n", 1, 4),
    ("jumpz r16 9\nhalt\n", 1, 4),
    ("@go\nhalt\n@go\n", 3, 5),
    ("@go\n@go\nhalt\n", 2, 5),
    ("jump @stop\nhalt\n", 1, 6),
    ("jump @\nhalt\n", 1, 6),
    ("jump @Go\n@Go\nhalt\n", 1, 6),
    ("halt\njumpl r1 r2 @stop\nnone\n", 2, 6),
    ("", 1, 8),
    ("\n", 2, 8),
    ("# nothing", 2, 8),
    ("halt\nout r1\n", 3, 8),
    ("halt\njumpz r1 0\n", 3, 8),
    ("@go\n\n", 3, 8),
    ("jump 2\nhalt\n", 1, 9),
    ("jump 18446744073709551615\nhalt\n", 1, 9),
    ("jumpl r1 r2 2\njump 0\n", 1, 9),
    ("halt\njump @end\n@end\n", 2, 9),
    ("halt\njump @end\n@end\nnone\n", 4, 1),
];

/// Scripts of one line, so many times, and the line and code of their fault, if any.
const LONG: [(&str, usize, Option<(u32, u8)>); 7] = [
    ("halt\n", 256, None),
    ("halt\n", 257, Some((257, 7))),
    ("jump 255\n", 256, None),
    ("jump 256\n", 256, Some((1, 9))),
    ("jump 256\n", 257, Some((257, 7))),
    ("jump 257\n", 257, Some((1, 9))),
    ("out r16\n", 257, Some((1, 4))),
];

fn scripts() -> &'static [(&'static str, &'static str)] {
    &SCRIPTS
}

fn faults() -> &'static [(&'static str, u32, u8)] {
    &FAULTS
}

fn long_scripts() -> &'static [(&'static str, usize, Option<(u32, u8)>)] {
    &LONG
}

#[test]
fn scripts_and_faults(rt: HostRuntime) -> Result<(), Fail> {
    for (text, printed) in scripts() {
        assert!(rt; text.len() < 1000);
        let program = assemble(rt.alloc(), text)?;
        assert_eq!(rt; print(rt.alloc(), &program)?.as_str(), *printed);
        let again = printed_again(rt.alloc(), &program)?;
        assert_eq!(rt; again.list(), program.list());
    }
    for (text, line, code) in faults() {
        assert!(rt; text.len() < 1000);
        let fault = fault_of(assemble(rt.alloc(), text));
        assert_eq!(rt; fault, Some((*line, *code)), "{text}");
    }
    Ok(())
}

/// The line and code of the fault.
fn fault_of(answer: Result<Program, AsmError>) -> Option<(u32, u8)> {
    match answer {
        Err(AsmError::Fault { line, code }) => Some((line, code as u8)),
        _ => None,
    }
}

/// The line, so many times.
fn repeated(alloc: Global, line: &str, count: usize) -> Result<String, AllocError> {
    let mut text = String::new(alloc);
    for _ in 0..count {
        text.push_str(line)?;
    }
    Ok(text)
}

#[test]
fn long_scripts_and_lines(rt: HostRuntime) -> Result<(), Fail> {
    for (line, count, fault) in long_scripts() {
        let text = repeated(rt.alloc(), line, *count)?;
        assert!(rt; text.len() < 4000);
        let found = fault_of(assemble(rt.alloc(), text.as_str()));
        assert_eq!(rt; found, *fault, "{line}");
    }
    let lines: [&[u8]; 3] = [b"# one line", b"@go", b"jump @go"];
    assert_eq!(rt; read_lines(rt.alloc(), &lines)?.list().len(), 1);
    let fault = fault_of(read_lines(rt.alloc(), &lines[..2]));
    assert_eq!(rt; fault, Some((3, 8)));
    Ok(())
}
