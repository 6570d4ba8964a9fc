//! The lines of a trail.

ghost use Rattle.std.specs.Prelude.{◌≡◌, ◌+◌, ◌<◌, ◌≤◌, ◌⊎◌, ◌∷◌, ◌++◌, length};
ghost use Rattle.std.specs.Fmt.{decimal};
ghost use Rattle.audit_trail.specs.Lines.{mnemonic, kind_text, line_text, HasLine};
ghost use Rattle.audit_trail.specs.declared.entry.Entry.TheVariants as E;

use crate::entry::Entry;
use arrayvec::ArrayString;
use itoa::Buffer;
use policy::Rights;
use whole_machine::ProcName;
use words_layout::SegId;

/// The instruction of that number in the list of those that give a reply.
fn mnemonic(instr: u8) -> &'static str
    requires { instr < 16 }
    ensures text { result.now ≡ mnemonic instr }
    ensures short { length result.now ≤ 9 }
{
    match instr {
        0 => "call",
        1 => "ret",
        2 => "spawn",
        3 => "makeknown",
        4 => "terminate",
        5 => "create",
        6 => "delete",
        7 => "swapin",
        8 => "swapout",
        9 => "fetch",
        10 => "update",
        11 => "read",
        12 => "await",
        13 => "advance",
        14 => "ticket",
        _ => "out",
    }
}

/// The kind of an access.
fn kind_text(kind: Rights) -> &'static str
    ensures text { result.now ≡ kind_text kind }
    ensures short { length result.now ≤ 7 }
{
    if kind == Rights::OBSERVE {
        "observe"
    } else if kind == Rights::MODIFY {
        "modify"
    } else {
        "both"
    }
}

/// Appends a word behind a blank.
fn push_word(line: &mut ArrayString<64>, word: &str)
    requires { length line.old.bytes + length word.now + 1 ≤ 64 }
    ensures text { line.new.bytes ≡ line.old.bytes ++ 32 ∷ word.now }
    ensures longer { length line.new.bytes ≡ length line.old.bytes + length word.now + 1 }
{
    line.push(' ');
    line.push_str(word);
}

/// Appends a number behind a blank.
fn push_number(line: &mut ArrayString<64>, number: u8)
    requires { length line.old.bytes + 4 ≤ 64 }
    ensures text { line.new.bytes ≡ line.old.bytes ++ 32 ∷ decimal number }
    ensures longer { length line.new.bytes ≤ length line.old.bytes + 4 }
{
    let mut digits = Buffer::new();
    push_word(line, digits.format(number));
}

/// Appends the name of a process and an instruction.
fn push_name(line: &mut ArrayString<64>, name: &ProcName, instr: u8)
    requires instr { instr < 16 }
    requires room { length line.old.bytes + 22 ≤ 64 }
    ensures text { line.new.bytes ≡ line.old.bytes ++ 32 ∷ (decimal name.now.processor ++ 32 ∷ (decimal name.now.class ++ 32 ∷ (decimal name.now.slot ++ 32 ∷ mnemonic instr))) }
    ensures longer { length line.new.bytes ≤ length line.old.bytes + 22 }
{
    push_number(line, name.processor);
    push_number(line, name.class);
    push_number(line, name.slot);
    push_word(line, mnemonic(instr));
}

/// The line of an access.
fn access_line(name: &ProcName, instr: u8, kind: Rights, seg: SegId, class: u8) -> ArrayString<64>
    requires { instr < 16 }
    ensures text { result.bytes ≡ line_text (E.Access name.now instr kind seg class) }
    ensures short { length result.bytes ≤ 48 }
{
    let mut line = ArrayString::new();
    line.push_str("access");
    push_name(&mut line, name, instr);
    push_word(&mut line, kind_text(kind));
    push_number(&mut line, seg.mentor);
    push_number(&mut line, seg.serial);
    push_number(&mut line, class);
    line
}

/// The line of a reply.
fn reply_line(name: &ProcName, instr: u8, code: u8) -> ArrayString<64>
    requires { instr < 16 }
    ensures text { result.bytes ≡ line_text (E.Reply name.now instr code) }
    ensures short { length result.bytes ≤ 48 }
{
    let mut line = ArrayString::new();
    line.push_str("reply");
    push_name(&mut line, name, instr);
    push_number(&mut line, code);
    line
}

impl Entry {
    /// The line of the entry, without its line feed: `access P C SLOT MNEMONIC KIND M S X` or `reply P C SLOT MNEMONIC CODE`.
    /// It has at most 48 bytes.
    pub fn line(&self) -> ArrayString<64>
        requires { HasLine self.now }
        ensures text { result.bytes ≡ line_text self.now }
        ensures short { length result.bytes ≤ 48 }
    {
        match *self {
            Entry::Access {
                name,
                instr,
                kind,
                seg,
                class,
            } => access_line(&name, instr, kind, seg, class),
            Entry::Reply { name, instr, code } => reply_line(&name, instr, code),
        }
    }
}
