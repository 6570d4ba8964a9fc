//! The two texts.

ghost use Rattle.std.specs.Prelude.{◌≡◌, ◌<◌, ◌≤◌, IfOk, string_bytes};
ghost use Rattle.text_lines.specs.Lines.{lines};
ghost use Rattle.script_asm.specs.Spelling.{Spells};
ghost use Rattle.mail_scripts.specs.Programs.{post_program, collect_program};
ghost use Rattle.mail_scripts.specs.Texts.{post_bytes, collect_bytes};

use std::alloc::{AllocError, Global};

/// The text of a script that posts `first`, `first + 1` and so on modulo 2^64, `count` of them, through the segment in entry `entry`
/// of the root. The entry is below 8. The segment holds at most `size` messages, from 1 to 64: a message for which no room is
/// left isn't posted, and ends the script.
pub fn post_text(
    alloc: Global,
    entry: u8,
    size: u8,
    first: u64,
    count: u8,
) -> Result<String, AllocError>
    requires entry { entry < 8 }
    requires some { 1 ≤ size }
    requires limit { size ≤ 64 }
    ensures text { IfOk result (λ t. string_bytes t ≡ post_bytes entry size first count) }
    // The text spells the program, so `assemble` takes it.
    ensures spells { IfOk result (λ t. Spells (lines (string_bytes t)) (post_program entry size first count)) }
{
    format!(in alloc;
        "set r4 {entry}
set r7 3
@find
makeknown r2 r4 r7
jumpz r0 @have
jump @find
@have
copy r8 r1
set r5 {size}
set r6 {count}
set r9 {first}
set r10 1
@go
jumpz r6 @end
ticket r8
copy r11 r1
jumpl r11 r5 @room
jump @end
@room
await r8 r11
put r9 r2
@try
update r8 r11 r10 r2
jumpz r0 @sent
jump @try
@sent
advance r8
add r9 r10
sub r6 r10
jump @go
@end
halt
"
    )
}

/// The text of a script that collects `count` messages through the segment in entry `entry` of the root, and prints each. The entry is
/// below 8, the count at most 64. It writes nothing to the segment.
pub fn collect_text(alloc: Global, entry: u8, count: u8) -> Result<String, AllocError>
    requires entry { entry < 8 }
    requires limit { count ≤ 64 }
    ensures text { IfOk result (λ t. string_bytes t ≡ collect_bytes entry count) }
    // The text spells the program, so `assemble` takes it.
    ensures spells { IfOk result (λ t. Spells (lines (string_bytes t)) (collect_program entry count)) }
{
    format!(in alloc;
        "set r4 {entry}
set r7 1
@find
makeknown r2 r4 r7
jumpz r0 @have
jump @find
@have
copy r8 r1
set r6 {count}
set r10 1
@go
jumpl r9 r6 @more
halt
@more
copy r11 r9
add r11 r10
await r8 r11
@read
fetch r8 r9 r10 r9
jumpz r0 @done
jump @read
@done
get r12 r9
out r12
add r9 r10
jump @go
"
    )
}
