//! The text of the large configuration of 7, written out line by line.

const SEVEN: &str = "gemkernel 1
classes 8
class c0 0{}/15{} frames 1 pages 1 volume 0
class c1 1{}/15{} frames 1 pages 1 volume 0
class c2 2{}/15{} frames 1 pages 1 volume 0
class c3 3{}/15{} frames 1 pages 1 volume 0
class c4 4{}/15{} frames 1 pages 1 volume 0
class c5 5{}/15{} frames 1 pages 1 volume 0
class c6 6{}/15{} frames 1 pages 1 volume 0
class c7 7{}/15{} frames 1 pages 1 volume 0
processors 4
cycle 0 1 2 3 4 5 6 7
rounds 1
quantum 1
console 4096
script 0
set r5 8
set r6 511
set r7 4
set r3 1
create r2 r4 r4 r6 r7
add r4 r3
jumpl r4 r5 4
halt
end
script 0
set r4 0
set r6 3
set r7 4
set r9 20
set r10 1
makeknown r2 r4 r6
jumpz r0 8
jump 5
copy r5 r1
swapin r5
ticket r5
put r1 r2
update r5 r2 r7 r2
advance r5
add r11 r10
jumpl r11 r9 10
out r11
halt
end
script 1
set r4 1
set r6 3
set r7 4
set r9 20
set r10 1
makeknown r2 r4 r6
jumpz r0 8
jump 5
copy r5 r1
swapin r5
set r12 0
makeknown r2 r12 r10
copy r13 r1
ticket r5
put r1 r2
update r5 r2 r7 r2
fetch r13 r2 r7 r2
advance r5
add r11 r10
jumpl r11 r9 13
out r11
halt
end
script 2
set r4 2
set r6 3
set r7 4
set r9 20
set r10 1
makeknown r2 r4 r6
jumpz r0 8
jump 5
copy r5 r1
swapin r5
set r12 1
makeknown r2 r12 r10
copy r13 r1
ticket r5
put r1 r2
update r5 r2 r7 r2
fetch r13 r2 r7 r2
advance r5
add r11 r10
jumpl r11 r9 13
out r11
halt
end
script 3
set r4 3
set r6 3
set r7 4
set r9 20
set r10 1
makeknown r2 r4 r6
jumpz r0 8
jump 5
copy r5 r1
swapin r5
set r12 2
makeknown r2 r12 r10
copy r13 r1
ticket r5
put r1 r2
update r5 r2 r7 r2
fetch r13 r2 r7 r2
advance r5
add r11 r10
jumpl r11 r9 13
out r11
halt
end
script 4
set r4 4
set r6 3
set r7 4
set r9 20
set r10 1
makeknown r2 r4 r6
jumpz r0 8
jump 5
copy r5 r1
swapin r5
set r12 3
makeknown r2 r12 r10
copy r13 r1
ticket r5
put r1 r2
update r5 r2 r7 r2
fetch r13 r2 r7 r2
advance r5
add r11 r10
jumpl r11 r9 13
out r11
halt
end
script 5
set r4 5
set r6 3
set r7 4
set r9 20
set r10 1
makeknown r2 r4 r6
jumpz r0 8
jump 5
copy r5 r1
swapin r5
set r12 4
makeknown r2 r12 r10
copy r13 r1
ticket r5
put r1 r2
update r5 r2 r7 r2
fetch r13 r2 r7 r2
advance r5
add r11 r10
jumpl r11 r9 13
out r11
halt
end
script 6
set r4 6
set r6 3
set r7 4
set r9 20
set r10 1
makeknown r2 r4 r6
jumpz r0 8
jump 5
copy r5 r1
swapin r5
set r12 5
makeknown r2 r12 r10
copy r13 r1
ticket r5
put r1 r2
update r5 r2 r7 r2
fetch r13 r2 r7 r2
advance r5
add r11 r10
jumpl r11 r9 13
out r11
halt
end
script 7
set r4 7
set r6 3
set r7 4
set r9 20
set r10 1
makeknown r2 r4 r6
jumpz r0 8
jump 5
copy r5 r1
swapin r5
set r12 6
makeknown r2 r12 r10
copy r13 r1
ticket r5
put r1 r2
update r5 r2 r7 r2
fetch r13 r2 r7 r2
advance r5
add r11 r10
jumpl r11 r9 13
out r11
halt
end
process 0 0 0 4
process 0 0 1 4
process 0 0 1 4
process 0 0 1 4
process 0 1 2 4
process 0 1 2 4
process 0 1 2 4
process 0 1 2 4
process 0 2 3 4
process 0 2 3 4
process 0 2 3 4
process 0 2 3 4
process 0 3 4 4
process 0 3 4 4
process 0 3 4 4
process 0 3 4 4
process 0 4 5 4
process 0 4 5 4
process 0 4 5 4
process 0 4 5 4
process 0 5 6 4
process 0 5 6 4
process 0 5 6 4
process 0 5 6 4
process 0 6 7 4
process 0 6 7 4
process 0 6 7 4
process 0 6 7 4
process 0 7 8 4
process 0 7 8 4
process 0 7 8 4
process 0 7 8 4
process 1 0 1 4
process 1 0 1 4
process 1 0 1 4
process 1 0 1 4
process 1 1 2 4
process 1 1 2 4
process 1 1 2 4
process 1 1 2 4
process 1 2 3 4
process 1 2 3 4
process 1 2 3 4
process 1 2 3 4
process 1 3 4 4
process 1 3 4 4
process 1 3 4 4
process 1 3 4 4
process 1 4 5 4
process 1 4 5 4
process 1 4 5 4
process 1 4 5 4
process 1 5 6 4
process 1 5 6 4
process 1 5 6 4
process 1 5 6 4
process 1 6 7 4
process 1 6 7 4
process 1 6 7 4
process 1 6 7 4
process 1 7 8 4
process 1 7 8 4
process 1 7 8 4
process 1 7 8 4
process 2 0 1 4
process 2 0 1 4
process 2 0 1 4
process 2 0 1 4
process 2 1 2 4
process 2 1 2 4
process 2 1 2 4
process 2 1 2 4
process 2 2 3 4
process 2 2 3 4
process 2 2 3 4
process 2 2 3 4
process 2 3 4 4
process 2 3 4 4
process 2 3 4 4
process 2 3 4 4
process 2 4 5 4
process 2 4 5 4
process 2 4 5 4
process 2 4 5 4
process 2 5 6 4
process 2 5 6 4
process 2 5 6 4
process 2 5 6 4
process 2 6 7 4
process 2 6 7 4
process 2 6 7 4
process 2 6 7 4
process 2 7 8 4
process 2 7 8 4
process 2 7 8 4
process 2 7 8 4
process 3 0 1 4
process 3 0 1 4
process 3 0 1 4
process 3 0 1 4
process 3 1 2 4
process 3 1 2 4
process 3 1 2 4
process 3 1 2 4
process 3 2 3 4
process 3 2 3 4
process 3 2 3 4
process 3 2 3 4
process 3 3 4 4
process 3 3 4 4
process 3 3 4 4
process 3 3 4 4
process 3 4 5 4
process 3 4 5 4
process 3 4 5 4
process 3 4 5 4
process 3 5 6 4
process 3 5 6 4
process 3 5 6 4
process 3 5 6 4
process 3 6 7 4
process 3 6 7 4
process 3 6 7 4
process 3 6 7 4
process 3 7 8 4
process 3 7 8 4
process 3 7 8 4
process 3 7 8 4
mix 7 4000000
end
";

/// The text of the large configuration of 7.
pub fn text() -> &'static str {
    SEVEN
}
