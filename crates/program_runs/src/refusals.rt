//! Texts that are refused, each with what is told of it.

use crate::player::play;
use crate::served::FILES;
use std::test::Fail;

// Images: their first three lines, of 65 bytes, and what follows them.
const IMAGES: &str = r#"file head.img
sancus-image 1
key 00000000000000000000000000000000
handler 0000

rows text 4 empty image bad - 0
sancus: bad file bad: *
Line 1 <-
Line 1 <- sancus-image 1
Line 1 <- sancus-image 01\n
Line 1 <- sancus-image 1234567890\n
Line 1 <- sancus-image 1\r\nkey 00000000000000000000000000000000\r\n
Version 0 <- sancus-image 0\n
Version 3 <- sancus-image 3\n
Version 999999999 <- sancus-image 999999999\n
Line 2 <- sancus-image 1\nkey 00\n
Digit 50 <- sancus-image 1\nkey 0000000000000000000000000000000A\n
Line 3 <- sancus-image 1\nkey 00000000000000000000000000000000\nhandler 0001\n
Digit 63 <- sancus-image 1\nkey 00000000000000000000000000000000\nhandler 000A\nend\n
Digit 62 <- sancus-image 1\nkey 00000000000000000000000000000000\nhandler 00g0\nend\n
Line 4 <- sancus-image 2\nkey 00000000000000000000000000000000\nhandler 0000\nend\n
Line 4 <- sancus-image 2\nkey 00000000000000000000000000000000\nhandler 0000\nmodules 33\n
Line 4 <- sancus-image 2\nkey 00000000000000000000000000000000\nhandler 0000\nmodules 01\n
Line 5 <- sancus-image 2\nkey 00000000000000000000000000000000\nhandler 0000\nmodules 1\nend\n

rows text 4 head.img image bad - 0
sancus: bad file bad: *
Line 4 <-
Line 4 <- end
Line 5 <- end\n\n
Line 5 <- end\nend\n
Line 4 <- module 0007 0300 0306 0400\nend\n
Digit 85 <- module 0007 0300 030g 0400 0402\nend\n
Table 1 Empty <- module 0007 0306 0306 0400 0402\nend\n
Table 1 Odd <- module 0007 0300 0305 0400 0402\nend\n
Table 1 Overlap 0 <- module 0007 0300 0306 0304 0402\nend\n
Table 2 Overlap 1 <- module 0007 0300 0306 0400 0402\nmodule 0007 0304 0308 0500 0502\nend\n
Table 1 Reserved <- module 0007 0100 0106 0400 0402\nend\n
Table 1 Reserved <- module 0007 0300 0306 ffd0 ffe2\nend\n
Line 4 <- at 0200\nend\n
Digit 74 <- at 0200 0g000000000000000000000000000001\nend\n
Line 4 <- at 0208 00000000000000000000000000000001\nend\n
Line 4 <- at 01f0 00000000000000000000000000000001\nend\n
Line 4 <- at 0200 00000000000000000000000000000000\nend\n
Line 5 <- at 0210 00000000000000000000000000000001\nat 0200 00000000000000000000000000000001\nend\n
Twice 512 <- at 0200 00000000000000000000000000000001\nat 0200 00000000000000000000000000000001\nend\n
Line 5 <- at 0200 00000000000000000000000000000001\nmodule 0007 0300 0306 0400 0402\nend\n

file nine.img
sancus-image 1
key 00000000000000000000000000000000
handler 0000
module 0007 0300 0302 0400 0402
module 0007 0302 0304 0402 0404
module 0007 0304 0306 0404 0406
module 0007 0306 0308 0406 0408
module 0007 0308 030a 0408 040a
module 0007 030a 030c 040a 040c
module 0007 030c 030e 040c 040e
module 0007 030e 0310 040e 0410
module 0007 0310 0312 0410 0412
end

err 4 image nine.img - 0
sancus: bad file nine.img: Table 9 Full

# Version 2 has room for them.

edit nine2.img nine.img
sancus-image 1 => sancus-image 2
handler 0000 => handler 0000\nmodules 9

out 0 image nine2.img - 0
end 0 outside 0000 0000 0000 0000 0000 0000 0000 0000 0000 0000 0000 0000 0000 0000 0000 0000

file none.img
sancus-image 1
key 00000000000000000000000000000000
handler 0000
end

rows edit 4 none.img image bad - 0
sancus: bad file bad: *
Line 4 <- image 1 => image 2
Line 1 <- image 1\n => image 3
"#;

// Schedules.
const SCHEDULES: &str = r#"rows text 4 empty image called.img bad 0
sancus: bad file bad: *
Line 1 <- \n
Line 1 <- 01 line 0 up\n
Line 1 <- -1 line 0 up\n
Line 1 <- 5 line 4 up\n
Line 1 <- 5 line 0 up\r\n
Line 1 <- 5 line 0 left\n
Line 1 <- 5 line  up\n
Line 1 <- 5 serial 0\n
Line 1 <- 5 serial 0A\n
Line 1 <- 5 serial 000\n
Line 1 <- 5  serial 00\n
Line 1 <- 1000000000000000000 serial 00\n
Line 2 <- 5 serial 00\n\n
Line 2 <- 5 serial 00\n6 serial 0\n5 serial 00\n
NotRising 2 <- 5 serial 00\n4 serial 00

more many 65537
0 serial 00

err 4 image called.img many 0
sancus: bad file many: TooMany
"#;

// Scripts.
const SCRIPTS: &str = r#"rows text 4 empty monitor called.img - bad
sancus: bad file bad: *
Line 1 <- \n
Line 1 <- go\n
Line 1 <- go 01\n
Line 1 <- go +1\n
Line 1 <- go 1 1\n
Line 1 <- until 200 5\n
Line 1 <- until 0200\n
Line 1 <- regs \n
Line 1 <- mem 020A 1\n
Line 1 <- mark 0\n
Line 1 <- back\n
Line 1 <- last 0200\n
Line 3 <- regs\nregs\nstop
Number 1 <- go 1000000001\n
Number 1 <- until 0200 1000000001\n
Number 1 <- mem 01ff 1\n
Number 1 <- mem 0200 0\n
Number 1 <- mem 0200 257\n
Number 1 <- mem ff01 256\n
Number 2 <- regs\nback 16\n
Number 1 <- last 0200 16\n
"#;

// Certificates.
const CERTIFICATES: &str = r#"rows text 4 empty balance called.img 1 bad
sancus: bad file bad: *
Line 1 <- \n
Line 1 <- 304 0318 6\n
Line 1 <- 0304 031A 6\n
Line 1 <- 0304 0318\n
Line 1 <- 0304 0318 06\n
Line 1 <- 0304 0318 65536\n
NotRising 2 <- 0304 0318 6\n0304 0318 6\n
NotRising 2 <- 0304 0318 6\n0302 0318 6

more many 257
% 0318 6

err 4 balance called.img 1 many
sancus: bad file many: TooMany
"#;

// Challenges.
const CHALLENGES: &str = r#"rows text 4 empty challenge bad
sancus: bad file bad: *
Line 1 <- \n
Line 1 <- 100\n
Line 1 <- 0100 000102030405060708090a0b0c0d0e0f\n
Line 1 <- 100 000102030405060708090a0b0c0d0e0\n
Line 1 <- 100 000102030405060708090A0b0c0d0e0f\n
Line 1 <- 100000000000000000 000102030405060708090a0b0c0d0e0f\n
NotRising 2 <- 100 000102030405060708090a0b0c0d0e0f\n1699 000102030405060708090a0b0c0d0e0f

# Each as soon after the one before as may be, or later.

more many 4097
1%0000 000102030405060708090a0b0c0d0e0f

err 4 challenge many
sancus: bad file many: TooMany
"#;

// Traces.
const TRACES: &str =
    r#"rows text 4 empty vendor called.img 1 0fd02b088984c51cf3af483cdc7342e8 challenges.txt bad
sancus: bad file bad: *
NoEnd <-
NoEnd <- 7 out 41\n
Line 1 <- 7 out 41
Line 1 <- 7 out 4\n
Line 1 <- 07 out 41\n
Line 1 <- 7 enter 1\n
Line 2 <- 7 reti\n\nend 8 stopped\n
Line 1 <- end 8 stopped
Line 2 <- end 8 stopped\nend 8 stopped\n
Line 1 <- end 8 outside 0000\n
"#;

// A file that is too long.
const LONG: &str = "\
# A file has at most 1,048,576 bytes, whatever they are: these are 61,681 lines of 17.

more long 61681
0000000000000000

err 4 image long - 4
sancus: bad file long: TooLong

err 4 image called.img long 4
sancus: bad file long: TooLong

err 4 link long calls.o
sancus: bad file long: TooLong

err 4 asm long
sancus: bad file long: TooLong
";

#[test]
fn no_images(rt: HostRuntime) -> Result<(), Fail> {
    play(&rt, rt.alloc(), &[FILES, IMAGES])
}

#[test]
fn no_schedules(rt: HostRuntime) -> Result<(), Fail> {
    play(&rt, rt.alloc(), &[FILES, SCHEDULES])
}

#[test]
fn no_scripts(rt: HostRuntime) -> Result<(), Fail> {
    play(&rt, rt.alloc(), &[FILES, SCRIPTS])
}

#[test]
fn no_certificates(rt: HostRuntime) -> Result<(), Fail> {
    play(&rt, rt.alloc(), &[FILES, CERTIFICATES])
}

#[test]
fn no_challenges(rt: HostRuntime) -> Result<(), Fail> {
    play(&rt, rt.alloc(), &[FILES, CHALLENGES])
}

#[test]
fn no_traces(rt: HostRuntime) -> Result<(), Fail> {
    play(&rt, rt.alloc(), &[FILES, TRACES])
}

#[test]
fn too_long(rt: HostRuntime) -> Result<(), Fail> {
    play(&rt, rt.alloc(), &[FILES, LONG])
}
