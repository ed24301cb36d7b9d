//! Images and sources that are refused, each with what is told of it; and the most that a source has, and one more.

use crate::player::play;
use std::test::Fail;

// An image of each version.
const IMAGES: &str = "\
file one.img
sancus-image 1
key 000102030405060708090a0b0c0d0e0f
handler 0600
module 0007 0300 0306 0400 0402
module ffff 0700 0702 0780 0782
at 0200 31400006d24340003740140232d23040
at 0300 03430343004700000000000000000000
at fff0 00000000000000000000000000000002
end

file two.img
sancus-image 2
key 000102030405060708090a0b0c0d0e0f
handler 0600
modules 2
module 0007 0300 0306 0400 0402
module ffff 0700 0702 0780 0782
at 0200 31400006d24340003740140232d23040
at 0300 03430343004700000000000000000000
at fff0 00000000000000000000000000000002
end
";

// The version, the key and the handler.
const FIRST_LINES: &str = r#"rows edit 4 one.img image bad - 0
sancus: bad file bad: *
Version 3 <- image 1 => image 3
Version 0 <- image 1 => image 0
Version 123456789 <- image 1 => image 123456789
Line 1 <- image 1 => image 1234567890
Line 1 <- image 1 => image 01
Line 1 <- image 1 => image x
Line 1 <- image 1 => image 
Line 1 <- image 1 => image  1
Line 1 <- sancus => Sancus
Line 1 <- sancus-image 1\n =>
Line 2 <- key 0001 => kex 0001
Line 2 <- key 0001 => key  0001
Line 2 <- key 0001 => key 001
Line 2 <- key 0001 => key  001
Digit 19 <- key 0001 => key G001
Digit 21 <- key 0001 => key 00g!
Digit 35 <- 0708 => 07:8
Digit 50 <- 0e0f\n => 0e0F\n
Line 3 <- handler 0600 => handler 0601
Digit 62 <- handler 0600 => handler 00g0
Digit 62 <- handler 0600 => handler 06g1
Line 3 <- handler 0600 => handler 600
Line 3 <- handler 0600 => handler 0600 
Line 3 <- handler 0600\n =>
Line 4 <- handler 0600\n => handler 0600\n\n
Line 4 <- handler 0600\n => handler 0600\nmodules 2\n
"#;

// Modules.
const MODULES: &str = r#"rows edit 4 one.img image bad - 0
sancus: bad file bad: *
Digit 75 <- module 0007 => module 000A
Digit 95 <- 0402\n => 040z\n
Line 5 <- module ffff => module  fff
Line 5 <- module ffff 0700 => module ffff,0700
Table 1 Empty <- 0300 0306 => 0306 0300
Table 1 Odd <- 0300 0306 => 0301 0306
Table 2 Overlap 1 <- 0700 0702 => 0400 0402
Table 2 Overlap 0 <- 0780 0782 => 0700 0704
Table 2 Reserved <- 0700 0702 => 01fe 0200
Table 2 Reserved <- 0780 0782 => ffe0 ffe2
Line 7 <- at 0300 => module 0001 0900 0902 0904 0906\nat 0300
"#;

// Rows, and the end.
const ROWS: &str = r#"rows edit 4 one.img image bad - 0
sancus: bad file bad: *
Line 6 <- at 0200 => at 0208
Line 6 <- at 0200 => at 01f0
Line 6 <- at 0200 => aT 0200
Line 7 <- at 0300 0343 => at 0300  343
Line 7 <- at 0300  => at 0300
Line 8 <- at fff0 => at 0200
Line 8 <- 0002\nend => 0000\nend
Line 8 <- \nend => \r\nend
Twice 768 <- at 0200 => at 0300
Twice 512 <- at 0300 => at 0200
Twice 768 <- at fff0 => at 0300
Digit 214 <- at fff0 => at FFF0
Digit 144 <- 31400006 => 3140000g
Digit 250 <- 0002\nend => 000x\nend
Line 9 <- end\n =>
Line 9 <- end\n => end
Line 9 <- end\n => end \n
Line 10 <- end\n => end\n\n
Line 10 <- end\n => end\nx
"#;

// The number of modules: one is missing, or one too many.
const COUNTS: &str = r#"rows edit 4 two.img image bad - 0
sancus: bad file bad: *
Line 4 <- modules 2\n =>
Line 4 <- modules 2 => modules 02
Line 4 <- modules 2 => modules 33
Line 4 <- modules 2 => modules x
Line 4 <- modules 2 => modules  2
Line 7 <- modules 2 => modules 3
Line 6 <- modules 2 => modules 1
Digit 117 <- module ffff => module fffG
"#;

// Sources, and their faults.
const SOURCES: &str = r#"rows text 4 empty asm bad
sancus: bad file bad: *
Place 1 <- word 0x0000\n
NoLabel 7 <- section .text code\nglobal main\nlabel main\nmov #0x1234, r5\nmov #0, r3\nlabel here\njmp there\n
Line 2 <- section a code\nreti
Line 1 <- section a code\r\n
Line 2 <- section a code\n\n
Twice 2 <- section a code\nsection a data\n
Twice 3 <- section a code\nlabel b\nlabel b\nx
Large 3 <- section a bss\nspace 65534\nspace 2\n
Large 5 <- section a code\njmp b\nsection c bss\nspace 65534\nspace 2\n
Line 2 <- section a bss\nspace 3\n
Line 2 <- section a bss\nspace 65536\n
Place 2 <- section a data\nreti\n
Place 2 <- section a bss\nword b\n
Line 2 <- section a code\nmov r3, r5\n
Line 2 <- section a code\nmov @r0, r5\n
Line 2 <- section a code\nmov r5, #1\n
Line 2 <- section a code\nmov r16, r5\n
Line 2 <- section a code\nmov #3, r5\n
Line 2 <- section a code\nmov #0x123G, r5\n
Line 2 <- section a code\nmov #0xABCD, r5\n
Line 2 <- section a code\nmov r4,r5\n
Line 2 <- section a code\nrrc #1\n
Line 2 <- section a code\nswpb.b r5\n
Line 2 <- section a code\nunit 7\n
Line 2 <- section a code\njmp 0x1234\n
Line 2 <- section a code\nlabel\tb\n
Line 2 <- section a code\nlabel 9b\n
NoLabel 4 <- section a code\nlabel b\nsection c code\njmp b\n
Line 3 <- section a code\njmp b\nx\n
Line 2 <- section a code\nreti\r\n
Line 2 <- section a code\nmov\tr4, r5\n
Line 2 <- section a code\nmov r4,\tr5\n
Line 2 <- section a code\nMOV r4, r5\n
Line 2 <- section a code\nmov R4, r5\n
Line 2 <- section a code\nword 0X1234\n
Line 2 <- section a code\nword 0x123F\n
Line 2 <- section a code\nreti \n
Line 2 <- section a code\n reti\n
Line 2 <- section a code\nmov  r4, r5\n
Line 2 <- section a code\npush #3\n
Line 2 <- section a code\ncall.b r5\n
Line 2 <- section a code\nsxt.b r5\n
Line 2 <- section a code\nrra #there\n
Line 2 <- section a code\nmov r4, @r5\n
Line 2 <- section a code\nmov there, r5\n
Line 1 <- section nnnnnnnnnnnnnnnnnnnnnnnnnnnnnnnnnnnnnnnnnnnnnnnnnnnnnnnnnnnnnnnnn code\n
"#;

// Sections, words and labels as many as there may be, and one more: of two faults the first line's is told.
const LIMITS: &str = r#"file far.s
section a code
jmp far
jmp nowhere

more far.s 511
reti

more far.s 1
label far

err 4 asm far.s
sancus: bad file far.s: Far 2 512

file words.s
section a code

more words.s 32767
reti

keep words.o asm words.s

more words.s 1
reti

err 4 asm words.s
sancus: bad file words.s: Large 32769

more sections.s 256
section s% bss

keep sections.o asm sections.s

rows text 4 sections.s asm bad
sancus: bad file bad: *
TooMany 257 <- section t bss\n
Twice 257 <- section s0000 bss\n

file labels.s
section a bss

more labels.s 4096
label l%

keep labels.o asm labels.s

rows text 4 labels.s asm bad
sancus: bad file bad: *
TooMany 4098 <- label l\n
"#;

// A jump reaches 511 words forward, and 512 back with its own.
const JUMPS: &str = r#"file forward.s
section a code
jmp b

more forward.s 512
reti

more forward.s 1
label b

err 4 asm forward.s
sancus: bad file forward.s: Far 2 512

edit shorter.s forward.s
jmp b\nreti => jmp b

keep shorter.o asm shorter.s

file back.s
section a code
label b

more back.s 512
reti

more back.s 1
jmp b

err 4 asm back.s
sancus: bad file back.s: Far 515 -513

edit shorter.s back.s
label b\nreti => label b

keep shorter.o asm shorter.s
"#;

#[test]
fn first_lines_are_refused(rt: HostRuntime) -> Result<(), Fail> {
    play(&rt, rt.alloc(), &[IMAGES, FIRST_LINES])
}

#[test]
fn modules_are_refused(rt: HostRuntime) -> Result<(), Fail> {
    play(&rt, rt.alloc(), &[IMAGES, MODULES])
}

#[test]
fn rows_are_refused(rt: HostRuntime) -> Result<(), Fail> {
    play(&rt, rt.alloc(), &[IMAGES, ROWS])
}

#[test]
fn counts_are_refused(rt: HostRuntime) -> Result<(), Fail> {
    play(&rt, rt.alloc(), &[IMAGES, COUNTS])
}

#[test]
fn other_texts_are_refused(rt: HostRuntime) -> Result<(), Fail> {
    play(&rt, rt.alloc(), &["file empty", SOURCES])
}

#[test]
fn the_most_that_a_source_has(rt: HostRuntime) -> Result<(), Fail> {
    play(&rt, rt.alloc(), &[LIMITS])
}

#[test]
fn jumps_reach_511_words(rt: HostRuntime) -> Result<(), Fail> {
    play(&rt, rt.alloc(), &[JUMPS])
}
