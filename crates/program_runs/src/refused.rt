//! Objects, layouts and sources that are refused, and objects that do not link, each with what is told of it.

use crate::objects::{LAYOUTS, OBJECTS, PATCHED};
use crate::player::play;
use std::test::Fail;

// Bytes of `gone.o` that are changed: in its header (0 to 51), in its one relocation (58 to 69), in its one
// symbol after the first (86 to 101), and in the section headers of its text (192), its relocations (232) and
// its symbols (272). Of two faults the first in the order of the rows is told.
const NO_OBJECTS: &str = "\
rows patch 4 gone.o link empty.toml bad
sancus: bad file bad: *
Magic <- 0=0
Class <- 4=2
Order <- 5=2
Version <- 6=0
Version <- 20=2
Machine 3 <- 18=3
Kind 2 <- 16=2
HeaderSize 41 <- 46=41
Short 392 <- 32=153
Short 392 <- 48=7
Section 1 <- 215=1
Section 1 <- 224=3
Link 1 <- 50=1
Link 3 <- 296=1
Link 3 <- 308=15
Link 3 <- 292=31
Link 2 <- 260=6
Link 2 <- 256=4
Link 2 <- 268=8
Link 2 <- 252=11
Name 1 <- 192=44
Compressed 1 <- 201=8
RelSection 2 <- 236=9
Symbol 1 <- 86=6
Symbol 1 <- 98=48
Symbol 1 <- 100=6
Relocation 2 0 <- 63=2
Symbol 1 <- 63=2 100=6
Name 1 <- 100=6 192=44
Link 2 <- 192=44 256=4
Section 1 <- 256=4 224=3
HeaderSize 41 <- 224=3 46=41
Machine 3 <- 46=41 18=3
Class <- 5=2 4=2
";

// How the name that nothing defines is told: with `?` for what is no visible character, and with nothing
// where the symbol has no name.
const NAMES: &str = "\
rows patch 5 gone.o link empty.toml bad
sancus: link Undefined 0 1 name *
?one <- 103=32
!one <- 103=33
~one <- 103=126
?one <- 103=127
?one <- 103=128
 <- 86=0
";

// The kind of the one relocation, at 62, and another byte of it. The field is at 0x0202, and the number of
// the name 0: 5 - 514 is odd, and (4100 - 514) / 2 - 1 too far.
const NO_RELOCATIONS: &str = "\
rows patch 5 weak.o link empty.toml bad
sancus: link Reloc 0 2 0 *
Kind 10 <- 62=10 66=4
Outside <- 62=5 58=6
Outside <- 62=5 58=5
Odd -509 <- 62=2 66=5
Range 1792 <- 62=2 67=16
Range 65540 <- 62=5 68=1
Range 260 <- 62=9 67=1
";

// Texts that stand in a layout, and what is put in their place.
const NO_LAYOUTS: &str = r#"rows edit 4 call.toml link bad none.o
sancus: bad file bad: *
MissingKey - version <- version = 1\n =>
OutOfRange - version 0 <- version = 1 => version = 0
WrongKind - version <- version = 1 => version = "1"
WrongKind - key <- "00000000000000000000000000000000" => "00"
MissingKey - handler_sp <- handler_sp = 0x0600\n =>
OutOfRange - handler_sp 1537 <- handler_sp = 0x0600 => handler_sp = 0x0601
OutOfRange - handler_sp -2 <- handler_sp = 0x0600 => handler_sp = -2
OutOfRange - text 512 <- text = [0x0200, 0x0400] => text = [0x0400, 0x0200]
OutOfRange - text 510 <- text = [0x0200, 0x0400] => text = [0x01fe, 0x0400]
WrongKind - text <- text = [0x0200, 0x0400] => text = [0x0200]
OutOfRange - data 65506 <- data = [0x0400, 0x0600] => data = [0x0400, 0xffe2]
UnknownKey - <- v15 = "main" => v16 = "main"
WrongKind - vectors <- v15 = "main" => v15 = 15
UnknownKey - <- [vectors] => more = 1\n[vectors]
WrongKind 0 name <- name = "m" => name = "m-"
OutOfRange 0 vendor 65536 <- vendor = 7 => vendor = 65536
MissingKey 0 stack <- stack = 32\n =>
OutOfRange 0 stack 0 <- stack = 32 => stack = 0
UnknownKey 0 <- stack = 32 => stack = 32\nboot = 1
OutOfRange 0 entries 0 <- entries = ["f"] => entries = []
WrongKind 0 entries <- entries = ["f"] => entries = "f"
Overlap 0 3 <- data = [0x0a00, 0x0b00] => data = [0x0300, 0x0500]
Utf8OrToml <- version = 1 => version = 

rows edit 4 pair.toml link bad none.o
sancus: bad file bad: *
SameName 0 1 <- name = "b" => name = "a"
SameBoot 0 1 <- boot = 1\n => boot = 2\n
MissingKey 1 boot <- boot = 1\n =>
OutOfRange 1 boot 33 <- boot = 1\n => boot = 33\n
Overlap 2 4 <- text = [0x0900, 0x0a00] => text = [0x08fe, 0x0a00]
"#;

// Nine modules in version 1, and a module with 65 entries.
const TOO_MANY: &str = r#"file many.toml
version = 1
key = "00000000000000000000000000000000"
handler_sp = 0x0600
text = [0x0200, 0x0400]
data = [0x0400, 0x0600]
[vectors]
v15 = "main"
[[module]]
name = "m"
vendor = 7
text = [0x0800, 0x0900]
data = [0x0a00, 0x0b00]
stack = 32
entries = ["f"]

more many.toml 8
[[module]]

err 4 link many.toml none.o
sancus: bad file many.toml: TooMany - module

file names.toml
version = 1
key = "00000000000000000000000000000000"
handler_sp = 0x0600
text = [0x0200, 0x0400]
data = [0x0400, 0x0600]
[vectors]
v15 = "main"
[[module]]
name = "m"
vendor = 7
text = [0x0800, 0x0900]
data = [0x0a00, 0x0b00]
stack = 32
entries = [

more names.toml 65
"f",

more names.toml 1
]

err 4 link names.toml none.o
sancus: bad file names.toml: TooMany 0 entries
"#;

// Sources, and their faults.
const NO_SOURCES: &str = r#"rows text 4 empty asm bad
sancus: bad file bad: *
Line 1 <- section a code
Line 1 <- section a text\n
Line 1 <- section 1a code\n
Line 1 <- section  code\n
Line 2 <- section a code\nmov r5\n
Line 2 <- section a code\nmov #0x123, r5\n
Line 2 <- section a code\njmp 0x0200\n
Line 2 <- section a code\nword 0x123\n
Line 2 <- section a bss\nspace 3\n
Line 2 <- section a bss\nspace 0\n
Line 2 <- section a bss\nspace 65536\n
Place 1 <- label a\n
Place 2 <- section a code\nspace 2\n
Place 2 <- section a data\nmov #0x1234, r5\n
Place 2 <- section a bss\nword 0x1234\n
Twice 2 <- section a code\nsection a data\n
Twice 3 <- section a code\nlabel b\nlabel b\n
Large 3 <- section a bss\nspace 65534\nspace 2\n
NoLabel 2 <- section a code\njmp b\nsection c code\nlabel b\n

more sections.s 257
section s% code

err 4 asm sections.s
sancus: bad file sections.s: TooMany 257

file labels.s
section a code

more labels.s 4097
label l%

err 4 asm labels.s
sancus: bad file labels.s: TooMany 4098
"#;

// The start of a source, where the layout's vector goes, and what follows it in sources whose objects do not
// link by the layout of one module. The stub has 78 bytes, and four bytes and the stack stand before a
// module's data.
const NO_IMAGES: &str = r#"file main.s
section .text code
global main
label main

rows source 5 main.s link call.toml bad
sancus: link *
NoPlace 0 2 <- section .sm.other.text code\n
NoPlace 0 2 <- section .sm.m.more code\n
NoEntry 0 0 name f <-
EntryElsewhere 0 0 name f <- global f\nlabel f\nword 0x4130\n
EntryElsewhere 0 0 name f <- section .sm.m.text code\nword 0x4130\nglobal f\nlabel f\n
Undefined 0 2 name gone <- word gone\n
Region Data 514 512 <- section .bss bss\nspace 514\nsection .sm.m.text code\nglobal f\nlabel f\nword 0x4130\n
Region ModuleText 0 258 256 <- section .sm.m.text bss\nglobal f\nlabel f\nspace 180\n

file f.s
section .text code
global main
label main
section .sm.m.text code
global f
label f
word 0x4130

rows source 5 f.s link call.toml bad
sancus: link *
Region ModuleData 0 258 256 <- section .sm.m.bss bss\nspace 222\n
"#;

#[test]
fn no_objects(rt: HostRuntime) -> Result<(), Fail> {
    play(&rt, rt.alloc(), &[LAYOUTS, OBJECTS, NO_OBJECTS])
}

#[test]
fn names_are_shown(rt: HostRuntime) -> Result<(), Fail> {
    play(&rt, rt.alloc(), &[LAYOUTS, OBJECTS, NAMES])
}

#[test]
fn no_relocations(rt: HostRuntime) -> Result<(), Fail> {
    play(
        &rt,
        rt.alloc(),
        &[LAYOUTS, OBJECTS, PATCHED, NO_RELOCATIONS],
    )
}

#[test]
fn no_layouts(rt: HostRuntime) -> Result<(), Fail> {
    play(&rt, rt.alloc(), &[LAYOUTS, NO_LAYOUTS])
}

#[test]
fn too_many(rt: HostRuntime) -> Result<(), Fail> {
    play(&rt, rt.alloc(), &[TOO_MANY])
}

#[test]
fn no_sources(rt: HostRuntime) -> Result<(), Fail> {
    play(&rt, rt.alloc(), &[LAYOUTS, NO_SOURCES])
}

#[test]
fn no_images(rt: HostRuntime) -> Result<(), Fail> {
    play(&rt, rt.alloc(), &[LAYOUTS, NO_IMAGES])
}
