//! Programs that are assembled, linked and run.

use crate::objects::LAYOUTS;
use crate::player::{call, content, play, played};
use std::test::Fail;

// Moves and a loop, a call of a module, and texts that are no program.
const SOURCES: &str = "\
file moves.s
section .text code
global main
label main
mov #0x1234, r5
mov #0, r3
label here
jmp here

file calls.s
section .text code
global main
label main
mov #0x0208, r7
mov #0x0800, r0
word 0x3fff
section .sm.m.text code
global f
label f
mov @r1+, r0

edit there.s moves.s
jmp here => jmp there

edit placed.s moves.s
section .text code => word 0x0000

file far.s
section .text code
label main

more far.s 513
word 0x0000

more far.s 1
jmp main
";

const MOVES_TEXT: [u8; 8] = [0x35, 0x40, 0x34, 0x12, 0x03, 0x43, 0xff, 0x3f];

/// Where an object's first section stands in the file.
const FIRST_CONTENT: usize = 52;

#[test]
fn assembles(rt: HostRuntime) -> Result<(), Fail> {
    let mut files = played(&rt, rt.alloc(), &[SOURCES, "keep moves.o asm moves.s"])?;
    let object = content(rt.alloc(), &mut files, "moves.o");
    let text = object.get(FIRST_CONTENT..FIRST_CONTENT + MOVES_TEXT.len());
    assert_eq!(rt; object.len(), 356);
    assert_eq!(rt; text, Some(MOVES_TEXT.as_slice()));
    Ok(())
}

// What is told of each that is none.
const NO_PROGRAMS: &str = "\
err 4 asm there.s
sancus: bad file there.s: NoLabel 7

err 4 asm placed.s
sancus: bad file placed.s: Place 1

err 4 asm far.s
sancus: bad file far.s: Far 516 -514

err 4 asm call.toml
sancus: bad file call.toml: Line 1

err 4 asm -
sancus: bad file -: Absent
";

// The object of a source links to the image of the object that was made by other means.
const LINKED: &str = "\
keep calls.o asm calls.s

out 0 link call.toml calls.o
sancus-image 1
key 00000000000000000000000000000000
handler 0600
module 0007 0800 0850 0a00 0a24
at 0200 3740080230400008ff3f000000000000
at 0800 37900008042837905008012cff3f3690
at 0810 01001a2c8241000a8247020a3140240a
at 0820 065696124c081142000a044305430643
at 0830 0743084309430a430b430d430e430f43
at 0840 32c007011042020a0c4300474e083041
at fff0 00000000000000000000000000000002
end

out 0 run call.toml - 60 calls.o
5 enter 1 from 0
51 leave 1 pc 0208
end 60 outside 0208 0000 0000 0000 0000 0000 0000 0000 0000 0000 0000 0000 0000 0000 0000 0000
";

// Sources that are assembled, linked and checked.
const CHECKED: &str = r#"keep calls.o asm calls.s

keep calls.img link call.toml calls.o

out 0 check calls.img 1
yes

# A jump back into the code at the module's entry.

edit back.s calls.s
mov @r1+, r0 => word 0x4030\nword 0x0820

keep back.o asm back.s

keep back.img link call.toml back.o

out 9 check back.img 1
no 084e UnknownTarget 0000
"#;

#[test]
fn is_no_program(rt: HostRuntime) -> Result<(), Fail> {
    play(&rt, rt.alloc(), &[LAYOUTS, SOURCES, NO_PROGRAMS])
}

#[test]
fn links_and_runs(rt: HostRuntime) -> Result<(), Fail> {
    play(&rt, rt.alloc(), &[LAYOUTS, SOURCES, LINKED])
}

#[test]
fn is_checked(rt: HostRuntime) -> Result<(), Fail> {
    play(&rt, rt.alloc(), &[LAYOUTS, SOURCES, CHECKED])
}
