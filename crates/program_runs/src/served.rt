//! A line of words for every command, with files that serve it.

use crate::player::first_word;
use std::test::Fail;

/// Words that their files serve, and words that are refused.
#[derive(Clone, Copy)]
pub struct Served<'a> {
    pub words: &'a str,
    /// How the call ends.
    pub status: u8,
    /// The files, in the order in which they are read.
    pub reads: &'a str,
    /// Words of the same command that are refused.
    pub refused: &'a str,
    pub refusal: u8,
    /// The line of refusal.
    pub err: &'a str,
}

/// A command of four lines: its status and words, its files, and a status with words that are refused and the line.
pub fn served_of(block: &str) -> Result<Served<'_>, Fail> {
    let mut lines = block.lines();
    let (status, words) = first_word(lines.next().unwrap_or(""));
    let reads = lines.next().unwrap_or("");
    let (refusal, refused) = first_word(lines.next().unwrap_or(""));
    let err = lines.next().unwrap_or("");
    Ok(Served {
        words,
        status: status.parse::<u8>()?,
        reads,
        refused,
        refusal: refusal.parse::<u8>()?,
        err,
    })
}

/// The files that the words name.
pub const FILES: &str = r#"file called.img
sancus-image 1
key 00000000000000000000000000000000
handler 0600
module 0007 0300 0306 0400 0402
at 0200 31400006d24340003740140232d23040
at 0210 00030343ff3f00000000000000000000
at 0300 03430343004700000000000000000000
at 0500 00130000000000000000000000000000
at ffe0 00000005000000000000000000000000
at fff0 00000000000000000000000000000002
end

file pulse.txt
13 line 0 up
14 line 0 down

file arms.txt
0304 0318 6

file challenges.txt
100 000102030405060708090a0b0c0d0e0f

file trace.txt
7 out 41
end 8 stopped

file script.txt
mark
go 30
regs
mem 0400 2
back 0
until 0214 100
last 0200 0

file call.toml
version = 1
key = "00000000000000000000000000000000"
handler_sp = 0x0600
text = [0x0200, 0x0400]
data = [0x0400, 0x0600]
[vectors]
v15 = "main"
[[module]]
name = "m"
vendor = 7
text = [0x0800, 0x0900]
data = [0x0a00, 0x0b00]
stack = 32
entries = ["f"]

file calls.s
section .text code
global main
label main
mov #0x0208, r7
mov #0x0800, r0
word 0x3fff
section .sm.m.text code
global f
label f
mov @r1+, r0

keep calls.o asm calls.s

file empty
"#;

/// Twelve commands.
pub const COMMANDS: &str = "\
0 image called.img pulse.txt 40
called.img pulse.txt
4 image called.img none 40
sancus: bad file none: Absent

0 run call.toml pulse.txt 60 calls.o
call.toml pulse.txt calls.o
5 run call.toml pulse.txt 60 calls.o calls.o
sancus: link Duplicate 0 1 1 1 name main

0 link call.toml calls.o
call.toml calls.o
4 link call.toml calls.o calls.s
sancus: bad file calls.s: Magic

0 lone called.img 1 100 r7=0208
called.img
4 lone called.img 2 100
sancus: bad file called.img: NoModule 2

9 check called.img 1
called.img
4 check called.img 65535
sancus: bad file called.img: NoModule 65535

9 balance called.img 1 arms.txt
called.img arms.txt
4 balance called.img 1 pulse.txt
sancus: bad file pulse.txt: Line 1

0 key called.img 1
called.img
2 key called.img 0
sancus: usage

0 dis called.img 0200 0220
called.img
2 dis called.img 0201 0220
sancus: usage

0 monitor called.img pulse.txt script.txt
called.img pulse.txt script.txt
4 monitor called.img pulse.txt arms.txt
sancus: bad file arms.txt: Line 1

0 asm calls.s
calls.s
4 asm call.toml
sancus: bad file call.toml: Line 1

0 challenge challenges.txt
challenges.txt
4 challenge trace.txt
sancus: bad file trace.txt: Line 1

9 vendor called.img 1 0fd02b088984c51cf3af483cdc7342e8 challenges.txt trace.txt
called.img challenges.txt trace.txt
4 vendor called.img 1 0fd02b088984c51cf3af483cdc7342e8 challenges.txt arms.txt
sancus: bad file arms.txt: Line 1
";

/// `make`, which needs no files and takes long.
pub const MAKE: &str = "\
0 make 1

2 make 01
sancus: usage";
