//! Words that are a command, and words that are none.

use crate::player::{assert_gave, call_into, call_with, play, played, words_of};
use crate::served::{COMMANDS, FILES, MAKE, served_of};
use sm_cli::Status;
use sm_io::{MemFiles, MemSink};
use std::alloc::Global;
use std::process::Abort;
use std::test::Fail;

const USAGE: &str = "sancus: usage\n";

// Words, and what is told of them.
const NO_COMMANDS: &str = "\
# Other first words.

rows words 2
sancus: usage
''
--
-- key called.img 1
keys called.img 1
Key called.img 1
runs call.toml - 4 calls.o

# A word less, and a word more.

rows words 2
sancus: usage
image called.img -
image called.img - 4 4
run call.toml - 4
link
link call.toml
lone called.img 1
lone called.img 1 4 4
check called.img
check called.img 1 1
balance called.img 1
balance called.img 1 arms.txt 1
key
key --help
key called.img
key called.img 1 1
dis called.img 0200
dis called.img 0200 0202 0204
monitor called.img -
monitor called.img - script.txt 4
make
make 1 1
asm
asm calls.s calls.s
challenge
challenge challenges.txt 1
vendor called.img 1 0fd02b088984c51cf3af483cdc7342e8 challenges.txt
vendor called.img 1 0fd02b088984c51cf3af483cdc7342e8 challenges.txt trace.txt 1

# The second `--` is a value.

rows words 4
sancus: bad file *
--: Absent <- key -- -- 1
--: Absent <- asm -- --
--: Absent <- link call.toml -- calls.o --
-x: Absent <- asm -- -x

rows words 2
sancus: usage
key called.img -- 1 --

# `-` and the empty word are values; `-` stands for a schedule alone.

rows words 4
sancus: bad file *
-: Absent <- image - - 4
: Absent <- image '' - 4
: Absent <- image called.img '' 4
-: Absent <- run - - 4 calls.o
-: Absent <- run call.toml - 4 -
: Absent <- run call.toml - 4 ''
: Absent <- link '' calls.o
: Absent <- lone '' 1 4
-: Absent <- check - 1
-: Absent <- balance called.img 1 -
: Absent <- dis '' 0200 0202
-: Absent <- monitor called.img - -
: Absent <- asm ''
-: Absent <- challenge -

rows words 2
sancus: usage
image called.img - -
image called.img - ''
lone called.img 1 ''
lone called.img 1 4 ''
check called.img ''
balance called.img - arms.txt
key called.img -
dis called.img - 0202
make -
make ''
vendor called.img 1 - challenges.txt trace.txt

# Numbers: with a sign, with a zero before them, and past their bound.

rows words 2
sancus: usage
image called.img - +4
image called.img - 04
image called.img - 1000000001
image called.img - 0x4
run call.toml - +4 calls.o
run call.toml - 04 calls.o
run call.toml - 1000000001 calls.o
run call.toml - 18446744073709551616 calls.o
lone called.img +1 4
lone called.img 1 +4
lone called.img 1 04
lone called.img 0 4
lone called.img 1 1000000001
lone called.img 01 4
lone called.img 65536 4
key called.img 0
key called.img -1
key called.img +1
key called.img 01
key called.img 65536
check called.img 0
check called.img +1
check called.img 01
check called.img 65536
balance called.img 0 arms.txt
balance called.img +1 arms.txt
balance called.img 01 arms.txt
balance called.img 65536 arms.txt
vendor called.img 0 0fd02b088984c51cf3af483cdc7342e8 challenges.txt trace.txt
vendor called.img 65536 0fd02b088984c51cf3af483cdc7342e8 challenges.txt trace.txt
vendor called.img +1 0fd02b088984c51cf3af483cdc7342e8 challenges.txt trace.txt
vendor called.img 01 0fd02b088984c51cf3af483cdc7342e8 challenges.txt trace.txt
vendor called.img 1 0fd02b088984c51cf3af483cdc7342e challenges.txt trace.txt
vendor called.img 1 0fd02b088984c51cf3af483cdc7342e80 challenges.txt trace.txt
vendor called.img 1 0fd02b088984c51cf3af483cdc7342eg challenges.txt trace.txt

rows words 4
sancus: bad file *
called.img: NoModule 65535 <- key called.img 65535
called.img: NoModule 65535 <- balance called.img 65535 arms.txt

# Numbers at their bounds are numbers: the files are read next.

rows words 4
sancus: bad file *
none: Absent <- image none - 0
none: Absent <- image none - 1000000000
none: Absent <- run none - 0 calls.o
none: Absent <- run none - 1000000000 calls.o
none: Absent <- lone none 1 0
none: Absent <- lone none 65535 1000000000
none: Absent <- check none 1
none: Absent <- check none 65535
none: Absent <- balance none 1 arms.txt
none: Absent <- balance none 65535 arms.txt
none: Absent <- key none 1
none: Absent <- key none 65535
none: Absent <- dis none 0000 0000
none: Absent <- dis none fffe ffff
none: Absent <- vendor none 1 0fd02b088984c51cf3af483cdc7342e8 challenges.txt trace.txt
none: Absent <- vendor none 65535 0fd02b088984c51cf3af483cdc7342e8 challenges.txt trace.txt

# Addresses, and pairs of a register and a word.

rows words 2
sancus: usage
dis called.img 0201 0202
dis called.img 0204 0202
dis called.img 0200 020A
dis called.img 0200 020g
dis called.img 200 0202
dis called.img +200 0202
dis called.img 00200 0202
lone called.img 1 4 r5=0000 r5=0000
lone called.img 1 4 r5=0000 r6=0000 r5=0001
lone called.img 1 4 r0=0000
lone called.img 1 4 r3=0000
lone called.img 1 4 r16=0000
lone called.img 1 4 r07=0208
lone called.img 1 4 R7=0208
lone called.img 1 4 r7=208
lone called.img 1 4 r7=020A
lone called.img 1 4 r7:0208
lone called.img 1 4 =0208
lone called.img 1 4 r5=
lone called.img 1 4 r5
lone called.img 1 4 r=0000
lone called.img 1 4 r+5=0000
";

// Of several files that do not serve the first is told.
const ORDER: &str = "\
rows words 4
sancus: bad file *
pulse.txt: Line 1 <- image pulse.txt called.img 4
called.img: Line 1 <- image called.img called.img 4
pulse.txt: Line 1 <- image pulse.txt none 4
none: Absent <- link none none.o
none.o: Absent <- link call.toml none.o calls.s
called.img: Utf8OrToml <- link called.img calls.s
called.img: Utf8OrToml <- run called.img none 4 none.o
none: Absent <- run call.toml none 4 none.o
arms.txt: Line 1 <- run call.toml arms.txt 4 none.o
none.o: Absent <- run call.toml - 4 calls.o none.o
called.img: NoModule 2 <- balance called.img 2 none
arms.txt: Line 1 <- balance arms.txt 2 none
none: Absent <- monitor none none.txt none
arms.txt: Line 1 <- monitor called.img arms.txt none
called.img: NoModule 2 <- vendor called.img 2 0fd02b088984c51cf3af483cdc7342e8 arms.txt none
arms.txt: Line 1 <- vendor called.img 1 0fd02b088984c51cf3af483cdc7342e8 arms.txt none
none: Absent <- vendor called.img 1 0fd02b088984c51cf3af483cdc7342e8 challenges.txt none
";

#[test]
fn no_commands(rt: HostRuntime) -> Result<(), Fail> {
    play(&rt, rt.alloc(), &[FILES, NO_COMMANDS])
}

#[test]
fn order_of_files(rt: HostRuntime) -> Result<(), Fail> {
    play(&rt, rt.alloc(), &[FILES, ORDER])
}

// The first `--` is dropped, wherever it stands after the command's name.
fn assert_ends_options(
    rt: &impl Abort,
    alloc: Global,
    files: &mut MemFiles,
    line: &str,
) -> Result<(), Fail> {
    let whole = call_with(alloc, words_of(alloc, line)?.as_slice(), files)?;
    let (out, err) = (whole.out.taken(), whole.err.taken());
    let count = line.split(' ').count();
    for place in 1..=count {
        let mut words = words_of(alloc, line)?;
        words.insert(place.min(words.len()), String::from_str(alloc, "--")?)?;
        let given = call_with(alloc, words.as_slice(), files)?;
        assert_gave(rt, &given, whole.status, out, err, line);
    }
    Ok(())
}

// No command has an option.
fn assert_no_options(
    rt: &impl Abort,
    alloc: Global,
    files: &mut MemFiles,
    line: &str,
) -> Result<(), Fail> {
    let count = line.split(' ').count();
    for place in 1..count {
        let mut words = words_of(alloc, line)?;
        if let Some(word) = words.get_mut(place) {
            *word = String::from_str(alloc, "-x")?;
        }
        let given = call_with(alloc, words.as_slice(), files)?;
        assert_gave(
            rt,
            &given,
            Status::Usage.number(),
            b"",
            b"sancus: usage\n",
            line,
        );
    }
    Ok(())
}

#[test]
fn ends_of_options(rt: HostRuntime) -> Result<(), Fail> {
    let mut files = played(&rt, rt.alloc(), &[FILES])?;
    for block in COMMANDS.split("\n\n") {
        assert_ends_options(&rt, rt.alloc(), &mut files, served_of(block)?.words)?;
    }
    assert_ends_options(&rt, rt.alloc(), &mut files, served_of(MAKE)?.words)
}

#[test]
fn options(rt: HostRuntime) -> Result<(), Fail> {
    let mut files = played(&rt, rt.alloc(), &[FILES])?;
    for block in COMMANDS.split("\n\n") {
        assert_no_options(&rt, rt.alloc(), &mut files, served_of(block)?.words)?;
    }
    assert_no_options(&rt, rt.alloc(), &mut files, served_of(MAKE)?.words)
}

// No word at all is no command. A line of 14 bytes that fills a sink whole is told; where a byte has no room, the call
// ends so.
#[test]
fn no_words(rt: HostRuntime) -> Result<(), Fail> {
    let alloc = rt.alloc();
    let mut files = MemFiles::new(alloc);
    let out = MemSink::new(alloc, 0)?;
    let err = MemSink::new(alloc, USAGE.len())?;
    let given = call_into(alloc, &[], &mut files, out, err);
    assert_gave(
        &rt,
        &given,
        Status::Usage.number(),
        b"",
        USAGE.as_bytes(),
        "no words",
    );
    let out = MemSink::new(alloc, 0)?;
    let full = MemSink::new(alloc, 13)?;
    let given = call_into(alloc, &[], &mut files, out, full);
    assert_eq!(rt; given.status, Status::WriteFault.number());
    Ok(())
}
