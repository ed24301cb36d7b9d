//! Scripts, each played by one call of the program.

use crate::images::IMAGES;
use crate::player::play;
use std::test::Fail;

// Scripts, with what each writes.
const PLAYS: &str = "\
file script
go 6
regs
mem 0400 2
mem 0402 1

out 0 monitor back.img - script
5 enter 1 from 0
regs 6 inside 1
refused ReadData addr 0400 module 1
0402: 00
end 6 inside 1

file script
mark
go 6
back 0
go 6

out 0 monitor back.img - script
mark 0 at 0
5 enter 1 from 0
back 0 at 0
5 enter 1 from 0
end 6 inside 1

file script
mark
go 12
last 0208 0

out 0 monitor back.img - script
mark 0 at 0
5 enter 1 from 0
7 leave 1 pc 0208
last 0208 at 11
end 11 outside 0208 0000 0000 0000 0000 0000 0000 0208 0000 0000 0000 0000 0000 0000 0000 0000

file script
back 3

out 0 monitor back.img - script
refused NoMark 3
end 0 outside 0200 0000 0000 0000 0000 0000 0000 0000 0000 0000 0000 0000 0000 0000 0000 0000

file script
mark
mark
mark
mark
mark
mark
mark
mark
mark
mark
mark
mark
mark
mark
mark
mark
mark

out 0 monitor back.img - script
mark 0 at 0
mark 1 at 0
mark 2 at 0
mark 3 at 0
mark 4 at 0
mark 5 at 0
mark 6 at 0
mark 7 at 0
mark 8 at 0
mark 9 at 0
mark 10 at 0
mark 11 at 0
mark 12 at 0
mark 13 at 0
mark 14 at 0
mark 15 at 0
refused MarksFull 16
end 0 outside 0200 0000 0000 0000 0000 0000 0000 0000 0000 0000 0000 0000 0000 0000 0000 0000

# A pulse of line 0 while the module is active.

file times
13 line 0 up
14 line 0 down

file script
go 40

out 0 monitor called.img times script
12 enter 1 from 0
13 hide 1 vector 1
25 handler pc 0500
30 resume 1
33 leave 1 pc 0214
end 40 outside 0214 0600 0008 0000 0000 0000 0000 0214 0000 0000 0000 0000 0000 0000 0000 0000

# A machine that is stopped at the end, and one that went back from its stop.

file script
go 1
go 1

out 3 monitor empty.img - script
0 stop FetchDevice pc 0000 addr 0000 module 0
end 0 stopped

file script
mark
go 1
back 0

out 0 monitor empty.img - script
mark 0 at 0
0 stop FetchDevice pc 0000 addr 0000 module 0
back 0 at 0
end 0 outside 0000 0000 0000 0000 0000 0000 0000 0000 0000 0000 0000 0000 0000 0000 0000 0000
";

// Texts that are no script.
const NO_SCRIPTS: &str = r#"file empty

file regs
regs

rows text 4 empty monitor back.img - bad
sancus: bad file bad: *
Line 1 <- go 01\n
Line 2 <- mark\n\n
Number 1 <- go 1000000001\n
Number 2 <- regs\nmem 01ff 1\n
Number 1 <- back 16
"#;

// The files are read in the order of the words, and `-` is a schedule alone.
const NO_MONITORS: &str = "\
err 2 monitor back.img -
sancus: usage

err 2 monitor back.img - regs 1
sancus: usage

err 4 monitor none times.no none
sancus: bad file none: Absent

err 4 monitor back.img times.no none
sancus: bad file times.no: Absent

err 4 monitor back.img regs none
sancus: bad file regs: Line 1

err 4 monitor back.img - -
sancus: bad file -: Absent
";

// Scripts on small machines.
const SMALL: &str = "\
file caller.img
sancus-image 1
key 00000000000000000000000000000000
handler 0000
module 0007 0300 0302 0400 0402
at 0200 3740080230400003ff3f000000000000
at 0300 00470000000000000000000000000000
at 0400 00ab0000000000000000000000000000
at fff0 00000000000000000000000000000002
end

file longer.img
sancus-image 1
key 00000000000000000000000000000000
handler 0600
module 0007 0300 0306 0400 0402
at 0200 31400006d24340003740140232d23040
at 0210 00030343ff3f00000000000000000000
at 0300 03430343004700000000000000000000
at 0500 00130000000000000000000000000000
at ffe0 00000005000000000000000000000000
at fff0 00000000000000000000000000000002
end

file sleeper.img
sancus-image 1
key 00000000000000000000000000000000
handler 0600
at 0200 31400006d243400032d018000343ff3f
at 0500 00130000000000000000000000000000
at ffe0 00000005000000000000000000000000
at fff0 00000000000000000000000000000002
end

file stopper.img
sancus-image 1
key 00000000000000000000000000000000
handler 0000
end

file script
go 6
regs
mem 0400 2
mem 0402 1

out 0 monitor caller.img - script
5 enter 1 from 0
regs 6 inside 1
refused ReadData addr 0400 module 1
0402: 00
end 6 inside 1

file script
mem 03fe 2
mem 03fe 3
mem 0401 1
mem fffe 2
mem 0200 10
go 6

out 0 monitor caller.img - script
03fe: 0000
refused ReadData addr 0400 module 1
refused ReadData addr 0401 module 1
fffe: 0002
0200: 3740080230400003ff3f
5 enter 1 from 0
end 6 inside 1

file script
until 0200 5
until 0202 6

out 0 monitor caller.img - script
5 enter 1 from 0
end 6 inside 1

file script
until 0208 100
regs

out 0 monitor caller.img - script
5 enter 1 from 0
7 leave 1 pc 0208
regs 9 outside 0208 0000 0000 0000 0000 0000 0000 0208 0000 0000 0000 0000 0000 0000 0000 0000
end 9 outside 0208 0000 0000 0000 0000 0000 0000 0208 0000 0000 0000 0000 0000 0000 0000 0000

file script
until 0302 40

out 0 monitor longer.img - script
12 enter 1 from 0
16 leave 1 pc 0214
end 40 outside 0214 0600 0008 0000 0000 0000 0000 0214 0000 0000 0000 0000 0000 0000 0000 0000

file script
until 0000 1000000000

out 0 monitor sleeper.img - script
end 1000000000 outside 020c 0600 0018 0000 0000 0000 0000 0000 0000 0000 0000 0000 0000 0000 0000 0000

file script
mark
go 3
until 0002 5
back 0
go 1
last 0000 0

out 3 monitor stopper.img - script
mark 0 at 0
0 stop FetchDevice pc 0000 addr 0000 module 0
back 0 at 0
0 stop FetchDevice pc 0000 addr 0000 module 0
refused NotThere 0000
end 0 stopped

file script
mark
go 6
back 0
go 6

out 0 monitor caller.img - script
mark 0 at 0
5 enter 1 from 0
back 0 at 0
5 enter 1 from 0
end 6 inside 1

file script
mark
go 12
last 0208 0

out 0 monitor caller.img - script
mark 0 at 0
5 enter 1 from 0
7 leave 1 pc 0208
last 0208 at 11
end 11 outside 0208 0000 0000 0000 0000 0000 0000 0208 0000 0000 0000 0000 0000 0000 0000 0000

file script
back 3

out 0 monitor caller.img - script
refused NoMark 3
end 0 outside 0200 0000 0000 0000 0000 0000 0000 0000 0000 0000 0000 0000 0000 0000 0000 0000

file script
mark
go 6
back 0
last 0200 0
last 0200 1
go 6

out 0 monitor caller.img - script
mark 0 at 0
5 enter 1 from 0
back 0 at 0
refused NotThere 0200
refused NoMark 1
5 enter 1 from 0
end 6 inside 1

file script
go 6
mark
mark
mark
mark
mark
mark
mark
mark
mark
mark
mark
mark
mark
mark
mark
mark
mark

out 0 monitor caller.img - script
5 enter 1 from 0
mark 0 at 6
mark 1 at 6
mark 2 at 6
mark 3 at 6
mark 4 at 6
mark 5 at 6
mark 6 at 6
mark 7 at 6
mark 8 at 6
mark 9 at 6
mark 10 at 6
mark 11 at 6
mark 12 at 6
mark 13 at 6
mark 14 at 6
mark 15 at 6
refused MarksFull 16
end 6 inside 1
";

// Texts that are no script, at their bounds.
const BOUNDS: &str = r#"file empty

rows text 4 empty monitor back.img - bad
sancus: bad file bad: *
Number 1 <- go 1000000001
Number 1 <- go 18446744073709551616
Number 1 <- until 0200 1000000001
Number 1 <- mem 01ff 1
Number 1 <- mem 0200 0
Number 1 <- mem 0200 257
Number 1 <- mem ffff 2
Number 1 <- back 16\nfoo
Number 1 <- last 0200 16
Line 1 <- go 01
Line 1 <- go
Line 1 <- go 1 
Line 1 <- until 200 1
Line 1 <- until 02AB 1
Line 1 <- until 0200
Line 1 <- mem 0100 x
Line 1 <- regs 
Line 1 <- mark 1
Line 1 <- back
Line 1 <- last 0200
Line 1 <- \n
Line 2 <- regs\nfoo\nback 16
Number 2 <- regs\nback 16\nfoo
"#;

#[test]
fn scripts_are_played(rt: HostRuntime) -> Result<(), Fail> {
    play(&rt, rt.alloc(), &[SMALL])
}

#[test]
fn other_texts_are_refused(rt: HostRuntime) -> Result<(), Fail> {
    play(&rt, rt.alloc(), &[IMAGES, BOUNDS])
}

#[test]
fn scripts(rt: HostRuntime) -> Result<(), Fail> {
    play(&rt, rt.alloc(), &[IMAGES, PLAYS])
}

#[test]
fn no_scripts(rt: HostRuntime) -> Result<(), Fail> {
    play(&rt, rt.alloc(), &[IMAGES, NO_SCRIPTS])
}

#[test]
fn no_monitors(rt: HostRuntime) -> Result<(), Fail> {
    play(&rt, rt.alloc(), &[IMAGES, NO_SCRIPTS, NO_MONITORS])
}
