//! Runs without interrupts, and interrupts of the outside.

use crate::images::IMAGES;
use crate::player::play;
use std::test::Fail;

// Code without modules.
const PLAIN_RUNS: &str = r#"out 0 image empty.img - 0
end 0 outside 0000 0000 0000 0000 0000 0000 0000 0000 0000 0000 0000 0000 0000 0000 0000 0000

out 3 image empty.img - 1
0 stop FetchDevice pc 0000 addr 0000 module 0
end 0 stopped

out 0 image constant.img - 1
end 1 outside 0204 0000 0000 0000 0000 1234 0000 0000 0000 0000 0000 0000 0000 0000 0000 0000

# The bound is inside the jump.

out 0 image constant.img - 4
end 4 outside 0206 0000 0000 0000 0000 1234 0000 0000 0000 0000 0000 0000 0000 0000 0000 0000

# Sends a byte.

edit edited.img constant.img
at 0200 354034120343ff3f0000000000000000 => at 0200 f24041007100ff3f0000000000000000

out 0 image edited.img - 3
0 out 41
end 3 outside 0206 0000 0000 0000 0000 0000 0000 0000 0000 0000 0000 0000 0000 0000 0000 0000

# Asleep with GIE, and woken by line 0.

edit edited.img constant.img
at 0200 354034120343ff3f0000000000000000 => at 0200 31400006d243400032d018000343ff3f
at fff0 => at 0500 00130000000000000000000000000000\nat fff0
at fff0 => at ffe0 00000005000000000000000000000000\nat fff0

file times
20 line 0 up
21 line 0 down

out 0 image edited.img times 40
20 irq 1
26 reti
end 40 outside 020c 0600 0018 0000 0000 0000 0000 0000 0000 0000 0000 0000 0000 0000 0000 0000
"#;

// Calls of a module that goes straight back, and jumps past its entry.
const CALLS: &str = r#"edit edited.img back.img
at fff0 => at 0400 ab000000000000000000000000000000\nat fff0

out 0 image edited.img - 10
5 enter 1 from 0
7 leave 1 pc 0208
end 10 outside 0208 0000 0000 0000 0000 0000 0000 0208 0000 0000 0000 0000 0000 0000 0000 0000

edit edited.img back.img
at fff0 => at 0400 cd000000000000000000000000000000\nat fff0

out 0 image edited.img - 10
5 enter 1 from 0
7 leave 1 pc 0208
end 10 outside 0208 0000 0000 0000 0000 0000 0000 0208 0000 0000 0000 0000 0000 0000 0000 0000

edit edited.img back.img
module 0007 0300 0302 0400 0402 => module 0007 0300 0308 0400 0402
at 0300 00470000000000000000000000000000 => at 0300 15420004054300470000000000000000
at fff0 => at 0400 ab000000000000000000000000000000\nat fff0

out 0 image edited.img - 14
5 enter 1 from 0
11 leave 1 pc 0208
end 14 outside 0208 0000 0000 0000 0000 0000 0000 0208 0000 0000 0000 0000 0000 0000 0000 0000

edit edited.img back.img
module 0007 0300 0302 0400 0402 => module 0007 0300 0308 0400 0402
at 0300 00470000000000000000000000000000 => at 0300 15420004054300470000000000000000
at fff0 => at 0400 cd000000000000000000000000000000\nat fff0

out 0 image edited.img - 14
5 enter 1 from 0
11 leave 1 pc 0208
end 14 outside 0208 0000 0000 0000 0000 0000 0000 0208 0000 0000 0000 0000 0000 0000 0000 0000

edit edited.img back.img
module 0007 0300 0302 0400 0402 => module 0007 0300 0304 0400 0402
at 0200 3740080230400003ff3f000000000000 => at 0200 3740080230400203ff3f000000000000

out 3 image edited.img - 10
5 stop FetchNotEntry pc 0302 addr 0302 module 1
end 5 stopped

edit edited.img back.img
module 0007 0300 0302 0400 0402 => module 0007 0300 0304 0400 0402
at 0200 3740080230400003ff3f000000000000 => at 0200 3740080230400004ff3f000000000000

out 3 image edited.img - 10
5 stop FetchData pc 0400 addr 0400 module 1
end 5 stopped
"#;

// A ninth module is protected where there is room for it. It hashes eight blocks of 64 cycles, beside 6.
const NINTH_MODULES: &str = r#"out 0 image ninth.img - 530
end 530 outside 0212 0000 0000 0000 0000 0000 0000 0000 0000 0000 0000 0000 0a00 0a02 0a10 0000

edit edited.img ninth.img
sancus-image 1 => sancus-image 2
module 0007 0300 0302 0308 030a => modules 8\nmodule 0007 0300 0302 0308 030a

out 0 image edited.img - 530
8 protect 9
end 530 outside 0212 0000 0000 0000 0000 0000 0000 0000 0000 0000 0000 0000 0a00 0a02 0a10 0009
"#;

// Instructions of which a check is refused, each by another rule.
const REFUSALS: &str = "\
# A text is written to.

edit edited.img back.img
at 0200 3740080230400003ff3f000000000000 => at 0200 b2403412000300000000000000000000

out 3 image edited.img - 10
0 stop WriteText pc 0200 addr 0300 module 1
end 0 stopped

# A module does RETI.

edit edited.img back.img
at 0300 00470000000000000000000000000000 => at 0300 00130000000000000000000000000000

out 3 image edited.img - 10
5 enter 1 from 0
5 stop RetiInside pc 0300 addr 0300 module 0
end 5 stopped

# The second word of an instruction of the outside lies in a text.

edit edited.img back.img
module 0007 0300 0302 0400 0402 => module 0007 0204 0208 0400 0402
at 0200 3740080230400003ff3f000000000000 => at 0200 03433540341200000000000000000000

out 3 image edited.img - 10
1 stop Straddle pc 0202 addr 0202 module 0
end 1 stopped

# A word is read at an odd address.

edit edited.img back.img
at 0200 3740080230400003ff3f000000000000 => at 0200 15420104000000000000000000000000

out 3 image edited.img - 10
0 stop Misaligned pc 0200 addr 0401 module 0
end 0 stopped

# No instruction has this word.

edit edited.img back.img
at 0200 3740080230400003ff3f000000000000 => at 0200 03430000000000000000000000000000

out 3 image edited.img - 10
1 stop Illegal pc 0202 addr 0202 module 0
end 1 stopped
";

// Interrupts of the outside whose pushes meet a module's data, and handlers that are a module.
const INTERRUPTS: &str = "\
edit edited.img called.img
at 0200 31400006d24340003740140232d23040 => at 0200 31400204d24340003740140232d23040

file times
16 line 0 up
17 line 0 down

out 3 image edited.img times 40
12 enter 1 from 0
16 leave 1 pc 0214
16 stop WriteData pc 0214 addr 0400 module 1
end 16 stopped

edit edited.img called.img
at ffe0 00000005000000000000000000000000 => at ffe0 00000003000000000000000000000000

out 0 image edited.img times 40
12 enter 1 from 0
16 leave 1 pc 0214
16 irq 1
22 enter 1 from 0
26 leave 1 pc 0214
end 40 outside 0214 05fc 0000 0000 0000 0000 0000 0214 0000 0000 0000 0000 0000 0000 0000 0000

edit edited.img called.img
at ffe0 00000005000000000000000000000000 => at ffe0 00000203000000000000000000000000

out 3 image edited.img times 40
12 enter 1 from 0
16 leave 1 pc 0214
16 irq 1
22 stop FetchNotEntry pc 0302 addr 0302 module 1
end 22 stopped
";

// The shortest texts, of each version.
const VERSIONS: &str = "\
file first
sancus-image 1
key 00000000000000000000000000000000
handler 0000
end

out 0 image first - 0
end 0 outside 0000 0000 0000 0000 0000 0000 0000 0000 0000 0000 0000 0000 0000 0000 0000 0000

file second
sancus-image 2
key 00000000000000000000000000000000
handler 0000
modules 0
end

out 0 image second - 0
end 0 outside 0000 0000 0000 0000 0000 0000 0000 0000 0000 0000 0000 0000 0000 0000 0000 0000
";

// Runs that sleep, and are woken by a line, by the timer, or not at all.
const SLEEPS: &str = "\
# Sets SP, enables line 0, and sleeps with GIE set. The handler at 0x0500 is RETI.

file sleeper.img
sancus-image 1
key 00000000000000000000000000000000
handler 0600
at 0200 31400006d243400032d018000343ff3f
at 0500 00130000000000000000000000000000
at ffe0 00000005000000000000000000000000
at fff0 00000000000000000000000000000002
end

file times
500000000 line 0 up
500000001 line 0 down

out 0 image sleeper.img times 1000000000
500000000 irq 1
500000006 reti
end 1000000000 outside 020c 0600 0018 0000 0000 0000 0000 0000 0000 0000 0000 0000 0000 0000 0000 0000

# Turns the processor off with GIE clear, so that nothing wakes it.

file unwoken.img
sancus-image 1
key 00000000000000000000000000000000
handler 0000
at 0200 32d01000ff3f00000000000000000000
at fff0 00000000000000000000000000000002
end

out 0 image unwoken.img - 1000000
end 1000000 outside 0204 0000 0010 0000 0000 0000 0000 0000 0000 0000 0000 0000 0000 0000 0000 0000

# Sets SP and the timer's limit 999, starts the timer with its interrupt in cycle 7, and sleeps with GIE set.
# The count is first 1 in cycle 8, so 999 in cycle 1006: it becomes 0 in the next cycle, and each 1,000 cycles
# from there.

file ringer.img
sancus-image 1
key 00000000000000000000000000000000
handler 0600
at 0200 31400006b240e7036401b24003006001
at 0210 32d01800ff3f00000000000000000000
at 0500 00130000000000000000000000000000
at fff0 00050000000000000000000000000002
end

out 0 image ringer.img - 2500
1007 irq 8
1013 reti
2007 irq 8
2013 reti
end 2500 outside 0214 0600 0018 0000 0000 0000 0000 0000 0000 0000 0000 0000 0000 0000 0000 0000

# Sets SP, enables line 0, sets the timer's limit 999, starts the timer without its interrupt in cycle 11, and
# sleeps with GIE set. The handler reads the count into R4 and the control into R5. The count is read in cycle
# 10006, 9,995 cycles after the timer was started: 995, or 0x03e3, after nine rounds. It runs (1), and its
# flag is set (4).

file reader.img
sancus-image 1
key 00000000000000000000000000000000
handler 0600
at 0200 31400006d2434000b240e70364019243
at 0210 600132d01800ff3f0000000000000000
at 0500 14426201554260010013000000000000
at ffe0 00000005000000000000000000000000
at fff0 00000000000000000000000000000002
end

file times
10000 line 0 up
10001 line 0 down

out 0 image reader.img times 11000
10000 irq 1
10012 reti
end 11000 outside 0216 0600 0018 0000 03e3 0005 0000 0000 0000 0000 0000 0000 0000 0000 0000 0000
";

// An instruction of 6 cycles outside, begun in cycle 7, and a level in each of its cycles: before the first
// it is interrupted; in the others a pulse is missed, and a level that lasts is seen at its end.
const MOVES: &str = "\
# Sets SP, enables line 0 and sets GIE, and then moves a word from memory to memory in cycles 7 to 12; at
# 0x0210 it loops.

file mover.img
sancus-image 1
key 00000000000000000000000000000000
handler 0600
at 0200 31400006d243400032d2924220022202
at 0210 ff3f0000000000000000000000000000
at 0500 00130000000000000000000000000000
at ffe0 00000005000000000000000000000000
at fff0 00000000000000000000000000000002
end

file times
7 line 0 up
8 line 0 down

out 0 image mover.img times 40
7 irq 1
13 reti
end 40 outside 0210 0600 0008 0000 0000 0000 0000 0000 0000 0000 0000 0000 0000 0000 0000 0000

file times
8 line 0 up
9 line 0 down

out 0 image mover.img times 40
end 40 outside 0210 0600 0008 0000 0000 0000 0000 0000 0000 0000 0000 0000 0000 0000 0000 0000

file times
9 line 0 up
10 line 0 down

out 0 image mover.img times 40
end 40 outside 0210 0600 0008 0000 0000 0000 0000 0000 0000 0000 0000 0000 0000 0000 0000 0000

file times
10 line 0 up
11 line 0 down

out 0 image mover.img times 40
end 40 outside 0210 0600 0008 0000 0000 0000 0000 0000 0000 0000 0000 0000 0000 0000 0000 0000

file times
11 line 0 up
12 line 0 down

out 0 image mover.img times 40
end 40 outside 0210 0600 0008 0000 0000 0000 0000 0000 0000 0000 0000 0000 0000 0000 0000 0000

file times
12 line 0 up
13 line 0 down

out 0 image mover.img times 40
end 40 outside 0210 0600 0008 0000 0000 0000 0000 0000 0000 0000 0000 0000 0000 0000 0000 0000

file times
8 line 0 up
14 line 0 down

out 0 image mover.img times 40
13 irq 1
19 reti
end 40 outside 0210 0600 0008 0000 0000 0000 0000 0000 0000 0000 0000 0000 0000 0000 0000 0000

file times
9 line 0 up
14 line 0 down

out 0 image mover.img times 40
13 irq 1
19 reti
end 40 outside 0210 0600 0008 0000 0000 0000 0000 0000 0000 0000 0000 0000 0000 0000 0000 0000

file times
10 line 0 up
14 line 0 down

out 0 image mover.img times 40
13 irq 1
19 reti
end 40 outside 0210 0600 0008 0000 0000 0000 0000 0000 0000 0000 0000 0000 0000 0000 0000 0000

file times
11 line 0 up
14 line 0 down

out 0 image mover.img times 40
13 irq 1
19 reti
end 40 outside 0210 0600 0008 0000 0000 0000 0000 0000 0000 0000 0000 0000 0000 0000 0000 0000

file times
12 line 0 up
14 line 0 down

out 0 image mover.img times 40
13 irq 1
19 reti
end 40 outside 0210 0600 0008 0000 0000 0000 0000 0000 0000 0000 0000 0000 0000 0000 0000 0000

file times
13 line 0 up
14 line 0 down

out 0 image mover.img times 40
13 irq 1
19 reti
end 40 outside 0210 0600 0008 0000 0000 0000 0000 0000 0000 0000 0000 0000 0000 0000 0000 0000
";

#[test]
fn sleeps(rt: HostRuntime) -> Result<(), Fail> {
    play(&rt, rt.alloc(), &[SLEEPS])
}

#[test]
fn is_interrupted_between_instructions(rt: HostRuntime) -> Result<(), Fail> {
    play(&rt, rt.alloc(), &[MOVES])
}

#[test]
fn without_interrupts(rt: HostRuntime) -> Result<(), Fail> {
    play(
        &rt,
        rt.alloc(),
        &[IMAGES, PLAIN_RUNS, CALLS, NINTH_MODULES, REFUSALS],
    )
}

#[test]
fn interrupts_outside(rt: HostRuntime) -> Result<(), Fail> {
    play(&rt, rt.alloc(), &[IMAGES, INTERRUPTS])
}

#[test]
fn texts_of_each_version(rt: HostRuntime) -> Result<(), Fail> {
    play(&rt, rt.alloc(), &[VERSIONS])
}
