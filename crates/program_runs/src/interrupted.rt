//! Runs in which a module is interrupted.

use crate::images::IMAGES;
use crate::player::{assert_gave, call_into, play, play_on, played, words_of};
use sm_cli::Status;
use sm_io::MemSink;
use std::test::Fail;

// A call of four cycles, with a pulse of line 0 before it, within it, in its last cycle and after it.
const PULSES: &str = r#"out 0 image called.img - 40
12 enter 1 from 0
16 leave 1 pc 0214
end 40 outside 0214 0600 0008 0000 0000 0000 0000 0214 0000 0000 0000 0000 0000 0000 0000 0000

file times
13 line 0 up
14 line 0 down

out 0 image called.img times 40
12 enter 1 from 0
13 hide 1 vector 1
25 handler pc 0500
30 resume 1
33 leave 1 pc 0214
end 40 outside 0214 0600 0008 0000 0000 0000 0000 0214 0000 0000 0000 0000 0000 0000 0000 0000

file times
15 line 0 up
16 line 0 down

out 0 image called.img times 40
12 enter 1 from 0
15 hide 1 vector 1
27 handler pc 0500
32 resume 1
33 leave 1 pc 0214
end 40 outside 0214 0600 0008 0000 0000 0000 0000 0214 0000 0000 0000 0000 0000 0000 0000 0000

file times
16 line 0 up
17 line 0 down

out 0 image called.img times 40
12 enter 1 from 0
16 leave 1 pc 0214
16 irq 1
22 reti
end 40 outside 0214 0600 0008 0000 0000 0000 0000 0214 0000 0000 0000 0000 0000 0000 0000 0000

file times
12 line 0 up
13 line 0 down

out 0 image called.img times 40
12 irq 1
18 reti
23 enter 1 from 0
27 leave 1 pc 0214
end 40 outside 0214 0600 0008 0000 0000 0000 0000 0214 0000 0000 0000 0000 0000 0000 0000 0000

# The line stays up, so the module is interrupted again as soon as it goes on.

file times
13 line 0 up
31 line 0 down

out 0 image called.img times 60
12 enter 1 from 0
13 hide 1 vector 1
25 handler pc 0500
30 resume 1
30 hide 1 vector 1
42 handler pc 0500
47 resume 1
50 leave 1 pc 0214
end 60 outside 0214 0600 0008 0000 0000 0000 0000 0214 0000 0000 0000 0000 0000 0000 0000 0000

# One arm is a cycle shorter, and the data show.

out 0 image unbalanced.img - 60
12 enter 1 from 0
30 leave 1 pc 0214
end 60 outside 0214 0600 0008 0000 0000 0000 0000 0214 0000 0000 0000 0000 0000 0000 0000 0000

edit edited.img unbalanced.img
at 0500 => at 0400 01000000000000000000000000000000\nat 0500

out 0 image edited.img - 60
12 enter 1 from 0
29 leave 1 pc 0214
end 60 outside 0214 0600 0008 0000 0000 0000 0000 0214 0000 0000 0000 0000 0000 0000 0000 0000

# The arms take equal cycles, and no data show.

out 0 image balanced.img - 60
12 enter 1 from 0
30 leave 1 pc 0214
end 60 outside 0214 0600 0008 0000 0000 0000 0000 0214 0000 0000 0000 0000 0000 0000 0000 0000

edit edited.img balanced.img
at 0500 => at 0400 01000000000000000000000000000000\nat 0500

out 0 image edited.img - 60
12 enter 1 from 0
30 leave 1 pc 0214
end 60 outside 0214 0600 0008 0000 0000 0000 0000 0214 0000 0000 0000 0000 0000 0000 0000 0000
"#;

// What a handler may not do, and what it may.
const HANDLERS: &str = r#"# It goes to the entry of the module that it interrupted.

edit edited.img called.img
at 0500 00130000000000000000000000000000 => at 0500 30400003000000000000000000000000

file times
13 line 0 up
14 line 0 down

out 3 image edited.img times 40
12 enter 1 from 0
13 hide 1 vector 1
25 handler pc 0500
28 stop Reenter pc 0300 addr 0300 module 1
end 28 stopped

edit edited.img called.img
at ffe0 00000005000000000000000000000000 => at ffe0 00000003000000000000000000000000

out 3 image edited.img times 40
12 enter 1 from 0
13 hide 1 vector 1
25 handler pc 0300
25 stop Reenter pc 0300 addr 0300 module 1
end 25 stopped

# Its stack lies in the module's data.

edit edited.img called.img
handler 0600 => handler 0402
at 0500 00130000000000000000000000000000 => at 0500 04120000000000000000000000000000

out 3 image edited.img times 40
12 enter 1 from 0
13 hide 1 vector 1
25 handler pc 0500
25 stop WriteData pc 0500 addr 0400 module 1
end 25 stopped

# It calls another module. The first asks for its own caller after that.

edit edited.img asking.img
at 0200 => module 0007 0700 0702 0780 0782\nat 0200
at 0300 03438413004700000000000000000000 => at 0300 03438613004700000000000000000000
at 0500 00130000000000000000000000000000 => at 0500 37400805304000070013000000000000
at ffe0 => at 0700 00470000000000000000000000000000\nat ffe0

out 0 image edited.img times 60
12 enter 1 from 0
13 hide 1 vector 1
25 handler pc 0500
30 enter 2 from 0
32 leave 2 pc 0508
37 resume 1
45 leave 1 pc 0214
end 60 outside 0214 0600 0008 0000 0000 0000 0000 0214 0000 0000 0000 0000 0000 0000 0000 0000

# The module gives itself up, and is interrupted while its data are cleared.

file times
20 line 0 up
21 line 0 down

out 0 image closing.img times 80
12 enter 1 from 0
20 hide 1 vector 1
32 handler pc 0500
37 resume 1
67 close 1
end 80 outside 0214 0600 0008 0000 0000 0000 0000 0214 0000 0000 0000 0000 0000 0000 0000 0000

edit edited.img closing.img
at 0500 00130000000000000000000000000000 => at 0500 15420004000000000000000000000000

out 3 image edited.img times 80
12 enter 1 from 0
20 hide 1 vector 1
32 handler pc 0500
32 stop ReadData pc 0500 addr 0400 module 1
end 32 stopped
"#;

// Handlers that set GIE, and are interrupted themselves.
const NESTED: &str = r#"edit edited.img called.img
at 0500 00130000000000000000000000000000 => at 0500 32d20343001300000000000000000000

file times
13 line 0 up
14 line 0 down
26 line 0 up
27 line 0 down

out 0 image edited.img times 60
12 enter 1 from 0
13 hide 1 vector 1
25 handler pc 0500
26 irq 1
34 reti
45 resume 1
48 leave 1 pc 0214
end 60 outside 0214 0600 0008 0000 0000 0000 0000 0214 0000 0000 0000 0000 0000 0000 0000 0000

# A second module is interrupted while the first is held, and may not be entered either.

edit edited.img called.img
at 0200 => module 0007 0700 0704 0780 0782\nat 0200
at 0500 00130000000000000000000000000000 => at 0500 32d237400a0530400007001300000000
at ffe0 => at 0700 03430047000000000000000000000000\nat ffe0

file times
13 line 0 up
14 line 0 down
32 line 0 up
33 line 0 down

out 3 image edited.img times 60
12 enter 1 from 0
13 hide 1 vector 1
25 handler pc 0500
31 enter 2 from 0
32 hide 2 vector 1
44 handler pc 0500
50 stop Reenter pc 0700 addr 0700 module 2
end 50 stopped

# The line stays up. Each handler sets GIE in one cycle and is interrupted in the next, until eight frames are
# held: a module's and seven of the outside. The ninth vector waits until RETI has taken one off.

edit edited.img called.img
at 0500 00130000000000000000000000000000 => at 0500 32d20343001300000000000000000000

file times
13 line 0 up

out 0 image edited.img times 82
12 enter 1 from 0
13 hide 1 vector 1
25 handler pc 0500
26 irq 1
33 irq 1
40 irq 1
47 irq 1
54 irq 1
61 irq 1
68 irq 1
76 reti
81 irq 1
end 82 outside 0500 05e4 0000 0000 0000 0000 0000 0000 0000 0000 0000 0000 0000 0000 0000 0000
"#;

#[test]
fn interrupts_inside(rt: HostRuntime) -> Result<(), Fail> {
    play(&rt, rt.alloc(), &[IMAGES, PULSES, HANDLERS, NESTED])
}

// The image whose module takes one of two arms, of equal cycles, by a bit of its data, and the same with the bit set.
const BIT: &str = "\
edit set.img balanced.img
at 0500 => at 0400 01000000000000000000000000000000\\nat 0500
";

const END_AT_60: &str =
    "end 60 outside 0214 0600 0008 0000 0000 0000 0000 0214 0000 0000 0000 0000 0000 0000 0000 0000";

// Whatever the data are and whenever the pulse comes, the call takes its 18 cycles and the 17 of the interrupt.
#[test]
fn no_pulse_tells_the_data(rt: HostRuntime) -> Result<(), Fail> {
    let alloc = rt.alloc();
    let mut files = played(&rt, alloc, &[IMAGES, BIT])?;
    for image in ["balanced.img", "set.img"] {
        for pulse in 13..30u64 {
            let down = pulse + 1;
            let handler = pulse + 12;
            let resume = pulse + 17;
            let text = format!(in alloc;
                "file times\n{pulse} line 0 up\n{down} line 0 down\n\n\
                 out 0 image {image} times 60\n12 enter 1 from 0\n{pulse} hide 1 vector 1\n\
                 {handler} handler pc 0500\n{resume} resume 1\n47 leave 1 pc 0214\n{END_AT_60}"
            )?;
            play_on(&rt, alloc, &mut files, text.as_str())?;
        }
    }
    Ok(())
}

const PULSE_AT_13: &str = "\
file times
13 line 0 up
14 line 0 down
";

#[test]
fn a_sink_with_little_room(rt: HostRuntime) -> Result<(), Fail> {
    let alloc = rt.alloc();
    let mut files = played(&rt, alloc, &[IMAGES, PULSE_AT_13])?;
    let words = words_of(alloc, "image called.img times 40")?;
    let out = MemSink::new(alloc, 30)?;
    let err = MemSink::new(alloc, 0)?;
    let given = call_into(alloc, words.as_slice(), &mut files, out, err);
    let taken = b"12 enter 1 from 0\n13 hide 1 ve";
    assert_gave(
        &rt,
        &given,
        Status::WriteFault.number(),
        taken,
        b"",
        "30 bytes",
    );
    Ok(())
}
