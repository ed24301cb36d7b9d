//! Both runs were worked by hand: the words by the code table, the cycles by the cycle table, and the registers by the
//! rules of each instruction.

use board::Board;
use owner_steps::steps;
use schedule_file::read_schedule;
use sm_io::MemSink;
use std::alloc::Global;
use std::process::Abort;
use std::test::Fail;

/// A branch on the word at 0x0400, which is 1, with a load of the word behind it.
const PLAIN: &str = "\
sancus-image 1\n\
key 00000000000000000000000000000000\n\
handler 0580\n\
at 0200 31400006d243400032d230400003f240\n\
at 0210 2a007100ff3f00000000000000000000\n\
at 0300 1642000406930424174202040743053c\n\
at 0310 0743074307430743003c0643074332c0\n\
at 0320 070130400e0200000000000000000000\n\
at 0400 01003412000000000000000000000000\n\
at 0500 c2434000001300000000000000000000\n\
at ffe0 00000005000000000000000000000000\n\
at fff0 00000000000000000000000000000002\n\
end\n";

/// The same code as a module.
const MODULE: &str = "\
sancus-image 1\n\
key 00000000000000000000000000000000\n\
handler 0580\n\
module 0007 0300 0326 0400 0404\n\
at 0200 31400006d243400032d230400003f240\n\
at 0210 2a007100ff3f00000000000000000000\n\
at 0300 1642000406930424174202040743053c\n\
at 0310 0743074307430743003c0643074332c0\n\
at 0320 070130400e0200000000000000000000\n\
at 0400 01003412000000000000000000000000\n\
at 0500 c2434000001300000000000000000000\n\
at ffe0 00000005000000000000000000000000\n\
at fff0 00000000000000000000000000000002\n\
end\n";

/// Line 0 goes up in the second cycle of the load at 0x0308, which begins in cycle 16 and takes three.
const PULSE: &str = "17 line 0 up\n";

/// The room for a run's text.
const ROOM: usize = 10_000;

/// Runs an image with the pulse, and compares what its owner sees.
fn assert_steps(
    rt: &impl Abort,
    alloc: Global,
    image: &str,
    cycles: u16,
    text: &str,
) -> Result<(), Fail> {
    let image = image_text::read(alloc, image.as_bytes())?;
    let schedule = read_schedule(alloc, PULSE.as_bytes())?;
    let mut sink = MemSink::new(alloc, ROOM)?;
    let board = Board::new(alloc, &image, &schedule)?;
    let _ = steps(board, u64::from(cycles), &mut sink);
    assert_eq!(rt; sink.taken(), text.as_bytes());
    Ok(())
}

/// Outside, the interrupt waits for the end of the load, and PC and SR are pushed.
#[test]
fn plain_code(rt: HostRuntime) -> Result<(), Fail> {
    assert_steps(
        &rt,
        rt.alloc(),
        PLAIN,
        40,
        "\
0 0 0200: 4031 0600 mov #0x0600, r1\n  r1=0600\n\
2 0 0204: 43d2 0040 mov.b #1, &0x0040\n  write 0040 01\n\
6 0 0208: d232 bis #8, r2\n  r2=0008\n\
7 0 020a: 4030 0300 mov #0x0300, r0\n  r0=0300\n\
10 0 0300: 4216 0400 mov &0x0400, r6\n  read 0400 0001\n  r6=0001\n\
13 0 0304: 9306 cmp #0, r6\n  r2=0009\n\
14 0 0306: 2404 jeq 0x0310\n\
16 0 0308: 4217 0402 mov &0x0402, r7\n  read 0402 1234\n  r7=1234\n\
19 irq 1\n  r0=0500 r1=05fc r2=0000\n\
25 0 0500: 43c2 0040 mov.b #0, &0x0040\n  write 0040 00\n\
29 0 0504: 1300 reti\n  read 05fc 0009\n  read 05fe 030c\n  r0=030c r1=0600 r2=0009\n\
29 reti\n\
34 0 030c: 4307 mov #0, r7\n  r7=0000\n\
35 0 030e: 3c05 jmp 0x031a\n  r0=031a\n\
37 0 031a: 4306 mov #0, r6\n  r6=0000\n\
38 0 031c: 4307 mov #0, r7\n\
39 0 031e: c032 0107 bic #0x0107, r2\n  r2=0008\n\
end 40 outside 0322 0600 0008 0000 0000 0000 0000 0000 0000 0000 0000 0000 0000 0000 0000 0000\n",
    )
}

/// Inside, the module is put away in the cycle of the pulse; it goes on with the two cycles of the load that were left.
#[test]
fn code_of_a_module(rt: HostRuntime) -> Result<(), Fail> {
    assert_steps(
        &rt,
        rt.alloc(),
        MODULE,
        56,
        "\
0 0 0200: 4031 0600 mov #0x0600, r1\n  r1=0600\n\
2 0 0204: 43d2 0040 mov.b #1, &0x0040\n  write 0040 01\n\
6 0 0208: d232 bis #8, r2\n  r2=0008\n\
7 0 020a: 4030 0300 mov #0x0300, r0\n  r0=0300\n\
10 enter 1 from 0\n\
10 1 0300: 4216 0400 mov &0x0400, r6\n  read 0400 0001\n  r6=0001\n\
13 1 0304: 9306 cmp #0, r6\n  r2=0009\n\
14 1 0306: 2404 jeq 0x0310\n\
16 1 0308: 4217 0402 mov &0x0402, r7\n  read 0402 1234\n  r7=1234\n\
17 hide 1 vector 1\n  r0=0500 r1=0580 r2=0000 r6=0000 r7=0000\n\
29 handler pc 0500\n\
29 0 0500: 43c2 0040 mov.b #0, &0x0040\n  write 0040 00\n\
33 0 0504: 1300 reti\n\
38 resume 1\n  r0=030c r1=0600 r2=0009 r6=0001 r7=1234\n\
40 1 030c: 4307 mov #0, r7\n  r7=0000\n\
41 1 030e: 3c05 jmp 0x031a\n  r0=031a\n\
43 1 031a: 4306 mov #0, r6\n  r6=0000\n\
44 1 031c: 4307 mov #0, r7\n\
45 1 031e: c032 0107 bic #0x0107, r2\n  r2=0008\n\
47 1 0322: 4030 020e mov #0x020e, r0\n  r0=020e\n\
50 leave 1 pc 020e\n\
50 0 020e: 40f2 002a 0071 mov.b #0x002a, &0x0071\n  write 0071 2a\n\
50 out 2a\n\
55 0 0214: 3fff jmp 0x0214\n  r0=0214\n\
end 56 outside 0214 0600 0008 0000 0000 0000 0000 0000 0000 0000 0000 0000 0000 0000 0000 0000\n",
    )
}
