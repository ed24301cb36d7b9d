//! Command lines, each with what it gives.

use crate::images::{ARMS, IMAGES};
use crate::player::play;
use std::test::Fail;

// The keys of the module of `called.img`, and instructions of `constant.img`.
const ANSWERS: &str = "\
out 0 key called.img 1
provider 0fd02b088984c51cf3af483cdc7342e8
module 83f82be27a06d8d232f15de8267c1ab8

out 0 dis constant.img 0200 0208
0200: 4035 1234 mov #0x1234, r5
0204: 4303 mov #0, r3
0206: 3fff jmp 0x0206

out 0 dis constant.img 0204 0205
0204: 4303 mov #0, r3

out 0 dis constant.img 0202 0204
0202: 1234 push @r4+

out 0 dis constant.img 0000 0002
0000: 0000 ?

out 0 dis constant.img 0200 0200
";

// Verdicts of the modules of images.
const VERDICTS: &str = "\
out 9 check back.img 1
no 0300 UnknownTarget 0000

out 9 check balanced.img 1
no 0304 SecretBranch 0000

out 0 check blind.img 1
yes

err 4 check blind.img 2
sancus: bad file blind.img: NoModule 2

out 0 balance balanced.img 1 at_6.txt
yes

out 9 balance balanced.img 1 at_7.txt
no 0304 ArmTime 0000

out 9 balance unbalanced.img 1 at_6.txt
no 0304 ArmTime 0000

out 9 balance balanced.img 1 none.txt
no 0304 SecretBranch 0000

err 4 balance balanced.img 1 short.txt
sancus: bad file short.txt: Line 1

out 9 balance balanced.img 1 later.txt
no 031e SecretAtExit 0005
";

// Calls of modules by themselves.
const ALONE: &str = "\
out 0 lone balanced.img 1 100
exit 18 0214 0000 0000 0000 0000 0000 0000 0000 0000 0000 0000 0000 0000 0000 0000 0000

out 0 lone balanced.img 1 18
exit 18 0214 0000 0000 0000 0000 0000 0000 0000 0000 0000 0000 0000 0000 0000 0000 0000

out 0 lone balanced.img 1 17
running 17

out 0 lone closing.img 1 100
closed 38 0302 0000 0000 0000 0000 0000 0000 0000 0000 0000 0000 0000 0000 0000 0000 0000

out 0 lone closing.img 1 38
closed 38 0302 0000 0000 0000 0000 0000 0000 0000 0000 0000 0000 0000 0000 0000 0000 0000

out 0 lone closing.img 1 37
running 37

out 0 lone asking.img 1 2
broken 1

out 0 lone asking.img 1 1
running 1

# No module calls it.

out 0 lone caller.img 1 100 r7=0208
exit 8 0208 0000 0000 0000 0000 0000 0000 0208 0000 0000 0000 0000 0000 0000 0000 0000

out 0 lone caller.img 1 100 r7=0208 r15=ffff
exit 8 0208 0000 0000 0000 0000 0000 0000 0208 0000 0000 0000 0000 0000 0000 0000 0000

out 0 lone back.img 1 0
running 0

out 0 lone back.img 1 10 r7=0208
exit 2 0208 0000 0000 0000 0000 0000 0000 0208 0000 0000 0000 0000 0000 0000 0000 0000

# A register keeps what it can hold.

out 0 lone back.img 1 10 r7=0208 r15=ffff r1=0601 r2=fe00
exit 2 0208 0600 0000 0000 0000 0000 0000 0208 0000 0000 0000 0000 0000 0000 0000 ffff

err 4 lone back.img 2 10
sancus: bad file back.img: NoModule 2

err 4 lone a.img 1 10 r4=0000 r5=0000 r6=0000 r7=0000 r8=0000 r9=0000 r10=0000 r11=0000
sancus: bad file a.img: Absent
";

#[test]
fn command_lines(rt: HostRuntime) -> Result<(), Fail> {
    play(&rt, rt.alloc(), &[IMAGES, ARMS, ANSWERS, VERDICTS, ALONE])
}
