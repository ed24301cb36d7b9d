//! A vendor's challenges, and its reports on the replies.

use crate::images::IMAGES;
use crate::player::play;
use std::test::Fail;

// The tag is the first 16 bytes of the HMAC of 000102030405060708090a0b0c0d0e0f under the key of the module of
// `called.img`:
//     printf 000102030405060708090a0b0c0d0e0f | xxd -r -p |
//         openssl dgst -sha256 -mac HMAC -macopt hexkey:83f82be27a06d8d232f15de8267c1ab8
const ONE: &str = "\
file one
100 000102030405060708090a0b0c0d0e0f

file close
100 000102030405060708090a0b0c0d0e0f
1699 000102030405060708090a0b0c0d0e0f

file silent
end 0 stopped

file tag
7 out d6
7 out ad
7 out 57
7 out 1f
7 out 27
7 out b6
7 out 78
7 out f9
7 out bf
7 out 7f
7 out 22
7 out 3f
7 out 76
7 out 49
7 out 5e
7 out 63
end 8 stopped

# Its last bit is another.

edit other tag
out 63 => out 62

file empty

out 0 challenge one
100 serial 00
200 serial 01
300 serial 02
400 serial 03
500 serial 04
600 serial 05
700 serial 06
800 serial 07
900 serial 08
1000 serial 09
1100 serial 0a
1200 serial 0b
1300 serial 0c
1400 serial 0d
1500 serial 0e
1600 serial 0f

out 0 challenge empty

err 4 challenge close
sancus: bad file close: NotRising 2

err 4 challenge tag
sancus: bad file tag: Line 1

err 2 challenge one one
sancus: usage

err 2 challenge
sancus: usage

out 9 vendor called.img 1 0fd02b088984c51cf3af483cdc7342e8 one silent
0 missing

out 0 vendor called.img 1 0fd02b088984c51cf3af483cdc7342e8 one tag
0 genuine

out 9 vendor called.img 1 0fd02b088984c51cf3af483cdc7342e8 one other
0 wrong

err 4 vendor called.img 1 0fd02b088984c51cf3af483cdc7342e8 one empty
sancus: bad file empty: NoEnd

err 4 vendor called.img 2 0fd02b088984c51cf3af483cdc7342e8 close empty
sancus: bad file called.img: NoModule 2

err 4 vendor called.img 1 0fd02b088984c51cf3af483cdc7342e8 close empty
sancus: bad file close: NotRising 2

err 2 vendor called.img 1 0FD02b088984c51cf3af483cdc7342e8 one tag
sancus: usage
";

// The machine answers three challenges; the vendor expects the first image.
const THREE: &str = "\
# A module that receives sixteen bytes over the serial line, tags them, sends the tag and goes back; the
# code outside calls it again and again. Its last word, at 0332, is never run.

file tagger.img
sancus-image 1
key 00112233445566778899aabbccddeeff
handler 0600
module 0007 0300 0334 0400 0420
at 0200 3740080230400003fb3f000000000000
at 0300 3a400004e2b37000fd27da4271000000
at 0310 1a533a901004f6233c4000043d401004
at 0320 3e4010048313f24a71003a902004fb23
at 0330 00470100000000000000000000000000
at fff0 00000000000000000000000000000002
end

# With another last word the module's key is another.

edit other.img tagger.img
00470100 => 00470200

file challenges
1000 000102030405060708090a0b0c0d0e0f
4000 ffffffffffffffffffffffffffffffff
7000 101112131415161718191a1b1c1d1e1f

keep schedule challenge challenges

keep trace image tagger.img schedule 9500

out 0 vendor tagger.img 1 4288d2bf49ac628155a630f7dab1d6da challenges trace
0 genuine
1 genuine
2 genuine

keep trace image other.img schedule 9500

out 9 vendor tagger.img 1 4288d2bf49ac628155a630f7dab1d6da challenges trace
0 wrong
1 wrong
2 wrong
";

// Challenges and traces at their bounds.
const BOUNDS: &str = r#"file empty

rows text 4 empty challenge bad
sancus: bad file bad: *
NotRising 2 <- 100 000102030405060708090a0b0c0d0e0f\n1699 000102030405060708090a0b0c0d0e0f\n
Line 1 <- 100000000000000000 000102030405060708090a0b0c0d0e0f\n
Line 1 <- 0100 000102030405060708090a0b0c0d0e0f\n
Line 1 <- 100 000102030405060708090A0b0c0d0e0f\n
Line 1 <- 100 000102030405060708090a0b0c0d0e\n
Line 1 <- 100
Line 2 <- 100 000102030405060708090a0b0c0d0e0f\n\n

rows text 4 empty vendor called.img 1 0fd02b088984c51cf3af483cdc7342e8 one bad
sancus: bad file bad: *
NoEnd <-
NoEnd <- 0 out 4a\n
Line 1 <- end 0 stopped
Line 2 <- end 0 stopped\n0 out 4a\n
Line 2 <- end 0 stopped\n0
Line 2 <- 0 out 4a\n0 out 4A\n
Line 1 <- 0 out 4a \nend 0 stopped\n
Line 1 <- 0  out 4a\nend 0 stopped\n
Line 1 <- 00 out 4a\nend 0 stopped\n
Line 1 <- 0 out 4\nend 0 stopped\n
Line 1 <- 0 stop Fetch pc 0302 addr 0302 module 1\nend 0 stopped\n
Line 1 <- \nend 0 stopped\n
Line 1 <- end 0 outside 0208\n
Line 1 <- 0 stopped\n
"#;

#[test]
fn other_texts_are_refused(rt: HostRuntime) -> Result<(), Fail> {
    play(&rt, rt.alloc(), &[IMAGES, ONE, BOUNDS])
}

#[test]
fn reports_on_one_challenge(rt: HostRuntime) -> Result<(), Fail> {
    play(&rt, rt.alloc(), &[IMAGES, ONE])
}

#[test]
fn a_machine_is_challenged(rt: HostRuntime) -> Result<(), Fail> {
    play(&rt, rt.alloc(), &[THREE])
}
