//! Challenges at their bounds, the schedule of one, traces of every form, and the three judgements.
use arrayvec::ArrayString;
use schedule_file::{Entry, What, read_schedule};
use sm_io::{Failed, MemSink};
use std::test::Fail;
use texts::{push_decimal, push_hex_byte};
use vendor_tool::{
    Challenge, ChallengeFault, read_challenges, read_replies, report, schedule_text,
};

const NONCE: [u8; 16] = [0, 1, 2, 3, 4, 5, 6, 7, 8, 9, 10, 11, 12, 13, 14, 15];

const KEY: [u8; 16] = [
    0x04, 0x6a, 0x7d, 0xe3, 0xbf, 0x4b, 0x20, 0x92, 0xd4, 0x03, 0x21, 0xe8, 0x65, 0xa6, 0x28, 0x35,
];

// The first 16 bytes of
//     printf 000102030405060708090a0b0c0d0e0f | xxd -r -p |
//         openssl dgst -sha256 -mac HMAC -macopt hexkey:046a7de3bf4b2092d40321e865a62835
const TAG: [u8; 16] = [
    0x8d, 0x8d, 0x1b, 0xb4, 0xaf, 0xeb, 0x9e, 0xb9, 0x80, 0xa6, 0xb0, 0xf5, 0x00, 0x9b, 0x0b, 0xca,
];

// The same of 0f0e0d0c0b0a09080706050403020100.
const OTHER_TAG: [u8; 16] = [
    0xb9, 0xb7, 0xf0, 0x3f, 0x82, 0xbb, 0x1f, 0xd0, 0x23, 0x80, 0x5d, 0x22, 0x84, 0x25, 0xac, 0xb6,
];

const ONE: &[u8] = b"100 000102030405060708090a0b0c0d0e0f\n";

#[test]
fn challenges_are_read(rt: HostRuntime) -> Result<(), Fail> {
    let first = Challenge {
        cycle: 100,
        nonce: NONCE,
    };
    let last = Challenge {
        cycle: 99_999_999_999_999_999,
        nonce: NONCE,
    };
    let next = Challenge {
        cycle: 1_700,
        nonce: NONCE,
    };
    let rows: [(&[u8], &[Challenge]); 4] = [
        (b"", &[]),
        (ONE, &[first]),
        (
            b"100 000102030405060708090a0b0c0d0e0f\n1700 000102030405060708090a0b0c0d0e0f",
            &[first, next],
        ),
        (
            b"99999999999999999 000102030405060708090a0b0c0d0e0f\n",
            &[last],
        ),
    ];
    for (text, wanted) in rows {
        let challenges = read_challenges(rt.alloc(), text)?;
        assert_eq!(rt; challenges.list.as_slice(), wanted);
    }
    Ok(())
}

#[test]
fn challenge_4097_is_too_many(rt: HostRuntime) -> Result<(), Fail> {
    let mut text = Vec::new(rt.alloc());
    for i in 0..4_097u64 {
        if i == 4_096 {
            let challenges = read_challenges(rt.alloc(), text.as_slice())?;
            assert_eq!(rt; challenges.list.len(), 4_096);
        }
        let mut cycle = ArrayString::<20>::new();
        push_decimal(1_600 * i, &mut cycle);
        text.extend_from_slice(cycle.as_str().as_bytes())?;
        text.extend_from_slice(b" 000102030405060708090a0b0c0d0e0f\n")?;
    }
    match read_challenges(rt.alloc(), text.as_slice()) {
        Ok(_) => panic!(rt; "no refusal"),
        Err(fault) => assert_eq!(rt; fault, ChallengeFault::TooMany),
    }
    Ok(())
}

#[test]
fn a_challenge_is_scheduled(rt: HostRuntime) -> Result<(), Fail> {
    let challenges = read_challenges(rt.alloc(), ONE)?;
    let text = schedule_text(rt.alloc(), &challenges)?;
    assert!(rt;
        text.as_slice()
            .starts_with(b"100 serial 00\n200 serial 01\n")
    );
    assert!(rt; text.as_slice().ends_with(b"\n1600 serial 0f\n"));
    let schedule = read_schedule(rt.alloc(), text.as_slice())?;
    assert_eq!(rt; schedule.entries.len(), 16);
    let tenth = Entry {
        cycle: 1_000,
        what: What::Serial(9),
    };
    assert_eq!(rt; schedule.entries.get(9).copied(), Some(tenth));
    Ok(())
}

#[test]
fn replies_are_read(rt: HostRuntime) -> Result<(), Fail> {
    let rows: [(&[u8], &[u8]); 4] = [
        (b"end 0 stopped\n", &[]),
        (b"0 out 4a\n7 irq 6\n7 out 00\nend 8 inside 1\n", &[0x4a, 0]),
        (
            b"30 resume 1\n67 close 1\n25 handler pc 0500\n7 leave 1 pc 0208\n13 hide 1 vector 1\n5 enter 1 from 0\n\
              22 reti\n9 protect 12\n10 out ff\n5 stop FetchDevice pc 0302 addr 0302 module 1\nend 5 stopped\n",
            &[0xff],
        ),
        (
            b"99999999999999999999999 enter 99999999999999999999999 from 0\nend 10 outside 0208 0000 0000 0000 0000 \
              0000 0000 0208 0000 0000 0000 0000 0000 0000 0000 fedc\n",
            &[],
        ),
    ];
    for (trace, wanted) in rows {
        let replies = read_replies(rt.alloc(), trace)?;
        assert_eq!(rt; replies.as_slice(), wanted);
    }
    Ok(())
}

#[test]
fn replies_are_judged(rt: HostRuntime) -> Result<(), Fail> {
    let mut wrong = TAG;
    wrong[15] ^= 1;
    let rows: [(&[u8], &[u8], bool); 4] = [
        (&[], b"0 missing\n", false),
        (&TAG[..15], b"0 missing\n", false),
        (&TAG, b"0 genuine\n", true),
        (&wrong, b"0 wrong\n", false),
    ];
    let challenges = read_challenges(rt.alloc(), ONE)?;
    for (replies, lines, genuine) in rows {
        let mut sink = MemSink::new(rt.alloc(), 64)?;
        assert_eq!(rt; report(&KEY, &challenges, replies, &mut sink), Ok(genuine));
        assert_eq!(rt; sink.taken(), lines);
    }
    let mut full = MemSink::new(rt.alloc(), 3)?;
    assert_eq!(rt; report(&KEY, &challenges, &TAG, &mut full), Err(Failed));
    assert_eq!(rt; full.taken(), b"0 g".as_slice());
    Ok(())
}

// A trace that sends the tag, byte by byte.
#[test]
fn a_trace_is_judged(rt: HostRuntime) -> Result<(), Fail> {
    let mut trace = Vec::new(rt.alloc());
    for byte in TAG {
        let mut line = ArrayString::<20>::new();
        line.push_str("7 out ");
        push_hex_byte(byte, &mut line);
        line.push_str("\n");
        trace.extend_from_slice(line.as_str().as_bytes())?;
    }
    trace.extend_from_slice(b"end 8 stopped\n")?;
    let replies = read_replies(rt.alloc(), trace.as_slice())?;
    let challenges = read_challenges(rt.alloc(), ONE)?;
    let mut sink = MemSink::new(rt.alloc(), 64)?;
    assert_eq!(rt;
        report(&KEY, &challenges, replies.as_slice(), &mut sink),
        Ok(true)
    );
    assert_eq!(rt; sink.taken(), b"0 genuine\n".as_slice());
    Ok(())
}

// Replies to two challenges: in order, in the other order, and with their bytes mixed.
#[test]
fn replies_of_two_are_told_apart(rt: HostRuntime) -> Result<(), Fail> {
    let text = b"100 000102030405060708090a0b0c0d0e0f\n1700 0f0e0d0c0b0a09080706050403020100\n";
    let challenges = read_challenges(rt.alloc(), text)?;
    let rows: [([&[u8]; 4], &[u8], bool); 4] = [
        (
            [&TAG[..8], &TAG[8..], &OTHER_TAG[..8], &OTHER_TAG[8..]],
            b"0 genuine\n1 genuine\n",
            true,
        ),
        (
            [&OTHER_TAG[..8], &OTHER_TAG[8..], &TAG[..8], &TAG[8..]],
            b"0 wrong\n1 wrong\n",
            false,
        ),
        (
            [&TAG[..8], &OTHER_TAG[..8], &TAG[8..], &OTHER_TAG[8..]],
            b"0 wrong\n1 wrong\n",
            false,
        ),
        (
            [&TAG[..8], &TAG[8..], &OTHER_TAG[..8], &[]],
            b"0 genuine\n1 missing\n",
            false,
        ),
    ];
    for (parts, lines, genuine) in rows {
        let mut replies = Vec::new(rt.alloc());
        for part in parts {
            replies.extend_from_slice(part)?;
        }
        let mut sink = MemSink::new(rt.alloc(), 64)?;
        assert_eq!(rt;
            report(&KEY, &challenges, replies.as_slice(), &mut sink),
            Ok(genuine)
        );
        assert_eq!(rt; sink.taken(), lines);
    }
    Ok(())
}
