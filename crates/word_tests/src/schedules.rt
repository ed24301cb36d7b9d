use schedule_file::{Entry, ScheduleFault, What, read_schedule};
use std::test::Fail;

#[test]
fn texts_are_read(rt: HostRuntime) -> Result<(), Fail> {
    let up = Entry {
        cycle: 13,
        what: What::Up(0),
    };
    let down = Entry {
        cycle: 14,
        what: What::Down(3),
    };
    let byte = Entry {
        cycle: 999_999_999_999_999_999,
        what: What::Serial(0x4f),
    };
    for (text, entries) in [
        (b"".as_slice(), [].as_slice()),
        (b"13 line 0 up\n14 line 3 down\n", [up, down].as_slice()),
        (b"13 line 0 up\n13 line 0 up", [up, up].as_slice()),
        (
            b"14 line 3 down\n999999999999999999 serial 4f",
            [down, byte].as_slice(),
        ),
    ] {
        let schedule = read_schedule(rt.alloc(), text)?;
        assert_eq!(rt; schedule.entries.as_slice(), entries);
    }
    Ok(())
}

#[test]
fn other_texts_are_refused(rt: HostRuntime) {
    let first = ScheduleFault::Line { n: 1 };
    let second = ScheduleFault::Line { n: 2 };
    for (text, wanted) in [
        (
            b"5 line 0 up\n4 line 0 down".as_slice(),
            ScheduleFault::NotRising { n: 2 },
        ),
        (b"5 line 4 up", first),
        (b"01 line 0 up", first),
        (b"1000000000000000000 line 0 up", first),
        (b" line 0 up", first),
        (b"5  line 0 up", first),
        (b"5 line 0 up\r\n", first),
        (b"5 line 0 up ", first),
        (b"5 serial 4F", first),
        (b"5 serial 4", first),
        (b"\n", first),
        (b"0 line 0 up\n\n", second),
        (b"5 line 0 up\n4 line 4 down", second),
    ] {
        match read_schedule(rt.alloc(), text) {
            Ok(_) => panic!(rt; "no refusal"),
            Err(fault) => assert_eq!(rt; fault, wanted),
        }
    }
}

#[test]
fn line_65537_is_too_many(rt: HostRuntime) -> Result<(), Fail> {
    let mut text = Vec::new(rt.alloc());
    for _ in 0..65_536 {
        text.extend_from_slice(b"7 line 2 up\n")?;
    }
    let schedule = read_schedule(rt.alloc(), text.as_slice())?;
    assert_eq!(rt; schedule.entries.len(), 65_536);
    text.push(b'x')?;
    match read_schedule(rt.alloc(), text.as_slice()) {
        Ok(_) => panic!(rt; "no refusal"),
        Err(fault) => assert_eq!(rt; fault, ScheduleFault::TooMany),
    }
    Ok(())
}
