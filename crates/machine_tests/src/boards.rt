//! A module that is called and interrupted, run by pulses of line 0, and what is seen meanwhile.

ghost use Rattle.std.specs.Prelude.{◌≡◌, ◌≤◌, IfOk};

use board::{Board, Ran};
use pc_access::{Rule, Stop};
use reg_backup::FrameKind;
use schedule_file::read_schedule;
use sm_io::MemSink;
use std::alloc::Global;
use std::test::Fail;
use tracer::Event;
use written_machine::Hidden;

// Sets SP, enables line 0, sets R7 and GIE, and calls module 1; at 0x0214 it loops. The handler at 0x0500 is RETI.
const IMAGE: &str = "\
sancus-image 1
key 00000000000000000000000000000000
handler 0600
module 0007 0300 0306 0400 0402
at 0200 31400006d24340003740140232d23040
at 0210 00030343ff3f00000000000000000000
at 0300 03430343004700000000000000000000
at 0500 00130000000000000000000000000000
at ffe0 00000005000000000000000000000000
at fff0 00000000000000000000000000000002
end
";

// Sets SP, enables line 0, and sleeps with GIE set. The handler at 0x0500 is RETI.
const SLEEPER: &str = "\
sancus-image 1
key 00000000000000000000000000000000
handler 0600
at 0200 31400006d243400032d018000343ff3f
at 0500 00130000000000000000000000000000
at ffe0 00000005000000000000000000000000
at fff0 00000000000000000000000000000002
end
";

// Turns the processor off with GIE clear, so that nothing wakes it.
const UNWOKEN: &str = "\
sancus-image 1
key 00000000000000000000000000000000
handler 0000
at 0200 32d01000ff3f00000000000000000000
at fff0 00000000000000000000000000000002
end
";

// As the first, but that the module gives itself up, with 64 bytes of data: 6 + 64 / 2 cycles, from cycle 12 on.
const CLOSER: &str = "\
sancus-image 1
key 00000000000000000000000000000000
handler 0600
module 0007 0300 0304 0400 0440
at 0200 31400006d24340003740140232d23040
at 0210 00030343ff3f00000000000000000000
at 0300 80130047000000000000000000000000
at 0400 34120000000000000000000000000000
at ffe0 00000005000000000000000000000000
at fff0 00000000000000000000000000000002
end
";

// The reset vector is 0, where no instruction may start.
const STOPPER: &str = "\
sancus-image 1
key 00000000000000000000000000000000
handler 0000
end
";

const PULSE_AT_13: &str = "\
12 enter 1 from 0
13 hide 1 vector 1
25 handler pc 0500
30 resume 1
33 leave 1 pc 0214
end 40 outside 0214 0600 0008 0000 0000 0000 0000 0214 0000 0000 0000 0000 0000 0000 0000 0000
";

// It sleeps from cycle 8 on, and again once the 6 cycles of the arrival and the 5 of RETI have passed.
const PULSE_IN_SHORT_SLEEP: &str = "\
20 irq 1
26 reti
end 40 outside 020c 0600 0018 0000 0000 0000 0000 0000 0000 0000 0000 0000 0000 0000 0000 0000
";

/// What is done to a board.
#[derive(Clone, Copy, Debug)]
enum Action {
    Run(u32),
    Mark,
    Back(u16),
    Last { addr: u16, k: u16 },
}

/// An action and its answer: after `Run` and `Back` the number of the cycle, and none where it is refused.
type Answered = (Action, Option<u64>);

fn refused_marks() -> &'static [Answered] {
    &[
        (Action::Back(0), None),
        (Action::Last { addr: 0x0200, k: 0 }, None),
        (Action::Mark, Some(0)),
        (Action::Mark, Some(1)),
        (Action::Mark, None),
        (Action::Back(2), None),
        (Action::Back(0), Some(0)),
        (Action::Back(1), None),
        (Action::Mark, Some(1)),
    ]
}

// The loop at 0x0214 begins in cycle 16, while the module is still active, and then again in each even cycle.
fn last_of_several() -> &'static [Answered] {
    &[
        (Action::Mark, Some(0)),
        (Action::Run(22), Some(22)),
        (Action::Last { addr: 0x0302, k: 0 }, None),
        (Action::Last { addr: 0x0214, k: 0 }, Some(20)),
        (Action::Last { addr: 0x0214, k: 0 }, Some(18)),
        (Action::Last { addr: 0x0214, k: 0 }, None),
        (Action::Last { addr: 0x0200, k: 0 }, Some(0)),
    ]
}

// The cycle of the mark itself counts, and the present one does not.
fn last_at_the_mark() -> &'static [Answered] {
    &[
        (Action::Run(18), Some(18)),
        (Action::Mark, Some(0)),
        (Action::Last { addr: 0x0214, k: 0 }, None),
        (Action::Run(1), Some(19)),
        (Action::Mark, Some(1)),
        (Action::Last { addr: 0x0214, k: 0 }, Some(18)),
        (Action::Mark, Some(1)),
    ]
}

// In a sleep it stands before each cycle, and so before the last one.
fn last_of_a_sleep() -> &'static [Answered] {
    &[
        (Action::Mark, Some(0)),
        (Action::Run(400_000_000), Some(400_000_000)),
        (Action::Last { addr: 0x020c, k: 0 }, Some(399_999_999)),
        (Action::Run(1), Some(400_000_000)),
        (Action::Last { addr: 0x0500, k: 0 }, None),
        (Action::Last { addr: 0x020c, k: 0 }, Some(399_999_999)),
    ]
}

fn board_of(alloc: Global, image: &str, schedule: &str) -> Result<Board, Fail>
    ensures { IfOk result (λ board. board.present.cycle ≡ 0) }
{
    let image = image_text::read(alloc, image.as_bytes())?;
    let schedule = read_schedule(alloc, schedule.as_bytes())?;
    Ok(Board::with_marks(alloc, &image, &schedule, 2)?)
}

// Runs to cycle 40 by way of a mark, other cycles, and the way back.
fn told_by_way_of(alloc: Global, image: &str, schedule: &str, cycles: u64) -> Result<MemSink, Fail>
    requires { cycles ≤ 40 }
{
    let mut board = board_of(alloc, image, schedule)?;
    let mut sink = MemSink::new(alloc, 256)?;
    let mut other = MemSink::new(alloc, 256)?;
    let _ = board.run(cycles, &mut sink);
    let _ = board.mark();
    let _ = board.run(40, &mut other);
    let _ = board.back(0);
    let _ = board.run(40 - cycles, &mut sink);
    let _ = board.finish(&mut sink);
    Ok(sink)
}

#[tactic(auto, unfolding(written_machine::specs::View::view_of))]
fn number(board: &Board) -> u64
    ensures { result ≡ board.now.present.cycle }
{
    board.view(Hidden::All).cycle()
}

// A run is asked for only where its last cycle surely has a number.
fn answer(board: &mut Board, action: Action, sink: &mut MemSink) -> Option<u64> {
    match action {
        Action::Run(cycles) if number(board) < 1 << 40 => {
            let _ = board.run(u64::from(cycles), sink);
            Some(number(board))
        }
        Action::Run(_) => None,
        Action::Mark => board.mark().ok().map(u64::from),
        Action::Back(k) => board.back(k).ok().map(|()| number(board)),
        Action::Last { addr, k } => board.last(addr, k).ok(),
    }
}

// The first action with another answer.
fn first_other(
    alloc: Global,
    image: &str,
    schedule: &str,
    actions: &[Answered],
) -> Result<Option<Action>, Fail> {
    let mut board = board_of(alloc, image, schedule)?;
    let mut sink = MemSink::new(alloc, 256)?;
    for (action, expected) in actions {
        if answer(&mut board, *action, &mut sink) != *expected {
            return Ok(Some(*action));
        }
    }
    Ok(None)
}

// From a mark on the board does what it did, and tells it again.
#[test]
fn goes_back(rt: HostRuntime) -> Result<(), Fail> {
    let cases = [
        (IMAGE, "13 line 0 up\n14 line 0 down\n", PULSE_AT_13),
        (
            SLEEPER,
            "20 line 0 up\n21 line 0 down\n",
            PULSE_IN_SHORT_SLEEP,
        ),
    ];
    for (image, schedule, text) in cases {
        for cycles in 0..=40 {
            let sink = told_by_way_of(rt.alloc(), image, schedule, cycles)?;
            assert_eq!(rt; sink.taken(), text.as_bytes(), "{schedule} {cycles}");
        }
    }
    Ok(())
}

#[test]
fn answers(rt: HostRuntime) -> Result<(), Fail> {
    let cases = [
        (IMAGE, "", refused_marks()),
        (IMAGE, "", last_of_several()),
        (IMAGE, "", last_at_the_mark()),
        (SLEEPER, "500000000 line 0 up\n", last_of_a_sleep()),
    ];
    for (image, schedule, actions) in cases {
        assert!(rt; first_other(rt.alloc(), image, schedule, actions)?.is_none());
    }
    Ok(())
}

// The line of cycle 16 is refused: the run ends after that cycle, and the line is not put again. The loop is one jump of
// 2 cycles, so after 40 cycles it begins again where it first began in an even cycle.
#[test]
fn refused_line(rt: HostRuntime) -> Result<(), Fail> {
    let mut board = board_of(rt.alloc(), IMAGE, "")?;
    let mut sink = MemSink::new(rt.alloc(), 256)?;
    sink.fail_at(1)?;
    let first = board.run(40, &mut sink);
    assert_eq!(rt; (first, number(&board)), (Ran::SinkFailed, 17));
    assert_eq!(rt; board.run(23, &mut sink), Ran::Done);
    assert_eq!(rt; sink.taken(), b"12 enter 1 from 0\n".as_slice());
    assert_eq!(rt;
        [board.stands_at(0x0212), board.stands_at(0x0214)],
        [false, true]
    );
    Ok(())
}

// The devices move once in a cycle that the board does, and then once for all cycles in which surely nothing happens.
//
// - A sleep of a thousand million cycles: three instructions of more than one cycle (6 moves), sleep (2), the arrival
//   (2), RETI (2), sleep (2).
// - A sleep that nothing ends: an instruction of two cycles (2), sleep (2).
// - An interrupt of a module: four instructions outside of more than one cycle and one of one (9), the module's first
//   (1), the arrival with its padding (2), RETI (2), the module's second (1) and its last, of two cycles (2), three
//   jumps and the first cycle of a fourth (7).
// - A module that gives itself up: the same outside (9), and one instruction of 38 cycles (2).
#[test]
fn passes_at_once(rt: HostRuntime) -> Result<(), Fail> {
    let cases = [
        (
            SLEEPER,
            "500000000 line 0 up\n500000001 line 0 down\n",
            1_000_000_000,
            14,
        ),
        (UNWOKEN, "", 1_000_000, 4),
        (IMAGE, "13 line 0 up\n14 line 0 down\n", 40, 24),
        (CLOSER, "", 50, 11),
    ];
    for (image, schedule, cycles, moves) in cases {
        let mut board = board_of(rt.alloc(), image, schedule)?;
        let mut sink = MemSink::new(rt.alloc(), 256)?;
        let _ = board.run(cycles, &mut sink);
        assert_eq!(rt; board.view(Hidden::All).bus().moves(), moves, "{cycles}");
    }
    Ok(())
}

// A stopped board stays as it is, and goes back and runs again.
#[test]
fn stops(rt: HostRuntime) -> Result<(), Fail> {
    let stop = Stop {
        rule: Rule::FetchDevice,
        pc: 0,
        addr: 0,
        module: 0,
    };
    let mut board = board_of(rt.alloc(), STOPPER, "")?;
    let mut sink = MemSink::new(rt.alloc(), 256)?;
    let _ = board.mark();
    assert_eq!(rt; board.tick().as_slice(), [Event::Stop(stop)].as_slice());
    assert_eq!(rt; board.tick().as_slice(), [].as_slice());
    assert_eq!(rt; board.run(40, &mut sink), Ran::Stopped(stop));
    let _ = board.back(0);
    assert_eq!(rt; board.view(Hidden::All).stop(), None);
    assert_eq!(rt; board.run(40, &mut sink), Ran::Stopped(stop));
    assert_eq!(rt; board.finish(&mut sink), Ok(()));
    assert_eq!(rt;
        sink.taken(),
        b"0 stop FetchDevice pc 0000 addr 0000 module 0\nend 0 stopped\n".as_slice()
    );
    Ok(())
}

#[test]
fn views(rt: HostRuntime) -> Result<(), Fail> {
    for (cycles, active, frame) in [(13, Some(1), None), (20, None, Some(FrameKind::Module(1)))] {
        let mut board = board_of(rt.alloc(), IMAGE, "13 line 0 up\n14 line 0 down\n")?;
        let mut sink = MemSink::new(rt.alloc(), 256)?;
        let _ = board.run(cycles, &mut sink);
        let (seen, other) = (board.view(Hidden::All), board.view(Hidden::Only(2)));
        assert_eq!(rt; (seen.cycle(), seen.active()), (cycles, active));
        assert_eq!(rt; [seen.frame(0), seen.frame(1)], [frame, None]);
        assert_eq!(rt;
            (seen.register(0).is_none(), other.register(3)),
            (active.is_some(), Some(0))
        );
        let bytes = [
            seen.byte(0x01ff),
            seen.byte(0x0200),
            seen.byte(0x0400),
            other.byte(0x0400),
        ];
        assert_eq!(rt; bytes, [None, Some(0x31), None, Some(0)]);
        assert_eq!(rt;
            (seen.table().room(), seen.bus().sent(), seen.stop()),
            (8, None, None)
        );
    }
    Ok(())
}

// Once a module has given itself up, its data are 0 and anyone may look at them.
#[test]
fn closed_data_are_cleared(rt: HostRuntime) -> Result<(), Fail> {
    let mut board = board_of(rt.alloc(), CLOSER, "")?;
    let mut sink = MemSink::new(rt.alloc(), 256)?;
    assert_eq!(rt; board.run(50, &mut sink), Ran::Done);
    assert_eq!(rt; board.view(Hidden::Only(2)).byte(0x0400), Some(0x34));
    assert!(rt; number(&board) <= 50);
    assert_eq!(rt; board.run(1, &mut sink), Ran::Done);
    for addr in 0x0400..0x0440u16 {
        assert_eq!(rt; board.view(Hidden::All).byte(addr), Some(0), "at {addr}");
    }
    Ok(())
}
