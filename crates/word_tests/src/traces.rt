//! Each line and each end line once, and the longest of them.
use arrayvec::ArrayString;
use pc_access::{Rule, Stop};
use sm_words::Core;
use tracer::{EndState, Event, end_line, line};

fn stop(rule: Rule, pc: u16, addr: u16, module: u16) -> Event {
    Event::Stop(Stop {
        rule,
        pc,
        addr,
        module,
    })
}

#[test]
fn lines(rt: HostRuntime) {
    let hide = Event::Hide {
        module: 1,
        vector: 1,
    };
    let leave = Event::Leave {
        module: 1,
        pc: 0x0208,
    };
    let rows = [
        (30, Event::Resume { module: 1 }, "30 resume 1\n"),
        (67, Event::Close { module: 1 }, "67 close 1\n"),
        (25, Event::Handler { pc: 0x0500 }, "25 handler pc 0500\n"),
        (7, leave, "7 leave 1 pc 0208\n"),
        (13, hide, "13 hide 1 vector 1\n"),
        (16, Event::Irq { vector: 1 }, "16 irq 1\n"),
        (5, Event::Enter { module: 1, from: 0 }, "5 enter 1 from 0\n"),
        (22, Event::default(), "22 reti\n"),
        (9, Event::Protect { module: 12 }, "9 protect 12\n"),
        (0, Event::Out { byte: 0x4a }, "0 out 4a\n"),
        (
            5,
            stop(Rule::FetchNotEntry, 0x0302, 0x0302, 1),
            "5 stop FetchNotEntry pc 0302 addr 0302 module 1\n",
        ),
        (
            16,
            stop(Rule::WriteData, 0x0214, 0x0400, 1),
            "16 stop WriteData pc 0214 addr 0400 module 1\n",
        ),
        (
            u64::MAX,
            stop(Rule::FetchNotEntry, 0xabcd, 0xef09, u16::MAX),
            "18446744073709551615 stop FetchNotEntry pc abcd addr ef09 module 65535\n",
        ),
    ];
    let mut out = ArrayString::new();
    for (cycle, event, text) in rows {
        line(cycle, &event, &mut out);
        assert_eq!(rt; out.as_str(), text);
    }
    assert_eq!(rt; out.len(), 71);
}

#[test]
fn rule_names(rt: HostRuntime) {
    let rows = [
        (
            Rule::FetchData,
            "0 stop FetchData pc 0000 addr 0000 module 0\n",
        ),
        (
            Rule::ReadData,
            "0 stop ReadData pc 0000 addr 0000 module 0\n",
        ),
        (
            Rule::WriteText,
            "0 stop WriteText pc 0000 addr 0000 module 0\n",
        ),
        (Rule::Reenter, "0 stop Reenter pc 0000 addr 0000 module 0\n"),
        (
            Rule::RetiInside,
            "0 stop RetiInside pc 0000 addr 0000 module 0\n",
        ),
        (
            Rule::Straddle,
            "0 stop Straddle pc 0000 addr 0000 module 0\n",
        ),
        (
            Rule::Misaligned,
            "0 stop Misaligned pc 0000 addr 0000 module 0\n",
        ),
        (Rule::Illegal, "0 stop Illegal pc 0000 addr 0000 module 0\n"),
        (
            Rule::FetchDevice,
            "0 stop FetchDevice pc 0000 addr 0000 module 0\n",
        ),
    ];
    let mut out = ArrayString::new();
    for (rule, text) in rows {
        line(0, &stop(rule, 0, 0, 0), &mut out);
        assert_eq!(rt; out.as_str(), text);
    }
}

#[test]
fn end_lines(rt: HostRuntime) {
    let mut registers = [0; 16];
    registers[0] = 0x0208;
    registers[7] = 0x0208;
    registers[15] = 0xfedc;
    let rows = [
        (5, EndState::Stopped, "end 5 stopped\n"),
        (6, EndState::Inside(1), "end 6 inside 1\n"),
        (
            10,
            EndState::Outside(Core::new(registers)),
            "end 10 outside 0208 0000 0000 0000 0000 0000 0000 0208 0000 0000 0000 0000 0000 0000 0000 fedc\n",
        ),
    ];
    let mut out = ArrayString::new();
    for (cycle, state, text) in rows {
        end_line(cycle, &state, &mut out);
        assert_eq!(rt; out.as_str(), text);
    }
    let longest = EndState::Outside(Core::new(registers));
    end_line(u64::MAX, &longest, &mut out);
    assert_eq!(rt; out.len(), 113);
}
