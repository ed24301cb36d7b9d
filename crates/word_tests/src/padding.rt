//! The cases of a cycle as a table, and the padding.

use irq_padding::{Turn, arrive, choose, pad_by, pad_step};
use reg_backup::{After, Phase};

// The turns at raised and room, raised alone, room alone and neither, by inside and asleep.
#[test]
fn every_case(rt: HostRuntime) {
    use Turn::{Begin, Inside, Outside, Pad, Sleep, Wait};
    let flags = [(true, true), (true, false), (false, true), (false, false)];
    let table = [
        // Padding: nothing else counts.
        (Phase::Pad { left: 11 }, true, [Pad; 4], [Pad; 4]),
        (Phase::Pad { left: 11 }, false, [Pad; 4], [Pad; 4]),
        // At rest 0, awake and asleep, inside and outside.
        (
            Phase::Run { rest: 0 },
            false,
            [Inside, Begin, Begin, Begin],
            [Outside, Begin, Begin, Begin],
        ),
        (
            Phase::Run { rest: 0 },
            true,
            [Inside, Begin, Begin, Begin],
            [Outside, Sleep, Sleep, Sleep],
        ),
        // With some rest, a module is interrupted and the outside is not.
        (
            Phase::Run { rest: 1 },
            false,
            [Inside, Wait, Wait, Wait],
            [Wait; 4],
        ),
        (
            Phase::Run { rest: 1 },
            true,
            [Inside, Wait, Wait, Wait],
            [Wait; 4],
        ),
    ];
    for (phase, asleep, inside, outside) in table {
        for (i, (raised, room)) in flags.into_iter().enumerate() {
            assert_eq!(rt;
                Some(&choose(phase, raised, room, true, asleep)),
                inside.get(i),
                "{phase:?} inside"
            );
            assert_eq!(rt;
                Some(&choose(phase, raised, room, false, asleep)),
                outside.get(i),
                "{phase:?} outside"
            );
        }
    }
}

// The handler starts twelve cycles after the interrupt: one of arrival, and eleven of padding.
#[test]
fn padding(rt: HostRuntime) {
    assert_eq!(rt; arrive(), Phase::Pad { left: 11 });
    assert_eq!(rt; pad_step(11), (Phase::Pad { left: 10 }, After::Next));
    assert_eq!(rt; pad_step(1), (Phase::Run { rest: 0 }, After::Handler));
    assert_eq!(rt; pad_by(11, 10), (Phase::Pad { left: 1 }, After::Next));
    assert_eq!(rt; pad_by(11, 11), (Phase::Run { rest: 0 }, After::Handler));
}
