//! The cycles of first words.
use cycle_table::cycles;
use insn_decode::{Insn, decode};

/// The cycles of the instruction that begins with a word, but of a unit instruction.
fn timed(word: u16) -> Option<u8> {
    let insn = decode(word, 0x1234, 0x0200)?;
    match insn {
        Insn::Unit(_) => None,
        other => Some(cycles(&other)),
    }
}

#[test]
fn first_words(rt: HostRuntime) {
    let words = [
        (0x4700, 2),
        (0x4303, 1),
        (0x4130, 3),
        (0x4035, 2),
        (0x40b2, 5),
        (0x4292, 6),
        (0x4782, 4),
        (0x1105, 1),
        (0x1115, 4),
        (0x1205, 3),
        (0x1235, 5),
        (0x1230, 4),
        (0x1285, 4),
        (0x12a5, 4),
        (0x12b0, 5),
        (0x3fff, 2),
        (0x1300, 5),
    ];
    for (word, want) in words {
        assert_eq!(rt; timed(word), Some(want), "of {word:04x}");
    }
    assert_eq!(rt; timed(0x1130), None);
    assert_eq!(rt; timed(0x1103), None);
}
