//! Instructions through a port in memory.

ghost use Rattle.std.specs.Prelude.{◌≡◌, ◌%◌, List, ℕ, slice_index, slice_set};
ghost use Rattle.instruction_tests.specs.internal.Bench.{bench_value, bench_written};

use cpu_step::{Port, are_aligned, execute, plan};
use insn_decode::{Insn, decode};
use sm_words::{Core, Width};
use std::test::Fail;

/// 64 bytes, where an address counts modulo 64.
#[derive(Drop)]
struct Bench {
    bytes: [u8; 64],
}

impl Bench {
    fn byte(&self, addr: u16) -> u8
        ensures { result ≡ slice_index self.now.bytes (addr % 64) }
    {
        self.bytes[usize::from(addr % 64)]
    }

    fn set_byte(&mut self, addr: u16, byte: u8)
        ensures { self.new.bytes ≡ slice_set self.old.bytes (addr % 64) byte }
    {
        self.bytes[usize::from(addr % 64)] = byte;
    }
}

impl Port for Bench {
    ghost State = { List ℕ };

    ghost state = { λ b. b.bytes };

    ghost answer = { bench_value };

    ghost after_read = { λ m w a. m };

    ghost after_write = { bench_written };

    fn read(&mut self, addr: u16, width: Width) -> u16 {
        let low = u16::from(self.byte(addr));
        match width {
            Width::Byte => low,
            Width::Word => low + 256 * u16::from(self.byte(addr.wrapping_add(1))),
        }
    }

    fn write(&mut self, addr: u16, width: Width, value: u16) {
        self.set_byte(addr, (value % 256) as u8);
        if width == Width::Word {
            self.set_byte(addr.wrapping_add(1), (value / 256) as u8);
        }
    }
}

/// The first two words of an instruction, R4 and R5, a word of memory at 0, then R5, a word of memory at 2
/// and the cycles that are expected.
struct Case {
    words: [u16; 2],
    r4: u16,
    r5: u16,
    word: u16,
    after: u16,
    stored: u16,
    cycles: u8,
}

const CASES: [Case; 5] = [
    // SUB #1, R5
    Case {
        words: [0x8315, 0],
        r4: 0,
        r5: 0x8000,
        word: 0,
        after: 0x7fff,
        stored: 0,
        cycles: 1,
    },
    // MOV @R4+, R5
    Case {
        words: [0x4435, 0],
        r4: 0,
        r5: 0,
        word: 0x1234,
        after: 0x1234,
        stored: 0,
        cycles: 2,
    },
    // ADD @R5+, 0(R5)
    Case {
        words: [0x55b5, 0],
        r4: 0,
        r5: 0,
        word: 0x1234,
        after: 2,
        stored: 0x1234,
        cycles: 5,
    },
    // MOV R4, &0x0002
    Case {
        words: [0x4482, 2],
        r4: 0x5678,
        r5: 0,
        word: 0,
        after: 0,
        stored: 0x5678,
        cycles: 4,
    },
    // MOV.B @R4, R5
    Case {
        words: [0x4465, 0],
        r4: 0,
        r5: 0xffff,
        word: 0x1234,
        after: 0x34,
        stored: 0,
        cycles: 2,
    },
];

#[test]
fn instructions(rt: HostRuntime) -> Result<(), Fail> {
    for case in &CASES {
        let mut core = Core::new([0; 16]);
        core.put(4, case.r4);
        core.put(5, case.r5);
        let mut bench = Bench { bytes: [0; 64] };
        bench.write(0, Width::Word, case.word);
        let insn = decode(case.words[0], case.words[1], 0).ok_or("no instruction")?;
        assert!(rt; !matches!(insn, Insn::Unit(_)));
        assert!(rt; are_aligned(plan(&insn, &core).as_slice()));
        assert_eq!(rt; execute(&insn, &mut core, &mut bench, false), case.cycles);
        assert_eq!(rt; core.get(5), case.after);
        assert_eq!(rt; bench.read(2, Width::Word), case.stored);
    }
    Ok(())
}
