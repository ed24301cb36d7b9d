//! What an instruction reads and writes in a settled machine.

ghost use Rattle.std.specs.Prelude.{◌≡◌, IsFalse};
ghost use Rattle.insn_decode.specs.Code.{IsDecoded, is_unit};
ghost use Rattle.cpu_step.specs.Plan.{plan};
ghost use Rattle.cpu_step.specs.Through.{AreAligned};
ghost use Rattle.written_machine.specs.Ports.{read_byte};
ghost use Rattle.owner_steps.specs.Touched as spec;
ghost use Rattle.owner_steps.specs.internal.Touching.{kept_touches, plan_shown, traced_of};

use arrayvec::ArrayVec;
use board::Settled;
use cpu_step::{Port, are_aligned, execute, plan};
use devices::BusMark;
use insn_decode::Insn;
use mod_layout::DEVICES_END;
use sm_words::Width;

/// A read or a write, with its value.
#[derive(Clone, Copy, Debug, Default)]
pub struct Touch {
    pub is_write: bool,
    pub addr: u16,
    pub width: Width,
    pub value: u16,
}

/// What an instruction that is shown reads and writes, where all its accesses are aligned.
pub fn shown_touches(settled: &Settled<'_>, insn: &Insn) -> ArrayVec<Touch, 3>
    requires decoded { IsDecoded insn.now }
    ensures { AreAligned (plan_shown insn.now settled.now.frames settled.now.core) →
        result.items ≡ spec.shown_touches insn.now settled.now }
{
    match insn {
        Insn::Unit(_) => ArrayVec::new(),
        Insn::Reti => {
            if settled.is_module_newest() {
                ArrayVec::new()
            } else {
                touched(settled, insn)
            }
        }
        Insn::Two { .. } => touched(settled, insn),
        Insn::One { .. } => touched(settled, insn),
        Insn::Jump { .. } => touched(settled, insn),
    }
}

// What an instruction that is no unit instruction reads and writes, where all its accesses are aligned.
fn touched(settled: &Settled<'_>, insn: &Insn) -> ArrayVec<Touch, 3>
    requires decoded { IsDecoded insn.now }
    requires no_unit { IsFalse (is_unit insn.now) }
    ensures { AreAligned (plan insn.now settled.now.core) → result.items ≡ spec.touches_of insn.now settled.now }
{
    let mut core = settled.core();
    let accesses = plan(insn, &core);
    if !are_aligned(accesses.as_slice()) {
        return ArrayVec::new();
    }
    let mut touching = Touching {
        settled,
        devices: settled.bus().mark(),
        touched: ArrayVec::new(),
    };
    let _ = execute(insn, &mut core, &mut touching, false);
    touching.touched
}

/// A settled machine as an instruction reads it, with what it reads and writes.
#[derive(Drop)]
pub struct Touching<'a> {
    settled: &'a Settled<'a>,
    // Devices that are read in place of the machine's, which a read changes.
    devices: BusMark,
    touched: ArrayVec<Touch, 3>,
}

impl Touching<'_> {
    #[tactic(auto, using(crate::proofs::Schedules::read_any, crate::proofs::Schedules::after_any))]
    fn byte(&mut self, addr: u16) -> u8
        ensures value { result ≡ (read_byte (traced_of self.old).port addr).value }
        ensures state { traced_of self.new ≡
            record (traced_of self.old) { port = (read_byte (traced_of self.old).port addr).port } }
    {
        if addr < DEVICES_END {
            self.devices.read(addr)
        } else {
            self.settled.byte(addr)
        }
    }

    fn keep(&mut self, is_write: bool, addr: u16, width: Width, value: u16)
        ensures { traced_of self.new ≡ record (traced_of self.old)
            { touched = kept_touches (traced_of self.old).touched (spec.touch is_write width addr value) } }
    {
        if !self.touched.is_full() {
            self.touched.push(Touch {
                is_write,
                addr,
                width,
                value,
            });
        }
    }
}

impl Port for Touching<'_> {
    ghost use Rattle.owner_steps.specs.Touched.{Traced, traced_answer};
    ghost use Rattle.owner_steps.specs.internal.Touching.{read_kept, traced_of, write_kept};

    ghost State = { Traced };

    ghost state = { traced_of };

    ghost answer = { traced_answer };

    ghost after_read = { read_kept };

    ghost after_write = { write_kept };

    fn read(&mut self, addr: u16, width: Width) -> u16 {
        let value = match width {
            Width::Byte => u16::from(self.byte(addr)),
            Width::Word => {
                let low = self.byte(addr);
                let high = self.byte(addr + 1);
                u16::from_le_bytes([low, high])
            }
        };
        self.keep(false, addr, width, value);
        value
    }

    fn write(&mut self, addr: u16, width: Width, value: u16) {
        self.keep(true, addr, width, value);
    }
}
