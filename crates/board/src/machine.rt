//! The machine's parts, and one cycle of them.

ghost use Rattle.std.specs.Prelude.{◌≡◌, ◌+◌, ◌≤◌, ◌∷◌, [], IfSome, None};
ghost use Rattle.sm_words.specs.Words.{IsCore};
ghost use Rattle.written_machine.specs.Cycle.{pc_of, stopped, denied, vector_in, has_room};
ghost use Rattle.written_machine.specs.Passing.{asleep};
ghost use Rattle.board.specs.internal.Standing.{state_of, clock_of, lasting_of};
ghost use Rattle.board.specs.Watched.{is_held_first};
ghost use Rattle.board.specs.internal.Turned.{raised};

use crate::port::Surroundings;
use arrayvec::ArrayVec;
use devices::Device;
use mod_layout::{FIRST_VECTOR, ModuleTable};
use pc_access::{Denied, Rule, Stop};
use reg_backup::{After, FrameKind, Frames, Phase};
use sm_words::Core;
use tracer::Event;

/// All that a cycle reads or changes, and the image's key and `handler_sp`.
#[derive(Drop)]
pub struct Machine {
    pub core: Core,
    pub port: Surroundings,
    pub table: ModuleTable,
    /// The number of this cycle.
    pub cycle: u64,
    /// The id of the active module.
    pub active: Option<u16>,
    /// The id of the module that called it, or 0.
    pub caller: u16,
    pub frames: Frames,
    pub stop: Option<Stop>,
    pub phase: Phase,
    pub after: After,
    pub key: [u8; 16],
    /// Where the stack of a handler starts that interrupts a module.
    pub handler_sp: u16,
}

impl Machine {
    /// The address of the instruction.
    pub fn pc(&self) -> u16
        ensures pc { result ≡ pc_of (state_of self.now) }
        ensures core { IsCore self.now.core }
    {
        self.core.pc()
    }

    /// Whether the processor is off.
    pub fn is_asleep(&self) -> bool
        ensures { result ≡ asleep (state_of self.now) }
    {
        self.core.is_cpu_off()
    }

    /// Where a vector goes on.
    pub fn vector_word(&self, vector: u8) -> u16
        requires { vector ≤ 15 }
        ensures { result ≡ vector_in self.now.port.memory.bytes vector }
    {
        self.port.memory.word(FIRST_VECTOR + 2 * u16::from(vector))
    }

    /// The vector that is raised, where interrupts may arrive.
    #[tactic(auto, using(crate::proofs::Parts::line_low), unfolding(crate::specs::internal::Turned::raised))]
    pub fn raised(&self) -> Option<u8>
        ensures vector { result ≡ raised (state_of self.now) }
        ensures low { IfSome result (λ v. v ≤ 15) }
    {
        if self.core.is_gie() {
            self.port.bus.line()
        } else {
            None
        }
    }

    /// Whether there is room for a frame.
    pub fn has_room(&self) -> bool
        ensures { result ≡ has_room (state_of self.now) }
    {
        !self.frames.is_full()
    }

    /// Whether the newest frame is a module's.
    pub fn is_module_newest(&self) -> bool
        ensures { result ≡ is_held_first self.now.frames }
    {
        matches!(self.frames.newest(), Some(FrameKind::Module(_)))
    }

    /// Stops by a rule that concerns this address and this module, or 0.
    pub fn stop_by(&mut self, rule: Rule, addr: u16, module: u16) -> Event
        ensures state { state_of self.new ≡ (stopped rule addr «module» (state_of self.old)).state }
        ensures event { result ∷ [] ≡ (stopped rule addr «module» (state_of self.old)).events }
        ensures clock { clock_of self.new ≡ clock_of self.old }
        ensures lasting { lasting_of self.new ≡ lasting_of self.old }
    {
        let stop = Stop {
            rule,
            pc: self.pc(),
            addr,
            module,
        };
        self.stop = Some(stop);
        Event::Stop(stop)
    }

    /// Stops by a refusal.
    pub fn deny(&mut self, refusal: Denied) -> Event
        ensures state { state_of self.new ≡ (denied refusal (state_of self.old)).state }
        ensures event { result ∷ [] ≡ (denied refusal (state_of self.old)).events }
        ensures clock { clock_of self.new ≡ clock_of self.old }
        ensures lasting { lasting_of self.new ≡ lasting_of self.old }
    {
        self.stop_by(refusal.rule, refusal.addr, refusal.module)
    }
}
