//! Moments of a machine, and the ways to them.

ghost use Rattle.std.specs.Prelude.{◌≡◌, ◌≤◌, ◌<◌, ◌+◌, ◌-◌, ◌^◌, length, is_some, Some, IfSome};
ghost use Rattle.sm_words.specs.Sums.{one_if};
ghost use Rattle.written_machine.specs.Cycle.{after_cycles};
ghost use Rattle.written_machine.specs.Standing.{stands_at};

use crate::machine::Machine;
use arrayvec::ArrayVec;
use devices::BusMark;
use mod_layout::ModuleTable;
use pc_access::Stop;
use reg_backup::{After, Frames, Phase};
use sm_words::Core;

/// All that a moment has beside the bytes of memory and what no cycle changes.
#[derive(Drop)]
pub struct Moment {
    pub core: Core,
    pub bus: BusMark,
    pub table: ModuleTable,
    pub cycle: u64,
    pub active: Option<u16>,
    pub caller: u16,
    pub frames: Frames,
    pub stop: Option<Stop>,
    pub phase: Phase,
    pub after: After,
}

impl Machine {
    ghost use Rattle.board.specs.internal.Sound.{last_number, IsInStep, IsSound, LeadsTo, RunsTo, MachineStands};
    ghost use Rattle.board.specs.internal.Standing.{cut, lasting_of, mark_state, moment_state, state_of};

    /// This moment.
    pub fn moment(&self) -> Moment
        ensures state { moment_state (lasting_of self.now).fixed result self.now.port.memory.bytes ≡ state_of self.now }
        ensures ticks { result.bus.ticks ≡ self.now.port.bus.ticks }
    {
        Moment {
            core: self.core,
            bus: self.port.bus.mark(),
            table: self.table.clone().unwrap(),
            cycle: self.cycle,
            active: self.active,
            caller: self.caller,
            frames: self.frames.clone().unwrap(),
            stop: self.stop,
            phase: self.phase,
            after: self.after,
        }
    }

    /// Goes to a moment, but for the bytes of memory.
    pub fn go_to(&mut self, moment: &Moment)
        ensures state { state_of self.new ≡
            moment_state (lasting_of self.old).fixed moment.now self.old.port.memory.bytes }
        ensures ticks { self.new.port.bus.ticks ≡ moment.now.bus.ticks }
        ensures lasting { lasting_of self.new ≡ lasting_of self.old }
    {
        self.core = moment.core;
        self.port.bus.back(&moment.bus);
        self.table = moment.table.clone().unwrap();
        self.cycle = moment.cycle;
        self.active = moment.active;
        self.caller = moment.caller;
        self.frames = moment.frames.clone().unwrap();
        self.stop = moment.stop;
        self.phase = moment.phase;
        self.after = moment.after;
    }

    /// Goes to a moment, whose bytes are mark `k` of memory, and keeps every mark.
    pub fn load(&mut self, k: u16, moment: &Moment)
        requires { k < length (lasting_of self.old).marked }
        ensures state { mark_state (lasting_of self.old) k moment.now ≡ Some (state_of self.new) }
        ensures ticks { self.new.port.bus.ticks ≡ moment.now.bus.ticks }
        ensures lasting { lasting_of self.new ≡ lasting_of self.old }
    {
        self.port.memory.load(k);
        self.go_to(moment);
    }

    /// Goes to a moment, whose bytes are mark `k` of memory, and drops the marks above it.
    pub fn back(&mut self, k: u16, moment: &Moment)
        requires { k < length (lasting_of self.old).marked }
        ensures state { mark_state (lasting_of self.old) k moment.now ≡ Some (state_of self.new) }
        ensures ticks { self.new.port.bus.ticks ≡ moment.now.bus.ticks }
        ensures lasting { lasting_of self.new ≡ cut k (lasting_of self.old) }
    {
        self.port.memory.back(k);
        self.go_to(moment);
    }

    /// Whether the outside is about to begin the instruction at `addr`.
    #[tactic(auto, unfolding(written_machine::specs::Standing::stands_at))]
    pub fn stands_at(&self, addr: u16) -> bool
        ensures { result ≡ stands_at addr (state_of self.now) }
    {
        self.active.is_none()
            && self.phase == (Phase::Run { rest: 0 })
            && self.after != After::Resume
            && self.core.pc() == addr
    }

    /// Goes to cycle `end`.
    pub fn pass_to(&mut self, end: u64)
        requires number { end ≤ 2 ^ 62 }
        requires stands { MachineStands self.old }
        requires runs { RunsTo end (state_of self.old) }
        ensures state { state_of self.new ≡ after_cycles (state_of self.old) (end - self.old.cycle) }
        ensures stands { MachineStands self.new }
        ensures lasting { lasting_of self.new ≡ lasting_of self.old }
    {
        while self.cycle < end {
            self.tick(&mut ArrayVec::new());
            let left = end - self.cycle;
            let _ = self.pass_idle(left);
        }
    }

    /// Goes to cycle `end`, and gives the number of the last cycle before it at which it stood at `addr`.
    ///
    /// Cycles pass at once only up to the one before `end`: where it stands in one of them, as in a sleep, it stands in
    /// the last of them too.
    pub fn last_before(&mut self, addr: u16, end: u64) -> Option<u64>
        requires number { end ≤ 2 ^ 62 }
        requires stands { MachineStands self.old }
        requires runs { RunsTo end (state_of self.old) }
        ensures last { result ≡ last_number addr (state_of self.old) end }
        ensures state { state_of self.new ≡ after_cycles (state_of self.old) (end - self.old.cycle) }
        ensures stands { MachineStands self.new }
        ensures lasting { lasting_of self.new ≡ lasting_of self.old }
    {
        let mut last = None;
        while self.cycle < end {
            if self.stands_at(addr) {
                last = Some(self.cycle);
            }
            self.tick(&mut ArrayVec::new());
            let left = end - self.cycle;
            let _ = self.pass_idle(left.saturating_sub(1));
        }
        last
    }

    /// The number of the last cycle from this moment on, and before the present one, at which it stood at `addr`. The
    /// moment's bytes are mark `k` of memory, its cycles are done again, and the present is as it was.
    pub fn last_since(&mut self, addr: u16, k: u16, moment: &Moment) -> Option<u64>
        requires mark { k < length (lasting_of self.old).marked }
        requires number { self.old.cycle + one_if (is_some self.old.stop) ≤ 2 ^ 62 }
        requires sound { IfSome (mark_state (lasting_of self.old) k moment.now) IsSound }
        requires in_step { IsInStep moment.now }
        requires leads { IfSome (mark_state (lasting_of self.old) k moment.now) (λ s. LeadsTo s (state_of self.old)) }
        ensures last { IfSome (mark_state (lasting_of self.old) k moment.now) (λ s.
            result ≡ last_number addr s self.old.cycle) }
        ensures state { state_of self.new ≡ state_of self.old }
        ensures stands { MachineStands self.new }
        ensures lasting { lasting_of self.new ≡ lasting_of self.old }
    {
        let end = self.cycle;
        let is_stopped = self.stop.is_some();
        self.load(k, moment);
        let last = self.last_before(addr, end);
        if is_stopped {
            self.tick(&mut ArrayVec::new());
        }
        last
    }

    /// Goes to cycle `end` from a moment on, whose bytes are mark `k` of memory, and drops the marks above it.
    pub fn return_to(&mut self, end: u64, k: u16, moment: &Moment)
        requires mark { k < length (lasting_of self.old).marked }
        requires number { end ≤ 2 ^ 62 }
        requires sound { IfSome (mark_state (lasting_of self.old) k moment.now) IsSound }
        requires in_step { IsInStep moment.now }
        requires runs { IfSome (mark_state (lasting_of self.old) k moment.now) (RunsTo end) }
        ensures state { IfSome (mark_state (lasting_of self.old) k moment.now) (λ s.
            state_of self.new ≡ after_cycles s (end - s.cycle)) }
        ensures stands { MachineStands self.new }
        ensures lasting { lasting_of self.new ≡ cut k (lasting_of self.old) }
    {
        self.back(k, moment);
        self.pass_to(end);
    }
}
