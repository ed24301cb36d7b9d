//! Cycles in which nothing begins and nothing arrives pass in one step.

ghost use Rattle.std.specs.Prelude.{◌≡◌, ◌≤◌, ◌<◌, ◌+◌, ◌^◌, ℕ, true, None};
ghost use Rattle.reg_backup.specs.declared.backup.After.TheVariants.{Next};
ghost use Rattle.reg_backup.specs.declared.backup.Phase.TheVariants.{Pad};
ghost use Rattle.written_machine.specs.Passing.{Calm, Leads, OnlyPass, passed, asleep};
ghost use Rattle.board.specs.internal.Ran.{NoneMissed};
ghost use Rattle.board.specs.internal.Standing.{state_of, lasting_of};
ghost use Rattle.board.specs.internal.Sound.{MachineStands};

use crate::machine::Machine;
use devices::Device;
use irq_padding::pad_by;
use reg_backup::{After, Phase};

impl Machine {
    /// Lets at most so many cycles pass in which nothing begins and nothing arrives, and gives how many passed.
    #[inline(always)]
    pub fn pass_idle(&mut self, most: u64) -> u64
        requires number { self.old.cycle + most ≤ 2 ^ 62 }
        requires stands { MachineStands self.old }
        ensures most { result ≤ most }
        ensures leads { Leads result (state_of self.old) (state_of self.new) }
        ensures stands { MachineStands self.new }
        ensures number { self.new.cycle ≡ self.old.cycle + result }
        ensures stop { self.new.stop ≡ self.old.stop }
        ensures missed { NoneMissed result (state_of self.old) (state_of self.new) }
        ensures lasting { lasting_of self.new ≡ lasting_of self.old }
    {
        run_laws::passing();
        let idle = self.idle_cycles();
        if idle == 0 {
            return 0;
        }
        let cycles = idle.min(most);
        if cycles > 0 {
            self.pass_by(cycles);
        }
        cycles
    }

    /// For how many of the next cycles nothing surely begins or arrives.
    fn idle_cycles(&self) -> u64
        requires { MachineStands self.now }
        ensures pass { OnlyPass result (state_of self.now) }
        ensures runs { 0 < result → self.now.stop ≡ None }
    {
        if self.stop.is_some() {
            return 0;
        }
        match (self.phase, self.active) {
            (Phase::Pad { left }, _) => u64::from(left),
            (Phase::Run { rest: 0 }, None) if self.sleeps() => self.calm_cycles(),
            (Phase::Run { rest: 0 }, _) => 0,
            (Phase::Run { rest }, None) => u64::from(rest),
            (Phase::Run { rest }, Some(_)) => self.calm_cycles().min(u64::from(rest)),
        }
    }

    /// Whether nothing is to be settled and the processor is off.
    fn sleeps(&self) -> bool
        ensures next { result ≡ true → self.now.after ≡ After.Next }
        ensures off { result ≡ true → asleep (state_of self.now) ≡ true }
    {
        self.is_asleep() && self.after == After::Next
    }

    /// For how many of the next cycles surely no vector is due.
    fn calm_cycles(&self) -> u64
        requires { self.now.port.bus.ticks ≡ self.now.cycle }
        ensures { Calm result (state_of self.now) }
    {
        if !self.core.is_gie() || !self.has_room() {
            return u64::MAX;
        }
        match self.port.bus.line() {
            Some(_) => 0,
            None => self.port.bus.quiet(),
        }
    }

    /// Lets so many cycles pass in which nothing begins or arrives.
    fn pass_by(&mut self, cycles: u64)
        requires some { 0 < cycles }
        requires number { self.old.cycle + cycles ≤ 2 ^ 62 }
        requires in_step { self.old.port.bus.ticks ≡ self.old.cycle }
        requires padding { (left : ℕ) → self.old.phase ≡ Phase.Pad left → cycles ≤ left }
        ensures state { state_of self.new ≡ passed cycles (state_of self.old) }
        ensures ticks { self.new.port.bus.ticks ≡ self.new.cycle }
        ensures lasting { lasting_of self.new ≡ lasting_of self.old }
    {
        self.port.bus.skip(cycles);
        self.cycle += cycles;
        match self.phase {
            Phase::Pad { left } => {
                let (phase, after) = pad_by(left, cycles as u8);
                self.phase = phase;
                self.after = after;
            }
            Phase::Run { rest } => {
                self.phase = Phase::Run {
                    rest: u64::from(rest).saturating_sub(cycles) as u32,
                };
            }
        }
    }
}
