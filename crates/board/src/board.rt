//! The board: a machine that a caller runs.

ghost use Rattle.std.specs.Prelude.{◌≡◌, ◌+◌, ◌<◌, ◌≤◌, ◌^◌, [], IfOk, IsSome, is_some, None, length};
ghost use Rattle.run_laws.specs.Events.{stop_in};
ghost use Rattle.written_machine.specs.Checks.{refused_in};
ghost use Rattle.written_machine.specs.Cycle.{cycle};
ghost use Rattle.written_machine.specs.Passing.{Leads};
ghost use Rattle.written_machine.specs.Standing.{stands_at};
ghost use Rattle.written_machine.specs.Marks.{at_state, unmarked};
ghost use Rattle.written_machine.specs.Trace.{end_by, end_line_of, event_lines};
ghost use Rattle.written_machine.specs.View.{boot};
ghost use Rattle.sm_io.specs.Sink.{Puts};
ghost use Rattle.board.specs.Alike.{PeersTell, PeersShow, PeersRun, PeersEnd};
ghost use Rattle.board.specs.Ran.{Runs};
ghost use Rattle.board.specs.Ran.{ran_of};
ghost use Rattle.board.specs.internal.Ran.{NoneMissed};
ghost use Rattle.board.specs.Watched.{Watched};

use crate::machine::Machine;
use crate::moment::Moment;
use crate::port::Surroundings;
use crate::view::View;
use crate::watching::Watch;
use crate::{NoMemory, Ran};
use arrayvec::{ArrayString, ArrayVec};
use devices::Bus;
use image_text::Image;
use mem_map::Memory;
use mod_layout::RESET_VECTOR;
use reg_backup::{After, Frames, Phase};
use schedule_file::Schedule;
use sm_io::{Failed, Sink, put_all};
use sm_words::{Core, PC};
use std::alloc::Global;
use std::marker::Model;
use tracer::{EndState, Event};
use written_machine::Hidden;

/// No end line has more bytes.
pub const MOST_END_LINE: usize = 113;

/// A running machine.
///
/// Contracts see a board as the present state of the written machine together with its states at the marks.
#[derive(Drop)]
pub struct Board {
    pub(crate) machine: Machine,
    // All but the bytes of each mark, whose bytes are a mark of memory.
    pub(crate) moments: Vec<Moment>,
}

impl Model for Board {
    ghost use Rattle.written_machine.specs.Marks.{Marked};

    ghost Value = { Marked };

    ghost use Rattle.std.specs.Prelude.{◌≤◌};
    ghost use Rattle.std.specs.Vec.{vec_capacity};
    ghost use Rattle.board.specs.internal.Standing.{marked_of};
    ghost use Rattle.board.specs.internal.Sound.{Keeps};

    ghost view = { λ b. marked_of b.machine b.moments.items };

    ghost invariant = { λ b. Keeps b.machine b.moments.items × (b.machine.port.memory.room ≤ vec_capacity b.moments) };
}

impl Board {
    /// The state of cycle 0, with no room for marks. All memory that a board ever takes is taken here.
    pub fn new(alloc: Global, image: &Image, schedule: &Schedule) -> Result<Board, NoMemory>
        ensures booted { IfOk result (λ board. board ≡ unmarked 0 (boot image.now schedule.now.entries.items)) }
    {
        Board::with_marks(alloc, image, schedule, 0)
    }

    /// The state of cycle 0, with room for so many marks, whose memory is taken here too.
    pub fn with_marks(
        alloc: Global,
        image: &Image,
        schedule: &Schedule,
        marks: u16,
    ) -> Result<Board, NoMemory>
        requires most { marks ≤ 16 }
        ensures booted { IfOk result (λ board. board ≡ unmarked marks (boot image.now schedule.now.entries.items)) }
    {
        let memory = Memory::with_marks(alloc, image.memory.as_slice(), marks)?;
        let bus = Bus::new(alloc, schedule)?;
        let mut core = Core::new([0; 16]);
        core.put(PC, memory.word(RESET_VECTOR));
        Ok(Board {
            machine: Machine {
                core,
                port: Surroundings { bus, memory },
                table: image.table.clone()?,
                cycle: 0,
                active: None,
                caller: 0,
                frames: Frames::new(),
                stop: None,
                phase: Phase::Run { rest: 0 },
                after: After::Next,
                key: image.node_key,
                handler_sp: image.handler_sp,
            },
            moments: Vec::with_capacity(alloc, usize::from(marks))?,
        })
    }

    /// One cycle, with its events in the order of its steps. A stopped board stays as it is and tells none.
    pub fn tick(&mut self) -> ArrayVec<Event, 4>
        requires number { self.old.present.cycle < 2 ^ 62 }
        ensures state { self.new.present ≡ (cycle self.old.present).state }
        ensures events { result.items ≡ (cycle self.old.present).events }
        ensures number { self.new.present.cycle ≤ self.old.present.cycle + 1 }
        ensures marks { self.new ≡ at_state self.old self.new.present }
        ensures stopped { IsSome self.old.present.stop → (self.new ≡ self.old) × (result.items ≡ []) }

        // A stop is told exactly where the machine stops, and it is that stop.
        ensures stop { self.old.present.stop ≡ None → stop_in result.items ≡ self.new.present.stop }

        // A run stops exactly where a check of the cycle is refused, and by the first one refused.
        ensures refused { self.old.present.stop ≡ None → self.new.present.stop ≡ refused_in self.old.present }

        // Images that differ in one confined module's data alone tell the same.
        ensures peers { PeersTell self.old.present result.items }
    {
        run_laws::tells();
        isolation::two_runs();
        let mut events = ArrayVec::new();
        self.step(&mut events);
        events
    }

    /// One cycle, as `tick` does it, with a look at all of the machine once it is settled.
    pub fn tick_watched<W: Watch>(&mut self, watch: &mut W) -> ArrayVec<Event, 4>
        requires number { self.old.present.cycle < 2 ^ 62 }
        ensures state { self.new.present ≡ (cycle self.old.present).state }
        ensures events { result.items ≡ (cycle self.old.present).events }
        ensures number { self.new.present.cycle ≤ self.old.present.cycle + 1 }
        ensures marks { self.new ≡ at_state self.old self.new.present }
        ensures looked { Watched W.looks self.old.present watch.old watch.new }
    {
        let mut events = ArrayVec::new();
        self.machine.tick_watched(&mut events, watch);
        events
    }

    /// The registers, whoever runs.
    pub fn core(&self) -> Core
        ensures { result ≡ self.now.present.core }
    {
        self.machine.core
    }

    // One cycle. Sets `events` to its events, in the order of its steps.
    #[inline(always)]
    pub(crate) fn step(&mut self, events: &mut ArrayVec<Event, 4>)
        requires { self.old.present.cycle < 2 ^ 62 }
        ensures state { self.new.present ≡ (cycle self.old.present).state }
        ensures events { events.new.items ≡ (cycle self.old.present).events }
        ensures number { self.new.present.cycle ≤ self.old.present.cycle + 1 }
        ensures marks { self.new ≡ at_state self.old self.new.present }
    {
        self.machine.tick(events);
    }

    /// That many cycles, or fewer where it stops, with their lines. After `SinkFailed` the board stands after
    /// the cycle whose lines were refused, and they are not put again.
    pub fn run<S: Sink>(&mut self, cycles: u64, sink: &mut S) -> Ran
        requires number { self.old.present.cycle + cycles ≤ 2 ^ 62 }
        ensures ran { Runs S.taken S.faults S.sure cycles self.old.present self.new.present sink.old sink.new result }
        ensures number { self.new.present.cycle ≤ self.old.present.cycle + cycles }
        ensures marks { self.new ≡ at_state self.old self.new.present }

        // The lines are those of each image that differs in one confined module's data alone.
        ensures peers { PeersRun S.taken S.faults S.sure cycles self.old.present sink.old sink.new result }
    {
        isolation::texts();
        let mut events = ArrayVec::new();
        let mut left = cycles;
        while left > 0 {
            if self.is_stopped() {
                return self.ended();
            }
            let cycle = self.machine.cycle;
            self.step(&mut events);
            match put_lines(sink, cycle, events.as_slice()) {
                Ok(()) => {}
                Err(Failed) => return Ran::SinkFailed,
            }
            left -= 1;
            left -= self.pass_idle(left);
        }
        self.ended()
    }

    // Lets at most so many cycles pass in which nothing begins and nothing arrives, and gives how many passed.
    #[inline(always)]
    pub(crate) fn pass_idle(&mut self, most: u64) -> u64
        requires { self.old.present.cycle + most ≤ 2 ^ 62 }
        ensures most { result ≤ most }
        ensures leads { Leads result self.old.present self.new.present }
        ensures missed { NoneMissed result self.old.present self.new.present }
        ensures number { self.new.present.cycle ≤ self.old.present.cycle + result }
        ensures marks { self.new ≡ at_state self.old self.new.present }
    {
        self.machine.pass_idle(most)
    }

    /// Whether it is stopped.
    pub fn is_stopped(&self) -> bool
        ensures { result ≡ is_some self.now.present.stop }
    {
        self.machine.stop.is_some()
    }

    /// How a run ends that leaves this state: `Stopped` where the machine is stopped, else `Done`.
    pub fn ended(&self) -> Ran
        ensures ended { result ≡ ran_of self.now.present.stop }
    {
        match self.machine.stop {
            Some(stop) => Ran::Stopped(stop),
            None => Ran::Done,
        }
    }

    /// The end line, which has at most [`MOST_END_LINE`](crate::MOST_END_LINE) bytes.
    pub fn finish<S: Sink>(&self, sink: &mut S) -> Result<(), Failed>
        ensures line { Puts S.taken S.faults S.sure sink.old sink.new (end_line_of self.now.present) result }
        ensures few { length (end_line_of self.now.present) ≤ MOST_END_LINE }

        // It is that of each image that differs in one confined module's data alone.
        ensures peers { PeersEnd S.taken S.faults S.sure self.now.present sink.old sink.new result }
    {
        isolation::texts();
        let mut line = ArrayString::new();
        tracer::end_line(self.machine.cycle, &self.end_state(), &mut line);
        put_all(sink, line.as_str().as_bytes())
    }

    // How it stands at the end of a run.
    fn end_state(&self) -> EndState
        ensures { result ≡ end_by self.now.present.stop self.now.present.active self.now.present.core }
    {
        match (self.machine.stop, self.machine.active) {
            (Some(_), _) => EndState::Stopped,
            (None, Some(id)) => EndState::Inside(id),
            (None, None) => EndState::Outside(self.machine.core),
        }
    }

    /// The view of the machine that leaves these modules hidden.
    pub fn view(&self, hidden: Hidden) -> View<'_>
        ensures shown { result ≡ record { state = self.now.present; hidden = hidden } }

        // Images that differ in the data of the one hidden, confined module alone show the same.
        ensures peers { PeersShow result }
    {
        isolation::two_runs();
        View::new(&self.machine, hidden)
    }

    /// Whether the outside is about to begin the instruction at `addr`: no module is active, no cycle of an
    /// instruction is left, no module is to go on, and PC is `addr`.
    pub fn stands_at(&self, addr: u16) -> bool
        ensures stands { result ≡ stands_at addr self.now.present }
    {
        self.machine.stands_at(addr)
    }
}

/// Puts the lines of a cycle's events.
// (inlined: most cycles have none)
#[inline(always)]
pub fn put_lines<S: Sink>(sink: &mut S, cycle: u64, events: &[Event]) -> Result<(), Failed>
    ensures { Puts S.taken S.faults S.sure sink.old sink.new (event_lines cycle events.now) result }
{
    for event in events {
        let mut line = ArrayString::new();
        tracer::line(cycle, event, &mut line);
        match put_all(sink, line.as_str().as_bytes()) {
            Ok(()) => {}
            Err(Failed) => return Err(Failed),
        }
    }
    Ok(())
}
