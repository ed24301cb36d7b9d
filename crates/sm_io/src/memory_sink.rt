// A sink in memory, of fixed room, some of whose puts fail by a list.
ghost use Rattle.std.specs.Prelude.{◌≡◌, ◌<◌, ◌≤◌, ◌+◌, ◌∷◌, ◌++◌, [], Some, false, length, is_err, IfOk, IsOk, OkIff, OnOk, OnErr};
ghost use Rattle.std.specs.Io.KnownBytes.{WriteAppends};
ghost use Rattle.std.proofs.Common.{arith};
ghost use Rattle.sm_io.specs.Faults.{HasCause, counted};
ghost use Rattle.sm_io.specs.MemorySink.{sure_room, fitting, put_fails, sink_after};

use crate::{Failed, NoMemory, Sink};
use std::alloc::Global;
use std::marker::Model;

/// A sink in memory. It takes bytes as long as there is room, but for the calls of `put` that are
/// listed to fail.
#[derive(Drop)]
pub struct MemSink {
    bytes: Vec<u8>,
    room: usize,
    failing: Vec<u64>,
    calls: u64,
    faults: u64,
}

impl Model for MemSink {
    ghost use Rattle.std.specs.Prelude.{◌≤◌, vec_len};
    ghost use Rattle.std.specs.Vec.{vec_capacity};
    ghost use Rattle.sm_io.specs.MemorySink.{MemorySink};

    ghost Value = { MemorySink };

    ghost view = { λ m. record {
      taken = m.bytes.items;
      room = m.room;
      failing = m.failing.items;
      calls = m.calls;
      faults = m.faults;
    } };

    ghost invariant = { λ m. (vec_len m.bytes ≤ m.room) × (m.room ≤ vec_capacity m.bytes) };
}

impl MemSink {
    /// An empty sink with room for `room` bytes, and no call that is to fail.
    pub fn new(alloc: Global, room: usize) -> Result<MemSink, NoMemory>
        ensures empty { IfOk result (λ sink. sink ≡ record { taken = []; room = room; failing = []; calls = 0; faults = 0 }) }
    {
        Ok(MemSink {
            bytes: Vec::with_capacity(alloc, room)?,
            room,
            failing: Vec::new(alloc),
            calls: 0,
            faults: 0,
        })
    }

    /// Lists a call of `put`, by its number from 0, that is to fail.
    pub fn fail_at(&mut self, call: u64) -> Result<(), NoMemory>
        ensures ok { OnOk result (self.new ≡ record self.old { failing = self.old.failing ++ call ∷ [] }) }
        ensures err { OnErr result (self.new ≡ self.old) }
    {
        self.failing.push(call)?;
        Ok(())
    }

    /// The bytes taken.
    pub fn taken(&self) -> &[u8]
        ensures bytes { result.now ≡ self.now.taken }
    {
        &self.bytes
    }
}

impl Sink for MemSink {
    ghost taken = { λ m. Some m.taken };

    ghost faults = { λ m. counted m.faults };

    ghost sure = { λ m. sure_room m m.failing };

    ghost counter = { λ m. Prim.omega arith };

    fn put(&mut self, piece: &[u8]) -> Result<usize, Failed>
        ensures answer { OkIff result (put_fails self.old piece.now ≡ false) (fitting self.old piece.now) }
        ensures state { self.new ≡ sink_after self.old piece.now }

        ensures bound { IfOk result (λ n. n ≤ length piece.now) }
        ensures some { IfOk result (λ n. 0 < length piece.now → 0 < n) }
        ensures empty { piece.now ≡ [] → result ≡ Ok 0 }
        ensures bytes { WriteAppends (Some self.old.taken) (Some self.new.taken) result piece.now }
        ensures cause { HasCause (counted self.old.faults) (counted self.new.faults) (is_err result) }
        ensures never_fails { 0 < sure_room self.old self.old.failing → IsOk result }
        ensures still_sure { IfOk result (λ n. sure_room self.old self.old.failing ≤ sure_room self.new self.new.failing + n) }
    {
        let call = self.calls;
        self.calls = self.calls.saturating_add(1);
        if piece.is_empty() {
            return Ok(0);
        }
        let room = self.room - self.bytes.len();
        if self.failing.contains(&call) || room == 0 {
            self.faults = self.faults.saturating_add(1);
            return Err(Failed);
        }
        let count = piece.len().min(room);
        self.bytes.extend_from_slice(&piece[..count]).unwrap();
        Ok(count)
    }
}
