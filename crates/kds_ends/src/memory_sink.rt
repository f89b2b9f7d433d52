//! A sink that keeps a bounded number of bytes in memory.
ghost use Rattle.std.specs.Prelude.{◌≡◌, [], ◌≤◌, ◌<◌, ◌↔◌, ◌⊎◌, ◌+◌, ◌^◌, List, ℕ, length, drop, Some, Contains};
ghost use Rattle.std.specs.Prelude.{IsErr, IfOk, min};
ghost use Rattle.std.specs.Io.{WritesAtMost};
ghost use Rattle.std.specs.Io.KnownBytes.{WriteAppends};
ghost use Rattle.kds_ends.specs.Causes.{HasCause};

use crate::sink::Sink;
use crate::source::Failed;
use kds_base::{Items, Memory};
use std::alloc::Global;
use std::marker::Model;

/// A sink (an output of bytes) that keeps at most `room` bytes. The memory for these bytes is allocated when the sink
/// is made. One call of `write` writes at most `step` bytes. The calls are numbered from 1. A call fails if its number
/// is in `failing`. A call also fails if the sink is full and the bytes to be written aren't empty.
#[derive(Drop)]
pub struct MemSink {
    held: Vec<u8>,
    room: usize,
    step: usize,
    failing: Items<u64>,
    calls: u64,
    faults: u64,
}

impl Model for MemSink {
    ghost use Rattle.std.specs.Prelude.{◌≤◌, ◌<◌, length, vec_len, vec_capacity};
    ghost use Rattle.kds_ends.specs.Memory.{SinkState};

    ghost Value = { SinkState };

    ghost view = { λ s. record {
      held = s.held.items;
      room = s.room;
      step = s.step;
      failing = s.failing;
      calls = s.calls;
      faults = s.faults;
    } };

    ghost invariant = { λ s. (vec_len s.held ≤ s.room) × (s.room ≤ vec_capacity s.held) × (0 < s.step) };
}

impl MemSink {
    /// Returns an empty sink for at most `room` bytes. One call of `write` writes at most `step` bytes. A call fails if
    /// its number, counted from 1, is in `failing`. Precondition: `step` is at least 1. The error means that memory ran
    /// out.
    pub fn new(
        alloc: Global,
        room: usize,
        step: usize,
        failing: Items<u64>,
    ) -> Result<MemSink, Memory>
        requires { 0 < step }
        ensures { IfOk result (λ s. s ≡ record {
          held = [];
          room = room;
          step = step;
          failing = failing;
          calls = 0;
          faults = 0;
        }) }
    {
        Ok(MemSink {
            held: Vec::with_capacity(alloc, room)?,
            room,
            step,
            failing,
            calls: 0,
            faults: 0,
        })
    }

    /// Returns all bytes that were written to the sink.
    pub fn held(&self) -> &[u8]
        ensures { result.now ≡ self.now.held }
    {
        self.held.as_slice()
    }
}

impl Sink for MemSink {
    ghost use Rattle.kds_ends.specs.Memory.{SinkCallsOnce, HasNoRoom};

    ghost held = { λ s. Some s.held };

    ghost faults = { λ s. s.faults };

    fn write(&mut self, piece: &[u8]) -> Result<usize, Failed>
        ensures bound { WritesAtMost result piece.now }
        ensures some { IfOk result (λ n. 0 < length piece.now → 0 < n) }
        ensures step { IfOk result (λ n. n ≤ self.old.step) }
        ensures bytes { WriteAppends (Some self.old.held) (Some self.new.held) result piece.now }
        ensures cause { HasCause self.old.faults self.new.faults result }
        ensures listed { IsErr result ↔ (Contains self.old.failing self.new.calls ⊎ HasNoRoom self.old piece.now) }
        ensures call { SinkCallsOnce self.old self.new }
    {
        self.calls = self.calls.saturating_add(1);
        let count = (self.room - self.held.len())
            .min(piece.len())
            .min(self.step);
        if self.failing.as_slice().contains(&self.calls) || (count == 0 && !piece.is_empty()) {
            self.faults = self.faults.saturating_add(1);
            return Err(Failed);
        }
        match self.held.extend_from_slice(&piece[..count]) {
            Ok(()) => Ok(count),
            Err(_) => unreachable!(),
        }
    }
}
