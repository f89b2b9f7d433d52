//! A source that reads bytes in memory.
ghost use Rattle.std.specs.Prelude.{◌≡◌, ◌≤◌, ◌<◌, ◌↔◌, ◌+◌, ◌^◌, List, ℕ, length, take, drop, Some, Contains, IsErr};
ghost use Rattle.std.specs.Prelude.{IfOk, min};
ghost use Rattle.std.specs.Io.{ReadsAtMost};
ghost use Rattle.std.specs.Io.KnownBytes.{ReadConsumes};
ghost use Rattle.kds_ends.specs.Causes.{HasCause};

use crate::source::{Failed, Source};
use kds_base::{Items, Octets};
use std::marker::Model;

/// A source (an input of bytes) that reads bytes in memory. One call of `read` reads at most `step` bytes. A call fails
/// if its number, counted from 1, is in `failing`.
#[derive(Drop)]
pub struct MemSource {
    bytes: Octets,
    step: usize,
    failing: Items<u64>,
    next: usize,
    calls: u64,
    faults: u64,
}

impl Model for MemSource {
    ghost use Rattle.std.specs.Prelude.{◌≤◌, ◌<◌, drop, length};
    ghost use Rattle.kds_ends.specs.Memory.{SourceState};

    ghost Value = { SourceState };

    ghost view = { λ s. record {
      left = drop s.next s.bytes;
      step = s.step;
      failing = s.failing;
      calls = s.calls;
      faults = s.faults;
    } };

    ghost invariant = { λ s. (s.next ≤ length s.bytes) × (0 < s.step) };
}

/// Copies bytes from the front of `bytes` to the front of `room`: as many as both slices allow, but at most `step`
/// bytes. Returns the number of copied bytes.
pub fn copy_front(bytes: &[u8], room: &mut [u8], step: usize) -> usize
    ensures count { result ≡ min (min (length bytes.now) (length room.old)) step }
    ensures copied { take result room.new ≡ take result bytes.now }
    ensures length { length room.new ≡ length room.old }
{
    let count = bytes.len().min(room.len()).min(step);
    room[..count].copy_from_slice(&bytes[..count]);
    count
}

impl MemSource {
    /// Returns a source that reads `bytes`. One call of `read` reads at most `step` bytes. A call fails if its number,
    /// counted from 1, is in `failing`. Precondition: `step` is at least 1.
    pub fn new(bytes: Octets, step: usize, failing: Items<u64>) -> MemSource
        requires { 0 < step }
        ensures { result ≡ record { left = bytes; step = step; failing = failing; calls = 0; faults = 0 } }
    {
        MemSource {
            bytes,
            step,
            failing,
            next: 0,
            calls: 0,
            faults: 0,
        }
    }
}

impl Source for MemSource {
    ghost use Rattle.kds_ends.specs.Memory.{CallsOnce};

    ghost left = { λ s. Some s.left };

    ghost faults = { λ s. s.faults };

    fn read(&mut self, room: &mut [u8]) -> Result<usize, Failed>
        ensures bound { ReadsAtMost result room.new }
        ensures step { IfOk result (λ n. n ≤ self.old.step) }
        ensures bytes { ReadConsumes (Some self.old.left) (Some self.new.left) result room.new }
        ensures cause { HasCause self.old.faults self.new.faults result }
        ensures listed { IsErr result ↔ Contains self.old.failing self.new.calls }
        ensures call { CallsOnce self.old self.new }
    {
        self.calls = self.calls.saturating_add(1);
        if self.failing.as_slice().contains(&self.calls) {
            self.faults = self.faults.saturating_add(1);
            return Err(Failed);
        }
        let bytes = self.bytes.as_slice();
        let count = copy_front(&bytes[self.next..], room, self.step);
        self.next += count;
        Ok(count)
    }
}
