//! A source and a sink that never fail.
ghost use Rattle.std.specs.Prelude.{◌≡◌, ◌≤◌, ◌<◌, length, take, drop, IsOk, None, Some, IfOk};
ghost use Rattle.std.specs.Io.{ReadsAtMost, WritesAtMost};
ghost use Rattle.std.specs.Io.KnownBytes.{ReadConsumes, WriteAppends};
ghost use Rattle.kds_ends.specs.Causes.{HasCause};

use crate::memory_source::copy_front;
use crate::sink::Sink;
use crate::source::{Failed, Source};
use kds_base::Octets;
use std::marker::Model;

/// A source (an input of bytes) that reads bytes in memory and never fails. In contracts, its value is the list of the
/// bytes that are still to be read.
#[derive(Drop)]
pub struct SureSource {
    bytes: Octets,
    next: usize,
}

impl Model for SureSource {
    ghost use Rattle.std.specs.Prelude.{List, ℕ, ◌≤◌, drop, length};

    ghost Value = { List ℕ };

    ghost view = { λ s. drop s.next s.bytes };

    ghost invariant = { λ s. s.next ≤ length s.bytes };
}

impl SureSource {
    /// Returns a source that reads `bytes`.
    pub fn new(bytes: Octets) -> SureSource
        ensures { result ≡ bytes }
    {
        SureSource { bytes, next: 0 }
    }
}

impl Source for SureSource {
    ghost left = { λ s. Some s };

    ghost faults = { λ _. 0 };

    fn read(&mut self, room: &mut [u8]) -> Result<usize, Failed>
        ensures bound { ReadsAtMost result room.new }
        ensures bytes { ReadConsumes (Some self.old) (Some self.new) result room.new }
        ensures cause { HasCause 0 0 result }
        ensures sure { IsOk result }
    {
        let bytes = self.bytes.as_slice();
        let count = copy_front(&bytes[self.next..], room, usize::MAX);
        self.next += count;
        Ok(count)
    }
}

/// A sink (an output of bytes) that accepts all bytes of each write and discards them. Its contract doesn't state the
/// written bytes.
#[derive(Drop)]
pub struct SureSink;

impl SureSink {
    /// Returns a sink that discards all written bytes.
    pub fn new() -> SureSink {
        SureSink
    }
}

impl Sink for SureSink {
    ghost held = { λ _. None };

    ghost faults = { λ _. 0 };

    fn write(&mut self, piece: &[u8]) -> Result<usize, Failed>
        ensures bound { WritesAtMost result piece.now }
        ensures some { IfOk result (λ n. 0 < length piece.now → 0 < n) }
        ensures bytes { WriteAppends None None result piece.now }
        ensures cause { HasCause 0 0 result }
        ensures whole { IfOk result (λ n. n ≡ length piece.now) }
        ensures sure { IsOk result }
    {
        Ok(piece.len())
    }
}
