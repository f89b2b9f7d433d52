//! The state of reading an input that arrives in pieces. A piece is the bytes that one read returns.
ghost use Rattle.std.specs.Prelude.{◌≡◌, ℕ, List, [], ◌≤◌, ◌<◌, ◌+◌, length, OnOk, OnErr};
ghost use Rattle.std.specs.declared.option.Option.{Option};
ghost use Rattle.kds_defs.specs.declared.limits.TheConstants.{LINE_BYTES, INPUT_BYTES};
ghost use Rattle.kds_ends.specs.Causes.{HasCause};
ghost use Rattle.kds_lines.specs.Writing.{LosesRest, WritesOn};

use crate::sizes::OUTPUT_BYTES;
use kds_base::Octets;
use kds_ends::{Failed, Sink, write_all};
use std::alloc::Global;

/// The state of reading an input: the bytes of the line whose line feed hasn't arrived yet (`held`), and the pending
/// output, which waits to be written (`output`).
#[derive(Drop)]
pub struct LineBuffer {
    pub held: Octets,
    pub output: Octets,
    /// The number of lines whose line feed has arrived so far.
    pub count: u64,
    /// The number of bytes of the completed lines, including their line feeds.
    pub used: u64,
    ghost short: { length held ≤ LINE_BYTES },
    ghost within: { used + length held ≤ INPUT_BYTES },
    ghost counted: { count ≤ used },
}

impl LineBuffer {
    /// Returns the state before the first piece of the input is read.
    pub fn new(alloc: Global) -> LineBuffer
        ensures held { result.held ≡ [] }
        ensures output { result.output ≡ [] }
        ensures count { result.count ≡ 0 }
        ensures used { result.used ≡ 0 }
    {
        LineBuffer {
            held: Octets::new(alloc),
            output: Octets::new(alloc),
            count: 0,
            used: 0,
        }
    }

    /// Writes the pending output to `out`. Afterwards no output is pending, even if the write fails: the unwritten rest
    /// of the output is then lost.
    pub fn flush<K: Sink>(&mut self, out: &mut K) -> Result<(), Failed>
        ensures held { self.new.held ≡ self.old.held }
        ensures output { self.new.output ≡ [] }
        ensures count { self.new.count ≡ self.old.count }
        ensures used { self.new.used ≡ self.old.used }
        ensures ok { OnOk result (WritesOn (K.held out.old) (K.held out.new) self.old.output []) }
        ensures err { OnErr result (LosesRest (K.held out.old) (K.held out.new) self.old.output) }
        ensures cause { HasCause (K.faults out.old) (K.faults out.new) result }
    {
        let written = write_all(out, self.output.as_slice());
        self.output.clear();
        written
    }

    /// Writes the pending output to `out` if it has `OUTPUT_BYTES` bytes or more. Afterwards fewer than `OUTPUT_BYTES`
    /// bytes are pending. If the write fails, the unwritten rest of the output is lost.
    pub fn spill<K: Sink>(&mut self, out: &mut K) -> Result<(), Failed>
        ensures held { self.new.held ≡ self.old.held }
        ensures count { self.new.count ≡ self.old.count }
        ensures used { self.new.used ≡ self.old.used }
        ensures ok { OnOk result (WritesOn (K.held out.old) (K.held out.new) self.old.output self.new.output) }
        ensures err { OnErr result (LosesRest (K.held out.old) (K.held out.new) self.old.output) }
        ensures bounded { OnOk result (length self.new.output < OUTPUT_BYTES) }
        ensures lost { OnErr result (self.new.output ≡ []) }
        ensures cause { HasCause (K.faults out.old) (K.faults out.new) result }
    {
        if self.output.as_slice().len() < OUTPUT_BYTES {
            return Ok(());
        }
        self.flush(out)
    }
}
