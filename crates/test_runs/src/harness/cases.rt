//! The expected results of runs in which one read or one write fails.
ghost use Rattle.std.specs.Prelude.{◌<◌};

use crate::harness::runs::{Run, run_on};
use kds_base::Memory;
use std::alloc::Global;

/// The input of a run, its whole output, and how much of the output is written once a part of the input was read.
#[derive(Drop)]
pub struct Case {
    pub input: &'static str,
    pub out: &'static str,
    /// Pairs of byte counts, in increasing order. A pair (`i`, `o`) says that `o` bytes of the output are written once
    /// `i` bytes of the input have been read.
    pub parts: &'static [(usize, usize)],
}

/// The expected result of a run: the exit status, the length of the output in bytes, and the error output.
pub type Leaves = (u8, usize, &'static str);

/// Returns how many calls transfer `bytes` bytes, if each call but the last transfers `step` bytes.
fn calls(bytes: usize, step: usize) -> usize
    requires { 0 < step }
{
    bytes.div_ceil(step)
}

impl Case {
    /// Returns how many reads a run makes if it reads pieces of `step` bytes. The last read only finds the end of the
    /// input.
    fn reads(&self, step: usize) -> usize
        requires { 0 < step }
    {
        calls(self.input.len(), step).saturating_add(1)
    }

    /// Returns how many writes of `step` bytes the whole output takes.
    fn writes(&self, step: usize) -> usize
        requires { 0 < step }
    {
        calls(self.out.len(), step)
    }

    /// Returns the expected result if `before` reads succeed and the next read fails. If the run makes no further read,
    /// nothing fails.
    fn at_read(&self, step: usize, before: usize) -> Leaves
        requires { 0 < step }
    {
        if before >= self.reads(step) {
            return (0, self.out.len(), "");
        }
        let fed = before.saturating_mul(step).min(self.input.len());
        let mut written = 0;
        for (bytes, out) in self.parts {
            if *bytes <= fed {
                written = *out;
            }
        }
        (4, written, "read fault\n")
    }

    /// Returns the expected result if `before` writes succeed and the next write fails. If the run makes no further
    /// write, nothing fails. Precondition, not checked: the output is written all at once, or byte by byte.
    fn at_write(&self, step: usize, before: usize) -> Leaves
        requires { 0 < step }
    {
        if before >= self.writes(step) {
            return (0, self.out.len(), "");
        }
        let written = before.saturating_mul(step).min(self.out.len());
        (5, written, "write fault\n")
    }

    /// For each read and for each write, makes one run in which this read or write fails. Also makes two runs in which
    /// nothing fails. Input and output are in pieces of `step` bytes. Describes the first run whose result isn't the
    /// expected one. The returned text is empty if all results are as expected.
    pub fn other(&self, alloc: Global, run: Run, step: usize) -> Result<String, Memory>
        requires { 0 < step }
    {
        let bytes = self.input.as_bytes();
        for before in 0..self.reads(step).saturating_add(1) {
            let number = (before as u64).saturating_add(1);
            let left = run_on(alloc, run, bytes, step, &[number], &[])?;
            let other = left.other_leaving(alloc, self.out, self.at_read(step, before))?;
            if !other.is_empty() {
                return Ok(format!(in alloc; "read {number}: {other}")?);
            }
        }
        for before in 0..self.writes(step).saturating_add(1) {
            let number = (before as u64).saturating_add(1);
            let left = run_on(alloc, run, bytes, step, &[], &[number])?;
            let other = left.other_leaving(alloc, self.out, self.at_write(step, before))?;
            if !other.is_empty() {
                return Ok(format!(in alloc; "write {number}: {other}")?);
            }
        }
        Ok(String::new(alloc))
    }
}
