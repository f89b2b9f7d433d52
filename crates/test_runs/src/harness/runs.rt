//! Makes runs with inputs and outputs in memory.
ghost use Rattle.std.specs.Prelude.{◌<◌};

use crate::harness::left::Left;
use kcl_audit::run_audit;
use kds_base::{Items, Memory, Moment, Octets};
use kds_cli_runs::{run_answer, run_replay};
use kds_ends::{MemClock, MemSink, MemSource};
use std::alloc::Global;

/// The capacity of a run's output, in bytes.
const ROOM: usize = 524_288;

/// The kinds of runs.
#[derive(Clone, Copy)]
pub enum Run {
    /// Runs a schedule and writes its answers.
    Replay,
    /// Runs a schedule and writes its journal.
    Journal,
    /// Audits a journal.
    Audit,
    /// Answers the requests of one connection. The clock always gives the time 1000, in milliseconds.
    Answer,
}

fn numbers(alloc: Global, numbers: &[u64]) -> Result<Items<u64>, Memory> {
    let mut items = Items::new(alloc);
    for number in numbers {
        items.push(*number)?;
    }
    Ok(items)
}

/// Returns a clock that always gives the time 1000, in milliseconds.
fn fixed_clock(alloc: Global) -> Result<MemClock, Memory> {
    let mut moments = Items::new(alloc);
    moments.push(Moment::new(1000).unwrap_or(Moment::start()))?;
    Ok(MemClock::new(moments))
}

/// Makes a run of the kind `run` with the input `bytes`, and returns its result. Input and output are in pieces of
/// `step` bytes. The reads whose numbers are in `reads` and the writes whose numbers are in `writes` fail. Reads and
/// writes are counted from 1.
pub fn run_on(
    alloc: Global,
    run: Run,
    bytes: &[u8],
    step: usize,
    reads: &[u64],
    writes: &[u64],
) -> Result<Left, Memory>
    requires { 0 < step }
{
    let failing = numbers(alloc, reads)?;
    let mut input = MemSource::new(Octets::of(alloc, bytes)?, step, failing);
    let failing = numbers(alloc, writes)?;
    let mut out = MemSink::new(alloc, ROOM, step, failing)?;
    let status = match run {
        Run::Replay => run_replay(alloc, &mut input, &mut out, false),
        Run::Journal => run_replay(alloc, &mut input, &mut out, true),
        Run::Audit => run_audit(alloc, &mut input, &mut out),
        Run::Answer => {
            let mut clock = fixed_clock(alloc)?;
            run_answer(alloc, &mut input, &mut out, &mut clock)
        }
    };
    Left::new(alloc, status, out)
}
