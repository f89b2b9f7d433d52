//! Runs a drill and writes its summary. A drill is a self-test in which workers and a generator of commands share one
//! machine through a hall, which is the lock around the machine.
ghost use Rattle.std.specs.Prelude.{◌≡◌, ◌≤◌, IfOk};
ghost use Rattle.kds_ends.specs.Causes.{Rose};
ghost use Rattle.kcl_drill.specs.declared.limits.TheConstants.{MOST_RECORDS, MOST_WORKERS};
ghost use Rattle.kcl_drill.specs.Summed.{drill_text};
ghost use Rattle.kcl_drill_run.specs.Running.{HasDrilled};
ghost use Rattle.kcl_drill_run.specs.Told.{DrillTells};

use crate::closing::close;
use crate::participants::assemble;
use crate::text::drained_text;
use crate::threads::run_threads;
use kcl_world::World;
use kds_base::{Memory, Octets};
use kds_ends::{Sink, Status, write_all};
use kds_turn::TurnErr;
use std::alloc::Global;
use std::sync::Wait;
use std::thread::Threads;

/// Runs the drill that is generated from `number`, closes the hall, and returns the hall's machine. The error means
/// that memory ran out for the hall, for a command of the generator, for the answer to such a command, or for a worker.
fn drill<R: Threads + Wait + Sync>(
    rt: &R,
    alloc: Global,
    number: u64,
    workers: u32,
    records: u64,
) -> Result<World, Memory>
    requires within { (1 ≤ workers) × (workers ≤ MOST_WORKERS) × (records ≤ MOST_RECORDS) }
    ensures { IfOk result (HasDrilled number records) }
{
    let (hall, mut participants) = assemble(alloc, workers)?;
    let ran = run_threads(rt, alloc, &hall, &mut participants, number, records);
    // The hall is closed even if a thread has failed. The contract of `close` states that there are fewer than 2^32
    // commands, so the error can't be `Spent`, which needs 2^64 - 1 commands.
    let world = close(hall, participants);
    match ran {
        Ok(()) => Ok(world),
        Err(TurnErr::Memory) => Err(Memory),
        Err(TurnErr::Spent) => unreachable!(),
    }
}

/// Runs a drill, reads each shard to its end, and returns the summary as text. The error means out of memory.
fn find_text<R: Threads + Wait + Sync>(
    rt: &R,
    alloc: Global,
    number: u64,
    workers: u32,
    records: u64,
) -> Result<Octets, Memory>
    requires within { (1 ≤ workers) × (workers ≤ MOST_WORKERS) × (records ≤ MOST_RECORDS) }
    ensures { IfOk result (λ text. text ≡ drill_text number records) }
{
    let mut world = drill(rt, alloc, number, workers, records)?;
    drained_text(alloc, &mut world)
}

/// Runs the drill that is generated from `number`, and writes the drill's summary to `out`. `workers` and `records` are
/// the numbers of workers and of records. The summary depends only on `number` and `records`, not on the number of
/// workers or the timing of the threads. `Done` means that the whole text was written, `Write` that the sink failed,
/// and `Memory` that memory ran out before anything was written. The function returns after all its threads have ended.
pub fn run_drill<R: Threads + Wait + Sync, K: Sink>(
    rt: &R,
    alloc: Global,
    number: u64,
    workers: u32,
    records: u64,
    out: &mut K,
) -> Status
    requires within { (1 ≤ workers) × (workers ≤ MOST_WORKERS) × (records ≤ MOST_RECORDS) }
    ensures told { DrillTells result number records (K.held out.old) (K.held out.new) }
    ensures write { result ≡ Status.Write → Rose (K.faults out.old) (K.faults out.new) }
{
    match find_text(rt, alloc, number, workers, records) {
        Ok(text) => match write_all(out, text.as_slice()) {
            Ok(()) => Status::Done,
            Err(_) => Status::Write,
        },
        Err(_) => Status::Memory,
    }
}
