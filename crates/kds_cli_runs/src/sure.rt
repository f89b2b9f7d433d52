//! Runs a schedule, which is a recorded workload, with an input and an output that never fail.
ghost use Rattle.std.specs.Prelude.{◌≡◌};
ghost use Rattle.kds_cli_runs.specs.Completed.{ReplaysAs};

use crate::runs::run_replay;
use kds_base::Octets;
use kds_ends::{Status, SureSink, SureSource};
use std::alloc::Global;

/// Runs the schedule `bytes`, with the answers or the journal as its output, and drops the output. If memory doesn't
/// run out, the bytes determine whether the status is Done, BadLine or TooLong.
pub fn replay_surely(alloc: Global, bytes: Octets, journal: bool) -> Status
    ensures { ReplaysAs bytes result }
{
    run_replay(
        alloc,
        &mut SureSource::new(bytes),
        &mut SureSink::new(),
        journal,
    )
}
