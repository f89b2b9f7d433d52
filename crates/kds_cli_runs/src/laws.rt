//! Laws about every schedule (recorded workload), and about a task for which memory runs out before anything is read. A
//! law is a theorem about the definitions, stated as the contract of a function that does nothing.
ghost use Rattle.std.specs.Prelude.{◌≡◌, List, ℕ};
ghost use Rattle.std.specs.declared.option.Option.{Option};
ghost use Rattle.kds_defs.specs.declared.command.Turn.{Turn};
ghost use Rattle.kds_defs.specs.Histories.{clock as clock_of, journal as journal_of};
ghost use Rattle.kds_defs.specs.Lawful.{IsHistory};
ghost use Rattle.kds_defs.specs.Safe.{IsSafe};
ghost use Rattle.kds_cli_words.specs.declared.task.Task.{Task};
ghost use Rattle.kcl_sim.specs.Schedule.{history, ran};
ghost use Rattle.kcl_sim.specs.Serving.{AreAllServed};
ghost use Rattle.kds_cli_runs.specs.Answered.{AreHandedOn};
ghost use Rattle.kds_server.specs.Around.{around};
ghost use Rattle.kds_cli_runs.specs.Ends.{Performed};

use kcl_sim::{lawful, served};
use kds_ends::Status;

/// A history is a list of turns, which are commands with their senders and times. A history is lawful if the arguments
/// of all its commands are within their ranges. Its clock is the greatest time of its turns. After every lawful
/// history, the state of the streams and of the leases is safe (`IsSafe`) at the history's clock. Safe means, among
/// other things, that the ranges of a stream's open shards contain each hash key exactly once. It also means the
/// following for each lease. Consider the records from the position at which the lease's reading began up to the
/// lease's checkpoint. Each of them was delivered (it counts as processed) or is trimmed (it is older than the
/// retention period).
pub fn safety()
    ensures { (h : List Turn) → IsHistory h → IsSafe (journal_of h) (clock_of h) }
{
    kcl_laws::step();
}

/// A tenure is one worker's hold on a lease. A hand-off passes a lease on to another worker. For every schedule, the
/// state after the schedule's turns is safe at the greatest time of these turns, which is their clock. The processors
/// of the schedule's workers are called for the reads that were delivered in the workers' tenures. If a hand-off ended
/// a tenure by freeing the lease, no later tenure of that lease reads records that were delivered in the ended tenure
/// (see Kinesis Client Library, graceful lease handoff).
pub fn schedules()
    ensures safe { (bytes : List ℕ) → IsSafe (journal_of (history bytes)) (clock_of (history bytes)) }
    ensures served { (bytes : List ℕ) → AreAllServed (ran bytes) }
    ensures handed { (bytes : List ℕ) → AreHandedOn bytes }
{
    lawful();
    safety();
    served();
    kcl_sim::handed_off();
}

/// The contract of every task permits the following end: the status is Memory, nothing was written, and the door, which
/// is a listening socket, doesn't listen. So the contract permits that memory runs out before anything is read.
pub fn memory_may_run_out()
    ensures { (task : Task) (bytes left moments held : Option (List ℕ)) → Performed task Status.Memory
        (record { input = around bytes left; out = around held held; moments = moments; listens = λ port. ⊥ }) }
{
    lawful();
    safety();
    served();
    schedules();
}
