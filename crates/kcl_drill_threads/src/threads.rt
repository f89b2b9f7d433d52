//! Runs the generator and the workers of a drill, which is a self-test, concurrently. The generator makes commands from
//! a number. A hall is a lock around a machine. A turn is one command, and a pass is the right of one thread to make
//! turns of the hall. The generated commands are applied with two passes, the root and the feeder. A member is a worker
//! with a pass of its own.
ghost use Rattle.std.specs.Prelude.{◌≡◌, ◌+◌, ◌*◌, ◌/◌, ◌^◌, ◌<◌, ◌≤◌, [], All, IfErr, OnErr, OnOk};
ghost use Rattle.kcl_live.specs.Members.{IsReady};
ghost use Rattle.kcl_drill_threads.specs.Asking.{IsKept};
ghost use Rattle.kcl_drill_threads.specs.Feeding.{Feeds, HasFed, HasFedSoFar, IsCrowdErr};
ghost use Rattle.kcl_drill.specs.declared.limits.TheConstants.{MEMBER_TURNS, MOST_RECORDS, RECORDS_A_TURN, TICK};
ghost use Rattle.kcl_drill_threads.specs.Running.{HaveEnded, HaveEndedOrNot};

use crate::beside::feed_beside;
use crate::feeding::begin;
use kcl_consumer::{Maker, Processor};
use kcl_drill::{Generator, MEMBER_TURNS, RECORDS_A_TURN, TICK, generate};
use kcl_live::{Gate, Member, run_crew};
use kds_defs::Machine;
use kds_turn::{Hall, Pass, TurnErr};
use std::alloc::Global;
use std::sync::Wait;
use std::thread::Threads;

/// Applies all remaining commands of the generator as turns of the pass `feeder`. Concurrently, runs the worker of each
/// member. `turns` is the number of turns after which a worker is stopped.
fn run_both<M, P, F, G, R>(
    rt: &R,
    hall: &Hall<M>,
    feeder: &mut Pass<M>,
    generator: &mut Generator,
    turns: u64,
    members: &mut [Member<M, P, F, G>],
) -> Result<(), TurnErr>
where
    M: Machine + Send,
    P: Processor + Drop + Send,
    F: Maker<P> + Send,
    G: Gate + Send,
    R: Threads + Wait + Sync,
    requires hall { feeder.old.hall ≡ hall.now.id }
    requires new { feeder.old.own ≡ [] }
    requires ready { All (IsReady P.stands_for hall.now) members.old }
    requires few { turns ≤ MEMBER_TURNS + MOST_RECORDS / RECORDS_A_TURN }
    ensures feeds { Feeds generator.old feeder.old feeder.new result }
    ensures members { HaveEnded P.stands_for turns members.old members.new }
{
    feed_beside(
        rt,
        hall,
        feeder,
        generator,
        &|members: &mut [Member<M, P, F, G>]|
            requires { All (IsReady P.stands_for hall.now) members.now × (3 * turns * TICK < 2 ^ 62) }
            ensures { HaveEnded P.stands_for turns members.entry.now members.exit.now }
        { run_crew(rt, hall, members, turns, TICK) },
        members,
    )
}

/// Runs the threads of a drill. First, the generator's first command is applied as a turn of the pass `root`, and the
/// pass `feeder` learns of this turn from a note (a message between passes). Then the generator's other commands are
/// applied as turns of `feeder`. Concurrently, the worker of each member makes `MEMBER_TURNS + records /
/// RECORDS_A_TURN` turns. The times of these turns are `TICK` milliseconds apart. The worker is then stopped (see
/// Kinesis Client Library, Scheduler). All turns of `root` and of `feeder` are at moment 0. If a thread can't be
/// started, the calling thread does the work of this thread. The error `Memory` means that memory ran out for a
/// generated command or for its turn. The error `Spent` means that the hall has already made the maximum number of
/// turns. The `outcome` of each member states how the run of its worker ended.
pub fn crowd<M, P, F, G, R>(
    rt: &R,
    alloc: Global,
    hall: &Hall<M>,
    root: &mut Pass<M>,
    feeder: &mut Pass<M>,
    members: &mut [Member<M, P, F, G>],
    number: u64,
    records: u64,
) -> Result<(), TurnErr>
where
    M: Machine + Send,
    P: Processor + Drop + Send,
    F: Maker<P> + Send,
    G: Gate + Send,
    R: Threads + Wait + Sync,
    requires hall { (root.old.hall ≡ hall.now.id) × (feeder.old.hall ≡ hall.now.id) }
    requires new { (root.old.own ≡ []) × (feeder.old.own ≡ []) }
    requires ready { All (IsReady P.stands_for hall.now) members.old }
    requires few { records ≤ MOST_RECORDS }

    // The passes `root` and `feeder` keep their numbers, and no other pass is joined into them.
    ensures kept { IsKept root.old root.new × IsKept feeder.old feeder.new }

    // The only turn of `root` is the generator's first command. The turns of `feeder` come after this turn, and are the
    // generator's other commands in their order.
    ensures fed { OnOk result (HasFed number records root.new feeder.new) }
    ensures fed_so_far { OnErr result (HasFedSoFar number records root.new feeder.new) }
    ensures err { IfErr result (IsCrowdErr root.old root.new feeder.new) }

    // Without an error, the worker of each member has run. After an error, there are two possibilities for each member:
    // its worker has run, or the member is unchanged.
    ensures members { OnOk result
        (HaveEnded P.stands_for (MEMBER_TURNS + records / RECORDS_A_TURN) members.old members.new) }
    ensures members_or_not { OnErr result
        (HaveEndedOrNot P.stands_for (MEMBER_TURNS + records / RECORDS_A_TURN) members.old members.new) }
{
    let mut generator = generate(alloc, number, records);
    match begin(rt, hall, root, feeder, &mut generator) {
        Ok(()) => {}
        Err(error) => return Err(error),
    }
    let turns = MEMBER_TURNS + records / RECORDS_A_TURN;
    run_both(rt, hall, feeder, &mut generator, turns, members)
}
