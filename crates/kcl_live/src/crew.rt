//! Runs workers concurrently, each in a thread of its own. A hall is a machine with a lock around it, and a turn is one
//! command, applied atomically to the machine. A pass is the right of one thread to make turns of a hall. Each command
//! of a worker becomes a turn. A gate is a hook around processor calls.
ghost use Rattle.std.specs.Prelude.{◌*◌, ◌<◌, ◌^◌, ℕ, All, length, slice_index_or};
ghost use Rattle.kcl_live.specs.Members.{HasEnded, IsReady};

use crate::driver::run_worker;
use crate::gate::Gate;
use kcl_consumer::{Maker, Processor};
use kcl_worker::Worker;
use kds_defs::Machine;
use kds_turn::{Hall, Pass, TurnErr};
use std::sync::Wait;
use std::thread::{Threads, for_each_mut};

/// A worker with its pass, its gate, and the outcome of its run.
#[derive(Drop)]
pub struct Member<M, P: Processor, F: Maker<P>, G> {
    pub pass: Pass<M>,
    pub worker: Worker<P, F>,
    pub gate: G,
    pub outcome: Result<(), TurnErr>,
}

/// Runs the worker of one member, and stores the outcome in the member.
fn run_member<M: Machine, P: Processor + Drop, F: Maker<P>, G: Gate, R: Wait>(
    rt: &R,
    hall: &Hall<M>,
    member: &mut Member<M, P, F, G>,
    turns: u64,
    tick: u64,
)
    requires ready { IsReady P.stands_for hall.now member.old }
    requires moments { 3 * turns * tick < 2 ^ 62 }
    ensures { HasEnded P.stands_for turns tick member.old member.new }
{
    member.outcome = run_worker(
        rt,
        hall,
        &mut member.pass,
        &mut member.worker,
        &mut member.gate,
        turns,
        tick,
    );
}

/// Runs the workers of all members concurrently with `run_worker`, each in a thread of its own. If a thread can't be
/// started for a worker, the calling thread runs this worker itself. Each member's `outcome` then states how the run of
/// its worker ended.
pub fn run_crew<M, P, F, G, R>(
    rt: &R,
    hall: &Hall<M>,
    members: &mut [Member<M, P, F, G>],
    turns: u64,
    tick: u64,
)
where
    M: Machine + Send,
    P: Processor + Drop + Send,
    F: Maker<P> + Send,
    G: Gate + Send,
    R: Threads + Wait + Sync,
    requires ready { All (IsReady P.stands_for hall.now) members.old }
    requires moments { 3 * turns * tick < 2 ^ 62 }
    ensures { (i : ℕ) (m : _) → i < length members.old
        → HasEnded P.stands_for turns tick (slice_index_or members.old i m) (slice_index_or members.new i m) }
{
    let count = members.len();
    if count > 0 {
        for_each_mut(
            rt,
            members,
            count,
            &|_, member: &mut Member<M, P, F, G>|
                requires { IsReady P.stands_for hall.now member.now × (3 * turns * tick < 2 ^ 62) }
                ensures { HasEnded P.stands_for turns tick member.entry.now member.exit.now }
            { run_member(rt, hall, member, turns, tick) },
        );
    }
}
