//! Applies the commands of a drill, which is a self-test, while another thread runs a given function. The drill's
//! generator makes the commands from a number. A hall is a lock around a machine. A turn is one command, and a pass is
//! the right of one thread to make turns of the hall. The feeder is the pass with which the generator's commands are
//! applied.
ghost use Rattle.std.specs.Prelude.{◌≡◌, []};
ghost use Rattle.kcl_drill_threads.specs.Beside.{Accepts, Leaves};
ghost use Rattle.kcl_drill_threads.specs.Feeding.{Feeds};

use crate::feeding::feed;
use kcl_drill::Generator;
use kds_defs::Machine;
use kds_turn::{Hall, Pass, TurnErr};
use std::sync::Wait;
use std::thread::{Threads, join_mut};

/// Calls `run` with `items`.
fn run_over<T, V: Fn(&mut [T])>(run: &V, items: &mut [T])
    requires { Accepts V.Fn run.now items.old }
    ensures { Leaves V.Fn run.now items.old items.new }
{
    run(items);
}

/// Applies all remaining commands of the generator as turns of the pass `feeder`, in a thread of its own, while the
/// calling thread calls `run` with `items`. If no thread can be started, the calling thread does the work of both
/// threads. The error `Memory` means that memory ran out for a command or for its turn. The error `Spent` means that
/// the hall has already made the maximum number of turns.
pub(crate) fn feed_beside<M, T, V, R>(
    rt: &R,
    hall: &Hall<M>,
    feeder: &mut Pass<M>,
    generator: &mut Generator,
    run: &V,
    items: &mut [T],
) -> Result<(), TurnErr>
where
    M: Machine + Send,
    V: Fn(&mut [T]),
    R: Threads + Wait + Sync,
    requires hall { feeder.old.hall ≡ hall.now.id }
    requires new { feeder.old.own ≡ [] }
    requires accepts { Accepts V.Fn run.now items.old }
    ensures feeds { Feeds generator.old feeder.old feeder.new result }
    ensures leaves { Leaves V.Fn run.now items.old items.new }
{
    let mut feeding = || -> Result<(), TurnErr>
        requires { (feeder.now.hall ≡ hall.now.id) × (feeder.now.own ≡ []) }
        ensures { Feeds generator.entry.now feeder.entry.now feeder.exit.now result }
    { feed(rt, hall, feeder, generator) };
    let mut running = ||
        requires { Accepts V.Fn run.now items.now }
        ensures { Leaves V.Fn run.entry.now items.entry.now items.exit.now }
    { run_over(run, items) };
    let (fed, ()) = join_mut(rt, &mut feeding, &mut running);
    fed
}
