//! Workers that wait for one another, which works only if they run concurrently. Each worker has a gate, a hook that is
//! called before each processor call of this worker. Before the worker's first call of a certain kind, the gate waits
//! until another worker has come to its first call of the same kind. A crew is a group of workers on threads.
ghost use Rattle.std.specs.Prelude.{◌≡◌, ◌≤◌, []};
ghost use Rattle.kcl_live.specs.Members.{IsReady};
ghost use Rattle.kcl_proc.specs.Stocks.{StandsFor};

use kcl_defs::{Due, Settings};
use kcl_live::{Gate, Member};
use kcl_proc::{Kind, Stock};
use kcl_worker::Worker;
use kds_base::WorkerNo;
use kds_defs::Machine;
use kds_turn::{Hall, Pass};
use std::alloc::Global;
use std::sync::atomic::{AtomicU64, Ordering};
use std::thread::yield_now;

/// The most times that a gate checks whether the other worker has come to its call.
const LOOKS: u32 = 100_000_000;

/// A gate that waits before its worker's first processor call of the kind `held`, until the other worker has come to
/// its first call of this kind. If the other worker hasn't come after `LOOKS` checks, the gate stops waiting, and
/// `has_met` stays false.
#[derive(Drop)]
pub struct Meeting<'a> {
    held: Due,
    mine: &'a AtomicU64,
    other: &'a AtomicU64,
    pub has_met: bool,
}

impl<'a> Gate for Meeting<'a> {
    fn before(&mut self, _worker: WorkerNo, due: Due) {
        if due != self.held || self.mine.load(Ordering::SeqCst) > 0 {
            return;
        }
        self.mine.store(1, Ordering::SeqCst);
        for _ in 0..LOOKS {
            if self.other.load(Ordering::SeqCst) > 0 {
                self.has_met = true;
                return;
            }
            yield_now();
        }
    }

    fn after(&mut self, _worker: WorkerNo, _due: Due) {}
}

/// Returns a member of a crew. A member consists of a worker whose processors count records, the worker's pass (its
/// right to send commands to the machine), and a gate that waits before the worker's first processor call of the kind
/// `held`.
pub fn member<'a, M: Machine>(
    alloc: Global,
    hall: &Hall<M>,
    name: u32,
    pass: Pass<M>,
    held: Due,
    mine: &'a AtomicU64,
    other: &'a AtomicU64,
) -> Member<M, Stock, Kind, Meeting<'a>>
    requires name { 1 ≤ name }
    requires pass { (pass.hall ≡ hall.now.id) × (pass.own ≡ []) }
    ensures { IsReady StandsFor hall.now result }
{
    Member {
        pass,
        worker: Worker::new(alloc, WorkerNo(name), Settings::usual(), Kind::Tally),
        gate: Meeting {
            held,
            mine,
            other,
            has_met: false,
        },
        outcome: Ok(()),
    }
}
