//! Laws on the calls that a worker's processors get. A law is a theorem, stated as the contract of an empty function. A
//! tenure is one worker's hold on a lease.
ghost use Rattle.std.specs.Prelude.{◌≡◌, ◌==◌, ℕ, true, false, List, ◌∷◌, Some};
ghost use Rattle.kds_defs.specs.declared.command.Turn.{Turn};
ghost use Rattle.kcl_defs.specs.declared.consumer.WorkerMade.{WorkerMade};
ghost use Rattle.kds_defs.specs.Histories.{journal};
ghost use Rattle.kds_defs.specs.Leases.{TenureState, tenure};
ghost use Rattle.kcl_defs.specs.WorkerLives.{AreOfTenure, AreServed, IsOrderly, IsToldIn};
ghost use Rattle.kcl_defs.specs.Workers.{WorkerPast};
ghost use Rattle.kcl_worker.specs.Standing.{AreServedIn, StandsFor};

use crate::worker::Worker;
use kcl_consumer::{Maker, Processor};

/// Consider any worker and any history, which is a list of commands. The worker's record is the list of its events, and
/// its actor is the number under which it sends commands. Suppose that the commands of this actor in the history, with
/// their answers, are exactly the commands and answers in the worker's record. Then each processor of the worker is
/// called, in order, with each non-empty batch of its tenure that a Give command in the history reports as processed.
/// The processor is called with at most one further batch. Commands of other actors in the history don't change this.
pub fn service()
    ensures served { (actor : ℕ) (h : List Turn) (made : WorkerMade) (past : WorkerPast)
        → IsOrderly made past → IsToldIn actor h made past → AreServed actor h made past }
    ensures of_tenures { (actor : ℕ) (h : List Turn) (t : ℕ) (T : TenureState) → tenure (journal h) t ≡ Some T
        → (T.by == actor) ≡ true → AreOfTenure actor h t T }
    ensures others { (actor : ℕ) (turn : Turn) (h : List Turn) (made : WorkerMade) (past : WorkerPast)
        → (turn.by == actor) ≡ false → IsToldIn actor h made past → IsToldIn actor (turn ∷ h) made past }
{}

/// States the law `service` for the worker `_worker`. Here, the calls of a processor are those in its list of completed
/// calls (see `Processor`).
pub fn served<P: Processor, F: Maker<P>>(_worker: &Worker<P, F>)
    ensures { (actor : ℕ) (h : List Turn) (past : WorkerPast) → StandsFor P.stands_for _worker.now past
        → IsToldIn actor h _worker.now.made past → AreServedIn P.stands_for actor h _worker.now }
{}
