//! Laws of the history of a drill. A drill is a self-test in which two participants, the root and the feeder, send
//! generated commands to a machine, and workers send commands on leases. The history is the list of all these commands
//! with their senders and times. The history is complete once the hall, the lock around the machine, is closed.
ghost use Rattle.std.specs.Prelude.{ℕ, ◌≡◌, ◌++◌, ◌<◌, ◌≤◌, ◌^◌, List, length};
ghost use Rattle.kds_defs.specs.declared.command.Turn.{Turn};
ghost use Rattle.kds_defs.specs.Histories.{clock, journal};
ghost use Rattle.kds_turn.specs.declared.view.Account.{Account};
ghost use Rattle.kds_turn.specs.Passes.{PassValue};
ghost use Rattle.kcl_defs.specs.declared.consumer.WorkerMade.{WorkerMade};
ghost use Rattle.kcl_defs.specs.Workers.{WorkerPast};
ghost use Rattle.kcl_live.specs.Records.{turns_in};
ghost use Rattle.kds_defs.specs.declared.command.Origin.TheVariants as origin;
ghost use Rattle.kcl_drill.specs.Fed.{IsDrill, IsFed};
ghost use Rattle.kcl_drill_summary.specs.Counting.{CanSum};
ghost use Rattle.kcl_drill_laws.specs.Closed.{AreDrillTurns, AreFromHorizon, AreLeased, IsClosed, IsStopped};

use kcl_drill::untrimmed;
use kcl_laws::rows;

/// If all generated commands were sent and all workers ran to their ends, the history of a drill has the generated
/// commands in their order, however the threads were scheduled. All other commands in the history are on leases, and
/// each lease starts at the trim horizon. The latest time in the history is less than 24 hours after moment 0. The
/// history has fewer than 2^32 commands.
pub fn closed()
    ensures fed { (number records : ℕ) (root feeder : PassValue) (members : List Account) (h : List Turn)
        → IsClosed number records root feeder members h → IsFed number records root.by feeder.by h }
    ensures drill { (number records : ℕ) (root feeder : PassValue) (members : List Account) (h : List Turn)
        → IsClosed number records root feeder members h → IsDrill h number records }
    ensures horizon { (number records : ℕ) (root feeder : PassValue) (members : List Account) (h : List Turn)
        → IsClosed number records root feeder members h → AreFromHorizon (journal h) }
    ensures short { (number records : ℕ) (root feeder : PassValue) (members : List Account) (h : List Turn)
        → IsClosed number records root feeder members h → length h < 2 ^ 32 }
{
    kcl_drill::one_order();
    rows()
}

/// The history of a drill has fewer than 2^32 commands, even if some threads of the drill stopped early.
pub fn stopped()
    ensures { (number records : ℕ) (root feeder : PassValue) (members : List Account) (h : List Turn)
        → IsStopped number records root feeder members h → length h < 2 ^ 32 }
{}

/// If a worker's initial position in the stream is the trim horizon, each command by which the worker creates a lease
/// starts that lease at the trim horizon.
pub fn horizon()
    ensures { (actor : ℕ) (made : WorkerMade) (past : WorkerPast) → made.settings.from ≡ origin.TrimHorizon
        → AreDrillTurns (turns_in actor made past) }
{}

/// If commands on leases follow a drill's history, the longer history is again a drill's history, with the same latest
/// time. There are two conditions: the added commands have one sender and one time `at`, and `at` isn't after the
/// latest time in the drill's history.
pub fn drained()
    ensures drill { (number records actor moment : ℕ) (more h : List Turn) → IsDrill h number records → moment ≤ clock h
        → AreLeased actor moment more → IsDrill (more ++ h) number records }
    ensures clock { (actor moment : ℕ) (more h : List Turn) → moment ≤ clock h → AreLeased actor moment more
        → clock (more ++ h) ≡ clock h }
{}

/// After a drill's history, the records of the drill's stream can be counted: the stream exists, and none of its
/// records is trimmed (expired).
pub fn summed()
    ensures { (h : List Turn) (number records : ℕ) → IsDrill h number records → CanSum h (clock h) }
{
    kcl_drill::one_text();
    untrimmed()
}
