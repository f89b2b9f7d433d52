//! The parts of a worker's round. They are, in this order: a survey, the sync plan, the take plan, the renewals that
//! are due, and a command of each consumer. A survey lists the shards and scans the lease table. The sync plan makes
//! and removes rows of the lease table, and the take plan takes leases.
ghost use Rattle.std.specs.Prelude.{◌≡◌, List};
ghost use Rattle.kcl_defs.specs.declared.plans.SyncStep.{SyncStep};
ghost use Rattle.kcl_defs.specs.declared.plans.TakeStep.{TakeStep};
ghost use Rattle.kcl_defs.specs.Workers.{is_stopping};
ghost use Rattle.kcl_worker.specs.Parts.{round_of};

use kcl_defs::{Held, TenancyId};

/// The part of the round that a worker is in. In `Renewals` and `Consumers`, the `TenancyId` is that of the last lease
/// that this part has handled, if any. `Stopping` means that the worker was stopped.
#[derive(Clone, Copy, Debug, PartialEq, Eq)]
pub enum Part {
    Survey,
    Sync,
    Takes,
    Renewals(Option<TenancyId>),
    Consumers(Option<TenancyId>),
    Stopping,
}

/// The purpose of the command whose answer the worker awaits. `Nothing` means that the worker awaits no answer.
#[derive(Clone, Copy, Debug, PartialEq, Eq)]
pub enum Awaited {
    Nothing,
    Survey,
    Sync,
    Take,
    Renew(Held),
    Consume(TenancyId),
    Finish(TenancyId),
    Free(Held),
}

/// Whether a worker that is in the part `part` of its round was stopped.
pub fn is_stopping(part: Part) -> bool
    ensures { (syncs : List SyncStep) (takes : List TakeStep) → result ≡ is_stopping (round_of part syncs takes) }
{
    match part {
        Part::Stopping => true,
        _ => false,
    }
}
