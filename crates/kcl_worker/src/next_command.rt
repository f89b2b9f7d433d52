//! Chooses a worker's next command. A worker works in rounds. The parts of a round are, in this order: a survey, the
//! sync plan, the take plan, the renewals that are due, and a command of each consumer. A consumer processes the shard
//! of one lease. A survey lists the shards and scans the lease table. The sync plan makes and removes rows of the lease
//! table, and the take plan takes leases. A part with nothing left to do is skipped.
ghost use Rattle.std.specs.Prelude.{◌≡◌, ◌≤◌, List, Some, IfNone, IfSome, IsSome};
ghost use Rattle.std.specs.List.{AllByRecursion};
ghost use Rattle.kds_defs.specs.declared.command.Command.TheVariants as command;
ghost use Rattle.kcl_defs.specs.declared.plans.SyncStep.{SyncStep};
ghost use Rattle.kcl_defs.specs.declared.plans.TakeStep.{TakeStep};
ghost use Rattle.kcl_defs.specs.Workers.{from_consumers, from_renewals, from_sync, from_takes, sync_command};
ghost use Rattle.kcl_worker.specs.Outlook.{HasNoChore, IsLeaseCommand, IsNext, IsNextOfAny, IsReady, chore_at_stop};
ghost use Rattle.kcl_worker.specs.Outlook.{chore_in};
ghost use Rattle.kcl_worker.specs.Parts.{chore_of};

use crate::round::{Awaited, Part};
use kcl_consumer::{Consumer, Processor};
use kcl_defs::{Held, SyncStep, TakeStep, TenancyId, WorkerMade};
use kcl_worker_lists::consumers::{first_giving, first_past, id_of};
use kcl_worker_lists::leases::{counter_of, next_due};
use kds_base::Moment;
use kds_defs::Command;

/// Returns the next command of the first consumer whose lease comes after the lease `last`. If there is no such
/// consumer, returns a survey, which begins the next round.
pub fn from_consumers<P: Processor>(
    consumers: &[Consumer<P>],
    held: &[Held],
    last: Option<TenancyId>,
) -> (Awaited, Command)
    requires { AllByRecursion IsReady consumers.now }
    ensures next { IsNextOfAny P.stands_for consumers.now held.now (λ s. Some (from_consumers last s)) result }
    ensures lawful { IsLeaseCommand result.1 }
    ensures asks { (syncs : List SyncStep) (takes : List TakeStep) → IsSome (chore_of result.0 syncs takes) }
{
    match first_past(consumers, &last) {
        Some(c) => {
            let id = id_of(c);
            (Awaited::Consume(id), c.next(counter_of(held, &id)))
        }
        None => (Awaited::Survey, Command::Survey),
    }
}

/// Returns the command that renews the lease `h`.
fn renewal_of(h: &Held) -> Command
    ensures command { result ≡ command.Renew h.now.tenure h.now.counter }
    ensures lawful { IsLeaseCommand result }
{
    Command::Renew {
        tenure: h.tenure,
        counter: h.counter,
    }
}

/// Returns the command that renews the first lease after the lease `last` that is due for renewal. If there is no such
/// lease, the round goes on to its next part (the consumers), and the next command of that part is returned.
pub fn from_renewals<P: Processor>(
    consumers: &[Consumer<P>],
    held: &[Held],
    last: Option<TenancyId>,
    now: Moment,
    failover: u64,
) -> (Awaited, Command)
    requires { AllByRecursion IsReady consumers.now }
    ensures next { IsNextOfAny P.stands_for consumers.now held.now (λ s. Some (from_renewals failover now last s))
        result }
    ensures lawful { IsLeaseCommand result.1 }
    ensures asks { (syncs : List SyncStep) (takes : List TakeStep) → IsSome (chore_of result.0 syncs takes) }
{
    match next_due(held, &last, now, failover) {
        Some(h) => (Awaited::Renew(h), renewal_of(&h)),
        None => from_consumers(consumers, held, None),
    }
}

/// Returns the command for the next step of the take plan. If no step is left, the round goes on to its next part (the
/// renewals), and the next command of that part is returned. Each consumer must be ready: no call of its processor is
/// due, and it isn't over. The worker's name must be at least 1.
pub fn from_takes<P: Processor>(
    made: &WorkerMade,
    takes: &[TakeStep],
    consumers: &[Consumer<P>],
    held: &[Held],
    now: Moment,
) -> (Awaited, Command)
    requires ready { AllByRecursion IsReady consumers.now }
    requires name { 1 ≤ made.now.name }
    ensures next { (syncs : List SyncStep)
        → IsNext P.stands_for consumers.now held.now made.now syncs takes.now
        (λ s. Some (from_takes made.now.settings.failover now takes.now s)) result }
    ensures lawful { IsLeaseCommand result.1 }
    ensures asks { (syncs : List SyncStep) → IsSome (chore_of result.0 syncs takes.now) }
{
    match takes {
        [step, ..] => (
            Awaited::Take,
            Command::Take {
                key: step.key,
                counter: step.counter,
                owner: made.name,
            },
        ),
        [] => from_renewals(consumers, held, None, now, made.settings.failover),
    }
}

/// Returns the command that carries out a step of the sync plan.
fn sync_command(step: &SyncStep) -> Command
    ensures command { result ≡ sync_command step.now }
    ensures lawful { IsLeaseCommand result }
{
    match step {
        SyncStep::Make(key, from) => Command::MakeLease {
            key: *key,
            from: *from,
        },
        SyncStep::Cut(key, counter) => Command::CutLease {
            key: *key,
            counter: *counter,
        },
    }
}

/// Returns the command for the next step of the sync plan. If no step is left, the round goes on to its next part (the
/// take plan), and the next command of that part is returned.
pub fn from_sync<P: Processor>(
    made: &WorkerMade,
    syncs: &[SyncStep],
    takes: &[TakeStep],
    consumers: &[Consumer<P>],
    held: &[Held],
    now: Moment,
) -> (Awaited, Command)
    requires ready { AllByRecursion IsReady consumers.now }
    requires name { 1 ≤ made.now.name }
    ensures next { IsNext P.stands_for consumers.now held.now made.now syncs.now takes.now
        (λ s. Some (from_sync made.now.settings.failover now syncs.now takes.now s)) result }
    ensures lawful { IsLeaseCommand result.1 }
    ensures asks { IsSome (chore_of result.0 syncs.now takes.now) }
{
    match syncs {
        [step, ..] => (Awaited::Sync, sync_command(step)),
        [] => from_takes(made, takes, consumers, held, now),
    }
}

/// Returns the next command of a worker that was stopped. If a consumer still has to report a batch as processed, this
/// is the command Give, with which the first such consumer makes its report. Otherwise it is the command Free, which
/// frees the first lease. If no lease is left either, returns `None`.
pub fn next_while_stopping<P: Processor>(
    consumers: &[Consumer<P>],
    held: &[Held],
) -> Option<(Awaited, Command)>
    ensures none { IfNone result (HasNoChore P.stands_for consumers.now held.now chore_at_stop) }
    ensures some { IfSome result (IsNextOfAny P.stands_for consumers.now held.now chore_at_stop) }
    ensures lawful { IfSome result (λ next. IsLeaseCommand next.1) }
    ensures asks { IfSome result (λ next. (syncs : List SyncStep) (takes : List TakeStep)
        → IsSome (chore_of next.0 syncs takes)) }
{
    match first_giving(consumers) {
        Some(c) => Some((
            Awaited::Finish(id_of(c)),
            Command::Give { tenure: c.tenure() },
        )),
        None => match held {
            [h, ..] => Some((
                Awaited::Free(*h),
                Command::Free {
                    tenure: h.tenure,
                    counter: h.counter,
                },
            )),
            [] => None,
        },
    }
}

/// Returns the next command of a worker that is in the part `part` of its round. Returns `None` if and only if the
/// worker was stopped and nothing is left to do.
pub fn next_in_part<P: Processor>(
    made: &WorkerMade,
    part: Part,
    syncs: &[SyncStep],
    takes: &[TakeStep],
    consumers: &[Consumer<P>],
    held: &[Held],
    now: Moment,
) -> Option<(Awaited, Command)>
    requires ready { AllByRecursion IsReady consumers.now }
    requires name { 1 ≤ made.now.name }
    ensures none { IfNone result
        (HasNoChore P.stands_for consumers.now held.now (chore_in made.now now part syncs.now takes.now)) }
    ensures some { IfSome result
        (IsNext P.stands_for consumers.now held.now made.now syncs.now takes.now
        (chore_in made.now now part syncs.now takes.now)) }
    ensures lawful { IfSome result (λ next. IsLeaseCommand next.1) }
    ensures asks { IfSome result (λ next. IsSome (chore_of next.0 syncs.now takes.now)) }
{
    match part {
        Part::Survey => Some((Awaited::Survey, Command::Survey)),
        Part::Sync => Some(from_sync(made, syncs, takes, consumers, held, now)),
        Part::Takes => Some(from_takes(made, takes, consumers, held, now)),
        Part::Renewals(last) => Some(from_renewals(
            consumers,
            held,
            last,
            now,
            made.settings.failover,
        )),
        Part::Consumers(last) => Some(from_consumers(consumers, held, last)),
        Part::Stopping => next_while_stopping(consumers, held),
    }
}
