//! Computes a worker's notes, leases and plans after a survey. A survey lists the shards, and the rows of the lease
//! table. A row is the item of a lease; it names the tenure that holds the lease, if any. A tenure is one worker's hold
//! on a lease.
ghost use Rattle.std.specs.Prelude.{◌≡◌, IfOk, true};
ghost use Rattle.std.specs.List.{filter};
ghost use Rattle.kcl_defs.specs.Plans.{AreRising, keys_of};
ghost use Rattle.kcl_defs.specs.Workers.{still_stands};
ghost use Rattle.kcl_worker_lists.specs.Planning.{IsPlanned, IsPlannedAfter, lost_of, is_among};

use crate::leases::{id_of_held, same_id};
use crate::search::row_of;
use kcl_defs::{Held, SyncStep, TakeStep, TenancyId, WorkerMade, are_rising};
use kcl_take::Observed;
use kds_base::{Items, Memory, Moment, ShardRef};
use kds_defs::{Answer, Reply, Row};
use std::alloc::Global;

/// A worker's state after a survey: its notes on the rows, the leases that it still holds, the leases that it has lost,
/// its sync plan (the rows to make and to remove), and its take plan (the leases to take). The notes say when the
/// worker first saw the present counter of each row.
#[derive(Drop)]
pub struct Planned {
    pub observed: Observed,
    pub held: Vec<Held>,
    /// The leases that the worker has lost: the lease's row was removed, or no longer names the lease's tenure.
    pub lost: Vec<Held>,
    pub syncs: Items<SyncStep>,
    pub takes: Items<TakeStep>,
}

/// Whether the worker still holds the lease `h`: the lease's row is in `rows` and names the lease's tenure. If the keys
/// of the rows rise, `rising` may say so.
fn still_stands(rows: &[Row], h: &Held, rising: bool) -> bool
    requires { rising ≡ true → AreRising (keys_of rows.now) }
    ensures { result ≡ still_stands rows.now h.now }
{
    match row_of(rows, &h.key, rising) {
        Some(r) => r.tenure == h.tenure,
        None => false,
    }
}

/// Returns the leases in `held` that the worker still holds: the lease's row is in `rows` and names the lease's tenure.
fn still_held(alloc: Global, rows: &[Row], held: &[Held]) -> Result<Vec<Held>, Memory>
    ensures { IfOk result (λ kept. kept.items ≡ filter (still_stands rows.now) held.now) }
{
    let rising = are_rising(rows);
    let mut kept = Vec::new(alloc);
    for h in held {
        if still_stands(rows, h, rising) {
            kept.push(*h)?;
        }
    }
    Ok(kept)
}

/// Returns the leases in `held` that the worker has lost: the lease's row isn't in `rows`, or doesn't name the lease's
/// tenure.
fn lost_of(alloc: Global, rows: &[Row], held: &[Held]) -> Result<Vec<Held>, Memory>
    ensures { IfOk result (λ lost. lost.items ≡ lost_of rows.now held.now) }
{
    let rising = are_rising(rows);
    let mut lost = Vec::new(alloc);
    for h in held {
        if !still_stands(rows, h, rising) {
            lost.push(*h)?;
        }
    }
    Ok(lost)
}

/// Whether the lease `id` is in the list `held`.
pub fn is_among(held: &[Held], id: &TenancyId) -> bool
    ensures { result ≡ is_among held.now id.now }
{
    for h in held {
        if same_id(&id_of_held(h), id) {
            return true;
        }
    }
    false
}

/// Computes a worker's notes, leases and plans after a survey, which listed `shards` and `rows`. The worker's notes
/// before the survey are `observed`, and its leases are `held`. The error means out of memory.
pub fn plans_from_survey(
    alloc: Global,
    made: &WorkerMade,
    observed: &Observed,
    held: &[Held],
    shards: &[ShardRef],
    rows: &[Row],
    now: Moment,
) -> Result<Planned, Memory>
    ensures { IfOk result (λ p. IsPlanned made.now observed.now held.now shards.now rows.now now p) }
{
    let observed = observed.with_rows(alloc, rows, now)?;
    let lost = lost_of(alloc, rows, held)?;
    let held = still_held(alloc, rows, held)?;
    let syncs = kcl_sync::plan(alloc, shards, rows, made.settings.from)?;
    let takes = kcl_take::plan(
        alloc,
        rows,
        &observed,
        made.name,
        held.as_slice(),
        now,
        made.settings.failover,
    )?;
    Ok(Planned {
        observed,
        held,
        lost,
        syncs,
        takes,
    })
}

/// Computes a worker's notes, leases and plans after `answer`, the answer to its survey. The inner `None` means that
/// `answer` isn't the reply to a survey. The error means out of memory.
pub fn plan_after(
    alloc: Global,
    made: &WorkerMade,
    observed: &Observed,
    held: &[Held],
    now: Moment,
    answer: &Answer,
) -> Result<Option<Planned>, Memory>
    ensures { IfOk result (λ o. IsPlannedAfter made.now observed.now held.now now answer.now o) }
{
    match answer {
        Ok(reply) => match reply {
            Reply::Survey { shards, rows } => {
                let planned = plans_from_survey(
                    alloc,
                    made,
                    observed,
                    held,
                    shards.as_slice(),
                    rows.as_slice(),
                    now,
                )?;
                Ok(Some(planned))
            }
            _ => Ok(None),
        },
        Err(_) => Ok(None),
    }
}
