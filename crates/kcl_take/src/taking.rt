//! Chooses the leases that a worker takes. A row is the item of a lease in the lease table, and names the lease's
//! owner, if any. A tenure is one worker's hold on a lease; each tenure has a number. A take plan is a list of steps.
//! Each step takes one lease.
ghost use Rattle.std.specs.Prelude.{◌≡◌, ℕ, ◌+◌, ◌/◌, [], is_some, length, map, not, slice_get, true, IfOk, OnOk};
ghost use Rattle.std.specs.List.{cons_option, count_by, filter, list_any, position};
ghost use Rattle.kds_defs.specs.Leases.{is_end};
ghost use Rattle.kcl_defs.specs.Places.{passes};
ghost use Rattle.kcl_defs.specs.Plans.{AreRising, busier, busiest, candidate, candidates, chosen, expiry, first_step};
ghost use Rattle.kcl_defs.specs.Plans.{is_available, is_key_held, is_mine, is_owned_by, is_held_at, load_of, loads};
ghost use Rattle.kcl_defs.specs.Plans.{others, seen_at, stolen, take_among, take_plan, take_step, target_of};
ghost use Rattle.kcl_defs.specs.Plans.{with_owner, with_worker};
ghost use Rattle.kcl_take.specs.Loads.{AreKnown, load_in};

use crate::observed::Observed;
use kcl_defs::{Held, TakeStep, are_rising, index_of, insertion_index};
use kds_base::{Checkpoint, Items, Memory, Moment, WorkerNo};
use kds_defs::Row;
use std::alloc::Global;
use std::collections::{BTreeMap, BTreeSet};

/// Returns the row as the take plan uses it: a copy, without an owner if the row's lease has expired.
fn candidate(r: &Row, observed: &Observed, now: Moment, failover: u64) -> Row
    ensures { result ≡ candidate (expiry (seen_at observed.now) now failover) r.now }
{
    let mut candidate = *r;
    if observed.expired(r, now, failover) {
        candidate.owner = None;
    }
    candidate
}

/// Whether a worker can take the lease of this row: the row's checkpoint isn't the shard's end.
fn can_be_taken(r: &Row) -> bool
    ensures { result ≡ not (is_end r.now.checkpoint) }
{
    match r.checkpoint {
        Checkpoint::ShardEnd => false,
        _ => true,
    }
}

/// Returns copies of the rows whose leases a worker can take. The copy of an expired row has no owner.
fn candidates(
    alloc: Global,
    rows: &[Row],
    observed: &Observed,
    now: Moment,
    failover: u64,
) -> Result<Vec<Row>, Memory>
    ensures { IfOk result (λ c. c.items ≡ candidates (expiry (seen_at observed.now) now failover) rows.now) }
{
    let mut found = Vec::new(alloc);
    for r in rows {
        if can_be_taken(r) {
            found.push(candidate(r, observed, now, failover))?;
        }
    }
    Ok(found)
}

/// Whether `worker` owns the row.
fn is_owned_by(worker: WorkerNo, r: &Row) -> bool
    ensures { result ≡ is_owned_by worker r.now.owner }
{
    match r.owner {
        Some(owner) => owner == worker,
        None => false,
    }
}

/// Whether the lease `h` has the key and the tenure number of the row.
fn is_held_at(h: &Held, r: &Row) -> bool
    ensures { result ≡ is_held_at r.now h.now }
{
    h.key == r.key && h.tenure == r.tenure
}

/// Returns the index of the first of the worker's leases `held` that has the key and the tenure number of the row, or
/// `None` if there is no such lease.
fn first_mine(held: &[Held], r: &Row) -> Option<usize>
    ensures { result ≡ position (is_held_at r.now) held.now }
{
    held.iter().position(|h| is_held_at(h, r))
}

/// Whether the lease at the index `index` of `held` has the key and the tenure number of the row.
fn is_mine_at(held: &[Held], index: usize, r: &Row) -> bool
    ensures { result ≡ passes (is_held_at r.now) (slice_get held.now index) }
{
    match held.get(index) {
        Some(h) => is_held_at(h, r),
        None => false,
    }
}

/// Returns the index of the lease in `held` that has the key and the tenure number of the row, by binary search, or
/// `None` if there is no such lease. The keys of the leases must rise.
fn search_mine(held: &[Held], r: &Row) -> Option<usize>
    requires { AreRising (map (λ h. h.key) held.now) }
    ensures { is_some result ≡ is_mine held.now r.now }
{
    let index = insertion_index(held, &r.key);
    if is_mine_at(held, index, r) {
        Some(index)
    } else {
        None
    }
}

/// Returns the index of one of the worker's leases `held` that has the key and the tenure number of the row, or `None`
/// if there is no such lease. The lease at the index `hint` is looked at first. If the keys of the leases rise,
/// `rising` may say so; the lease is then found by binary search.
fn mine_index(held: &[Held], r: &Row, hint: usize, rising: bool) -> Option<usize>
    requires { rising ≡ true → AreRising (map (λ h. h.key) held.now) }
    ensures { is_some result ≡ is_mine held.now r.now }
{
    if is_mine_at(held, hint, r) {
        Some(hint)
    } else if rising {
        search_mine(held, r)
    } else {
        first_mine(held, r)
    }
}

/// Whether one of the worker's leases `held` has the key of the row. The tenure numbers may differ. If the keys of the
/// leases rise, `rising` may say so.
fn is_key_held(held: &[Held], r: &Row, rising: bool) -> bool
    requires { rising ≡ true → AreRising (map (λ h. h.key) held.now) }
    ensures { result ≡ list_any (is_key_held r.now) held.now }
{
    index_of(held, &r.key, 0, rising).is_some()
}

/// Whether the worker `me` can take the lease of the row without stealing it. None of the worker's leases `held` may
/// have the row's key, and the row must have no owner or the owner `me`. If the keys of the leases rise, `rising` may
/// say so.
#[tactic(auto, using(crate::proofs::Places::both_ways))]
fn is_available(me: WorkerNo, held: &[Held], r: &Row, rising: bool) -> bool
    requires { rising ≡ true → AreRising (map (λ h. h.key) held.now) }
    ensures { result ≡ is_available me held.now r.now }
{
    (r.owner.is_none() || is_owned_by(me, r)) && !is_key_held(held, r, rising)
}

/// Counts the rows that `worker` owns.
fn load_of(rows: &[Row], worker: WorkerNo) -> usize
    ensures { result ≡ load_of rows.now worker }
{
    rows.iter().filter(|r| is_owned_by(worker, r)).count()
}

/// Counts the rows that have the key and the tenure number of one of the worker's leases `held`. A worker takes leases
/// in the order of the rows, so the lease of a row often stands behind that of the row before.
fn count_mine(rows: &[Row], held: &[Held]) -> usize
    ensures { result ≡ count_by (is_mine held.now) rows.now }
{
    let rising = are_rising(held);
    let mut next = 0;
    let mut count = 0;
    for r in rows {
        if let Some(index) = mine_index(held, r, next, rising) {
            next = index.wrapping_add(1);
            count += 1;
        }
    }
    count
}

/// Adds `worker` to the list `workers`, unless the list has it already. The numbers of the workers in the list are
/// those in `known`.
fn add_worker(
    workers: &mut Vec<WorkerNo>,
    known: &mut BTreeSet<u32>,
    worker: WorkerNo,
) -> Result<(), Memory>
    requires { AreKnown known.old workers.old.items }
    ensures workers { OnOk result (workers.new.items ≡ with_worker worker workers.old.items) }
    ensures known { OnOk result (AreKnown known.new workers.new.items) }
{
    if known.insert(worker.0)? {
        workers.push(worker)?;
    }
    Ok(())
}

/// Adds the row's owner, if any, to the list `workers`, unless the owner is `me` or is already in the list. The numbers
/// of the workers in the list are those in `known`.
fn add_owner(
    workers: &mut Vec<WorkerNo>,
    known: &mut BTreeSet<u32>,
    me: WorkerNo,
    r: &Row,
) -> Result<(), Memory>
    requires { AreKnown known.old workers.old.items }
    ensures workers { OnOk result (workers.new.items ≡ with_owner me r.now.owner workers.old.items) }
    ensures known { OnOk result (AreKnown known.new workers.new.items) }
{
    match r.owner {
        Some(owner) if owner != me => add_worker(workers, known, owner),
        _ => Ok(()),
    }
}

/// Returns the workers other than `me` that own at least one of `rows`, each worker once.
fn others(alloc: Global, me: WorkerNo, rows: &[Row]) -> Result<Vec<WorkerNo>, Memory>
    ensures { IfOk result (λ w. w.items ≡ others me rows.now) }
{
    let mut workers = Vec::new(alloc);
    let mut known = BTreeSet::new(alloc);
    let mut i = rows.len();
    while i > 0 {
        i -= 1;
        add_owner(&mut workers, &mut known, me, &rows[i])?;
    }
    Ok(workers)
}

/// The number of rows that each worker owns. A worker that owns none may be left out.
type Loads = BTreeMap<u32, usize>;

/// Returns the number of rows that each worker owns.
fn loads(alloc: Global, rows: &[Row]) -> Result<Loads, Memory>
    ensures { IfOk result (λ loads. (worker : ℕ) → load_in loads worker ≡ load_of rows.now worker) }
{
    let mut loads = BTreeMap::new(alloc);
    for r in rows {
        if let Some(owner) = r.owner {
            let load = load_in(&loads, owner);
            loads.insert(owner.0, load + 1)?;
        }
    }
    Ok(loads)
}

/// Returns the number of rows that `worker` owns according to `loads`.
fn load_in(loads: &Loads, worker: WorkerNo) -> usize
    ensures { result ≡ load_in loads.now worker }
{
    match loads.get(&worker.0) {
        Some(load) => *load,
        None => 0,
    }
}

/// Returns whichever of `worker` and `other` owns more rows according to `loads`. If both own equally many, returns the
/// worker with the lower worker number. If `other` is `None`, returns `worker`.
fn busier(loads: &Loads, worker: WorkerNo, other: Option<WorkerNo>) -> WorkerNo
    ensures { result ≡ busier (load_in loads.now) worker other }
{
    match other {
        None => worker,
        Some(other) => {
            let load = load_in(loads, worker);
            let least = load_in(loads, other);
            if least < load || (least == load && worker.0 < other.0) {
                worker
            } else {
                other
            }
        }
    }
}

/// Returns the worker in `workers` that owns the most rows according to `loads`, or `None` if the list is empty. Among
/// workers that own equally many rows, it is the worker with the lowest worker number.
fn busiest(loads: &Loads, workers: &[WorkerNo]) -> Option<WorkerNo>
    ensures { result ≡ busiest (load_in loads.now) workers.now }
{
    let mut best = None;
    let mut i = workers.len();
    while i > 0 {
        i -= 1;
        best = Some(busier(loads, workers[i], best));
    }
    best
}

/// Returns the worker in `workers` that owns the most of `rows`, or `None` if the list is empty. Among workers that own
/// equally many rows, it is the worker with the lowest worker number.
fn busiest_of(alloc: Global, rows: &[Row], workers: &[WorkerNo]) -> Result<Option<WorkerNo>, Memory>
    ensures { IfOk result (λ worker. worker ≡ busiest (load_of rows.now) workers.now) }
{
    let loads = loads(alloc, rows)?;
    Ok(busiest(&loads, workers))
}

fn take_step(r: &Row) -> TakeStep
    ensures { result ≡ take_step r.now }
{
    TakeStep {
        key: r.key,
        counter: r.counter,
    }
}

/// Returns those of `rows` whose leases the worker `me` can take without stealing, in the same order.
fn available(alloc: Global, me: WorkerNo, held: &[Held], rows: &[Row]) -> Result<Vec<Row>, Memory>
    ensures { IfOk result (λ found. found.items ≡ filter (is_available me held.now) rows.now) }
{
    let rising = are_rising(held);
    let mut found = Vec::new(alloc);
    for r in rows {
        if is_available(me, held, r, rising) {
            found.push(*r)?;
        }
    }
    Ok(found)
}

/// Returns, for each of `rows`, the step that takes the row's lease, in the same order.
fn steps_of(alloc: Global, rows: &[Row]) -> Result<Items<TakeStep>, Memory>
    ensures { IfOk result (λ steps. steps ≡ map take_step rows.now) }
{
    let mut steps = Items::new(alloc);
    for r in rows {
        steps.push(take_step(r))?;
    }
    Ok(steps)
}

/// Returns the step that takes the lease of the first row that `worker` owns, or `None` if it owns no row.
fn first_of(rows: &[Row], worker: WorkerNo) -> Option<TakeStep>
    ensures { result ≡ first_step worker rows.now }
{
    for r in rows {
        if is_owned_by(worker, r) {
            return Some(take_step(r));
        }
    }
    None
}

/// Returns the step that steals the lease of the first row that `worker` owns, if `worker` owns more than `target`
/// rows. Otherwise, or if `worker` is `None`, returns `None`.
fn stolen(rows: &[Row], target: usize, worker: Option<WorkerNo>) -> Option<TakeStep>
    ensures { result ≡ stolen rows.now target worker }
{
    let worker = worker?;
    if target < load_of(rows, worker) {
        first_of(rows, worker)
    } else {
        None
    }
}

/// Returns a list of just `step`, or an empty list if `step` is `None`.
fn step_if(alloc: Global, step: Option<TakeStep>) -> Result<Items<TakeStep>, Memory>
    ensures { IfOk result (λ steps. steps ≡ cons_option step []) }
{
    let mut steps = Items::new(alloc);
    if let Some(step) = step {
        steps.push(step)?;
    }
    Ok(steps)
}

/// Returns a worker's fair share, as a number of rows: the number of `rows` divided by the number of workers, rounded
/// up. The workers are those in `others`, and the worker that makes the plan.
fn share(rows: &[Row], others: &[WorkerNo]) -> usize
    ensures { result ≡ (length rows.now + length others.now) / (length others.now + 1) }
{
    (rows.len() + others.len()) / (others.len() + 1)
}

/// Returns steps that take the leases of the first available rows, at most `room` of them. A row is available if the
/// worker `me` can take its lease without stealing. If no row is available and the busiest of `workers` owns more rows
/// than its fair share, returns one step, which steals a lease from that worker.
fn chosen(
    alloc: Global,
    me: WorkerNo,
    held: &[Held],
    rows: &[Row],
    workers: &[WorkerNo],
    room: usize,
) -> Result<Items<TakeStep>, Memory>
    requires { workers.now ≡ others me rows.now }
    ensures { IfOk result (λ steps. steps ≡ chosen me rows.now room (filter (is_available me held.now) rows.now)) }
{
    let mut free = available(alloc, me, held, rows)?;
    if free.is_empty() {
        let worker = busiest_of(alloc, rows, workers)?;
        return step_if(alloc, stolen(rows, share(rows, workers), worker));
    }
    free.truncate(room);
    steps_of(alloc, free.as_slice())
}

/// Returns the take plan of the worker `me`, which holds the leases `held`. The list `rows` has only rows whose leases
/// can be taken, and shows expired rows without an owner.
fn take_among(
    alloc: Global,
    me: WorkerNo,
    held: &[Held],
    rows: &[Row],
) -> Result<Items<TakeStep>, Memory>
    ensures { IfOk result (λ steps. steps ≡ take_among me held.now rows.now) }
{
    let workers = others(alloc, me, rows)?;
    let target = share(rows, workers.as_slice());
    let mine = count_mine(rows, held);
    if mine >= target {
        return Ok(Items::new(alloc));
    }
    chosen(alloc, me, held, rows, workers.as_slice(), target - mine)
}

/// Returns the take plan of the worker `me`: the steps that take leases, in the order of the rows (Kinesis Client
/// Library, LeaseTaker). Rows whose checkpoint is the shard's end are left out: the plan takes none of them, and they
/// don't count in the numbers of rows below. A row counts as a row without an owner if its lease has expired according
/// to the notes `observed`, at the moment `now` with the failover time `failover` (in milliseconds). A worker's share
/// is the number of rows divided by the number of workers, rounded up. The workers are `me` and the owners of rows. If
/// `me` has fewer rows than its share, it takes the first available rows up to its share. A row is available if it has
/// no owner or the owner `me`, and `me` holds no lease of the row's key. If no row is available, `me` steals one row
/// from the busiest other worker, provided that this other worker has more than its share. Among equally busy workers,
/// the one with the lowest worker number counts as the busiest.
///
/// The error means out of memory.
pub fn plan(
    alloc: Global,
    rows: &[Row],
    observed: &Observed,
    me: WorkerNo,
    held: &[Held],
    now: Moment,
    failover: u64,
) -> Result<Items<TakeStep>, Memory>
    ensures { IfOk result
        (λ steps. steps ≡ take_plan (expiry (seen_at observed.now) now failover) me held.now rows.now) }
{
    let rows = candidates(alloc, rows, observed, now, failover)?;
    take_among(alloc, me, held, rows.as_slice())
}
