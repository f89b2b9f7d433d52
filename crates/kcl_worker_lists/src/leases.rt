//! The list of a worker's leases. A tenure is one worker's hold on a lease. A lease is identified by its key and its
//! tenure number together, and the list is ordered by the keys and then by the tenure numbers. The row of a lease is
//! its item in the lease table. Each write of a row raises the row's counter.
ghost use Rattle.std.specs.Prelude.{◌≡◌, ◌<◌, ◌≤◌, ◌&&◌, if◌then◌else◌, length};
ghost use Rattle.std.specs.List.{find, insert};
ghost use Rattle.std.specs.Vec.{vec_capacity, vec_len};
ghost use Rattle.kcl_defs.specs.Plans.{is_due, renewed_held};
ghost use Rattle.kcl_defs.specs.Workers.{counter_of, id_of_held, is_before_id, is_nothing_held, is_past, renewed};
ghost use Rattle.kcl_defs.specs.Workers.{same_id, with_held, without_held};

use kcl_defs::{Held, TenancyId};
use kds_base::Moment;

/// Whether `a` and `b` identify the same lease: both the keys and the tenure numbers are equal.
pub fn same_id(a: &TenancyId, b: &TenancyId) -> bool
    ensures { result ≡ same_id a.now b.now }
{
    a.key == b.key && a.tenure == b.tenure
}

/// Whether the lease `a` comes before the lease `b` in the order of stream numbers, then shard numbers, then tenure
/// numbers.
pub fn is_before_id(a: &TenancyId, b: &TenancyId) -> bool
    ensures { result ≡ is_before_id a.now b.now }
{
    if a.key.stream != b.key.stream {
        a.key.stream.0 < b.key.stream.0
    } else if a.key.shard != b.key.shard {
        a.key.shard.0 < b.key.shard.0
    } else {
        a.tenure.0 < b.tenure.0
    }
}

/// Whether the lease `id` comes after the lease `last` in the order of the list. If `last` is `None`, the result is
/// `true`.
pub fn is_past(last: &Option<TenancyId>, id: &TenancyId) -> bool
    ensures { result ≡ is_past last.now id.now }
{
    match last {
        Some(last) => is_before_id(last, id),
        None => true,
    }
}

/// Returns the key and the tenure number of the lease `h`.
pub fn id_of_held(h: &Held) -> TenancyId
    ensures { result ≡ id_of_held h.now }
{
    TenancyId {
        key: h.key,
        tenure: h.tenure,
    }
}

/// Returns the row counter that the lease `id` has in `held`, or 0 if `held` doesn't have this lease.
pub fn counter_of(held: &[Held], id: &TenancyId) -> u64
    ensures { result ≡ counter_of id.now held.now }
{
    for h in held {
        if same_id(&id_of_held(h), id) {
            return h.counter;
        }
    }
    0
}

/// Returns the first lease in the list that comes after the lease `last` and is due for renewal at the moment `now`.
/// If `last` is `None`, the search begins at the first lease. `failover` is the failover time in milliseconds.
pub fn next_due(held: &[Held], last: &Option<TenancyId>, now: Moment, failover: u64) -> Option<Held>
    ensures { result ≡ find (λ h. is_past last.now (id_of_held h) && is_due h now failover) held.now }
{
    for h in held {
        if is_past(last, &id_of_held(h)) && kcl_renew::due(h, now, failover) {
            return Some(*h);
        }
    }
    None
}

/// If `same` is true, notes that the row of the lease `h` was written at the moment `now` and has the counter
/// `counter`.
fn renew_if(h: &mut Held, same: bool, counter: u64, now: Moment)
    ensures { h.new ≡ (if same then renewed_held counter now h.old else h.old) }
{
    if same {
        h.renewed(counter, now);
    }
}

/// Notes that the row of the lease `id` was written at the moment `now` and has the counter `counter`.
#[tactic(auto, using(crate::proofs::Calls::map_over))]
pub fn renew(held: &mut Vec<Held>, id: &TenancyId, counter: u64, now: Moment)
    ensures { held.new.items ≡ renewed id.now counter now held.old.items }
{
    for h in held.iter_mut() {
        let same = same_id(&id_of_held(h), id);
        renew_if(h, same, counter, now);
    }
}

/// Removes the lease `id` from the list.
pub fn drop_held(held: &mut Vec<Held>, id: &TenancyId)
    ensures { held.new.items ≡ without_held id.now held.old.items }
{
    let mut i = 0;
    while i < held.len() {
        if same_id(&id_of_held(&held[i]), id) {
            held.remove(i);
        } else {
            i += 1;
        }
    }
}

/// Returns the index at which the lease `h` has to be inserted to keep the order of the list.
fn insertion_index(held: &[Held], h: &Held) -> usize
    ensures index { insert held.now result h.now ≡ with_held h.now held.now }
    ensures within { result ≤ length held.now }
{
    for i in 0..held.len() {
        if is_before_id(&id_of_held(h), &id_of_held(&held[i])) {
            return i;
        }
    }
    held.len()
}

/// Inserts the lease `h` at its index in the order of the list. Precondition: memory was reserved for the lease.
pub fn add_held(held: &mut Vec<Held>, h: Held)
    requires { vec_len held.old < vec_capacity held.old }
    ensures { held.new.items ≡ with_held h held.old.items }
{
    let index = insertion_index(held.as_slice(), &h);
    match held.insert(index, h) {
        Ok(()) => {}
        Err(_) => {}
    }
}

/// Whether the worker holds no lease.
pub fn is_nothing_held(held: &[Held]) -> bool
    ensures { result ≡ is_nothing_held held.now }
{
    match held {
        [] => true,
        [_, ..] => false,
    }
}
