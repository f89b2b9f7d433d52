//! Finds a lease that a worker releases for a hand-off, and takes the lease's consumer out of the worker's list. A
//! hand-off gives a lease to another worker in an orderly way (Kinesis Client Library, graceful lease handoff). A
//! consumer processes the shard of one lease.
ghost use Rattle.std.specs.Prelude.{◌≡◌, ◌≤◌, IfNone};
ghost use Rattle.std.specs.Vec.{vec_len};
ghost use Rattle.kcl_worker_lists.specs.Changes.{has_one, leaving_in, first_of, without_consumer};

use crate::consumers::id_of;
use crate::leases::{id_of_held, same_id};
use kcl_consumer::{Consumer, Processor};
use kcl_defs::{Held, TenancyId};
use kds_base::ShardRef;

/// Whether the list `consumers` has a consumer of the lease `h`.
fn has_one<P: Processor>(consumers: &[Consumer<P>], h: &Held) -> bool
    ensures { result ≡ has_one consumers.now h.now }
{
    let id = id_of_held(h);
    for c in consumers {
        if same_id(&id_of(c), &id) {
            return true;
        }
    }
    false
}

/// Returns the first lease in `held` that has the key `key` and a consumer in `consumers`. Returns `None` if there is
/// no such lease.
pub fn leaving<P: Processor>(
    held: &[Held],
    consumers: &[Consumer<P>],
    key: &ShardRef,
) -> Option<Held>
    ensures { result ≡ leaving_in key.now consumers.now held.now }
{
    for h in held {
        if h.key == *key && has_one(consumers, h) {
            return Some(*h);
        }
    }
    None
}

/// Removes the first consumer of the lease `id` from the list, and returns this consumer. If the lease has no consumer,
/// returns `None` and leaves the list unchanged. Needs no memory.
pub fn take_consumer<P: Processor>(
    consumers: &mut Vec<Consumer<P>>,
    id: &TenancyId,
) -> Option<Consumer<P>>
    ensures taken { result ≡ first_of id.now consumers.old.items }
    ensures left { consumers.new.items ≡ without_consumer id.now consumers.old.items }
    ensures none { IfNone result (consumers.new ≡ consumers.old) }
    ensures len { vec_len consumers.new ≤ vec_len consumers.old }
{
    for i in 0..consumers.len() {
        if same_id(&id_of(&consumers[i]), id) {
            return Some(consumers.remove(i));
        }
    }
    None
}
