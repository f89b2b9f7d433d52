//! A worker's retired consumers. A consumer processes the shard of one lease, and is over once it has nothing more to
//! do. A tenure is one worker's hold on a lease.
ghost use Rattle.std.specs.Prelude.{◌≡◌, ◌+◌, ◌<◌, ◌≤◌, ◌++◌, OnOk, Some, map};
ghost use Rattle.std.specs.Vec.{vec_capacity, vec_len};
ghost use Rattle.kcl_defs.specs.Consumers.{over_at};
ghost use Rattle.kcl_worker_lists.specs.Changes.{live_among, retire, retired_among};
ghost use Rattle.kcl_worker_lists.specs.Retirements.{retirement};

use kcl_consumer::{Consumer, Processor};
use kcl_defs::{Held, Why};
use kds_base::{Memory, ShardRef, TenureNo};

/// What is kept of a consumer that is over: the key and the tenure number of its lease, the reason why it is over
/// (Kinesis Client Library, ShutdownReason), and its processor.
#[derive(Drop)]
pub struct Retired<P> {
    pub key: ShardRef,
    pub tenure: TenureNo,
    pub why: Why,
    pub processor: P,
}

/// Returns what is kept of the consumer `c`, which is over for the reason `why`.
fn retire<P: Processor>(c: Consumer<P>, why: Why) -> Retired<P>
    requires { over_at c.stage ≡ Some why }
    ensures { retirement result ≡ retire c }
{
    Retired {
        key: c.key(),
        tenure: c.tenure(),
        why,
        processor: c.into_processor(),
    }
}

/// Moves the consumers that are over from `consumers` to the end of `retired`, in the same order. Precondition:
/// `retired` has memory reserved for all of `consumers`. Needs no further memory.
pub fn retire_finished<P: Processor>(
    consumers: &mut Vec<Consumer<P>>,
    retired: &mut Vec<Retired<P>>,
)
    requires room { vec_len retired.old + vec_len consumers.old ≤ vec_capacity retired.old }
    ensures live { consumers.new.items ≡ live_among consumers.old.items }
    ensures over { map retirement retired.new.items ≡ map retirement retired.old.items
        ++ retired_among consumers.old.items }
    ensures room { vec_len retired.new + vec_len consumers.new ≤ vec_capacity retired.new }
{
    let mut i = 0;
    while i < consumers.len() {
        match consumers[i].over() {
            Some(why) => {
                let c = consumers.remove(i);
                retired.push_reserved(retire(c, why));
            }
            None => i += 1,
        }
    }
}

/// Reserves memory for one additional lease and its consumer, and for the retirement of all consumers. The items of the
/// lists are unchanged. The error means out of memory.
pub fn make_room<P: Processor>(
    held: &mut Vec<Held>,
    consumers: &mut Vec<Consumer<P>>,
    retired: &mut Vec<Retired<P>>,
) -> Result<(), Memory>
    requires { vec_len retired.old + vec_len consumers.old ≤ vec_capacity retired.old }
    ensures held { held.new.items ≡ held.old.items }
    ensures consumers { consumers.new.items ≡ consumers.old.items }
    ensures retired { retired.new.items ≡ retired.old.items }
    ensures room { vec_len retired.new + vec_len consumers.new ≤ vec_capacity retired.new }
    ensures for_held { OnOk result (vec_len held.new < vec_capacity held.new) }
    ensures for_consumer { OnOk result (vec_len consumers.new < vec_capacity consumers.new) }
    ensures for_retirement { OnOk result
        (vec_len retired.new + (vec_len consumers.new + 1) ≤ vec_capacity retired.new) }
{
    held.reserve(1)?;
    consumers.reserve(1)?;
    retired.reserve(consumers.len() + 1)?;
    Ok(())
}
