//! The leases that a worker holds, the rows that it has observed, and the steps of its plans. A row is the item of a
//! lease in the lease table, and each write of a row raises the row's counter. A tenure is one worker's hold on a
//! lease.
ghost use Rattle.std.specs.Prelude.{◌≡◌};
ghost use Rattle.kcl_defs.specs.Plans.{renewed_held};

use kds_base::{Moment, ShardRef, TenureNo};
use kds_defs::Origin;

/// A lease that a worker holds: its key, its tenure, the row's counter as the worker knows it, and the moment at which
/// that counter was written (Kinesis Client Library, LeaseRenewer).
#[derive(Clone, Copy, Debug, PartialEq, Eq)]
pub struct Held {
    pub key: ShardRef,
    pub tenure: TenureNo,
    pub counter: u64,
    pub since: Moment,
}

/// Identifies a lease by its key and its tenure.
#[derive(Clone, Copy, Debug, PartialEq, Eq)]
pub struct TenancyId {
    pub key: ShardRef,
    pub tenure: TenureNo,
}

impl Held {
    /// Sets `counter` to the row's new counter, and `since` to `now`, the moment at which the row was written.
    pub fn renewed(&mut self, counter: u64, now: Moment)
        ensures { self.new ≡ renewed_held counter now self.old }
    {
        self.counter = counter;
        self.since = now;
    }
}

/// What a worker remembers of a row that it observed: the row's key, its counter, and the moment at which this counter
/// was first seen.
#[derive(Clone, Copy, Debug, PartialEq, Eq)]
pub struct Seen {
    pub key: ShardRef,
    pub counter: u64,
    pub since: Moment,
}

/// One step of a sync plan: a write that makes the missing row of a listed shard, or removes the row of a shard that
/// isn't listed (Kinesis Client Library, ShardSyncer).
#[derive(Clone, Copy, Debug, PartialEq, Eq)]
pub enum SyncStep {
    /// Makes a row for this shard. Reading of the shard begins at this origin.
    Make(ShardRef, Origin),
    /// Removes the row of this key if the row still has this counter.
    Cut(ShardRef, u64),
}

/// One step of a take plan: takes the row of `key` if the row still has the counter `counter` (Kinesis Client Library,
/// LeaseTaker).
#[derive(Clone, Copy, Debug, PartialEq, Eq)]
pub struct TakeStep {
    pub key: ShardRef,
    pub counter: u64,
}
