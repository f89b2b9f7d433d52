//! The rule for when a worker renews a lease.
#![tactic(auto)]

ghost use Rattle.std.specs.Prelude.{◌≡◌};
ghost use Rattle.kcl_defs.specs.Plans.{is_due};

pub use kcl_defs::Held;
use kds_base::Moment;

/// Whether the worker must renew the lease at the moment `now` (Kinesis Client Library, LeaseRenewer). The result is
/// true if at least a third of `failover` milliseconds, rounded down, has passed since the worker last wrote the
/// lease's row (`held.since`). If `now` is earlier than that write, the result is false.
pub fn due(held: &Held, now: Moment, failover: u64) -> bool
    ensures { result ≡ is_due held.now now failover }
{
    let since = held.since.ms();
    since <= now.ms() && now.ms() - since >= failover / 3
}
