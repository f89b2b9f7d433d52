//! The position at which reading of a shard continues after a batch.
ghost use Rattle.std.specs.Prelude.{◌≡◌, ◌-◌, ◌^◌, ◌<◌, map};
ghost use Rattle.std.specs.List.{AllByRecursion};
ghost use Rattle.kds_defs.specs.Records.{position_after};

use crate::reply::Stored;
use kds_base::Seq;

/// Returns the position after `batch`, which was read at `position`. This is the sequence number of the last record
/// plus one, or `position` if the batch is empty. Each sequence number must be below the greatest `u64`.
pub fn position_after(position: u64, batch: &[Stored]) -> u64
    requires { AllByRecursion (λ r. r.seq < 2 ^ 64 - 1) batch.now }
    ensures { result ≡ position_after position (map (λ r. r.seq) batch.now) }
{
    match batch.last() {
        Some(item) => {
            let seq = item.seq;
            seq.0 + 1
        }
        None => position,
    }
}

/// Returns the position after a batch that was read at `position` and whose records have the sequence numbers
/// `numbers`. This is the last number plus one, or `position` if `numbers` is empty. Each number must be below the
/// greatest `u64`.
pub fn position_after_numbers(position: u64, numbers: &[Seq]) -> u64
    requires { AllByRecursion (λ n. n < 2 ^ 64 - 1) numbers.now }
    ensures { result ≡ position_after position numbers.now }
{
    match numbers.last() {
        Some(last) => last.0 + 1,
        None => position,
    }
}
