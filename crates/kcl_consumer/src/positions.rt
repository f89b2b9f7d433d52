//! The position at which a consumer begins to read, and the sequence number of a batch's last record.
ghost use Rattle.std.specs.Prelude.{◌≡◌};
ghost use Rattle.kcl_defs.specs.Consumers.{first_position, last_number_in};

use kds_base::{Checkpoint, Seq};
use kds_defs::Stored;

/// Returns the sequence number from which a consumer reads if the lease's checkpoint is `start` (Kinesis Client
/// Library, checkpoint). If `start` is a sequence number, reading begins at the next number, or at the greatest `u64`
/// if `start` is already that number. Otherwise reading begins at 0.
pub fn first_position(start: Checkpoint) -> u64
    ensures { result ≡ first_position start }
{
    match start {
        Checkpoint::TrimHorizon => 0,
        Checkpoint::At(seq) => seq.0.saturating_add(1),
        Checkpoint::ShardEnd => 0,
    }
}

/// Returns the sequence number of the batch's last record, or `None` if the batch is empty.
pub fn last_in(batch: &[Stored]) -> Option<Seq>
    ensures { result ≡ last_number_in batch.now }
{
    match batch.last() {
        Some(r) => Some(r.seq),
        None => None,
    }
}
