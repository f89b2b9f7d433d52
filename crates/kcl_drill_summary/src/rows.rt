//! Finds the row with a given key, and the row's checkpoint, among the rows of a survey. A survey is an answer of the
//! machine that contains all listed shards (those that ListShards returns) and all rows of the lease table. A row is a
//! lease, and the row's key names a shard of a stream.
ghost use Rattle.std.specs.Prelude.{◌≡◌};
ghost use Rattle.kds_defs.specs.Leases.{checkpoint_in};
ghost use Rattle.kcl_drill_summary.specs.Counting.{row_among};

use kds_base::{Checkpoint, ShardRef};
use kds_defs::Row;

/// Returns the first row with this key, or `None` if no row has this key.
pub fn row_among(rows: &[Row], key: &ShardRef) -> Option<Row>
    ensures { result ≡ row_among rows.now key.now }
{
    rows.iter().copied().find(|row| row.key == *key)
}

/// Returns the checkpoint in the first row with this key, or TRIM_HORIZON if no row has this key.
pub fn checkpoint_among(rows: &[Row], key: &ShardRef) -> Checkpoint
    ensures { result ≡ checkpoint_in (row_among rows.now key.now) }
{
    match row_among(rows, key) {
        Some(row) => row.checkpoint,
        None => Checkpoint::TrimHorizon,
    }
}
