//! The origin, the floor and the first checkpoint of a new row. The origin is the initial position in the stream:
//! TRIM_HORIZON, LATEST or a moment. The floor is the sequence number at which reading of the row's shard begins.
ghost use Rattle.std.specs.Prelude.{◌≡◌, ◌≢◌, true};
ghost use Rattle.kds_base.specs.declared.lease_key.Checkpoint.TheVariants.{At};
ghost use Rattle.kds_defs.specs.Journal.{Journal};
ghost use Rattle.kds_defs.specs.LeaseCommands.{reaches_closing};
ghost use Rattle.kds_defs.specs.Origins.{floor_from, start_from};
ghost use Rattle.kds_defs.specs.Shards.{ShardState, shard_at, shown, start_of};
ghost use Rattle.kds_defs.specs.StreamCommands.{last_number};
ghost use Rattle.kcl_leases.specs.Conditions.{counting_from, parent_reaches};

use crate::shards::Shards;
use kcl_table::Table;
use kds_base::{Checkpoint, Seq, ShardNo, ShardRef, StreamNo};
use kds_defs::{Origin, Shard};

/// Whether the shard is closed and its ending sequence number is at or above `floor`. If so, a row with this floor
/// covers the shard's last sequence number.
fn reaches_closing(floor: Seq, shard: &Shard) -> bool
    ensures { (x : ShardState) → shard.now ≡ shown x → result ≡ reaches_closing floor x.closing }
{
    match shard.end {
        Some(end) => floor <= end,
        None => false,
    }
}

/// Whether `parent`, a parent of a shard, is closed and has a row whose floor is at or below the parent's ending
/// sequence number. If `parent` is `None`, the result is false.
fn parent_reaches<L: Shards>(
    shards: &L,
    table: &Table,
    stream: StreamNo,
    parent: Option<ShardNo>,
) -> bool
    ensures { (log : Journal) → L.shows shards.now log → result ≡ parent_reaches log table.now stream parent }
{
    let Some(shard) = parent else {
        return false;
    };
    let key = ShardRef { stream, shard };
    // The key is borrowed, so that it can be passed on more than once.
    let key = &key;
    let Some(row) = table.row(*key) else {
        return false;
    };
    match shards.shard(*key) {
        Some(shard) => reaches_closing(row.floor, shard),
        None => false,
    }
}

/// Returns the origin of a new row for `shard`. If a parent has a row that covers the parent's last sequence number,
/// the origin is TRIM_HORIZON, so that the shard is read from its first record. Otherwise the origin is `from`.
pub fn effective_origin<L: Shards>(
    shards: &L,
    table: &Table,
    stream: StreamNo,
    shard: &Shard,
    from: Origin,
) -> Origin
    ensures { (log : Journal) → L.shows shards.now log → result ≡ counting_from log table.now stream shard.now from }
{
    if parent_reaches(shards, table, stream, shard.parent)
        || parent_reaches(shards, table, stream, shard.adjacent)
    {
        return Origin::TrimHorizon;
    }
    from
}

/// Returns the floor of a new row for the listed shard `key`: the sequence number at which reading of the shard begins.
/// `from` is the row's origin, and `start` is the shard's starting sequence number.
pub fn floor_from<L: Shards>(shards: &L, key: &ShardRef, start: Seq, from: Origin) -> Seq
    requires { L.lists shards.now key.now ≡ true }
    ensures { (log : Journal) → L.shows shards.now log → start ≡ start_of (shard_at log key.now.stream key.now.shard)
        → result ≡ floor_from log (L.clock shards.now) key.now from }
{
    match from {
        Origin::TrimHorizon => start,
        Origin::Latest | Origin::Time(_) => Seq(shards.position(*key, from)),
    }
}

/// Returns the first checkpoint of a row that has the origin `from` and the floor `floor`.
pub fn start_from(from: Origin, floor: Seq) -> Checkpoint
    ensures value { result ≡ start_from from floor }
    ensures bounded { result ≢ At last_number }
{
    match from {
        Origin::TrimHorizon => Checkpoint::TrimHorizon,
        Origin::Latest | Origin::Time(_) => Checkpoint::At(Seq(floor.0.saturating_sub(1))),
    }
}
