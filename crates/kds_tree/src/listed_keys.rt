//! The keys of the listed (unexpired) shards of a stream. The key of a shard consists of the number of its stream and
//! the number of the shard.
ghost use Rattle.std.specs.Prelude.{◌≡◌, ◌++◌, ◌∷◌, [], ℕ, OnOk, slice_get};
ghost use Rattle.kds_defs.specs.Listings.{refs_of};
ghost use Rattle.kds_defs.specs.Shards.{listed_among};
ghost use Rattle.kds_defs.specs.Streams.{floor_of};
ghost use Rattle.kds_tree.specs.Front.{picked, picked_before};

use crate::kept::KeptShard;
use kds_base::{Items, Memory, Moment, ShardNo, ShardRef, StreamNo};

/// Adds the keys of those of the shards `numbers` of `shards` to `keys` that haven't expired at the trim horizon `cut`.
pub fn add_numbers(
    keys: &mut Items<ShardRef>,
    stream: StreamNo,
    shards: &[KeptShard],
    numbers: &[ShardNo],
    cut: &Option<Moment>,
) -> Result<(), Memory>
    ensures { OnOk result (keys.new ≡ keys.old
        ++ refs_of stream (listed_among (floor_of cut.now) (picked numbers.now shards.now))) }
{
    for no in numbers {
        add_number(keys, stream, shards, *no, cut)?;
    }
    Ok(())
}

/// Adds the keys of those of the shards `rest` to `keys` that haven't expired at the trim horizon `cut`.
pub fn add_rest(
    keys: &mut Items<ShardRef>,
    stream: StreamNo,
    rest: &[KeptShard],
    cut: &Option<Moment>,
) -> Result<(), Memory>
    ensures { OnOk result (keys.new ≡ keys.old ++ refs_of stream (listed_among (floor_of cut.now) rest.now)) }
{
    for kept in rest {
        add_key(keys, stream, kept, cut)?;
    }
    Ok(())
}

/// Adds the key of shard `no` of `shards` to `keys`, if there is such a shard and it hasn't expired at the trim horizon
/// `cut`.
fn add_number(
    keys: &mut Items<ShardRef>,
    stream: StreamNo,
    shards: &[KeptShard],
    no: ShardNo,
    cut: &Option<Moment>,
) -> Result<(), Memory>
    ensures { OnOk result (keys.new ≡ keys.old
        ++ refs_of stream (listed_among (floor_of cut.now) (picked_before (slice_get shards.now no) []))) }
{
    match shards.get(no.0 as usize) {
        Some(kept) => add_key(keys, stream, kept, cut),
        None => Ok(()),
    }
}

/// Adds the key of the shard `kept` to `keys`, if the shard hasn't expired at the trim horizon `cut`.
fn add_key(
    keys: &mut Items<ShardRef>,
    stream: StreamNo,
    kept: &KeptShard,
    cut: &Option<Moment>,
) -> Result<(), Memory>
    ensures { OnOk result (keys.new ≡ keys.old ++ refs_of stream (listed_among (floor_of cut.now) (kept.now ∷ []))) }
{
    if kept.is_expired(cut) {
        return Ok(());
    }
    keys.push(ShardRef {
        stream,
        shard: kept.shard().no,
    })
}
