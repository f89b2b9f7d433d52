//! Finds and reads shards by their keys. The key of a shard consists of the number of its stream and the number of the
//! shard. The clocks of all streams are equal. A stream is live from its creation until its deletion.
ghost use Rattle.std.specs.Prelude.{◌≡◌, ◌-◌, ◌^◌, ◌<◌, map, true, IfOk};
ghost use Rattle.std.specs.List.{AllByRecursion};
ghost use Rattle.std.specs.Option.{option_map};
ghost use Rattle.indexmap.specs.IndexMap.{values};
ghost use Rattle.kds_defs.specs.Origins.{origin_position};
ghost use Rattle.kds_defs.specs.Records.{batch, stored};
ghost use Rattle.kds_defs.specs.Shards.{shown};
ghost use Rattle.kds_stream.specs.ReadEnds.{read_ends};
ghost use Rattle.kds_service.specs.Keyed.{is_listed_in, listed_keys, state_in, stream_at};
ghost use Rattle.kds_service.specs.Shown.{InJournalsOf};

use crate::streams_by_name::{Streams, index_by_number};
use kds_base::{Items, Memory, ShardRef, StreamNo};
use kds_defs::{Origin, Shard, Stored};
use kds_stream::Stream;
use std::alloc::Global;

/// Returns the stream with the number `no`, or `None` if this stream isn't live.
#[tactic(auto, using(crate::proofs::KeyedShards::stream_found, crate::proofs::KeyedShards::none_found))]
fn find(streams: &Streams, no: StreamNo) -> Option<&Stream>
    ensures { option_map (λ v. v.now) result ≡ stream_at (values streams.now) no }
{
    let i = index_by_number(streams, no)?;
    Some(&streams[i])
}

/// Whether the shard with this key is listed: its stream is live, and the shard was made and hasn't expired.
pub fn is_listed(streams: &Streams, key: &ShardRef) -> bool
    ensures { result ≡ is_listed_in (values streams.now) key.now }
{
    match find(streams, key.stream) {
        Some(stream) => stream.is_listed(key.shard),
        None => false,
    }
}

/// Returns the shard with this key, or `None` if its stream isn't live or the shard was never made.
pub fn shard<'a>(streams: &'a Streams, key: &ShardRef) -> Option<&'a Shard>
    ensures { option_map (λ x. x.now) result ≡ option_map shown (state_in (values streams.now) key.now) }
{
    let stream = find(streams, key.stream)?;
    stream.tree().shard(key.shard)
}

/// Returns the keys of the listed (unexpired) shards of all streams, sorted by stream number, and within a stream by
/// shard number.
pub fn listed(alloc: Global, streams: &Streams) -> Result<Items<ShardRef>, Memory>
    ensures { IfOk result (λ keys. keys ≡ listed_keys (values streams.now)) }
{
    let mut keys = Items::new(alloc);
    for i in 0..streams.len() {
        streams[i].add_listed(&mut keys)?;
    }
    Ok(keys)
}

/// Returns the position at which the reading of a listed (unexpired) shard begins, as a sequence number. `from` selects
/// TRIM_HORIZON, LATEST, or a time.
pub fn position(streams: &Streams, key: &ShardRef, from: Origin) -> u64
    requires { is_listed_in (values streams.now) key.now ≡ true }
    ensures { InJournalsOf (values streams.now) (λ log c. result ≡ origin_position log c key.now from) }
{
    match find(streams, key.stream) {
        Some(stream) => stream.position(key.shard, from),
        None => 0,
    }
}

/// Reads a listed (unexpired) shard at `position`, and returns the batch of at most `limit` records. The returned
/// `bool` says whether the shard ends after this batch.
pub fn read(
    alloc: Global,
    streams: &Streams,
    key: &ShardRef,
    position: u64,
    limit: u32,
) -> Result<(Items<Stored>, bool), Memory>
    requires { is_listed_in (values streams.now) key.now ≡ true }
    ensures batch { InJournalsOf (values streams.now)
        (λ log c. IfOk result (λ r. r.0 ≡ map stored (batch log c key.now.stream key.now.shard position limit))) }
    ensures numbers { IfOk result (λ r. AllByRecursion (λ x. x.seq < 2 ^ 64 - 1) r.0) }
    ensures end { InJournalsOf (values streams.now)
        (λ log c. IfOk result (λ r. r.1 ≡ read_ends log c key.now.stream key.now.shard position limit)) }
{
    match find(streams, key.stream) {
        Some(stream) => stream.read(alloc, key.shard, position, limit),
        None => Ok((Items::new(alloc), false)),
    }
}
