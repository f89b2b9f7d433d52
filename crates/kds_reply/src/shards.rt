//! Shards and listings of shards as JSON values.
ghost use Rattle.std.specs.Prelude.{◌≡◌, map, option_map, IfOk, OnOk};
ghost use Rattle.serde_json.specs.View.{view, members_view};
ghost use Rattle.kds_reply_texts.specs.Bodies.{id_data};
ghost use Rattle.kds_reply.specs.Bodies.{put_if};
ghost use Rattle.kds_reply_texts.specs.Children.{range_data};
ghost use Rattle.kds_reply.specs.Shards.{sequence_data, shard_data, shards_data};

use kds_base::{Memory, Range, Seq, ShardNo};
use kds_defs::{Page, Shard};
use kds_reply_texts::listing_token;
use kds_token::shard_id;
use serde_json::{Map, Value, json, push, put};
use std::alloc::Global;

/// Returns a range of hash keys as a JSON object (Kinesis API Reference, HashKeyRange).
#[tactic(auto, unfolding(kds_reply_texts::specs::Children::range_data))]
fn range_value(alloc: Global, range: &Range) -> Result<Value, Memory>
    ensures { IfOk result (λ v. view v ≡ range_data range.now) }
{
    let (start, end) = (range.start, range.end);
    let starting_key = format!(in alloc; "{start}")?;
    let ending_key = format!(in alloc; "{end}")?;
    Ok(json!(in alloc; {"EndingHashKey": ending_key, "StartingHashKey": starting_key})?)
}

/// Returns the range of a shard's sequence numbers as a JSON object. The ending number is included only if the shard is
/// closed (Kinesis API Reference, SequenceNumberRange).
#[tactic(auto, unfolding(crate::specs::Shards::sequence_data))]
fn sequence_value(alloc: Global, start: Seq, end: &Option<Seq>) -> Result<Value, Memory>
    ensures { IfOk result (λ v. view v ≡ sequence_data start end.now) }
{
    let start = start.0;
    let first = format!(in alloc; "{start}")?;
    match end {
        Some(end) => {
            let end = end.0;
            let last = format!(in alloc; "{end}")?;
            Ok(json!(in alloc; {"EndingSequenceNumber": last, "StartingSequenceNumber": first})?)
        }
        None => Ok(json!(in alloc; {"StartingSequenceNumber": first})?),
    }
}

fn id_value(alloc: Global, shard: ShardNo) -> Result<Value, Memory>
    ensures { IfOk result (λ v. view v ≡ id_data shard) }
{
    let id = String::from_str(alloc, shard_id(shard).as_str())?;
    Ok(Value::from(id))
}

/// Adds a member called `name` whose value is the ID of a shard. Adds nothing if `shard` is `None`.
fn put_id_member(
    alloc: Global,
    members: &mut Map<String, Value>,
    name: &str,
    shard: &Option<ShardNo>,
) -> Result<(), Memory>
    ensures { OnOk result (members_view members.new.entries
        ≡ put_if name.now (option_map id_data shard.now) (members_view members.old.entries)) }
{
    match shard {
        Some(shard) => {
            let id = id_value(alloc, *shard)?;
            put(members, alloc, name, id)?;
            Ok(())
        }
        None => Ok(()),
    }
}

/// Returns a shard as a JSON object (Kinesis API Reference, Shard).
#[tactic(auto, unfolding(crate::specs::Shards::shard_data))]
fn shard_value(alloc: Global, shard: &Shard) -> Result<Value, Memory>
    ensures { IfOk result (λ v. view v ≡ shard_data shard.now) }
{
    let range = range_value(alloc, &shard.range)?;
    let numbers = sequence_value(alloc, shard.start, &shard.end)?;
    let id = id_value(alloc, shard.no)?;
    let mut members = Map::new(alloc);
    put(&mut members, alloc, "HashKeyRange", range)?;
    put(&mut members, alloc, "SequenceNumberRange", numbers)?;
    put(&mut members, alloc, "ShardId", id)?;
    put_id_member(alloc, &mut members, "ParentShardId", &shard.parent)?;
    put_id_member(
        alloc,
        &mut members,
        "AdjacentParentShardId",
        &shard.adjacent,
    )?;
    Ok(Value::Object(members))
}

/// Returns the shards as JSON objects, in their order.
pub fn shard_values(alloc: Global, shards: &[Shard]) -> Result<Vec<Value>, Memory>
    ensures { IfOk result (λ vs. map view vs.items ≡ map shard_data shards.now) }
{
    let mut values = Vec::new(alloc);
    for shard in shards {
        let value = shard_value(alloc, shard)?;
        push(&mut values, value)?;
    }
    Ok(values)
}

/// Returns a listing of shards as a JSON object, with the token for the next page if more shards follow (Kinesis API
/// Reference, ListShards, Response Elements).
#[tactic(auto, unfolding(crate::specs::Shards::shards_data))]
pub fn shards_value(alloc: Global, shards: &[Shard], next: &Option<Page>) -> Result<Value, Memory>
    ensures { IfOk result (λ v. view v ≡ shards_data shards.now next.now) }
{
    let shards = shard_values(alloc, shards)?;
    match next {
        Some(page) => {
            let token = listing_token(alloc, page)?;
            Ok(json!(in alloc; {"NextToken": token, "Shards": shards})?)
        }
        None => Ok(json!(in alloc; {"Shards": shards})?),
    }
}
