//! Writes the child shards of a closed shard directly as JSON text.
ghost use Rattle.std.specs.Prelude.{◌≡◌, IfOk};
ghost use Rattle.serde_json.specs.Written.{compact_text};
ghost use Rattle.kds_reply_texts.specs.Bodies.{id_data, list_data};
ghost use Rattle.kds_reply_texts.specs.Children.{range_data, parents_of, child_data};
ghost use Rattle.kds_reply_texts.specs.Writing.{AddsTokens, tokens_of, id_tokens};

use crate::writing::{
    begin_object, end_object, new_writer, put_hash_key, put_name, put_text, written,
};
use json::Writer;
use kds_base::{Memory, Octets, Range, ShardNo};
use kds_defs::Shard;
use kds_token::shard_id;
use std::alloc::Global;

/// An upper bound on the bytes of the JSON text of one child shard.
const CHILD_BYTES: usize = 320;

/// Writes a range of hash keys as a JSON object (Kinesis API Reference, HashKeyRange).
fn put_range(out: &mut Writer, range: &Range) -> Result<(), Memory>
    ensures { AddsTokens result out.old out.new (tokens_of (range_data range.now)) }
{
    begin_object(out)?;
    put_hash_key(out, "EndingHashKey", range.end)?;
    put_hash_key(out, "StartingHashKey", range.start)?;
    end_object(out)?;
    Ok(())
}

/// Writes the ID of a shard as a JSON string. Writes nothing if `shard` is `None`.
fn put_id(out: &mut Writer, shard: &Option<ShardNo>) -> Result<(), Memory>
    ensures { AddsTokens result out.old out.new (id_tokens shard.now) }
{
    match shard {
        Some(shard) => {
            out.string(shard_id(*shard).as_str())?;
            Ok(())
        }
        None => Ok(()),
    }
}

/// Writes the IDs of the parents of a shard as a JSON array, with the adjacent parent last.
fn put_parents(out: &mut Writer, shard: &Shard) -> Result<(), Memory>
    ensures { AddsTokens result out.old out.new (tokens_of (list_data id_data (parents_of shard.now))) }
{
    out.begin_array()?;
    put_id(out, &shard.parent)?;
    put_id(out, &shard.adjacent)?;
    out.end_array()?;
    Ok(())
}

/// Writes one child shard as a JSON object (Kinesis API Reference, ChildShard).
fn put_child(out: &mut Writer, shard: &Shard) -> Result<(), Memory>
    ensures { AddsTokens result out.old out.new (tokens_of (child_data shard.now)) }
{
    let id = shard_id(shard.no);
    begin_object(out)?;
    put_name(out, "HashKeyRange")?;
    put_range(out, &shard.range)?;
    put_name(out, "ParentShards")?;
    put_parents(out, shard)?;
    put_text(out, "ShardId", id.as_str())?;
    end_object(out)?;
    Ok(())
}

/// Writes child shards as a JSON array.
fn put_children(out: &mut Writer, shards: &[Shard]) -> Result<(), Memory>
    ensures { AddsTokens result out.old out.new (tokens_of (list_data child_data shards.now)) }
{
    out.begin_array()?;
    for shard in shards {
        put_child(out, shard)?;
    }
    out.end_array()?;
    Ok(())
}

/// Returns the JSON text of an array of child shards.
pub fn children_text(alloc: Global, shards: &[Shard]) -> Result<Octets, Memory>
    ensures { IfOk result (λ o. o ≡ compact_text (list_data child_data shards.now)) }
{
    let mut out = new_writer(alloc, shards.len().saturating_mul(CHILD_BYTES))?;
    put_children(&mut out, shards)?;
    Ok(written(out))
}
