//! Writes the reply to GetRecords directly as JSON text.
ghost use Rattle.std.specs.Prelude.{◌≡◌, ◌++◌, Some, None, List, take, vec_len, OnOk};
ghost use Rattle.serde_json.specs.Written.{compact_text};
ghost use Rattle.kds_defs.specs.declared.reply.Shard.{Shard};
ghost use Rattle.kds_reply_texts.specs.Records.{records_data};

use crate::children::children_text;
use crate::pieces::{push_piece, put_decimal, reserve};
use crate::records::{append_records, record_size};
use crate::tokens::{ITERATOR_BYTES, escaped_iter};
use kds_base::Memory;
use kds_defs::{Iter, Shard, Stored};
use std::alloc::Global;

/// Returns how many bytes to reserve for the reply. If no partition key needs escaping, they are enough for the
/// records.
fn size_of_batch(batch: &[Stored]) -> usize {
    let mut size = ITERATOR_BYTES;
    for stored in batch {
        let (payload, key) = (stored.payload.as_slice(), stored.key.as_slice());
        size = size.saturating_add(record_size(payload, key));
    }
    size
}

/// Appends the body of the reply to a read that didn't reach the end of a closed shard: the records,
/// MillisBehindLatest, and the next iterator.
fn put_open(
    out: &mut Vec<u8>,
    alloc: Global,
    batch: &[Stored],
    next: &Iter,
    behind: u64,
) -> Result<(), Memory>
    ensures front { take (vec_len out.old) out.new.items ≡ out.old.items }
    ensures ok { (children : List Shard)
        → OnOk result (out.new.items ≡ out.old.items
        ++ compact_text (records_data batch.now (Some next.now) behind children)) }
{
    let token = escaped_iter(alloc, next)?;
    push_piece(out, b"{\"MillisBehindLatest\":")?;
    put_decimal(out, behind)?;
    push_piece(out, b",\"NextShardIterator\":\"")?;
    push_piece(out, token.as_slice())?;
    push_piece(out, b"\",\"Records\":")?;
    append_records(out, alloc, batch)?;
    push_piece(out, b"}")?;
    Ok(())
}

/// Appends the body of the reply to a read that reached the end of a closed shard: the records, MillisBehindLatest, and
/// the shard's children.
fn put_end(
    out: &mut Vec<u8>,
    alloc: Global,
    batch: &[Stored],
    behind: u64,
    children: &[Shard],
) -> Result<(), Memory>
    ensures front { take (vec_len out.old) out.new.items ≡ out.old.items }
    ensures ok { OnOk result (out.new.items ≡ out.old.items
        ++ compact_text (records_data batch.now None behind children.now)) }
{
    let family = children_text(alloc, children)?;
    push_piece(out, b"{\"ChildShards\":")?;
    push_piece(out, family.as_slice())?;
    push_piece(out, b",\"MillisBehindLatest\":")?;
    put_decimal(out, behind)?;
    push_piece(out, b",\"NextShardIterator\":null,\"Records\":")?;
    append_records(out, alloc, batch)?;
    push_piece(out, b"}")?;
    Ok(())
}

/// Appends the body of the reply to GetRecords: the records, MillisBehindLatest, and the next iterator. At the end of a
/// closed shard, `next` is `None`. The next iterator in the reply is then null, and the shard's children are included
/// (Kinesis API Reference, GetRecords, Response Elements).
pub fn add_batch(
    out: &mut Vec<u8>,
    alloc: Global,
    batch: &[Stored],
    next: &Option<Iter>,
    behind: u64,
    children: &[Shard],
) -> Result<(), Memory>
    ensures front { take (vec_len out.old) out.new.items ≡ out.old.items }
    ensures ok { OnOk result (out.new.items ≡ out.old.items
        ++ compact_text (records_data batch.now next.now behind children.now)) }
{
    reserve(out, size_of_batch(batch))?;
    match next {
        Some(next) => put_open(out, alloc, batch, next, behind),
        None => put_end(out, alloc, batch, behind, children),
    }
}
