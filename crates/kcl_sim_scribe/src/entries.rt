//! Computes the entries that accepted commands on streams add to the journal, which is an event log.
ghost use Rattle.std.specs.Prelude.{◌≡◌, ◌+◌, ◌<◌, ◌∷◌, [], IfOk};
ghost use Rattle.std.specs.List.{filter};
ghost use Rattle.kds_defs.specs.declared.entry.Entry.TheVariants as entry;
ghost use Rattle.kds_defs.specs.StreamCommands.{last_number};
ghost use Rattle.kcl_sim_scribe.specs.Telling.{HasNumbers, is_step, put_entries, put_entry, stream_entries};

use crate::known::Known;
use kds_base::{Items, Memory, Seq, ShardNo, StreamNo};
use kds_defs::{Command, Entry, NewItem, Outcome, Place, Reply};
use std::alloc::Global;

/// Returns a list that contains only `entry`.
pub fn one(alloc: Global, entry: Entry) -> Result<Items<Entry>, Memory>
    ensures { IfOk result (λ es. es ≡ entry ∷ []) }
{
    let mut entries = Items::new(alloc);
    entries.push(entry)?;
    Ok(entries)
}

/// Returns the entry of the record `item`, which was put into the stream with the number `stream`. `place` is the
/// record's shard and sequence number.
fn put(stream: StreamNo, item: &NewItem, place: &Place) -> Entry
    ensures { result ≡ put_entry stream item.now place.now }
{
    Entry::Put {
        stream,
        shard: place.shard,
        seq: place.seq,
        hash: item.hash,
        bytes: item.payload.as_slice().len() as u64,
        key_bytes: item.key.as_slice().len() as u64,
    }
}

/// Returns the entries of the records that one PutRecords command stored, in the order of the command. A record that
/// the throughput limits rejected has no entry.
fn puts(
    alloc: Global,
    stream: StreamNo,
    items: &[NewItem],
    outcomes: &[Outcome],
) -> Result<Items<Entry>, Memory>
    ensures { IfOk result (λ es. es ≡ put_entries stream items.now outcomes.now) }
{
    let mut entries = Items::new(alloc);
    for (item, outcome) in items.iter().zip(outcomes) {
        if let Outcome::Stored(place) = outcome {
            entries.push(put(stream, item, place))?;
        }
    }
    Ok(entries)
}

/// Returns copies of the splits and merges among `entries`, in order. These are the steps of a scaling
/// (UpdateShardCount).
fn steps(alloc: Global, entries: &[Entry]) -> Result<Items<Entry>, Memory>
    ensures { IfOk result (λ es. es ≡ filter is_step entries.now) }
{
    let mut steps = Items::new(alloc);
    for entry in entries {
        match entry {
            Entry::Split {
                stream,
                shard,
                at,
                seq,
                low,
                high,
            } => steps.push(Entry::Split {
                stream: *stream,
                shard: *shard,
                at: *at,
                seq: *seq,
                low: *low,
                high: *high,
            })?,
            Entry::Merged {
                stream,
                shard,
                other,
                seq,
                child,
            } => steps.push(Entry::Merged {
                stream: *stream,
                shard: *shard,
                other: *other,
                seq: *seq,
                child: *child,
            })?,
            _ => {}
        }
    }
    Ok(steps)
}

/// Returns the entry of a split of `shard` at the hash key `at`. The split gets the stream's next sequence number, and
/// its two children get the next shard numbers. Precondition: these numbers are available.
fn split(stream: &Known, shard: ShardNo, at: u128) -> Entry
    requires drawn { stream.now.drawn < last_number }
    requires shard { stream.now.shard + 1 < last_number }
    ensures { result ≡ entry.Split stream.now.no shard at (stream.now.drawn + 1) (stream.now.shard + 1)
        (stream.now.shard + 2) }
{
    Entry::Split {
        stream: stream.no,
        shard,
        at,
        seq: Seq(stream.drawn + 1),
        low: ShardNo(stream.shard + 1),
        high: ShardNo(stream.shard + 2),
    }
}

/// Returns the entry of a merge of `shard` and `other`. The merge gets the stream's next sequence number, and its child
/// gets the next shard number. Precondition: these numbers are available.
fn merged(stream: &Known, shard: ShardNo, other: ShardNo) -> Entry
    requires drawn { stream.now.drawn < last_number }
    requires shard { stream.now.shard < last_number }
    ensures { result ≡ entry.Merged stream.now.no shard other (stream.now.drawn + 1) (stream.now.shard + 1) }
{
    Entry::Merged {
        stream: stream.no,
        shard,
        other,
        seq: Seq(stream.drawn + 1),
        child: ShardNo(stream.shard + 1),
    }
}

/// Returns the entries of the accepted command `what` on `stream`. `reply` is the reply to this command. Precondition:
/// if the command is a split or a merge, the sequence number and the shard numbers that it assigns are available.
pub fn on_stream(
    alloc: Global,
    stream: &Known,
    what: &Command,
    reply: &Reply,
) -> Result<Items<Entry>, Memory>
    requires { HasNumbers stream.now what.now }
    ensures { IfOk result (λ es. es ≡ stream_entries stream.now what.now reply.now) }
{
    match what {
        Command::Delete { .. } => one(alloc, Entry::Gone { stream: stream.no }),
        Command::Put { item, .. } => match reply {
            Reply::Put(place) => one(alloc, put(stream.no, item, place)),
            _ => Ok(Items::new(alloc)),
        },
        Command::PutMany { items, .. } => match reply {
            Reply::PutMany(outcomes) => {
                puts(alloc, stream.no, items.as_slice(), outcomes.as_slice())
            }
            _ => Ok(Items::new(alloc)),
        },
        Command::Split { shard, at, .. } => one(alloc, split(stream, *shard, *at)),
        Command::Merge { shard, other, .. } => one(alloc, merged(stream, *shard, *other)),
        Command::Keep { hours, .. } => {
            let (stream, hours) = (stream.no, *hours);
            one(alloc, Entry::Kept { stream, hours })
        }
        Command::Scale { .. } => match reply {
            Reply::Scaled { entries, .. } => steps(alloc, entries.as_slice()),
            _ => Ok(Items::new(alloc)),
        },
        Command::Enforce { on, .. } => {
            let (stream, on) = (stream.no, *on);
            one(alloc, Entry::Enforced { stream, on })
        }
        _ => Ok(Items::new(alloc)),
    }
}
