//! Judges the entries about streams in a journal, which is an event log, and applies the good entries to the judge's
//! model of the streams. An entry records a command and what this command changed. It is good if it breaks no rule.
ghost use Rattle.std.specs.Prelude.{ℕ, Bool, ◌≡◌, ◌≤◌, ◌-◌, ◌∷◌, ◌++◌, [], None, Some, Ok, IfErr, IfOk, OnErr, OnOk};
ghost use Rattle.kds_defs.specs.declared.limits.TheConstants.{MOST_SHARDS};
ghost use Rattle.kds_defs.specs.declared.reply.Refusal.TheVariants as refusal;
ghost use Rattle.kcl_audit_streams.specs.declared.rule.Rule.TheVariants as rule;
ghost use Rattle.kcl_audit_streams.specs.Verdict.{IsFit};
ghost use Rattle.kcl_audit_streams.specs.Judging.{changed_at, entry_verdict, in_live, exceeds_open_limit, made_verdict};
ghost use Rattle.kcl_audit_streams.specs.Judging.{merge_verdict, new_stream, put_verdict, split_verdict};
ghost use Rattle.kcl_audit_streams.specs.Judging.{stream_verdict, streams_after, with_entry};
ghost use Rattle.kcl_audit_streams.specs.Standing.{live_at};

use crate::rule::Rule;
use crate::stream::{ToldStream, agrees, refused};
use crate::streams::StreamList;
use kds_base::{Memory, Moment, Name, Seq, ShardNo, StreamNo};
use kds_defs::{Entry, Refusal};
use std::alloc::Global;

/// Judges the entry `made`, which says that a stream with the number `no`, the name `name` and `shards` shards was
/// created.
fn judge_made(streams: &StreamList, no: StreamNo, name: &Name, shards: u32) -> Result<(), Rule>
    requires { shards ≤ MOST_SHARDS }
    ensures { result ≡ made_verdict streams.now no name.now shards }
{
    match streams.made_refusal(name, shards) {
        Some(refusal) => refused(refusal),
        None => agrees(no.0 == streams.len() + 1),
    }
}

/// Returns the live stream with the number `no`. If there is no such stream, returns the rule `By` with the refusal
/// `NoStream`, because every entry about a missing stream breaks this rule.
fn in_stream(streams: &StreamList, no: StreamNo) -> Result<&ToldStream, Rule>
    ensures some { IfOk result (λ x. live_at streams.now no ≡ Some x.now) }
    ensures none { IfErr result (λ r. (r ≡ rule.By refusal.NoStream) × (live_at streams.now no ≡ None)) }
{
    match streams.live(no) {
        Some(stream) => Ok(stream),
        None => Err(Rule::By(Refusal::NoStream)),
    }
}

/// Judges the entry `split`, which says that a shard of the stream with the number `no` was split. The present time is
/// `clock`. The entry breaks a rule if there is no live stream with this number.
fn judge_split(
    streams: &StreamList,
    clock: Moment,
    no: StreamNo,
    shard: ShardNo,
    at: u128,
    seq: Seq,
    low: ShardNo,
    high: ShardNo,
) -> Result<(), Rule>
    ensures { result ≡ in_live (live_at streams.now no)
        (λ v. split_verdict v clock shard at (exceeds_open_limit streams.now 1) seq low high) }
{
    let stream = in_stream(streams, no)?;
    stream.judge_split(
        clock,
        shard,
        at,
        streams.exceeds_open_limit(1),
        seq,
        low,
        high,
    )
}

/// Judges an entry about a stream. The present time is `clock`. Returns the rule that the entry breaks, or `Ok` if the
/// entry is good.
pub fn judge(streams: &StreamList, clock: Moment, what: &Entry) -> Result<(), Rule>
    requires { IsFit what.now }
    ensures { result ≡ stream_verdict streams.now clock what.now }
{
    match what {
        Entry::Made {
            stream,
            name,
            shards,
        } => judge_made(streams, *stream, name, *shards),
        Entry::Put {
            stream,
            shard,
            seq,
            hash,
            bytes,
            key_bytes,
        } => {
            let size = *bytes + *key_bytes;
            in_stream(streams, *stream)?.judge_put(clock, *shard, *seq, *hash, size)
        }
        Entry::Split {
            stream,
            shard,
            at,
            seq,
            low,
            high,
        } => judge_split(streams, clock, *stream, *shard, *at, *seq, *low, *high),
        Entry::Merged {
            stream,
            shard,
            other,
            seq,
            child,
        } => in_stream(streams, *stream)?.judge_merge(clock, *shard, *other, *seq, *child),
        _ => match what.stream() {
            Some(stream) => in_stream(streams, stream).map(|_| ()),
            None => Ok(()),
        },
    }
}

/// Applies an entry about a stream. Precondition: `judge` finds this entry good at the time `clock`. If memory runs
/// out, the streams are unchanged.
pub fn add(
    alloc: Global,
    streams: &mut StreamList,
    clock: Moment,
    what: Entry,
) -> Result<(), Memory>
    requires told { IsFit what }
    requires good { stream_verdict streams.old clock what ≡ Ok tt }
    ensures ok { OnOk result (streams.new ≡ streams_after clock what streams.old) }
    ensures err { OnErr result (streams.new ≡ streams.old) }
{
    match what {
        Entry::Made { name, shards, .. } => streams.add_made(alloc, name, shards),
        what => match what.stream() {
            Some(no) => streams.add_later(clock, no, &what),
            None => Ok(()),
        },
    }
}
