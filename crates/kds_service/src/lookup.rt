//! Finds the stream for a command, and the number of shards that may be open in this stream. A token is a shard
//! iterator or a NextToken. A stream is live from its creation until its deletion.
ghost use Rattle.std.specs.Prelude.{◌≡◌, ◌<◌, ◌-◌, IfSome, length, true};
ghost use Rattle.indexmap.specs.IndexMap.{keys, values};
ghost use Rattle.kds_defs.specs.declared.limits.TheConstants.{OPEN_SHARDS};
ghost use Rattle.kds_stream.specs.Serving.{needs_open_limit, token_stream};
ghost use Rattle.kds_service.specs.Indexes.{token_refusal, open_beside, index_for};
ghost use Rattle.kds_service.specs.Shown.{names_of};

use crate::streams_by_name::{Streams, index_by_name, index_by_number, open_limit};
use kds_base::{Moment, StreamNo};
use kds_defs::limits::OPEN_SHARDS;
use kds_defs::{Command, Refusal};
use kds_token::{iter_expired, page_expired};

/// Returns the refusal of a command whose token (shard iterator or NextToken) is too old, and `None` for every other
/// command (Kinesis API Reference, GetRecords, ExpiredIteratorException; ListShards, ExpiredNextTokenException).
pub fn token_refusal(what: &Command, clock: Moment) -> Option<Refusal>
    ensures { result ≡ token_refusal clock what.now }
{
    match what {
        Command::Records { iter, .. } => iter_expired(iter, clock).then_some(Refusal::Expired),
        Command::More { page, .. } => page_expired(page, clock).then_some(Refusal::PageExpired),
        _ => None,
    }
}

/// Returns the number of the stream to which the command's token (shard iterator or NextToken) belongs, or `None` if
/// the command has no token.
fn token_stream(what: &Command) -> Option<StreamNo>
    ensures { result ≡ token_stream what.now }
{
    match what {
        Command::Records { iter, .. } => Some(iter.stream),
        Command::More { page, .. } => Some(page.stream),
        _ => None,
    }
}

/// Returns the index of the stream that the command names or to which the command's token belongs, or `None` if this
/// stream isn't live.
pub fn index_for(streams: &Streams, what: &Command) -> Option<usize>
    requires { keys streams.now ≡ names_of (values streams.now) }
    ensures value { result ≡ index_for (values streams.now) what.now }
    ensures within { IfSome result (λ i. i < length (values streams.now)) }
{
    match token_stream(what) {
        Some(no) => index_by_number(streams, no),
        None => {
            let name = what.stream_name()?;
            index_by_name(streams, name)
        }
    }
}

/// Returns the greatest number of shards that may be open in the stream with the number `no`, given the open shards of
/// the other streams. Only SplitShard and UpdateShardCount need this number. For every other command the result is
/// `OPEN_SHARDS`.
pub fn open_limit_for(streams: &Streams, no: StreamNo, what: &Command) -> u64
    ensures { needs_open_limit what.now ≡ true → result ≡ OPEN_SHARDS - open_beside (values streams.now) no }
{
    match what {
        Command::Split { .. } | Command::Scale { .. } => open_limit(streams, no),
        _ => OPEN_SHARDS,
    }
}
