//! The live streams of the service by name, and the limits on the number of streams and of open shards. A stream is
//! live from its creation until its deletion.
ghost use Rattle.std.specs.Prelude.{◌≡◌, ◌+◌, ◌-◌, ◌<◌, IfSome, length, nat_le};
ghost use Rattle.kds_defs.specs.declared.limits.TheConstants.{OPEN_SHARDS};
ghost use Rattle.indexmap.specs.IndexMap.{keys, values};
ghost use Rattle.kds_service.specs.Indexes.{is_full, open_beside, open_total, open_unless, index_by_number};
ghost use Rattle.kds_service.specs.Indexes.{index_by_name};
ghost use Rattle.kds_service.specs.Shown.{names_of};

use indexmap::IndexMap;
use kds_base::{Name, StreamNo};
use kds_defs::limits::{LIVE_STREAMS, OPEN_SHARDS};
use kds_stream::Stream;

/// The live streams, which can be found by name and are in the order of their numbers.
pub type Streams = IndexMap<Name, Stream>;

/// Returns the index of the stream with this name, or `None` if no live stream has this name.
pub fn index_by_name(streams: &Streams, name: &Name) -> Option<usize>
    requires { keys streams.now ≡ names_of (values streams.now) }
    ensures value { result ≡ index_by_name (values streams.now) name.now }
    ensures within { IfSome result (λ i. i < length (values streams.now)) }
{
    streams.get_index_of(name)
}

/// Returns the index of the stream with this number, or `None` if no live stream has this number. The search is linear,
/// and there are at most 64 streams.
pub fn index_by_number(streams: &Streams, no: StreamNo) -> Option<usize>
    ensures value { result ≡ index_by_number (values streams.now) no }
    ensures within { IfSome result (λ i. i < length (values streams.now)) }
{
    for i in 0..streams.len() {
        if streams[i].no() == no {
            return Some(i);
        }
    }
    None
}

/// Whether further shards may be opened. `more` is the number of these shards. At most `OPEN_SHARDS` shards may be open
/// in all streams together.
pub fn may_open(streams: &Streams, more: u64) -> bool
    ensures { result ≡ nat_le (open_total (values streams.now) + more) OPEN_SHARDS }
{
    if more > OPEN_SHARDS {
        return false;
    }
    let mut left = OPEN_SHARDS - more;
    for i in 0..streams.len() {
        let open = streams[i].open_count() as u64;
        if open > left {
            return false;
        }
        left -= open;
    }
    true
}

/// Returns the number of open shards of `stream`, or 0 if `no` is the number of `stream`.
fn open_unless(stream: &Stream, no: StreamNo) -> u64
    ensures { result ≡ open_unless stream.now no }
{
    if stream.no() == no {
        0
    } else {
        stream.open_count() as u64
    }
}

/// Returns the greatest number of shards that may be open in the stream with the number `no`: `OPEN_SHARDS` minus the
/// number of open shards of all other streams.
pub fn open_limit(streams: &Streams, no: StreamNo) -> u64
    ensures { result ≡ OPEN_SHARDS - open_beside (values streams.now) no }
{
    let mut left = OPEN_SHARDS;
    for i in 0..streams.len() {
        let open = open_unless(&streams[i], no);
        left = left.saturating_sub(open);
    }
    left
}

/// Whether a new stream with `shards` shards would exceed the limit on live streams or the limit on open shards.
pub fn is_full(streams: &Streams, shards: u64) -> bool
    ensures { result ≡ is_full (values streams.now) shards }
{
    streams.len() as u64 >= LIVE_STREAMS || !may_open(streams, shards)
}
