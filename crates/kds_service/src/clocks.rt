//! Raises the clocks of all streams, sets these clocks back, and removes trimmed records. The clock is the greatest
//! time of all commands so far. A record is trimmed once it is older than its stream's retention period.
ghost use Rattle.std.specs.Prelude.{◌≡◌, ◌≤◌, map};
ghost use Rattle.indexmap.specs.IndexMap.{keys, values};
ghost use Rattle.kds_defs.specs.Journal.{Journal};
ghost use Rattle.kds_service.specs.Clocks.{advanced, in_rotation, retreated, settled_in};
ghost use Rattle.kds_service.specs.Shown.{AreAt, AreShown};

use crate::streams_by_name::Streams;
use kds_base::Moment;

/// Raises the clock of every stream from `before` to `clock`. Precondition: the clock of every stream is `before`, and
/// `clock` isn't earlier than `before`.
pub fn advance_all(streams: &mut Streams, before: Moment, clock: Moment)
    requires at { AreAt before (values streams.old) }
    requires later { before ≤ clock }
    ensures value { values streams.new ≡ map (advanced clock) (values streams.old) }
    ensures keys { keys streams.new ≡ keys streams.old }
    ensures shows { (log : Journal) → AreShown log (values streams.old) → AreShown log (values streams.new) }
{
    for i in 0..streams.len() {
        streams[i].advance(clock);
    }
}

/// Sets the clock and the trim horizon of every stream back to their values before the last `advance_all`. If a stream
/// was changed since that `advance_all`, or its `settle` (which removes trimmed records) was called, this stream keeps
/// its present clock and trim horizon.
pub fn retreat_all(streams: &mut Streams)
    ensures value { values streams.new ≡ map retreated (values streams.old) }
    ensures keys { keys streams.new ≡ keys streams.old }
{
    for i in 0..streams.len() {
        streams[i].retreat();
    }
}

/// Returns the index that comes next in a rotation over `count` indices: `next` if it is below `count`, otherwise 0.
pub fn in_rotation(count: usize, next: usize) -> usize
    ensures { result ≡ in_rotation count next }
{
    if next < count { next } else { 0 }
}

/// Removes the trimmed records of one shard from the stream at the index `i`, if this stream exists. No reply to a
/// client depends on whether trimmed records are removed.
pub fn settle_stream(streams: &mut Streams, i: usize)
    ensures value { values streams.new ≡ settled_in i (values streams.old) }
    ensures keys { keys streams.new ≡ keys streams.old }
    ensures shows { (log : Journal) → AreShown log (values streams.old) → AreShown log (values streams.new) }
{
    if i < streams.len() {
        streams[i].settle();
    }
}
