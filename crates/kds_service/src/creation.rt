//! Creates and deletes streams.
ghost use Rattle.std.specs.Prelude.{◌≡◌, ℕ, IfOk, OnErr};
ghost use Rattle.indexmap.specs.IndexMap.{values};
ghost use Rattle.kds_defs.specs.declared.command.Command.TheVariants as command;
ghost use Rattle.kds_defs.specs.Lawful.{IsShardCount};
ghost use Rattle.kds_service.specs.Indexes.{AreNamedAt};
ghost use Rattle.kds_service.specs.Shown.{Leads, LeadsTo, service};

use crate::laws;
use crate::streams_by_name::{Streams, index_by_name, is_full};
use kds_base::{Memory, Moment, Name, StreamNo};
use kds_defs::{Answer, Refusal, Reply};
use kds_stream::Stream;
use std::alloc::Global;

/// Creates a stream with `shards` shards, and adds it after the other streams (Kinesis API Reference, CreateStream).
/// `made_count` is the greatest stream number so far, including deleted streams. The new stream gets the next number,
/// and `made_count` is raised to this number.
pub fn create(
    alloc: Global,
    streams: &mut Streams,
    made_count: &mut u64,
    clock: Moment,
    name: Name,
    shards: u32,
) -> Result<Answer, Memory>
    requires named { AreNamedAt clock streams.old.entries }
    requires count { IsShardCount shards }
    ensures leads { (old : ℕ)
        → IfOk result (Leads (service clock old made_count.old (values streams.old))
        (service clock old made_count.new (values streams.new)) (command.Create name shards)) }
    ensures named { AreNamedAt clock streams.new.entries }
    ensures kept { OnErr result ((values streams.new ≡ values streams.old) × (made_count.new ≡ made_count.old)) }
{
    laws::others();
    if index_by_name(streams, &name).is_some() {
        return Ok(Err(Refusal::StreamThere));
    }
    if is_full(streams, shards as u64) {
        return Ok(Err(Refusal::Full));
    }
    let last = *made_count;
    if last == u64::MAX {
        return Ok(Err(Refusal::Spent));
    }
    let key = name.copy(alloc)?;
    let stream = Stream::new(alloc, StreamNo(last + 1), name, clock, shards)?;
    streams.insert(key, stream)?;
    *made_count = last + 1;
    Ok(Ok(Reply::Done))
}

/// Deletes the stream with this name (Kinesis API Reference, DeleteStream). The other streams keep their order.
pub fn delete(streams: &mut Streams, clock: Moment, name: &Name) -> Answer
    requires { AreNamedAt clock streams.old.entries }
    ensures leads { LeadsTo clock (values streams.old) (values streams.new) (command.Delete name.now) result }
    ensures named { AreNamedAt clock streams.new.entries }
{
    laws::others();
    match index_by_name(streams, name) {
        None => Err(Refusal::NoStream),
        Some(i) => {
            streams.shift_remove_index(i);
            Ok(Reply::Done)
        }
    }
}
