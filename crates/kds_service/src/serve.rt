//! Serves one command for the stream service. The clocks of all streams are equal. A stream is live from its creation
//! until its deletion.
ghost use Rattle.std.specs.Prelude.{◌≡◌, ℕ, true, IfOk, OnErr};
ghost use Rattle.indexmap.specs.IndexMap.{values};
ghost use Rattle.kds_defs.specs.Kinds.{is_service};
ghost use Rattle.kds_defs.specs.Lawful.{IsLawfulCommand};
ghost use Rattle.kds_stream.specs.Serving.{is_of_stream};
ghost use Rattle.kds_service.specs.Indexes.{AreNamedAt};
ghost use Rattle.kds_service.specs.Shown.{Leads, LeadsTo, service};

use crate::creation::{create, delete};
use crate::laws;
use crate::listing::streams as list_streams;
use crate::lookup::{index_for, open_limit_for, token_refusal};
use crate::streams_by_name::Streams;
use kds_base::{Memory, Moment};
use kds_defs::{Answer, Command, Refusal};
use std::alloc::Global;

/// Serves a command for the stream service at the time `clock`, which must be the clock of every stream. `made_count`
/// is the number of streams that were ever created.
pub fn serve(
    alloc: Global,
    streams: &mut Streams,
    made_count: &mut u64,
    clock: Moment,
    what: Command,
) -> Result<Answer, Memory>
    requires named { AreNamedAt clock streams.old.entries }
    requires lawful { IsLawfulCommand what }
    requires own { is_service what ≡ true }
    ensures leads { (old : ℕ)
        → IfOk result (Leads (service clock old made_count.old (values streams.old))
        (service clock old made_count.new (values streams.new)) what) }
    ensures named { AreNamedAt clock streams.new.entries }
    ensures kept { OnErr result ((values streams.new ≡ values streams.old) × (made_count.new ≡ made_count.old)) }
{
    match what {
        Command::Create { name, shards } => create(alloc, streams, made_count, clock, name, shards),
        Command::Delete { name } => Ok(delete(streams, clock, &name)),
        Command::Streams { after, limit } => list_streams(alloc, streams, clock, &after, limit),
        other => serve_one(alloc, streams, clock, other),
    }
}

/// Serves a command for one existing stream. If the command's token (shard iterator or NextToken) is too old, the
/// command is refused before its stream is looked up. Otherwise the command is refused with `NoStream` if its stream
/// isn't live.
fn serve_one(
    alloc: Global,
    streams: &mut Streams,
    clock: Moment,
    what: Command,
) -> Result<Answer, Memory>
    requires named { AreNamedAt clock streams.old.entries }
    requires lawful { IsLawfulCommand what }
    requires own { is_of_stream what ≡ true }
    ensures leads { IfOk result (LeadsTo clock (values streams.old) (values streams.new) what) }
    ensures named { AreNamedAt clock streams.new.entries }
    ensures kept { OnErr result (values streams.new ≡ values streams.old) }
{
    laws::others();
    if let Some(refusal) = token_refusal(&what, clock) {
        return Ok(Err(refusal));
    }
    match index_for(streams, &what) {
        None => Ok(Err(Refusal::NoStream)),
        Some(i) => {
            let no = streams[i].no();
            let limit = open_limit_for(streams, no, &what);
            streams[i].serve(alloc, what, limit)
        }
    }
}
