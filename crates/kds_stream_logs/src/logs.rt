//! The logs of a stream's shards. Each log has the records of one shard.
ghost use Rattle.std.specs.Prelude.{◌≡◌, ◌<◌, length, map, replicate, IfOk, OnOk, OnErr, Some};
ghost use Rattle.std.specs.List.{AllByRecursion};
ghost use Rattle.kds_defs.specs.Records.{logged};
ghost use Rattle.kds_defs.specs.Streams.{floor_of};
ghost use Rattle.kds_log.specs.Log.{log_of};
ghost use Rattle.kds_stream_logs.specs.Logs.{HasArrived, IsBelow, empty_log, settled_at, with_appended};

use kds_base::{Memory, Moment, Seq};
use kds_defs::Stored;
use kds_log::ShardLog;
use std::alloc::Global;

/// Returns an empty log for each of the `n` shards of a new stream. The sequence numbers of the stream begin with 1.
pub fn new_logs(alloc: Global, n: u32) -> Result<Vec<ShardLog>, Memory>
    ensures { IfOk result (λ logs. map log_of logs.items ≡ replicate n empty_log) }
{
    let mut logs = Vec::new(alloc);
    for _i in 0..n {
        logs.push(ShardLog::new(alloc, Seq(1)))?;
    }
    Ok(logs)
}

/// Appends a record to the log at the index `i`. Preconditions: the sequence number of the record is greater than that
/// of every record that was appended to the stream's logs before, and no record in these logs arrived later than this
/// record. If memory runs out, the logs are unchanged.
fn append_at(logs: &mut [ShardLog], i: usize, item: Stored) -> Result<(), Memory>
    requires within { i < length logs.old }
    requires number { AllByRecursion (IsBelow item.seq) (map log_of logs.old) }
    requires arrival { AllByRecursion (HasArrived item.arrival) (map log_of logs.old) }
    ensures ok { OnOk result (map log_of logs.new ≡ with_appended i (logged item) (map log_of logs.old)) }
    ensures err { OnErr result (map log_of logs.new ≡ map log_of logs.old) }
{
    logs[i].append(item)
}

/// Removes from the log at the index `i` the records that arrived at or before the trim horizon `cut`. Does nothing if
/// there is no log at this index.
pub fn settle_at(logs: &mut [ShardLog], i: usize, cut: &Option<Moment>)
    ensures { map log_of logs.new ≡ settled_at (floor_of cut.now) i (map log_of logs.old) }
{
    let Some(cut) = cut else {
        return;
    };
    if i < logs.len() {
        logs[i].trim(*cut);
    }
}

/// Appends a record as `append_at` does. Then removes from the same log the records that arrived at or before the trim
/// horizon `cut`.
pub fn put_at(
    logs: &mut [ShardLog],
    i: usize,
    item: Stored,
    cut: Option<Moment>,
) -> Result<(), Memory>
    requires within { i < length logs.old }
    requires number { AllByRecursion (IsBelow item.seq) (map log_of logs.old) }
    requires arrival { AllByRecursion (HasArrived item.arrival) (map log_of logs.old) }
    ensures ok { OnOk result (map log_of logs.new
        ≡ settled_at (floor_of cut) i (with_appended i (logged item) (map log_of logs.old))) }
    ensures err { OnErr result (map log_of logs.new ≡ map log_of logs.old) }
{
    append_at(logs, i, item)?;
    settle_at(logs, i, &cut);
    Ok(())
}
