//! Carries out the steps of a scaling (UpdateShardCount). Each step is a merge or a split. The journal is the event log
//! of the server, and an entry is one event.
ghost use Rattle.std.specs.Prelude.{OnOk, ◌≡◌, ◌+◌, ◌-◌, ◌*◌, ◌^◌, ◌<◌, ◌≤◌, ◌++◌, ◌∷◌, ◌||◌, [], true, false, ℕ, List};
ghost use Rattle.std.specs.Prelude.{length, map, nat_lt, replicate, vec_capacity, vec_len};
ghost use Rattle.kds_defs.specs.ScaleCommands.{made_by};
ghost use Rattle.kds_defs.specs.Scaling.{LeadTo, MayStep, after_step, is_start, with_start, without};
ghost use Rattle.kds_defs.specs.StreamCommands.{last_number};
ghost use Rattle.kds_log.specs.Log.{log_of};
ghost use Rattle.kds_stream_logs.specs.Steps.{AreMore, MayScale, entries_in, entry_in, scaled, starts_in, stepped};
ghost use Rattle.kds_stream_logs.specs.Logs.{empty_log};

use kds_base::{Memory, Moment, Seq, ShardNo, StreamNo};
use kds_defs::{Entry, ScaleStep};
use kds_log::ShardLog;
use kds_rate::Window;
use kds_tree::ShardTree;
use std::alloc::Global;

/// Returns the number of new shards that the steps make: one for each merge, and two for each split.
pub fn made_by(steps: &[ScaleStep]) -> u32
    requires { length steps.now ≤ 2 ^ 30 }
    ensures { result ≡ made_by steps.now }
{
    let mut made: u32 = 0;
    for step in steps {
        made += match step {
            ScaleStep::Join(_) => 1,
            ScaleStep::Cut(_) => 2,
        };
    }
    made
}

/// Whether a stream has too few sequence numbers or shard numbers left for a scaling. `steps` is the number of steps.
/// Each step uses one sequence number. `made` is the number of new shards. `next` is the stream's next sequence number.
/// `shards` is the number of shards that the stream has ever had.
pub fn is_spent(next: u64, steps: u64, shards: u64, made: u64) -> bool
    ensures { result ≡ (nat_lt last_number (next + steps) || nat_lt last_number (shards + made)) }
{
    next.checked_add(steps).is_none() || shards.checked_add(made).is_none()
}

/// Merges two adjacent open shards, and returns the journal entry of the merge. The range of the first shard ends right
/// before the hash key `start`, and the range of the second shard starts at this key. Precondition: two such open
/// shards exist, and memory for their child is reserved.
fn take_merge(tree: &mut ShardTree, no: StreamNo, start: u128, seq: Seq, clock: Moment) -> Entry
    requires above { 0 < start }
    requires there { is_start (starts_in tree.old.shards) start ≡ true }
    requires room { 1 ≤ tree.old.spare }
    requires number { seq + 1 < 2 ^ 64 }
    ensures value { tree.new.shards ≡ stepped (ScaleStep.Join start) seq clock tree.old.shards }
    ensures starts { starts_in tree.new.shards ≡ without start (starts_in tree.old.shards) }
    ensures spare { tree.old.spare ≤ tree.new.spare + 1 }
    ensures entry { result ≡ entry_in no (ScaleStep.Join start) seq tree.old.shards }
{
    let child = ShardNo(tree.len());
    let shard = tree.home(start - 1);
    let other = tree.home(start);
    // The result isn't needed: the precondition rules out that the merge is refused or that memory runs out.
    let _child = tree.merge(shard, other, seq, clock);
    Entry::Merged {
        stream: no,
        shard,
        other,
        seq,
        child,
    }
}

/// Splits the open shard whose range contains the hash key `start` at this key, and returns the journal entry of the
/// split. Precondition: no open shard's range starts at `start`, and memory for the two children is reserved.
fn take_split(tree: &mut ShardTree, no: StreamNo, start: u128, seq: Seq, clock: Moment) -> Entry
    requires absent { is_start (starts_in tree.old.shards) start ≡ false }
    requires room { 2 ≤ tree.old.spare }
    requires number { seq + 1 < 2 ^ 64 }
    ensures value { tree.new.shards ≡ stepped (ScaleStep.Cut start) seq clock tree.old.shards }
    ensures starts { starts_in tree.new.shards ≡ with_start start (starts_in tree.old.shards) }
    ensures spare { tree.old.spare ≤ tree.new.spare + 2 }
    ensures entry { result ≡ entry_in no (ScaleStep.Cut start) seq tree.old.shards }
{
    let low = ShardNo(tree.len());
    let high = ShardNo(tree.len() + 1);
    let shard = tree.home(start);
    // The result isn't needed: the precondition rules out that the split is refused or that memory runs out.
    let _children = tree.split(shard, start, seq, clock);
    Entry::Split {
        stream: no,
        shard,
        at: start,
        seq,
        low,
        high,
    }
}

/// Carries out one step of a scaling, and returns the journal entry of this step. Precondition: the step won't be
/// refused, and memory for the shards that it makes is reserved.
fn take_step(tree: &mut ShardTree, no: StreamNo, step: ScaleStep, seq: Seq, clock: Moment) -> Entry
    requires may { MayStep step (starts_in tree.old.shards) }
    requires room { made_by (step ∷ []) ≤ tree.old.spare }
    requires number { seq + 1 < 2 ^ 64 }
    ensures value { tree.new.shards ≡ stepped step seq clock tree.old.shards }
    ensures starts { starts_in tree.new.shards ≡ after_step step (starts_in tree.old.shards) }
    ensures spare { tree.old.spare ≤ tree.new.spare + made_by (step ∷ []) }
    ensures entry { result ≡ entry_in no step seq tree.old.shards }
{
    match step {
        ScaleStep::Join(start) => take_merge(tree, no, start, seq, clock),
        ScaleStep::Cut(start) => take_split(tree, no, start, seq, clock),
    }
}

/// Carries out the steps of a scaling in order, and appends a journal entry for each step to `entries`. The first step
/// gets the sequence number `first`, and each later step gets the next one. Precondition: no step will be refused, and
/// memory for all new shards and entries is reserved.
pub fn take_steps(
    tree: &mut ShardTree,
    no: StreamNo,
    steps: &[ScaleStep],
    first: u64,
    clock: Moment,
    entries: &mut Vec<Entry>,
)
    requires may { MayScale steps.now tree.old.shards }
    requires room { made_by steps.now ≤ tree.old.spare }
    requires numbers { first + length steps.now < 2 ^ 64 }
    requires memory { vec_len entries.old + length steps.now ≤ vec_capacity entries.old }
    ensures value { tree.new.shards ≡ scaled steps.now first clock tree.old.shards }
    ensures starts { (wanted : List ℕ) → LeadTo steps.now (starts_in tree.old.shards) wanted
        → starts_in tree.new.shards ≡ wanted }
    ensures entries { entries.new.items ≡ entries.old.items ++ entries_in no steps.now first clock tree.old.shards }
{
    let mut number = first;
    for step in steps {
        let entry = take_step(tree, no, *step, Seq(number), clock);
        entries.push_reserved(entry);
        number += 1;
    }
}

/// Reserves memory for further shards, and for their logs and windows. `made` is the number of these shards. The
/// existing shards, logs and windows are unchanged, even if memory runs out.
pub fn reserve_shards(
    tree: &mut ShardTree,
    logs: &mut Vec<ShardLog>,
    windows: &mut Vec<Window>,
    made: u32,
) -> Result<(), Memory>
    ensures tree { tree.new.shards ≡ tree.old.shards }
    ensures logs { logs.new.items ≡ logs.old.items }
    ensures windows { windows.new.items ≡ windows.old.items }
    ensures spare { OnOk result (made ≤ tree.new.spare) }
    ensures logs_fit { OnOk result (vec_len logs.new + made ≤ vec_capacity logs.new) }
    ensures windows_fit { OnOk result (vec_len windows.new + made ≤ vec_capacity windows.new) }
{
    tree.reserve(made)?;
    logs.reserve(made as usize)?;
    windows.reserve(made as usize)?;
    Ok(())
}

/// Adds an empty log and an empty window for each new shard. A window counts what its shard accepts within a second.
/// `made` is the number of new shards, and `start` is their starting sequence number. Precondition: memory for the logs
/// and windows is reserved.
pub fn add_shards(
    alloc: Global,
    logs: &mut Vec<ShardLog>,
    windows: &mut Vec<Window>,
    made: u32,
    start: Seq,
)
    requires logs { vec_len logs.old + made ≤ vec_capacity logs.old }
    requires windows { vec_len windows.old + made ≤ vec_capacity windows.old }
    ensures logs { map log_of logs.new.items ≡ map log_of logs.old.items ++ replicate made empty_log }
    ensures windows { AreMore made windows.old.items windows.new.items }
{
    for _i in 0..made {
        logs.push_reserved(ShardLog::new(alloc, start));
        windows.push_reserved(Window::new());
    }
}
