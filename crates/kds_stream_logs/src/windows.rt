//! The throughput windows of a stream's shards. The window of a shard counts the records and bytes that the shard
//! accepted in the same second (of time) as its latest put.
ghost use Rattle.std.specs.Prelude.{◌≡◌, ◌<◌, ◌==◌, ℕ, length, not, IfOk, List};
ghost use Rattle.std.specs.List.{AllByRecursion};
ghost use Rattle.kds_defs.specs.Rates.{SizedPut, is_throttled};
ghost use Rattle.kds_stream_logs.specs.Rating.{IsCounted, IsUnused, StandFor, with_put};
ghost use Rattle.kds_stream_logs.specs.Saved.{DiffersAt, restored};

use kds_base::{Memory, Moment, ShardNo};
use kds_rate::Window;
use std::alloc::Global;

/// Returns a window for each of the `n` shards of a new stream. These windows have counted no record yet.
pub fn new_windows(alloc: Global, n: u32) -> Result<Vec<Window>, Memory>
    ensures many { IfOk result (λ windows. length windows.items ≡ n) }
    ensures unused { IfOk result (λ windows. AllByRecursion IsUnused windows.items) }
{
    let mut windows = Vec::new(alloc);
    for _i in 0..n {
        windows.push(Window::new())?;
    }
    Ok(windows)
}

/// Whether the throughput limits let the shard at the index `i` accept a record at the time `clock`. The payload and
/// partition key of the record together have `bytes` bytes.
pub fn admits_at(windows: &[Window], i: usize, clock: Moment, bytes: u64) -> bool
    requires within { i < length windows.now }
    requires counted { AllByRecursion (IsCounted clock) windows.now }
    ensures { (f : ℕ → List SizedPut) → StandFor f 0 windows.now → result ≡ not (is_throttled (f i) clock bytes) }
{
    windows[i].admits(clock, bytes)
}

/// Counts a put at the time `clock` in the window at the index `i`. The payload and partition key of the put together
/// have `bytes` bytes.
pub fn count_at(windows: &mut [Window], i: usize, clock: Moment, bytes: u64)
    requires within { i < length windows.old }
    requires counted { AllByRecursion (IsCounted clock) windows.old }
    ensures stand { (f : ℕ → List SizedPut) → StandFor f 0 windows.old
        → StandFor (with_put i (record { clock = clock; bytes = bytes }) f) 0 windows.new }
    ensures counted { AllByRecursion (IsCounted clock) windows.new }
    ensures saved { DiffersAt i windows.new windows.old }
{
    windows[i].count(clock, bytes);
}

/// A copy of a shard's window, saved before a record of a PutRecords request is counted in the window. A window counts
/// the records and bytes that a shard accepts within a second.
#[derive(Drop)]
pub struct SavedWindow {
    pub shard: ShardNo,
    pub window: Window,
}

/// Restores the windows to their saved values. If a window was saved several times, its values are restored from the
/// last to the first, so the window ends with the value that was saved first.
pub fn restore_windows(windows: &mut [Window], mut saved: Vec<SavedWindow>)
    ensures { windows.new ≡ restored saved.items windows.old }
{
    while let Some(last) = saved.pop() {
        let i = last.shard.0 as usize;
        if i < windows.len() {
            windows[i] = last.window;
        }
    }
}
