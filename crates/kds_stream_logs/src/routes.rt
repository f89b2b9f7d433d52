//! Routes the records of a PutRecords request to the logs of their shards. An item is a record of the request. The
//! place of a stored record is its shard and its sequence number. The throughput window of a shard counts the records
//! and bytes that the shard accepted within a second.
ghost use Rattle.std.specs.Prelude.{◌≡◌, ◌+◌, ◌^◌, ◌<◌, ◌≤◌, ◌∷◌, ◌++◌, ◌&&◌, [], true, false, ℕ, List, length, map};
ghost use Rattle.std.specs.Prelude.{IfNone, IfOk, IfSome, OnErr, OnOk};
ghost use Rattle.std.specs.List.{AllByRecursion, count_by};
ghost use Rattle.kds_defs.specs.Lawful.{item_bytes};
ghost use Rattle.kds_defs.specs.Rates.{SizedPut, is_throttled};
ghost use Rattle.kds_defs.specs.Streams.{floor_of};
ghost use Rattle.kds_log.specs.Log.{log_of};
ghost use Rattle.kds_rate.specs.Windows.{WindowValue};
ghost use Rattle.kds_stream_logs.specs.Rating.{ForPutsOf, IsCounted, StandFor, with_put};
ghost use Rattle.kds_stream_logs.specs.Routes.{AreRoutedInOrder, AreOfRecords, AreRouted, CanTake, CanTakeAll};
ghost use Rattle.kds_stream_logs.specs.Routes.{IsRouted, is_throttled_item};
ghost use Rattle.kds_stream_logs.specs.Routes.{is_place_of, place_of, reserved_at, settled_each, stored_item, taken};
ghost use Rattle.kds_stream_logs.specs.Routes.{with_each};
ghost use Rattle.kds_stream_logs.specs.Saved.{DiffersAt, restored};

use crate::logs::settle_at;
use crate::windows::{SavedWindow, admits_at, count_at, restore_windows};
use kds_base::{Items, Memory, Moment, Seq, ShardNo};
use kds_defs::{NewItem, Outcome, Place, Stored};
use kds_log::ShardLog;
use kds_rate::Window;
use kds_tree::ShardTree;
use std::alloc::Global;
use std::collections::VecDeque;

/// A record, and the number of the open shard whose range contains the record's hash key.
#[derive(Drop)]
pub struct Routed {
    pub shard: ShardNo,
    pub item: Stored,
}

/// Returns the number of bytes of the item's payload and partition key together.
pub fn item_bytes(item: &NewItem) -> u64
    ensures { result ≡ item_bytes item.now }
{
    item.payload.as_slice().len() as u64 + item.key.as_slice().len() as u64
}

/// The result of routing the items of one PutRecords request. `routed` has the records of the accepted items, and
/// `places` has the shard and sequence number of each of these records. `outcomes` has the outcome of each item,
/// accepted or not. `next` is the stream's next sequence number. `saved` has the values that the throughput windows of
/// the items' shards had before the items were counted.
#[derive(Drop)]
pub struct Routes {
    pub routed: VecDeque<Routed>,
    pub places: Items<Place>,
    pub outcomes: Items<Outcome>,
    pub next: u64,
    pub saved: Vec<SavedWindow>,
}

impl Routes {
    /// Returns routes to which no item was added yet, with capacity for `count` items. `next` is the stream's next
    /// sequence number.
    fn new(alloc: Global, next: u64, count: usize) -> Result<Routes, Memory>
        ensures routed { IfOk result (λ r. r.routed.items ≡ []) }
        ensures places { IfOk result (λ r. r.places ≡ []) }
        ensures outcomes { IfOk result (λ r. r.outcomes ≡ []) }
        ensures next { IfOk result (λ r. r.next ≡ next) }
        ensures saved { IfOk result (λ r. r.saved.items ≡ []) }
    {
        Ok(Routes {
            routed: VecDeque::with_capacity(alloc, count)?,
            places: Items::from_vec(Vec::with_capacity(alloc, count)?),
            outcomes: Items::from_vec(Vec::with_capacity(alloc, count)?),
            next,
            saved: Vec::with_capacity(alloc, count)?,
        })
    }

    /// Saves the current value of a shard's window, so that `restore_windows` can restore it.
    fn save(&mut self, windows: &[Window], shard: ShardNo) -> Result<(), Memory>
        requires { shard < length windows.now }
        ensures routed { self.new.routed.items ≡ self.old.routed.items }
        ensures places { self.new.places ≡ self.old.places }
        ensures outcomes { self.new.outcomes ≡ self.old.outcomes }
        ensures next { self.new.next ≡ self.old.next }
        ensures saved { OnOk result ((ws : List WindowValue) → DiffersAt shard ws windows.now
            → restored self.new.saved.items ws ≡ restored self.old.saved.items windows.now) }
        ensures unsaved { OnErr result (self.new.saved.items ≡ self.old.saved.items) }
    {
        let window = windows[shard.0 as usize];
        self.saved.push(SavedWindow { shard, window })?;
        Ok(())
    }

    /// Adds the outcome `Throttled` for an item that its shard doesn't accept.
    fn add_throttled(&mut self, shard: ShardNo) -> Result<(), Memory>
        ensures routed { self.new.routed.items ≡ self.old.routed.items }
        ensures places { self.new.places ≡ self.old.places }
        ensures outcomes { OnOk result (self.new.outcomes ≡ self.old.outcomes ++ Outcome.Throttled shard ∷ []) }
        ensures next { self.new.next ≡ self.old.next }
        ensures saved { self.new.saved ≡ self.old.saved }
    {
        self.outcomes.push(Outcome::Throttled(shard))
    }

    /// Adds the record of an item that its shard accepts. The record gets the next sequence number, and `clock` is its
    /// arrival time. The key and the payload of the item are moved into the record, and not copied.
    fn add_accepted(&mut self, shard: ShardNo, item: NewItem, clock: Moment) -> Result<(), Memory>
        requires { self.old.next + 1 < 2 ^ 64 }
        ensures routed { OnOk result (self.new.routed.items ≡ self.old.routed.items
            ++ stored_item shard clock self.old.next item ∷ []) }
        ensures places { OnOk result (self.new.places ≡ self.old.places ++ record { shard = shard; seq = self.old.next }
            ∷ []) }
        ensures outcomes { OnOk result (self.new.outcomes ≡ self.old.outcomes
            ++ Outcome.Stored (record { shard = shard; seq = self.old.next }) ∷ []) }
        ensures next { OnOk result (self.new.next ≡ self.old.next + 1) }
        ensures saved { self.new.saved ≡ self.old.saved }
    {
        let seq = Seq(self.next);
        self.places.push(Place { shard, seq })?;
        self.outcomes.push(Outcome::Stored(Place { shard, seq }))?;
        let item = Stored {
            seq,
            arrival: clock,
            key: item.key,
            payload: item.payload,
        };
        self.routed.push_back(Routed { shard, item })?;
        self.next += 1;
        Ok(())
    }
}

/// Checks a record against the throughput limits of its shard, at the time `clock`. The payload and partition key of
/// the record together have `bytes` bytes. Returns `true` if the limits are on and the shard doesn't accept the record.
/// Otherwise counts the record in the shard's window, and returns `false`.
fn holds_back_or_counts(
    windows: &mut [Window],
    enforced: bool,
    shard: ShardNo,
    clock: Moment,
    bytes: u64,
) -> bool
    requires within { shard < length windows.old }
    requires counted { AllByRecursion (IsCounted clock) windows.old }
    ensures held { (f : ℕ → List SizedPut) → StandFor f 0 windows.old
        → result ≡ (enforced && is_throttled (f shard) clock bytes) }
    ensures same { result ≡ true → windows.new ≡ windows.old }
    ensures stand { result ≡ false → (f : ℕ → List SizedPut) → StandFor f 0 windows.old
        → StandFor (with_put shard (record { clock = clock; bytes = bytes }) f) 0 windows.new }
    ensures counted { AllByRecursion (IsCounted clock) windows.new }
    ensures saved { DiffersAt shard windows.new windows.old }
{
    if enforced && !admits_at(windows, shard.0 as usize, clock, bytes) {
        return true;
    }
    count_at(windows, shard.0 as usize, clock, bytes);
    false
}

/// Routes one item. If the item's shard accepts the item, its record is added to `routes`. If the shard throttles the
/// item, only the outcome `Throttled` is added. Returns `false` if the shard would accept the item, but the stream has
/// no sequence number left for it.
fn route_one(
    routes: &mut Routes,
    tree: &ShardTree,
    windows: &mut [Window],
    enforced: bool,
    item: NewItem,
    clock: Moment,
) -> Result<bool, Memory>
    requires many { length windows.old ≡ length tree.now.shards }
    requires counted { AllByRecursion (IsCounted clock) windows.old }
    ensures routed { IfOk result (λ more. more ≡ true
        → ForPutsOf windows.old
        (λ f. IsRouted tree.now.shards clock enforced f item routes.old routes.new windows.new)) }
    ensures spent { IfOk result (λ more. more ≡ false
        → ForPutsOf windows.old (λ f. (is_throttled_item tree.now.shards clock enforced f item ≡ false)
        × (routes.old.next + 1 ≡ 2 ^ 64))) }
    ensures placed { IfOk result (λ more. more ≡ true → (first : ℕ)
        → AreOfRecords tree.now.shards clock first routes.old → AreOfRecords tree.now.shards clock first routes.new) }
    ensures counted { AllByRecursion (IsCounted clock) windows.new }
    ensures saved { restored routes.new.saved.items windows.new ≡ restored routes.old.saved.items windows.old }
{
    let shard = tree.home(item.hash);
    let bytes = item_bytes(&item);
    routes.save(windows, shard)?;
    if holds_back_or_counts(windows, enforced, shard, clock, bytes) {
        routes.add_throttled(shard)?;
        return Ok(true);
    }
    if routes.next == u64::MAX {
        return Ok(false);
    }
    routes.add_accepted(shard, item, clock)?;
    Ok(true)
}

/// Routes the items of a PutRecords request in order. Each accepted item is counted against its shard's limits before
/// the next item is checked. The accepted items get consecutive sequence numbers, beginning with `first`. Returns
/// `None` if and only if the stream has too few sequence numbers left. If the result is `None` or memory runs out, the
/// windows are unchanged. Otherwise `restore_windows` can restore the earlier values of the windows.
pub fn route_all(
    alloc: Global,
    tree: &ShardTree,
    windows: &mut [Window],
    enforced: bool,
    mut items: VecDeque<NewItem>,
    first: u64,
    clock: Moment,
) -> Result<Option<Routes>, Memory>
    requires many { length windows.old ≡ length tree.now.shards }
    requires counted { AllByRecursion (IsCounted clock) windows.old }
    ensures routed { IfOk result (λ o. IfSome o (λ r.
        ForPutsOf windows.old (λ f. AreRouted tree.now.shards clock enforced f first items.items r windows.new))) }
    ensures placed { IfOk result (λ o. IfSome o (λ r. AreOfRecords tree.now.shards clock first r)) }
    ensures spent { IfOk result
        (λ o. IfNone o (ForPutsOf windows.old
        (λ f. 2 ^ 64 ≤ first + length (taken tree.now.shards clock enforced f items.items)))) }
    ensures counted { AllByRecursion (IsCounted clock) windows.new }
    ensures saved { IfOk result (λ o. IfSome o (λ r. restored r.saved.items windows.new ≡ windows.old)) }
    ensures none { IfOk result (λ o. IfNone o (windows.new ≡ windows.old)) }
    ensures err { OnErr result (windows.new ≡ windows.old) }
{
    let mut routes = Routes::new(alloc, first, items.len())?;
    while let Some(item) = items.pop_front() {
        let more = match route_one(&mut routes, tree, windows, enforced, item, clock) {
            Ok(more) => more,
            Err(memory) => {
                restore_windows(windows, routes.saved);
                return Err(memory);
            }
        };
        if !more {
            restore_windows(windows, routes.saved);
            return Ok(None);
        }
    }
    Ok(Some(routes))
}

/// Releases all memory that is reserved in the log of each shard in `places`. The records in the logs are unchanged.
fn release_all(logs: &mut [ShardLog], places: &[Place])
    requires { AllByRecursion (λ p. p.shard < length logs.old) places.now }
    ensures { map log_of logs.new ≡ map log_of logs.old }
{
    for place in places {
        let shard = place.shard;
        logs[shard.0 as usize].release();
    }
}

/// For each place in `places`, reserves memory for one record in the log of the place's shard. The records in the logs
/// are unchanged, even if memory runs out.
fn reserve_all(logs: &mut [ShardLog], places: &[Place]) -> Result<(), Memory>
    requires { AllByRecursion (λ p. p.shard < length logs.old) places.now }
    ensures same { map log_of logs.new ≡ map log_of logs.old }
    ensures reserved { OnOk result ((sh : ℕ) → count_by (is_place_of sh) places.now ≤ reserved_at logs.new sh) }
{
    for place in places {
        let shard = place.shard;
        logs[shard.0 as usize].reserve_one()?;
    }
    Ok(())
}

/// Appends each record to the log of its shard. Precondition: memory for the records is reserved in the logs.
fn append_all(logs: &mut [ShardLog], mut routed: VecDeque<Routed>)
    requires { CanTakeAll logs.old routed.items }
    ensures { map log_of logs.new ≡ with_each routed.items (map log_of logs.old) }
{
    while let Some(next) = routed.pop_front() {
        let shard = next.shard;
        logs[shard.0 as usize].append_reserved(next.item);
    }
}

/// Removes from the log of each shard in `places` the records that arrived at or before the trim horizon `cut`.
fn settle_each(logs: &mut [ShardLog], places: &[Place], cut: &Option<Moment>)
    ensures { map log_of logs.new ≡ settled_each (floor_of cut.now) places.now (map log_of logs.old) }
{
    for place in places {
        let shard = place.shard;
        settle_at(logs, shard.0 as usize, cut);
    }
}

/// Appends each record to the log of its shard. Then removes from these logs the records that arrived at or before the
/// trim horizon `cut`. All memory is allocated before the first record is appended. If memory runs out, the records in
/// the logs are unchanged.
pub fn put_all(
    logs: &mut [ShardLog],
    routed: VecDeque<Routed>,
    places: &[Place],
    cut: Option<Moment>,
) -> Result<(), Memory>
    requires places { places.now ≡ map place_of routed.items }
    requires each { AllByRecursion (CanTake (map log_of logs.old)) routed.items }
    requires in_order { AreRoutedInOrder routed.items }
    ensures ok { OnOk result (map log_of logs.new
        ≡ settled_each (floor_of cut) places.now (with_each routed.items (map log_of logs.old))) }
    ensures err { OnErr result (map log_of logs.new ≡ map log_of logs.old) }
{
    release_all(logs, places);
    reserve_all(logs, places)?;
    append_all(logs, routed);
    settle_each(logs, places, &cut);
    Ok(())
}
