//! The sync plan of a worker: the writes that make the missing rows of listed shards and remove the rows of all other
//! shards. A row is the item of a lease in the lease table. A shard is listed if ListShards returns it.
#![tactic(auto)]

ghost use Rattle.std.specs.Prelude.{◌≡◌, ◌++◌, ◌∷◌, [], is_some, map, true, IfOk, OnOk, OnErr};
ghost use Rattle.kcl_defs.specs.Plans.{AreRising, cuts, has_key, has_row, keys_of, makes, sync_plan};

pub use kcl_defs::SyncStep;
use kcl_defs::{are_rising, index_of};
use kds_base::{Items, Memory, ShardRef};
use kds_defs::{Origin, Row};
use std::alloc::Global;

/// Returns the index of a row in `rows` with the key `key`, or `None` if there is no such row. The row at the index
/// `hint` is looked at first. If the keys rise, `rising` may say so.
fn row_index(rows: &[Row], key: ShardRef, hint: usize, rising: bool) -> Option<usize>
    requires { rising ≡ true → AreRising (keys_of rows.now) }
    ensures { is_some result ≡ has_row rows.now key }
{
    index_of(rows, &key, hint, rising)
}

/// Returns an index at which `key` stands in the listed shards, or `None` if it isn't there. The shard at the index
/// `hint` is looked at first. If the keys rise, `rising` may say so.
fn shard_index(shards: &[ShardRef], key: ShardRef, hint: usize, rising: bool) -> Option<usize>
    requires { rising ≡ true → AreRising (map (λ k. k) shards.now) }
    ensures { is_some result ≡ has_key shards.now key }
{
    index_of(shards, &key, hint, rising)
}

/// The steps of the plan so far, and the origin at which the new rows begin.
#[derive(Drop)]
struct Steps {
    all: Items<SyncStep>,
    from: Origin,
}

impl Steps {
    /// Adds a step that makes a row for the shard `key`.
    fn add_make(&mut self, key: ShardRef) -> Result<(), Memory>
        ensures steps { OnOk result (self.new.all ≡ self.old.all ++ SyncStep.Make key self.old.from ∷ []) }
        ensures from { self.new.from ≡ self.old.from }
    {
        self.all.push(SyncStep::Make(key, self.from))
    }

    /// Adds a step that removes ("cuts") the row `r` if the row still has its present counter.
    fn add_cut(&mut self, r: &Row) -> Result<(), Memory>
        ensures { OnOk result (self.new.all ≡ self.old.all ++ SyncStep.Cut r.now.key r.now.counter ∷ []) }
    {
        self.all.push(SyncStep::Cut(r.key, r.counter))
    }
}

/// Adds, for each shard in `shards` that has no row in `rows`, a step that makes a row. A survey has both lists in the
/// order of their keys, so the row of a shard usually stands behind that of the shard before.
fn add_makes(steps: &mut Steps, shards: &[ShardRef], rows: &[Row]) -> Result<(), Memory>
    ensures { OnOk result (steps.new.all ≡ steps.old.all ++ makes steps.old.from rows.now shards.now) }
{
    let rising = are_rising(rows);
    let mut next = 0;
    for key in shards {
        match row_index(rows, *key, next, rising) {
            Some(index) => next = index.wrapping_add(1),
            None => steps.add_make(*key)?,
        }
    }
    Ok(())
}

/// Adds, for each row in `rows` whose shard isn't in `shards`, a step that removes the row. A survey has both lists in
/// the order of their keys, so the shard of a row usually stands behind that of the row before.
fn add_cuts(steps: &mut Steps, shards: &[ShardRef], rows: &[Row]) -> Result<(), Memory>
    ensures { OnOk result (steps.new.all ≡ steps.old.all ++ cuts shards.now rows.now) }
{
    let rising = are_rising(shards);
    let mut next = 0;
    for r in rows {
        match shard_index(shards, r.key, next, rising) {
            Some(index) => next = index.wrapping_add(1),
            None => steps.add_cut(r)?,
        }
    }
    Ok(())
}

/// Returns the sync plan for the listed shards and the rows of a survey (Kinesis Client Library, ShardSyncer). The
/// first steps make a row with the origin `from` for each listed shard that has no row. The other steps remove each row
/// whose shard isn't listed, if the row's counter hasn't changed by then. Within each of these two groups, the steps
/// are in the order of the survey.
///
/// The error `Memory` means that an allocation failed.
pub fn plan(
    alloc: Global,
    shards: &[ShardRef],
    rows: &[Row],
    from: Origin,
) -> Result<Items<SyncStep>, Memory>
    ensures { IfOk result (λ steps. steps ≡ sync_plan shards.now rows.now from) }
{
    let mut steps = Steps {
        all: Items::new(alloc),
        from,
    };
    add_makes(&mut steps, shards, rows)?;
    add_cuts(&mut steps, shards, rows)?;
    Ok(steps.all)
}
