//! Copies of commands and turns. A turn is a command with its sender and its time. A copy can share the bytes of names,
//! keys and payloads with the original.
ghost use Rattle.std.specs.Prelude.{◌≡◌, true, false, IfOk};
ghost use Rattle.kds_defs.specs.Kinds.{is_change, is_counted, is_query, is_service};

use crate::command::{Command, NewItem, Turn};
use kds_base::{Items, Memory, Name};
use std::alloc::Global;

impl NewItem {
    /// Returns a copy of the item.
    pub fn copy(&self, alloc: Global) -> Result<NewItem, Memory>
        ensures { IfOk result (λ i. i ≡ self.now) }
    {
        let key = self.key.copy(alloc)?;
        let payload = self.payload.copy(alloc)?;
        Ok(NewItem {
            key,
            hash: self.hash,
            payload,
        })
    }
}

/// Returns copies of the items, in the same order.
fn copy_items(alloc: Global, items: &[NewItem]) -> Result<Items<NewItem>, Memory>
    ensures { IfOk result (λ c. c ≡ items.now) }
{
    let mut copies = Items::new(alloc);
    for item in items {
        let copy = item.copy(alloc)?;
        copies.push(copy)?;
    }
    Ok(copies)
}

/// Returns a copy of the name, or `None` if `name` is `None`.
fn copy_name(alloc: Global, name: &Option<Name>) -> Result<Option<Name>, Memory>
    ensures { IfOk result (λ c. c ≡ name.now) }
{
    match name {
        Some(name) => {
            let copy = name.copy(alloc)?;
            Ok(Some(copy))
        }
        None => Ok(None),
    }
}

/// Returns a copy of `what`, a command that changes streams, shards or records.
fn copy_change(alloc: Global, what: &Command) -> Result<Command, Memory>
    requires { is_change what.now ≡ true }
    ensures { IfOk result (λ c. c ≡ what.now) }
{
    match what {
        Command::Create { name, shards } => {
            let (name, shards) = (name.copy(alloc)?, *shards);
            Ok(Command::Create { name, shards })
        }
        Command::Delete { name } => {
            let name = name.copy(alloc)?;
            Ok(Command::Delete { name })
        }
        Command::Put { name, item } => {
            let (name, item) = (name.copy(alloc)?, item.copy(alloc)?);
            Ok(Command::Put { name, item })
        }
        Command::PutMany { name, items } => {
            let (name, items) = (name.copy(alloc)?, copy_items(alloc, items.as_slice())?);
            Ok(Command::PutMany { name, items })
        }
        Command::Split { name, shard, at } => {
            let (name, shard, at) = (name.copy(alloc)?, *shard, *at);
            Ok(Command::Split { name, shard, at })
        }
        Command::Merge { name, shard, other } => {
            let (name, shard, other) = (name.copy(alloc)?, *shard, *other);
            Ok(Command::Merge { name, shard, other })
        }
        Command::Keep { name, hours, raise } => {
            let (name, hours, raise) = (name.copy(alloc)?, *hours, *raise);
            Ok(Command::Keep { name, hours, raise })
        }
        Command::Scale { name, target } => {
            let (name, target) = (name.copy(alloc)?, *target);
            Ok(Command::Scale { name, target })
        }
        Command::Enforce { name, on } => {
            let (name, on) = (name.copy(alloc)?, *on);
            Ok(Command::Enforce { name, on })
        }
        _ => unreachable!(),
    }
}

/// Returns a copy of `what`, a command that reads streams, shards or records.
fn copy_query(alloc: Global, what: &Command) -> Result<Command, Memory>
    requires { is_query what.now ≡ true }
    ensures { IfOk result (λ c. c ≡ what.now) }
{
    match what {
        Command::Streams { after, limit } => {
            let (after, limit) = (copy_name(alloc, after)?, *limit);
            Ok(Command::Streams { after, limit })
        }
        Command::Describe { name, after, limit } => {
            let (name, after, limit) = (name.copy(alloc)?, *after, *limit);
            Ok(Command::Describe { name, after, limit })
        }
        Command::Summary { name } => {
            let name = name.copy(alloc)?;
            Ok(Command::Summary { name })
        }
        Command::Shards { name, after, limit } => {
            let (name, after, limit) = (name.copy(alloc)?, *after, *limit);
            Ok(Command::Shards { name, after, limit })
        }
        Command::GetIterator { name, shard, from } => {
            let (name, shard, from) = (name.copy(alloc)?, *shard, *from);
            Ok(Command::GetIterator { name, shard, from })
        }
        Command::More { page, limit } => {
            let (page, limit) = (*page, *limit);
            Ok(Command::More { page, limit })
        }
        Command::Records { iter, limit } => {
            let (iter, limit) = (*iter, *limit);
            Ok(Command::Records { iter, limit })
        }
        _ => unreachable!(),
    }
}

/// Returns a copy of `what`, a command for the lease table. No memory is allocated.
fn copy_lease(what: &Command) -> Command
    requires { is_service what.now ≡ false }
    ensures { result ≡ what.now }
{
    match what {
        Command::Survey => Command::Survey,
        Command::MakeLease { key, from } => Command::MakeLease {
            key: *key,
            from: *from,
        },
        Command::Take {
            key,
            counter,
            owner,
        } => {
            let (key, counter, owner) = (*key, *counter, *owner);
            Command::Take {
                key,
                counter,
                owner,
            }
        }
        Command::OpenShard { tenure } => Command::OpenShard { tenure: *tenure },
        Command::Give { tenure } => Command::Give { tenure: *tenure },
        Command::CutLease { key, counter } => {
            let (key, counter) = (*key, *counter);
            Command::CutLease { key, counter }
        }
        _ => copy_counted(what),
    }
}

/// Returns a copy of `what`, a command that names a tenure (a worker's hold on a lease) together with a counter or a
/// position: Renew, Free, Read or Mark. No memory is allocated.
fn copy_counted(what: &Command) -> Command
    requires { is_counted what.now ≡ true }
    ensures { result ≡ what.now }
{
    match what {
        Command::Renew { tenure, counter } => {
            let (tenure, counter) = (*tenure, *counter);
            Command::Renew { tenure, counter }
        }
        Command::Free { tenure, counter } => {
            let (tenure, counter) = (*tenure, *counter);
            Command::Free { tenure, counter }
        }
        Command::Read {
            tenure,
            position,
            limit,
        } => {
            let (tenure, position, limit) = (*tenure, *position, *limit);
            Command::Read {
                tenure,
                position,
                limit,
            }
        }
        Command::Mark {
            tenure,
            counter,
            to,
        } => {
            let (tenure, counter, to) = (*tenure, *counter, *to);
            Command::Mark {
                tenure,
                counter,
                to,
            }
        }
        _ => unreachable!(),
    }
}

impl Command {
    /// Returns a copy of the command.
    pub fn copy(&self, alloc: Global) -> Result<Command, Memory>
        ensures { IfOk result (λ c. c ≡ self.now) }
    {
        if !self.is_service() {
            Ok(copy_lease(self))
        } else if self.is_change() {
            copy_change(alloc, self)
        } else {
            copy_query(alloc, self)
        }
    }
}

impl Turn {
    /// Returns a copy of the turn.
    pub fn copy(&self, alloc: Global) -> Result<Turn, Memory>
        ensures { IfOk result (λ t. t ≡ self.now) }
    {
        let what = self.what.copy(alloc)?;
        Ok(Turn {
            by: self.by,
            at: self.at,
            what,
        })
    }
}
