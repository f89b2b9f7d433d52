//! Computes the entries that accepted lease commands add to the journal, which is an event log. A tenure is one
//! worker's hold on a lease.
ghost use Rattle.std.specs.Prelude.{◌≡◌, ◌∷◌, [], IfOk};
ghost use Rattle.kds_defs.specs.declared.entry.Entry.TheVariants as entry;
ghost use Rattle.kds_defs.specs.declared.reply.Reply.TheVariants as reply;
ghost use Rattle.kcl_sim_scribe.specs.Telling.{lease_entries, numbers_read};

use crate::entries::one;
use kds_base::{Items, Memory, Seq, TenureNo};
use kds_defs::{Command, Entry, Reply, Stored};
use std::alloc::Global;

/// Returns the sequence numbers of the records in `batch`.
fn numbers_of(alloc: Global, batch: &[Stored]) -> Result<Items<Seq>, Memory>
    ensures { IfOk result (λ ns. ns ≡ numbers_read batch.now) }
{
    let mut numbers = Items::new(alloc);
    for stored in batch {
        numbers.push(stored.seq)?;
    }
    Ok(numbers)
}

/// Returns a list with the entry of one read in the tenure `tenure`. The read asked for at most `limit` records and
/// returned the records in `batch`. `end` says whether the read reached the end of its shard.
fn read_entries(
    alloc: Global,
    tenure: TenureNo,
    limit: u32,
    end: bool,
    batch: &[Stored],
) -> Result<Items<Entry>, Memory>
    ensures { IfOk result (λ es. es ≡ entry.Read tenure limit end (numbers_read batch.now) ∷ []) }
{
    let numbers = numbers_of(alloc, batch)?;
    one(
        alloc,
        Entry::Read {
            tenure,
            limit,
            end,
            numbers,
        },
    )
}

/// Returns the entries of the accepted command `what`. The reply to this command is `counter`, the new counter of a row
/// in the lease table.
fn counted(alloc: Global, what: &Command, counter: u64) -> Result<Items<Entry>, Memory>
    ensures { IfOk result (λ es. es ≡ lease_entries what.now (reply.Counter counter)) }
{
    match what {
        Command::Renew { tenure, .. } => {
            let tenure = *tenure;
            one(alloc, Entry::Renewed { tenure, counter })
        }
        Command::Free { tenure, .. } => {
            let tenure = *tenure;
            one(alloc, Entry::Freed { tenure, counter })
        }
        Command::Mark { tenure, to, .. } => {
            let (tenure, to) = (*tenure, *to);
            one(
                alloc,
                Entry::Marked {
                    tenure,
                    counter,
                    to,
                },
            )
        }
        _ => plain(alloc, what),
    }
}

/// Returns a list with the entry of the accepted command `what` if this command is OpenShard, Give or CutLease, and an
/// empty list otherwise. The entries of these three commands need no value from the reply.
fn plain(alloc: Global, what: &Command) -> Result<Items<Entry>, Memory>
    ensures { IfOk result (λ es. es ≡ lease_entries what.now reply.Done) }
{
    match what {
        Command::OpenShard { tenure } => one(alloc, Entry::Opened { tenure: *tenure }),
        Command::Give { tenure } => one(alloc, Entry::Given { tenure: *tenure }),
        Command::CutLease { key, counter } => {
            let (key, counter) = (*key, *counter);
            one(alloc, Entry::LeaseCut { key, counter })
        }
        _ => Ok(Items::new(alloc)),
    }
}

/// Returns the entries of the accepted lease command `what`. `reply` is the reply to this command.
pub fn on_leases(alloc: Global, what: &Command, reply: &Reply) -> Result<Items<Entry>, Memory>
    ensures { IfOk result (λ es. es ≡ lease_entries what.now reply.now) }
{
    match what {
        Command::MakeLease { key, .. } => match reply {
            Reply::Leased(from) => {
                let (key, from) = (*key, *from);
                one(alloc, Entry::LeaseMade { key, from })
            }
            _ => Ok(Items::new(alloc)),
        },
        Command::Take { key, owner, .. } => match reply {
            Reply::Taken {
                tenure,
                counter,
                ..
            } => {
                let (key, tenure, counter, owner) = (*key, *tenure, *counter, *owner);
                one(
                    alloc,
                    Entry::Taken {
                        key,
                        tenure,
                        counter,
                        owner,
                    },
                )
            }
            _ => Ok(Items::new(alloc)),
        },
        Command::Read { tenure, limit, .. } => match reply {
            Reply::Read { batch, end, .. } => {
                read_entries(alloc, *tenure, *limit, *end, batch.as_slice())
            }
            _ => Ok(Items::new(alloc)),
        },
        _ => match reply {
            Reply::Counter(counter) => counted(alloc, what, *counter),
            _ => plain(alloc, what),
        },
    }
}
