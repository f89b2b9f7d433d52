//! Answers one command, at the present time of the service's clock. An actor is a client or a worker, given by its
//! number.
ghost use Rattle.std.specs.Prelude.{◌≡◌, true, false, IfOk, IsOk, OnErr};
ghost use Rattle.kds_defs.specs.Journal.{Journal};
ghost use Rattle.kds_defs.specs.Kinds.{is_service};
ghost use Rattle.kds_defs.specs.Lawful.{IsLawfulCommand};
ghost use Rattle.kds_defs.specs.Machines.{NeedsNoMemory};
ghost use Rattle.kcl_world.specs.Standing.{Leads, Stands, world};

use crate::reads::{read, survey};
use crate::shards::ServiceShards;
use kcl_book::Book;
use kcl_leases::{cut, free, give, make, mark, open, renew, take};
use kcl_table::Table;
use kds_base::Memory;
use kds_defs::{Answer, Command};
use kds_service::Service;

/// Answers a command on leases. The actor `by` has sent the command. If memory runs out, nothing is changed.
fn lease_answer(
    service: &Service,
    table: &mut Table,
    book: &mut Book,
    by: u32,
    what: Command,
) -> Result<Answer, Memory>
    requires leases { is_service what ≡ false }
    requires stands { (log : Journal) × Stands (world service.now table.old book.old.tenures) log }
    ensures leads { IfOk result
        (Leads (world service.now table.old book.old.tenures) (world service.now table.new book.new.tenures) by what) }
    ensures kept { OnErr result ((table.new ≡ table.old) × (book.new.tenures ≡ book.old.tenures)) }
    ensures sure { NeedsNoMemory what → IsOk result }
{
    // `shards` is borrowed, so that it can be passed on more than once.
    let shards = ServiceShards { service };
    let shards = &shards;
    match what {
        Command::Survey => survey(service, table),
        Command::MakeLease { key, from } => make(shards, table, &key, from),
        Command::Take {
            key,
            counter,
            owner,
        } => take(shards, table, book, by, &key, counter, owner),
        Command::Renew { tenure, counter } => Ok(renew(shards, table, book, by, tenure, counter)),
        Command::Free { tenure, counter } => Ok(free(shards, table, book, by, tenure, counter)),
        Command::OpenShard { tenure } => Ok(open(shards, table, book, by, tenure)),
        Command::Read {
            tenure,
            position,
            limit,
        } => read(service, book, by, tenure, position, limit),
        Command::Give { tenure } => Ok(give(shards, book, by, tenure)),
        Command::Mark {
            tenure,
            counter,
            to,
        } => Ok(mark(shards, table, book, by, tenure, counter, to)),
        Command::CutLease { key, counter } => Ok(cut(shards, table, &key, counter)),
        _ => unreachable!(),
    }
}

/// Answers a command that the actor `by` sends. If memory runs out, the error is `Memory`, and nothing is changed.
pub fn answer(
    service: &mut Service,
    table: &mut Table,
    book: &mut Book,
    by: u32,
    what: Command,
) -> Result<Answer, Memory>
    requires lawful { IsLawfulCommand what }
    requires stands { (log : Journal) × Stands (world service.old table.old book.old.tenures) log }
    ensures leads { IfOk result
        (Leads (world service.old table.old book.old.tenures) (world service.new table.new book.new.tenures) by what) }
    ensures clock { service.new.clock ≡ service.old.clock }
    ensures next_to_settle { service.new.next_to_settle ≡ service.old.next_to_settle }
    ensures kept { OnErr result ((service.new ≡ service.old) × (table.new ≡ table.old)
        × (book.new.tenures ≡ book.old.tenures)) }
    ensures sure { NeedsNoMemory what → IsOk result }
{
    if what.is_service() {
        service.serve(what)
    } else {
        lease_answer(service, table, book, by, what)
    }
}
