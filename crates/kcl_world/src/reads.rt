//! The commands on leases that read from the streams. A survey returns all shards that ListShards would return (the
//! listed shards) and all rows of the lease table. The command Read fetches records for a tenure. A tenure is one
//! worker's hold on a lease.
ghost use Rattle.std.specs.Prelude.{◌≡◌, ℕ, List, IfOk, OnErr};
ghost use Rattle.kds_defs.specs.declared.command.Command.TheVariants as command;
ghost use Rattle.kds_defs.specs.declared.reply.Row.{Row};
ghost use Rattle.kds_defs.specs.Journal.{Journal};
ghost use Rattle.kcl_book.specs.Tenures.{TenureValue};
ghost use Rattle.kds_service.specs.Shown.{ShowsAll};
ghost use Rattle.kcl_world.specs.Standing.{Leads, world};

use crate::shards::ServiceShards;
use kcl_book::Book;
use kcl_leases::reader;
use kcl_table::Table;
use kds_base::{Memory, TenureNo};
use kds_defs::{Answer, Reply, position_after};
use kds_service::Service;

/// Returns all listed shards and all rows of the lease table. The error means that memory ran out.
pub fn survey(service: &Service, table: &Table) -> Result<Answer, Memory>
    ensures { (actor : ℕ) (ts : List TenureValue) → let at = world service.now table.now ts in
        IfOk result (Leads at at actor command.Survey) }
{
    let shards = service.listed()?;
    let rows = table.rows()?;
    Ok(Ok(Reply::Survey { shards, rows }))
}

/// Reads at most `limit` records of the tenure's shard, beginning at the tenure's reach, which is the position after
/// the tenure's last read. The command is refused if `position` isn't this reach.
pub fn read(
    service: &Service,
    book: &mut Book,
    by: u32,
    tenure: TenureNo,
    position: u64,
    limit: u32,
) -> Result<Answer, Memory>
    requires { (log : Journal) × ShowsAll service.now log }
    ensures leads { (rows : List Row)
        → IfOk result (Leads (world service.now rows book.old.tenures)
        (world service.now rows book.new.tenures) by (command.Read tenure position limit)) }
    ensures kept { OnErr result (book.new ≡ book.old) }
{
    kds_service::lease_lines();
    let shards = ServiceShards { service };
    let own = match reader(&shards, book, by, tenure, position) {
        Ok(own) => own,
        Err(refusal) => return Ok(Err(refusal)),
    };
    let (batch, end) = service.read(own.key, position, limit)?;
    let reach = position_after(position, batch.as_slice());
    book.read(tenure, reach, end);
    Ok(Ok(Reply::Read { batch, reach, end }))
}
