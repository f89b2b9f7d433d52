//! The state machine of this program. A turn is a command with its sender and its time. A tenure is one worker's hold
//! on a lease.
ghost use Rattle.std.specs.Prelude.{[], ◌≡◌, ◌≤◌, true, false};
ghost use Rattle.kds_defs.specs.Journal.{Journal};
ghost use Rattle.kds_service.specs.Clocks.{CanRetreat, retreated_service};
ghost use Rattle.kds_service.specs.Shown.{ShowsAll};
ghost use Rattle.kcl_world.specs.Standing.{StandsFor};

use crate::answer::answer;
use kcl_book::Book;
use kcl_table::Table;
use kds_base::{Memory, Moment};
use kds_defs::{Answer, Machine, Turn};
use kds_service::Service;
use std::alloc::Global;
use std::marker::Model;

/// The state machine: its clock, the stream service with the same clock, the lease table, and the tenures. In
/// contracts, the machine represents its history, which is the list of the turns that it has answered.
#[derive(Drop)]
pub struct World {
    clock: Moment,
    service: Service,
    table: Table,
    book: Book,
}

impl Model for World {
    ghost use Rattle.std.specs.Prelude.{◌≡◌, List};
    ghost use Rattle.kds_defs.specs.declared.command.Turn.{Turn};
    ghost use Rattle.kcl_world.specs.Standing.{StandsFor, WorldValue, world};

    ghost Value = { WorldValue };

    ghost view = { λ w. world w.service w.table w.book.tenures };

    ghost invariant = { λ w. (w.service.clock ≡ w.clock)
        × ((h : List Turn) × StandsFor (world w.service w.table w.book.tenures) h) };
}

/// Raises the clock of the service and of each of its streams from `before` to `clock`. Does nothing if the two times
/// are equal. Returns whether the clock was raised.
fn advance(service: &mut Service, before: Moment, clock: Moment) -> bool
    requires at { service.old.clock ≡ before }
    requires later { before ≤ clock }
    ensures clock { service.new.clock ≡ clock }
    ensures next_to_settle { service.new.next_to_settle ≡ service.old.next_to_settle }
    ensures shows { (log : Journal) → ShowsAll service.old log → ShowsAll service.new log }
    ensures same { result ≡ false → service.new ≡ service.old }
    ensures can_retreat { result ≡ true → CanRetreat service.new }
    ensures shows_retreated { result ≡ true → (log : Journal) → ShowsAll service.old log
        → ShowsAll (retreated_service service.new) log }
    ensures clock_retreated { result ≡ true → (retreated_service service.new).clock ≡ before }
{
    if before == clock {
        return false;
    }
    service.advance(clock);
    true
}

/// Undoes a call of `advance`. `advanced` is the value that this call returned. Precondition if `advanced` is true:
/// since that call, nothing in the service has changed, and no trimmed records have been removed.
fn retreat(service: &mut Service, advanced: bool)
    requires { advanced ≡ true → CanRetreat service.old }
    ensures advanced { advanced ≡ true → service.new ≡ retreated_service service.old }
    ensures same { advanced ≡ false → service.new ≡ service.old }
{
    if advanced {
        service.retreat();
    }
}

impl World {
    /// Returns a machine that has no streams and no leases, and hasn't answered any turn. The machine allocates its
    /// memory from `alloc`.
    pub fn new(alloc: Global) -> World
        ensures { StandsFor result [] }
    {
        World {
            clock: Moment::start(),
            service: Service::new(alloc),
            table: Table::new(alloc),
            book: Book::new(alloc),
        }
    }
}

impl Machine for World {
    ghost use Rattle.kcl_world.specs.Standing.{StandsFor};

    ghost stands_for = { StandsFor };

    fn apply(&mut self, turn: Turn) -> Result<Answer, Memory> {
        kds_defs::service_answers();
        kds_defs::lease_answers();
        let clock = self.clock.later(turn.at);
        let advanced = advance(&mut self.service, self.clock, clock);
        match answer(
            &mut self.service,
            &mut self.table,
            &mut self.book,
            turn.by,
            turn.what,
        ) {
            Ok(answer) => {
                self.service.settle();
                self.clock = clock;
                Ok(answer)
            }
            Err(memory) => {
                retreat(&mut self.service, advanced);
                Err(memory)
            }
        }
    }
}
