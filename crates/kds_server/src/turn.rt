//! Applies a command as a turn (atomically), and appends the response to the session's output.
ghost use Rattle.std.specs.Prelude.{◌≡◌, ◌≢◌, ◌∷◌, [], ◌++◌, List, ℕ, OnOk, OnErr, true};
ghost use Rattle.std.specs.declared.option.Option.{Option};
ghost use Rattle.kds_defs.specs.declared.command.Command.{Command};
ghost use Rattle.kds_defs.specs.Kinds.{is_service};
ghost use Rattle.kds_defs.specs.Lawful.{IsLawfulCommand};
ghost use Rattle.kds_ends.specs.declared.status.Status.TheVariants.{Memory as OutOfMemory};
ghost use Rattle.kds_session.specs.Text.{Answers};
ghost use Rattle.kds_session.specs.Standing.{to_come};
ghost use Rattle.kds_session.specs.declared.state.Waiting.TheVariants.{Nothing};
ghost use Rattle.kds_server.specs.Steps.{TakesOne, RanOutOfMemory};

use crate::turner::Turner;
use kds_base::Memory;
use kds_defs::Command;
use kds_ends::Clock;
use kds_session::Session;

/// Applies the command that the session has returned, as a turn at the moment that the clock returns. Appends the
/// response to the session's output. Memory may run out during the turn, or when the response is appended. So if memory
/// runs out, the turn may or may not have been made. Precondition: the session waits for the answer to this command.
pub fn make_turn<T: Turner, C: Clock>(
    turner: &T,
    state: &mut T::State,
    session: &mut Session,
    clock: &mut C,
    what: Command,
) -> Result<(), Memory>
    requires fits { T.fits turner.now state.old }
    requires waits { session.old.waiting ≢ Nothing }
    requires lawful { IsLawfulCommand what }
    requires service { is_service what ≡ true }
    ensures fits { T.fits turner.now state.new }
    ensures goes_on { OnOk result
        (TakesOne (T.made turner.now) what state.old session.old (C.moments clock.old) state.new session.new
        (C.moments clock.new)) }
    ensures err { OnErr result
        (RanOutOfMemory (T.made turner.now) what state.old session.old (C.moments clock.old) state.new
        (C.moments clock.new)) }
    ensures free { OnOk result (session.new.waiting ≡ Nothing) }
    ensures as_much { OnOk result (to_come session.new ≡ to_come session.old) }
{
    kds_session::first_part();
    let at = clock.now();
    match turner.turn(state, at, what) {
        Ok(answer) => match session.absorb(&answer) {
            Ok(()) => Ok(()),
            Err(memory) => Err(memory),
        },
        Err(memory) => Err(memory),
    }
}
