//! Applies the commands of a drill, which is a self-test, to the machine of a hall, which is a lock around this
//! machine. The drill's generator makes the commands from a number. A turn is one command, and a pass is the right of
//! one thread to make turns of the hall.
ghost use Rattle.std.specs.Prelude.{◌≡◌, IfOk, IfErr, OnErr};
ghost use Rattle.kcl_drill_threads.specs.Asking.{Asks, IsAskErr, IsKept};

use kcl_drill::Generator;
use kds_base::Moment;
use kds_defs::Machine;
use kds_turn::{Hall, Pass, TurnErr};
use std::sync::Wait;

/// Applies the generator's next command to the hall's machine, as a turn of the pass at moment 0. Returns `false` if no
/// command is left. The error `Memory` means that memory ran out for the command or for its turn. The error `Spent`
/// means that the hall has already made the maximum number of turns.
pub(crate) fn ask_next<M: Machine, R: Wait>(
    rt: &R,
    hall: &Hall<M>,
    pass: &mut Pass<M>,
    generator: &mut Generator,
) -> Result<bool, TurnErr>
    requires { pass.old.hall ≡ hall.now.id }
    ensures kept { IsKept pass.old pass.new }
    ensures asked { IfOk result (λ more. Asks more generator.old generator.new pass.old pass.new) }
    ensures failed { OnErr result (pass.new.own ≡ pass.old.own) }
    ensures err { IfErr result (IsAskErr pass.old pass.new) }
{
    let what = match generator.next() {
        Ok(Some(what)) => what,
        Ok(None) => return Ok(false),
        Err(_) => return Err(TurnErr::Memory),
    };
    match hall.turn(rt, pass, Moment::start(), what) {
        Ok(_) => Ok(true),
        Err(error) => Err(error),
    }
}
