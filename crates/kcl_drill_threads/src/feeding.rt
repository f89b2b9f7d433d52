//! Applies the commands of a drill, which is a self-test, to the machine of a hall, which is a lock around this
//! machine. The drill's generator makes the commands from a number. A turn is one command, and a pass is the right of
//! one thread to make turns of the hall. The pass `root` makes the first turn, and the pass `feeder` makes the others.
ghost use Rattle.std.specs.Prelude.{◌≡◌, [], take, drop, IfErr, OnErr, OnOk};
ghost use Rattle.kcl_drill_threads.specs.Asking.{HasAsked, IsAskErr, IsKept};
ghost use Rattle.kcl_drill_threads.specs.Feeding.{Feeds, IsAfter};

use crate::asking::ask_next;
use kcl_drill::Generator;
use kds_defs::Machine;
use kds_turn::{Hall, Pass, TurnErr};
use std::sync::Wait;

/// Applies the generator's first command as a turn of the pass `root`. The pass `feeder` then learns of this turn from
/// a note (a message between passes), so that the turns of `feeder` come after the turn of `root`. The error `Memory`
/// means that memory ran out for the command or for its turn. The error `Spent` means that the hall has already made
/// the maximum number of turns.
pub(crate) fn begin<M: Machine, R: Wait>(
    rt: &R,
    hall: &Hall<M>,
    root: &mut Pass<M>,
    feeder: &mut Pass<M>,
    generator: &mut Generator,
) -> Result<(), TurnErr>
    requires hall { (root.old.hall ≡ hall.now.id) × (feeder.old.hall ≡ hall.now.id) }
    requires new { (root.old.own ≡ []) × (feeder.old.own ≡ []) }
    ensures kept { IsKept root.old root.new × IsKept feeder.old feeder.new }
    ensures asked { OnOk result (HasAsked (take 1 generator.old) root.new) }
    ensures left { OnOk result (generator.new ≡ drop 1 generator.old) }
    ensures learned { OnOk result (IsAfter root.new feeder.new) }
    ensures none { feeder.new.own ≡ [] }
    ensures failed { OnErr result (root.new.own ≡ []) }
    ensures err { IfErr result (IsAskErr root.old root.new) }
{
    match ask_next(rt, hall, root, generator) {
        Ok(_) => {}
        Err(error) => return Err(error),
    }
    let Ok(note) = hall.tell(root) else {
        unreachable!()
    };
    hall.learn(feeder, note);
    Ok(())
}

/// Applies all remaining commands of the generator as turns of the pass `feeder`. The error `Memory` means that memory
/// ran out for a command or for its turn. The error `Spent` means that the hall has already made the maximum number of
/// turns.
pub(crate) fn feed<M: Machine, R: Wait>(
    rt: &R,
    hall: &Hall<M>,
    feeder: &mut Pass<M>,
    generator: &mut Generator,
) -> Result<(), TurnErr>
    requires hall { feeder.old.hall ≡ hall.now.id }
    requires new { feeder.old.own ≡ [] }
    ensures { Feeds generator.old feeder.old feeder.new result }
{
    loop {
        match ask_next(rt, hall, feeder, generator) {
            Ok(true) => {}
            Ok(false) => return Ok(()),
            Err(error) => return Err(error),
        }
    }
}
