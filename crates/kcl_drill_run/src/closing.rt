//! Closes the hall of a drill, which is a self-test. The hall is the lock through which the participants of the drill
//! share one machine. A pass is a participant's right to send commands to the machine. The participants are the root
//! (it creates the stream), the feeder (it sends the other generated commands) and the workers.
ghost use Rattle.std.specs.Prelude.{◌≡◌, ℕ, All};
ghost use Rattle.kcl_drill_run.specs.Running.{AreShort, HasDrilled, HasTaken, HaveRun, HaveStopped};

use crate::participants::Participants;
use kcl_live::Member;
use kcl_world::World;
use kds_turn::{Hall, Pass};

/// Joins the passes of the feeder and of all workers into the root's pass, and returns this pass. The root's pass has
/// then seen all commands that the joined passes had seen.
fn join_all(hall: &Hall<World>, participants: Participants) -> Pass<World>
    requires ends { (participants.root.hall ≡ hall.now.id) × (participants.feeder.hall ≡ hall.now.id) }
    requires members { All (λ m. m.pass.hall ≡ hall.now.id) participants.members.items }
    ensures hall { result.hall ≡ hall.now.id }
    ensures taken { HasTaken participants result }
{
    let Participants {
        mut root,
        feeder,
        members,
    } = participants;
    hall.join(&mut root, feeder);
    for member in members {
        let Member { pass, .. } = member;
        hall.join(&mut root, pass);
    }
    root
}

/// Joins all passes, closes the hall, and returns the hall's machine. The threads of the drill may have stopped early,
/// because of an error. In every case, each pass has seen fewer than 2^32 commands.
pub fn close(hall: Hall<World>, participants: Participants) -> World
    requires stopped { (number : ℕ) × (records : ℕ) × HaveStopped hall number records participants }
    ensures drilled { (number records : ℕ) → HaveRun hall number records participants
        → HasDrilled number records result }
    ensures short { AreShort participants }
{
    kcl_drill_laws::closed();
    kcl_drill_laws::stopped();
    let root = join_all(&hall, participants);
    let (world, _past) = hall.close(root);
    world
}
