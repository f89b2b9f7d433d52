//! The participants of a drill, which is a self-test: the root creates the stream, the feeder sends the other generated
//! commands, and the workers read the records. Each participant has a pass, which is its right to send commands to the
//! shared machine.
ghost use Rattle.std.specs.Prelude.{◌≡◌, ◌+◌, ◌≤◌, [], length, IfOk, vec_len};
ghost use Rattle.kcl_drill.specs.declared.limits.TheConstants.{MOST_WORKERS};
ghost use Rattle.kcl_drill_run.specs.Participants.{AreDealt, AreMembersOf, IsMemberOf};

use kcl_defs::Settings;
use kcl_live::{Member, OpenGate};
use kcl_proc::{Kind, Stock};
use kcl_worker::Worker;
use kcl_world::World;
use kds_base::{Memory, WorkerNo};
use kds_turn::{Hall, Pass};
use std::alloc::Global;

/// A worker whose processors count records and bytes. The worker has a pass, the right to send commands to the drill's
/// machine.
pub type DrillMember = Member<World, Stock, Kind, OpenGate>;

/// The participants of a drill: the passes of the root and of the feeder, and the workers with their passes.
#[derive(Drop)]
pub struct Participants {
    pub root: Pass<World>,
    pub feeder: Pass<World>,
    pub members: Vec<DrillMember>,
}

/// Returns a new worker with the number `name`, the usual settings, and the pass `pass`.
fn member(alloc: Global, name: u32, pass: Pass<World>) -> DrillMember
    requires { 1 ≤ name }
    ensures { IsMemberOf name pass result }
{
    Member {
        pass,
        worker: Worker::new(alloc, WorkerNo(name), Settings::usual(), Kind::Tally),
        gate: OpenGate,
        outcome: Ok(()),
    }
}

/// Returns new workers, one for each of the passes, in the same order. Their names are w1, w2 and so on.
fn members_of(alloc: Global, passes: Vec<Pass<World>>) -> Result<Vec<DrillMember>, Memory>
    requires { vec_len passes ≤ MOST_WORKERS }
    ensures { IfOk result (λ made. AreMembersOf 1 passes.items made.items) }
{
    let mut made = Vec::with_capacity(alloc, passes.len())?;
    let mut name = 0;
    for pass in passes {
        name += 1;
        made.push(member(alloc, name, pass))?;
    }
    Ok(made)
}

/// Makes a hall, which is a lock around a new machine, and the participants that share this machine. The root gets the
/// first pass of the hall, the feeder the second, and the workers get the others. The error means out of memory.
pub fn assemble(alloc: Global, workers: u32) -> Result<(Hall<World>, Participants), Memory>
    requires { workers ≤ MOST_WORKERS }
    ensures { IfOk result (λ made. AreDealt made.0 made.1 × (length made.1.members.items ≡ workers)) }
{
    let Ok((hall, mut passes)) = Hall::new(alloc, World::new(alloc), workers + 2) else {
        return Err(Memory);
    };
    let root = passes.remove(0);
    let feeder = passes.remove(0);
    let members = members_of(alloc, passes)?;
    Ok((
        hall,
        Participants {
            root,
            feeder,
            members,
        },
    ))
}
