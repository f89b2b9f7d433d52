//! Runs the load test once: makes a hall, makes the turns of its passes, closes the hall and checks the result. A hall
//! is a lock around one machine. A pass is the right of one thread to make turns of the machine. A turn is one command.
ghost use Rattle.std.specs.Prelude.{◌≤◌, []};

use crate::checking::is_sound;
use crate::joining::join_all;
use crate::play::play;
use kds_base::Memory;
use kds_defs::Machine;
use kds_turn::Hall;
use std::alloc::Global;
use std::sync::Wait;
use std::thread::Threads;

/// The outcome of a run.
#[derive(Drop)]
pub enum Outcome {
    /// The history of the closed hall has `turns` turns, as many as expected, and the machine has the records of each
    /// pass exactly once and in order.
    Sound { turns: u64 },
    Unsound,
    OutOfMemory,
}

/// Makes a run on the new machine `machine`: the passes make their turns concurrently, and then the machine's records
/// are checked. `passes`, at least 1, is the number of passes, and `rounds` is the number of rounds.
pub fn run<M: Machine + Drop + Send, R: Threads + Wait + Sync>(
    rt: &R,
    alloc: Global,
    machine: M,
    passes: u32,
    rounds: u32,
) -> Outcome
    requires some { 1 ≤ passes }
    requires machine { M.stands_for machine [] }
{
    match made(rt, alloc, machine, passes, rounds) {
        Ok(outcome) => outcome,
        Err(_) => Outcome::OutOfMemory,
    }
}

fn made<M: Machine + Drop + Send, R: Threads + Wait + Sync>(
    rt: &R,
    alloc: Global,
    machine: M,
    passes: u32,
    rounds: u32,
) -> Result<Outcome, Memory>
    requires some { 1 ≤ passes }
    requires machine { M.stands_for machine [] }
{
    let Ok((hall, mut dealt)) = Hall::new(alloc, machine, passes) else {
        return Err(Memory);
    };
    play(rt, alloc, &hall, dealt.as_mut_slice(), rounds);
    let Some(pass) = join_all(&hall, dealt, passes) else {
        return Ok(Outcome::Unsound);
    };
    let (mut machine, past) = hall.close(pass);
    let turns = past.turns();
    let expected = (passes as u64).checked_mul(2 * rounds as u64 + 1);
    if expected == Some(turns) && is_sound(alloc, &mut machine, passes, rounds)? {
        Ok(Outcome::Sound { turns })
    } else {
        Ok(Outcome::Unsound)
    }
}
