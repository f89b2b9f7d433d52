//! Makes the turns of all passes concurrently. A hall is a lock around one machine. A pass is the right of one thread
//! to make turns of the machine. A turn is one command.
ghost use Rattle.std.specs.Prelude.{◌≡◌, All};
ghost use Rattle.kds_defs.specs.Lawful.{IsLawfulCommand};

use crate::commands::{create, other, put};
use kds_base::{Memory, Moment};
use kds_defs::{Answer, Command, Machine};
use kds_turn::{Hall, Pass};
use std::alloc::Global;
use std::sync::Wait;
use std::thread::{Threads, for_each_mut};

/// Makes one turn of a pass with the command `what`, and returns the answer. If the hall returns any error, the result
/// is the error `Memory`.
pub fn ask<M: Machine, R: Wait>(
    rt: &R,
    hall: &Hall<M>,
    pass: &mut Pass<M>,
    now: Moment,
    what: Command,
) -> Result<Answer, Memory>
    requires hall { pass.old.hall ≡ hall.now.id }
    requires lawful { IsLawfulCommand what }
    ensures { pass.new.hall ≡ hall.now.id }
{
    match hall.turn(rt, pass, now, what) {
        Ok(answer) => Ok(answer),
        Err(_) => Err(Memory),
    }
}

/// Makes one turn of a pass with the command `what`, and drops the answer.
pub fn turn<M: Machine, R: Wait>(
    rt: &R,
    hall: &Hall<M>,
    pass: &mut Pass<M>,
    now: Moment,
    what: Command,
) -> Result<(), Memory>
    requires hall { pass.old.hall ≡ hall.now.id }
    requires lawful { IsLawfulCommand what }
    ensures { pass.new.hall ≡ hall.now.id }
{
    let _answer = ask(rt, hall, pass, now, what)?;
    Ok(())
}

/// Makes the two turns of a pass in the round `number`.
fn round<M: Machine, R: Wait>(
    rt: &R,
    alloc: Global,
    hall: &Hall<M>,
    pass: &mut Pass<M>,
    number: u32,
) -> Result<(), Memory>
    requires { pass.old.hall ≡ hall.now.id }
    ensures { pass.new.hall ≡ hall.now.id }
{
    let now = Moment::new(number as u64 / 16).unwrap();
    let record = put(alloc, pass.by(), number)?;
    turn(rt, hall, pass, now, record)?;
    turn(rt, hall, pass, now, other(number, now))
}

/// Makes all turns of a pass. The first turn creates the stream. This turn is refused if another pass has already
/// created the stream. Then the pass makes the turns of `count` rounds.
fn rounds<M: Machine, R: Wait>(
    rt: &R,
    alloc: Global,
    hall: &Hall<M>,
    pass: &mut Pass<M>,
    count: u32,
) -> Result<(), Memory>
    requires { pass.old.hall ≡ hall.now.id }
    ensures { pass.new.hall ≡ hall.now.id }
{
    let stream = create(alloc)?;
    turn(rt, hall, pass, Moment::start(), stream)?;
    for number in 0..count {
        round(rt, alloc, hall, pass, number)?;
    }
    Ok(())
}

/// Makes all turns of a pass, or stops early if memory runs out.
fn play_one<M: Machine, R: Wait>(
    rt: &R,
    alloc: Global,
    hall: &Hall<M>,
    pass: &mut Pass<M>,
    count: u32,
)
    requires { pass.old.hall ≡ hall.now.id }
    ensures { pass.new.hall ≡ hall.now.id }
{
    let _ = rounds(rt, alloc, hall, pass, count);
}

/// Makes the turns of all passes concurrently. Each pass has a thread of its own.
pub fn play<M: Machine + Send, R: Threads + Wait + Sync>(
    rt: &R,
    alloc: Global,
    hall: &Hall<M>,
    passes: &mut [Pass<M>],
    count: u32,
)
    requires { All (λ p. p.hall ≡ hall.now.id) passes.old }
    ensures { All (λ p. p.hall ≡ hall.now.id) passes.new }
{
    let threads = passes.len();
    if threads > 0 {
        for_each_mut(
            rt,
            passes,
            threads,
            &|_, pass: &mut Pass<M>|
                requires { pass.now.hall ≡ hall.now.id }
                ensures { pass.exit.now.hall ≡ hall.entry.now.id }
            { play_one(rt, alloc, hall, pass, count) },
        );
    }
}
