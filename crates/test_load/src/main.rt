//! A load test, `test_load PASSES ROUNDS`: many threads make turns concurrently on one machine of the kind that the
//! server uses. A turn is one command that the machine carries out. A hall is a lock around the machine, and keeps one
//! history of all turns. A pass is the right of one thread to make turns. Each pass makes one turn first, and then two
//! turns in each round. The program prints the number of turns in the history of the closed hall, and whether the
//! machine has the records of each pass exactly once and in order. Before this run, the program makes two small runs.
//! In the first, a second pass learns of the first pass's turns from a note (a message between passes), and the program
//! prints what the second pass then reads. In the other run, four passes make one turn each. `rt run -- 64 30000` makes
//! 3,840,064 turns in its last run.
#![tactic(auto)]

ghost use Rattle.std.specs.Prelude.{◌≤◌, IfSome};

mod checking;
mod commands;
mod joining;
mod play;
mod relaying;
mod running;

use kcl_world::World;
use kds_base::read_u64;
use relaying::{Relayed, relay};
use running::{Outcome, run};
use std::process::ExitCode;
use std::{env, io};

/// Parses a command-line argument as a number from 1 to `most`. The result is `None` if the argument is missing or
/// isn't such a number.
fn number(word: Option<String>, most: u64) -> Option<u32>
    ensures { IfSome result (λ n. 1 ≤ n) }
{
    let n = read_u64(word?.as_bytes())?;
    if 1 <= n && n <= most {
        u32::try_from(n).ok()
    } else {
        None
    }
}

/// Parses the two command-line arguments: how many passes, 1 to 64, and how many rounds, 1 to 1,000,000. The result is
/// `None` if one of them is missing or invalid.
fn arguments(rt: &HostRuntime) -> Option<(u32, u32)>
    ensures { IfSome result (λ n. 1 ≤ n.0) }
{
    let mut words = env::args(rt).ok()?;
    let _name = words.next();
    let passes = number(words.next(), 64)?;
    let rounds = number(words.next(), 1_000_000)?;
    Some((passes, rounds))
}

/// Prints the outcome of a run with `passes` passes, and returns the exit status for this outcome.
fn show(rt: &HostRuntime, passes: u32, outcome: Outcome) -> io::Result<u8> {
    match outcome {
        Outcome::Sound { turns } => {
            println!(rt; "{passes} passes, {turns} turns, each pass's records once and in order")?;
            Ok(0)
        }
        Outcome::Unsound => {
            println!(rt; "the records are not those that were put")?;
            Ok(1)
        }
        Outcome::OutOfMemory => {
            println!(rt; "out of memory")?;
            Ok(6)
        }
    }
}

/// Prints which record the second pass read after it had learned of the first pass's turns from a note, and the number
/// of turns.
fn show_relayed(rt: &HostRuntime, relayed: Relayed) -> io::Result<()> {
    let turns = relayed.turns;
    match relayed.number {
        Some(seq) => {
            println!(rt;
                "after a note a second pass reads record {}, {turns} turns",
                seq.0
            )
        }
        None => println!(rt; "after a note a second pass reads no record, {turns} turns"),
    }
}

fn main(rt: HostRuntime) -> io::Result<ExitCode> {
    let Some((passes, rounds)) = arguments(&rt) else {
        println!(rt; "usage: test_load PASSES ROUNDS")?;
        return Ok(ExitCode::from(2));
    };
    let alloc = rt.alloc();
    if let Some(relayed) = relay(&rt, alloc, World::new(alloc)) {
        show_relayed(&rt, relayed)?;
    }
    let first = show(&rt, 4, run(&rt, alloc, World::new(alloc), 4, 0))?;
    let loaded = run(&rt, alloc, World::new(alloc), passes, rounds);
    let second = show(&rt, passes, loaded)?;
    Ok(ExitCode::from(if first == 0 { second } else { first }))
}
