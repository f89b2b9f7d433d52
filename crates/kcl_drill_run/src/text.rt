//! The text that a drill writes. A drill is a self-test, and its text is a summary of the drill's stream.
ghost use Rattle.std.specs.Prelude.{ℕ, ◌≡◌, ◌<◌, ◌^◌, ◌++◌, List, length, IfOk};
ghost use Rattle.kds_defs.specs.declared.command.Turn.{Turn};
ghost use Rattle.kds_defs.specs.Histories.{journal};
ghost use Rattle.kcl_drill.specs.Fed.{IsDrill};
ghost use Rattle.kcl_drill.specs.Summed.{drill_text};
ghost use Rattle.kcl_drill_laws.specs.Closed.{AreFromHorizon};

use kcl_drill_drain::lone_drain;
use kcl_drill_summary::summary;
use kds_base::{Memory, Moment, Octets};
use kds_defs::Machine;
use std::alloc::Global;

/// The actor number of the commands that are sent after the hall was closed. The hall is the lock around the machine.
/// No participant of the drill has this number.
const NOBODY: u32 = 0;

/// Reads each shard of a drill's machine to its end, and returns the summary of the stream as text. All commands are
/// sent at moment 0, so the machine's clock doesn't advance. The error means out of memory. The call only adds commands
/// to the machine's history, even if it returns an error.
pub fn drained_text<M: Machine>(alloc: Global, machine: &mut M) -> Result<Octets, Memory>
    ensures text { (number records : ℕ) (h : List Turn) → M.stands_for machine.old h → IsDrill h number records
        → length h < 2 ^ 32
        → AreFromHorizon (journal h) → IfOk result (λ text. text ≡ drill_text number records) }
    ensures kept { (h : List Turn) → M.stands_for machine.old h → (more : List Turn)
        × M.stands_for machine.new (more ++ h) }
{
    kcl_drill::one_text();
    kcl_drill::untrimmed();
    kcl_drill_laws::drained();
    kcl_drill_laws::summed();
    lone_drain(machine, NOBODY, Moment::start())?;
    let mut text = Octets::new(alloc);
    summary(alloc, machine, NOBODY, Moment::start(), &mut text)?;
    Ok(text)
}
