//! Runs the lines of a schedule on a machine. A schedule is a recorded workload: each line is a request, a lease
//! command, or an instruction to a worker. A turn is a command with its sender and its time. A tenure is one worker's
//! hold on a lease.
#![tactic(auto)]

ghost use Rattle.std.specs.Prelude.{◌≡◌, ℕ, List, ◌∷◌, ◌++◌, length};
ghost use Rattle.kds_defs.specs.Lawful.{IsHistory};
ghost use Rattle.kds_lines.specs.Lines.{End};
ghost use Rattle.kcl_script.specs.declared.line.Line.{Line};
ghost use Rattle.kcl_sim.specs.Output.{Ran, fresh, with_line, with_schedule, outputs};
ghost use Rattle.kcl_sim.specs.Schedule.{history, judge, judged, preceded_by, ran, whole};
ghost use Rattle.kcl_sim.specs.Serving.{AreAllServed, AreHandedOff, AreNeverReadAgain};
ghost use Rattle.kcl_sim.specs.Standing.{GrowsFew, HasRunPart, SimValue};
ghost use Rattle.kcl_sim.specs.Taking.{judged_texts};

use kcl_hand::{handed, never_again, service};
use kcl_script::one_spelling;
use kds_json::asks_lawfully;

mod handoffs;
mod keep;
mod past;
mod print;
mod sim;
mod steps;
mod wanted;
mod workers;

pub use keep::{AllTurns, Keep, NoTurns};
pub use sim::Sim;

/// All turns of every schedule are lawful: their values are in the ranges of the API. This is also true of a run that
/// has executed only a prefix of the schedule's lines, even if memory runs out in the middle of the line after this
/// prefix.
pub fn lawful()
    ensures whole { (bytes : List ℕ) → IsHistory (history bytes) }
    ensures first { (bytes : List ℕ) (lines later : List Line) → (judged bytes).lines ≡ lines ++ later
        → IsHistory (with_schedule fresh lines).history }
    ensures part { (bytes : List ℕ) (lines later : List Line) (line : Line) (s : SimValue)
        → (judged bytes).lines ≡ lines ++ line ∷ later
        → HasRunPart s (with_schedule fresh lines) line → IsHistory s.history }
{
    asks_lawfully();
    one_spelling();
}

/// A read is called given once the batch that it returned counts as processed. In the run of every schedule, the calls
/// that each lease's processor gets are those for the given reads of the lease's tenure (`AreAllServed`). This is also
/// true of the leases that a worker has released. It is true after each line of a schedule, and not only at the end.
pub fn served()
    ensures whole { (bytes : List ℕ) → AreAllServed (ran bytes) }
    ensures first { (bytes : List ℕ) (lines later : List Line) → (judged bytes).lines ≡ lines ++ later
        → AreAllServed (with_schedule fresh lines) }
{
    one_spelling();
    service();
}

/// A hand-off passes on a lease that a worker releases. Consider a run after any line of its schedule, and a hand-off
/// that has already freed its lease's row in the lease table. Each batch that was handed to the hand-off's processor is
/// given (it counts as processed). As long as the row exists, its checkpoint is at or above all records that were given
/// in the tenure of the hand-off. A tenure of the same key that begins later reads none of these records.
pub fn handed_off()
    ensures marked { (bytes : List ℕ) (lines later : List Line) → (judged bytes).lines ≡ lines ++ later
        → AreHandedOff (with_schedule fresh lines) }
    ensures once { (bytes : List ℕ) (lines later : List Line) → (judged bytes).lines ≡ lines ++ later
        → AreNeverReadAgain (history bytes) (with_schedule fresh lines) }
{
    asks_lawfully();
    one_spelling();
    handed();
    never_again();
}

/// The lines of a schedule are executed one after another: each line continues from the state that the lines before it
/// have left.
pub fn one_after_another()
    ensures judged { (texts more : List (List ℕ)) (end : End) → (judged_texts texts).ending ≡ whole
        → judge 0 (texts ++ more) end ≡ preceded_by (judged_texts texts).lines (judge (length texts) more end) }
    ensures states { (ran : Ran) (ls ks : List Line)
        → with_schedule ran (ls ++ ks) ≡ with_schedule (with_schedule ran ls) ks }
    ensures outputs { (ran : Ran) (ls ks : List Line)
        → outputs ran (ls ++ ks) ≡ outputs ran ls ++ outputs (with_schedule ran ls) ks }
{}

/// A line of a schedule adds at most three turns to a run, even if memory runs out in the middle of the line.
pub fn few_turns()
    ensures line { (ran : Ran) (line : Line) → GrowsFew ran.history (with_line ran line).history }
    ensures part { (s : SimValue) (ran : Ran) (line : Line) → HasRunPart s ran line → GrowsFew ran.history s.history }
{}
