//! Runs a schedule, which is a recorded workload, and writes the schedule's journal. A journal is an event log: it has
//! an entry for each change that a turn makes. A turn is one command with its sender and its time. An audit checks
//! whether a journal is valid.
ghost use Rattle.std.specs.Prelude.{◌≡◌, ◌≤◌, ◌++◌, [], List, ℕ, OnOk, IfSome};
ghost use Rattle.std.specs.declared.option.Option.{Option};
ghost use Rattle.std.specs.Io.KnownBytes.{Appends};
ghost use Rattle.kds_ends.specs.Causes.{Rose};
ghost use Rattle.kcl_sim.specs.Output.{fresh};
ghost use Rattle.kcl_sim.specs.Schedule.{history};
ghost use Rattle.kcl_sim.specs.Standing.{RunsSo};
ghost use Rattle.kcl_audit_sound.specs.Bits.{HaveBits};
ghost use Rattle.kds_cli_runs.specs.Answered.{RanBy};
ghost use Rattle.kds_cli_runs.specs.Entries.{lines_journal};
ghost use Rattle.kds_cli_runs.specs.Journal.{EndTells, IsAuditedSound, JournalTells, entries, first_line, is_done};
ghost use Rattle.kds_cli_runs.specs.Journal.{last_line, recorded};
ghost use Rattle.kds_cli_runs.specs.Told.{IsReplayStatus, TellsBy};

use crate::entries::Journal;
use crate::schedule::status_of;
use kcl_journal::{HEADING_LINE, print_end};
use kcl_sim::Sim;
use kcl_sim_scribe::turn_by_turn;
use kds_base::{Memory, Moment, Octets};
use kds_defs::Machine;
use kds_ends::{Sink, Source, Status, write_all};
use kds_lines::read_lines;
use std::alloc::Global;

/// Appends the last line of a journal to `to`: the word `end`, a space, `clock` in milliseconds, and a line feed. If
/// memory runs out, a prefix of the line may have been appended.
fn print_last(alloc: Global, clock: Moment, to: &mut Octets) -> Result<(), Memory>
    ensures { OnOk result (to.new ≡ to.old ++ last_line clock) }
{
    print_end(alloc, clock, to)?;
    to.extend(b"\n".as_slice())
}

/// Writes the last line of a journal, with the time `clock`, to `out`. Returns the status Done if the line was written,
/// and Write if the sink failed before the whole line was written. If memory ran out, nothing was written and the
/// status is Memory.
fn write_last<K: Sink>(alloc: Global, clock: Moment, out: &mut K) -> Status
    ensures told { EndTells result clock (K.held out.old) (K.held out.new) }
    ensures write { result ≡ Status.Write → Rose (K.faults out.old) (K.faults out.new) }
    ensures kinds { IsReplayStatus result }
{
    let mut line = Octets::new(alloc);
    match print_last(alloc, clock, &mut line) {
        Ok(()) => match write_all(out, line.as_slice()) {
            Ok(()) => Status::Done,
            Err(_) => Status::Write,
        },
        Err(_) => Status::Memory,
    }
}

/// Runs the lines of the schedule in `input`, and writes the journal entries of the turns that these lines make.
/// Precondition: `sim` has run no line yet.
fn write_entries<M: Machine, S: Source, K: Sink>(
    alloc: Global,
    sim: &mut Sim<M, Journal>,
    input: &mut S,
    out: &mut K,
) -> Status
    requires { RunsSo sim.old fresh }
    ensures told { IfSome (S.left input.old) (λ bytes.
        TellsBy entries result bytes (S.left input.new) (K.held out.old) (K.held out.new)) }
    ensures ran { IfSome (S.left input.old)
        (λ bytes. RanBy lines_journal result bytes (K.held out.old) (K.held out.new) sim.new) }
    ensures read { result ≡ Status.Read → Rose (S.faults input.old) (S.faults input.new) }
    ensures write { result ≡ Status.Write → Rose (K.faults out.old) (K.faults out.new) }
    ensures later { K.faults out.old ≤ K.faults out.new }
    ensures kinds { IsReplayStatus result }
{
    kcl_sim::one_after_another();
    kcl_sim::few_turns();
    turn_by_turn();
    let outcome = read_lines(alloc, sim, input, out);
    status_of(outcome)
}

fn is_done(status: Status) -> bool
    ensures { result ≡ is_done status }
{
    matches!(status, Status::Done)
}

/// Runs the lines of the schedule in `input`, and writes the schedule's journal without the first line: the entries,
/// and then the last line. The last line is written to its end if and only if the status is Done. Precondition: `sim`
/// has run no line yet.
fn write_rest<M: Machine, S: Source, K: Sink>(
    alloc: Global,
    sim: &mut Sim<M, Journal>,
    input: &mut S,
    out: &mut K,
) -> Status
    requires { RunsSo sim.old fresh }
    ensures told { (start : Option (List ℕ)) → Appends start (K.held out.old) first_line
        → IfSome (S.left input.old) (λ bytes.
        JournalTells result bytes (S.left input.new) start (K.held out.new)) }
    ensures ran { (start : Option (List ℕ)) → Appends start (K.held out.old) first_line
        → IfSome (S.left input.old) (λ bytes.
        RanBy (recorded result) result bytes start (K.held out.new) sim.new) }
    ensures bits { result ≡ Status.Done → IfSome (S.left input.old) (λ bytes. HaveBits (history bytes)) }
    ensures read { result ≡ Status.Read → Rose (S.faults input.old) (S.faults input.new) }
    ensures write { result ≡ Status.Write → Rose (K.faults out.old) (K.faults out.new) }
    ensures kinds { IsReplayStatus result }
{
    let status = write_entries(alloc, sim, input, out);
    if is_done(status) {
        let _ = sim.kept();
        return write_last(alloc, sim.clock(), out);
    }
    status
}

/// The result of `record_schedule`: the status, and the machine and the workers as the run left them.
#[derive(Drop)]
pub struct Recorded<M: Machine> {
    pub status: Status,
    pub sim: Sim<M, Journal>,
}

/// Runs the schedule in `input` on `machine`, and writes the schedule's journal to `out`. Precondition: `machine` has
/// made no turn yet.
pub fn record_schedule<M: Machine + Drop, S: Source, K: Sink>(
    alloc: Global,
    machine: M,
    input: &mut S,
    out: &mut K,
) -> Recorded<M>
    requires { M.stands_for machine [] }
    ensures told { IfSome (S.left input.old) (λ bytes.
        JournalTells result.status bytes (S.left input.new) (K.held out.old) (K.held out.new)) }

    // The turns that were made are those of the lines that were run. If the input and the output didn't fail and memory
    // didn't run out, the lines that were run are those before the first line that is invalid or too long. If there is
    // no such line, all lines were run. If the status is Memory, the first turns of the next line may have been made
    // too.
    ensures ran { IfSome (S.left input.old) (λ bytes.
        RanBy (recorded result.status) result.status bytes (K.held out.old) (K.held out.new) result.sim) }

    // If the journal was written to its end, and both its lines and the whole journal are within an audit's limits on
    // length, an audit finds the journal sound (valid).
    ensures sound { result.status ≡ Status.Done → IfSome (S.left input.old) IsAuditedSound }
    ensures read { result.status ≡ Status.Read → Rose (S.faults input.old) (S.faults input.new) }
    ensures write { result.status ≡ Status.Write → Rose (K.faults out.old) (K.faults out.new) }
    ensures kinds { IsReplayStatus result.status }
{
    kcl_sim::lawful();
    kcl_audit_sound::sound_histories();
    let mut sim = Sim::keeping(alloc, machine, Journal::new(alloc));
    match write_all(out, HEADING_LINE.as_slice()) {
        Ok(()) => Recorded {
            status: write_rest(alloc, &mut sim, input, out),
            sim,
        },
        Err(_) => Recorded {
            status: Status::Write,
            sim,
        },
    }
}
