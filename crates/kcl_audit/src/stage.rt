//! How far an audit has come in the text of a journal, which is an event log. An entry of a journal is good if it
//! breaks no rule, and bad otherwise. A valid journal is called sound.
ghost use Rattle.std.specs.Prelude.{ℕ, ◌≡◌, ◌∷◌, ◌++◌, None, IfOk, OnErr, OnOk};
ghost use Rattle.std.specs.Option.{option_map};
ghost use Rattle.kds_defs.specs.Journal.{Journal};
ghost use Rattle.kcl_journal.specs.Ranges.{IsTellable};
ghost use Rattle.kcl_audit_judge.specs.Standing.{JudgeValue, Stands};
ghost use Rattle.kcl_audit_streams.specs.Verdict.{end_verdict, verdict};
ghost use Rattle.kcl_audit.specs.Progress.{Progress, line_of, next};
ghost use Rattle.kcl_audit.specs.Stages.{Finishes, IsAt, end_by, is_found, name_in, stage_report};

use crate::names::{print_sound, print_unsound, rule_name};
use crate::verdict::Audit;
use kcl_journal::EntryLine;
use kds_base::{Memory, Moment, Octets};
use std::alloc::Global;

/// How far an audit has come in the text of a journal.
#[derive(Clone, Copy)]
pub enum Stage {
    /// The audit has taken no line.
    Fresh,
    /// The text has the version `version`, and its first `count` entries are good. The last line hasn't come yet.
    Going { version: u8, count: u64 },
    /// The last line, `end CLOCK`, has come after `count` good entries.
    Closed { count: u64 },
    /// The entry with the number `number`, counted from 1, is bad: it breaks the rule called `name`.
    Found { number: u64, name: &'static str },
}

/// Returns `count` + 1, or `count` if it is the greatest `u64`.
pub fn next(count: u64) -> u64
    ensures { result ≡ next count }
{
    count.saturating_add(1)
}

/// Judges the entry in `line`, and applies the entry to the state of the audit if the entry is good. Returns the name
/// of the rule that the entry breaks, or `None` if the entry is good.
pub fn entry_name(
    alloc: Global,
    audit: &mut Audit,
    line: EntryLine,
) -> Result<Option<&'static str>, Memory>
    requires told { (version : ℕ) × IsTellable version line.what }
    requires stands { (log : Journal) × Stands audit.old log }
    ensures name { (log : Journal) → Stands audit.old log
        → IfOk result (λ o. option_map (λ s. s.now) o ≡ name_in (verdict log (line_of line))) }
    ensures good { (log : Journal) → Stands audit.old log
        → IfOk result (λ o. o ≡ None → Stands audit.new (line_of line ∷ log)) }
    ensures kept { (log : Journal) → Stands audit.old log → OnErr result (Stands audit.new log) }
    ensures stands { (log : Journal) × Stands audit.new log }
{
    match audit.entry(alloc, line) {
        Ok(Ok(())) => Ok(None),
        Ok(Err(rule)) => Ok(Some(rule_name(&rule))),
        Err(memory) => Err(memory),
    }
}

/// Judges the clock of the last line. Returns the name of the rule that the last line breaks, or `None` if the last
/// line breaks no rule.
pub fn end_name(audit: &Audit, clock: Moment) -> Option<&'static str>
    ensures { (log : Journal) → Stands audit.now log
        → option_map (λ s. s.now) result ≡ name_in (end_verdict log clock) }
{
    match audit.finish(clock) {
        Ok(()) => None,
        Err(rule) => Some(rule_name(&rule)),
    }
}

/// Whether the audit has found a bad entry.
pub fn is_found(stage: &Stage) -> bool
    ensures { result ≡ is_found stage.now }
{
    matches!(stage, Stage::Found { .. })
}

/// Adds the report of the bad entry, if the audit has found one. If memory runs out, nothing is added.
pub fn report_stage(alloc: Global, stage: &Stage, to: &mut Octets) -> Result<(), Memory>
    ensures ok { OnOk result (to.new ≡ to.old ++ stage_report stage.now) }
    ensures err { OnErr result (to.new ≡ to.old) }
{
    if let Stage::Found { number, name } = stage {
        return print_unsound(alloc, *number, name, to);
    }
    Ok(())
}

/// Adds the final report at the end of the text. Nothing is added if the audit has found a bad entry, since this entry
/// was already reported. `unfinished` is true if the text doesn't end with a line feed. Returns whether the journal is
/// sound. If memory runs out, nothing is added.
pub fn finish_stage(
    alloc: Global,
    stage: &Stage,
    unfinished: bool,
    to: &mut Octets,
) -> Result<bool, Memory>
    ensures says { (a : JudgeValue) (p : Progress) → IsAt stage.now a p
        → IfOk result (λ says. Finishes p (end_by unfinished) says to.old to.new) }
    ensures err { OnErr result (to.new ≡ to.old) }
{
    let number = match stage {
        Stage::Found { .. } => return Ok(false),
        Stage::Closed { count } => {
            if !unfinished {
                print_sound(alloc, *count, to)?;
                return Ok(true);
            }
            next(next(*count))
        }
        Stage::Going { count, .. } => next(*count),
        Stage::Fresh => next(0),
    };
    print_unsound(alloc, number, "Form", to)?;
    Ok(false)
}
