//! The audit as a consumer of the lines of an input. An audit checks whether a journal, which is an event log, is sound
//! (valid). An entry of a journal is good if it breaks no rule, and bad otherwise.
ghost use Rattle.std.specs.Prelude.{ℕ, ◌≡◌, List, [], IfOk, OnErr, OnOk};
ghost use Rattle.kds_defs.specs.Journal.{Journal};
ghost use Rattle.kcl_journal.specs.Entries.{IsVersion};
ghost use Rattle.kcl_audit_judge.specs.Standing.{Stands};
ghost use Rattle.kcl_audit.specs.Progress.{line_step, progress, step};
ghost use Rattle.kcl_audit.specs.Stages.{Finishes, HasVersion, IsAt, Took, end_by, is_bad};

use crate::stage::{Stage, end_name, entry_name, finish_stage, is_found, next, report_stage};
use crate::verdict::Audit;
use kcl_journal::{FIRST_VERSION, HEADING, VERSION, read_end, read_entry};
use kds_base::{Memory, Octets};
use kds_lines::Taker;
use std::alloc::Global;
use std::marker::Model;

/// Judges the line `text`, which comes after `count` good entries, and returns the stage of the audit after this line.
/// `version` is the version of the journal's text.
fn line(
    alloc: Global,
    audit: &mut Audit,
    version: u8,
    count: u64,
    text: &[u8],
) -> Result<Stage, Memory>
    requires version { IsVersion version }
    requires stands { (log : Journal) × Stands audit.old log }
    ensures at { (log : Journal) → Stands audit.old log
        → IfOk result (λ s. IsAt s audit.new (line_step version log count text.now)) }
    ensures kept { (log : Journal) → Stands audit.old log → OnErr result (Stands audit.new log) }
    ensures stands { (log : Journal) × Stands audit.new log }
    ensures known { IfOk result HasVersion }
{
    kcl_journal::one_entry();
    let number = next(count);
    if let Some(entry) = read_entry(alloc, text, version)? {
        return Ok(match entry_name(alloc, audit, entry)? {
            Some(name) => Stage::Found { number, name },
            None => Stage::Going {
                version,
                count: number,
            },
        });
    }
    let Some(clock) = read_end(text) else {
        return Ok(Stage::Found {
            number,
            name: "Form",
        });
    };
    Ok(match end_name(audit, clock) {
        Some(name) => Stage::Found { number, name },
        None => Stage::Closed { count },
    })
}

/// An audit that takes the text of a journal line by line. After a bad entry it takes no further line.
#[derive(Drop)]
pub struct AuditTaker {
    audit: Audit,
    stage: Stage,
}

impl Model for AuditTaker {
    ghost use Rattle.kcl_audit.specs.Stages.{HasJournal, HasVersion, TakerValue};

    ghost Value = { TakerValue };

    ghost invariant = { λ t. HasJournal t.audit × HasVersion t.stage };

    ghost view = { λ t. record { judge = t.audit; stage = t.stage } };
}

impl AuditTaker {
    /// Returns an audit that has taken no line.
    pub fn new(alloc: Global) -> AuditTaker
        ensures { Took result [] }
    {
        AuditTaker {
            audit: Audit::new(alloc),
            stage: Stage::Fresh,
        }
    }

    /// Whether a bad entry was found. The report of this entry was added to the output when the entry's line was taken.
    pub fn is_over(&self) -> bool
        ensures { (texts : List (List ℕ)) → Took self.now texts → result ≡ is_bad (progress texts) }
    {
        is_found(&self.stage)
    }

    /// Ends the audit at the end of the text. Adds the final report if no bad entry was reported before. `unfinished`
    /// is true if the text doesn't end with a line feed. Returns whether the journal is sound. If memory runs out,
    /// nothing is added.
    pub fn finish(&self, alloc: Global, unfinished: bool, to: &mut Octets) -> Result<bool, Memory>
        ensures says { (texts : List (List ℕ)) → Took self.now texts
            → IfOk result (λ says. Finishes (progress texts) (end_by unfinished) says to.old to.new) }
        ensures err { OnErr result (to.new ≡ to.old) }
    {
        finish_stage(alloc, &self.stage, unfinished, to)
    }

    /// Judges the line `text`, and returns the stage of the audit after this line. The caller stores the stage.
    fn stage_after(&mut self, alloc: Global, text: &[u8]) -> Result<Stage, Memory>
        ensures at { (texts : List (List ℕ)) → Took self.old texts
            → IfOk result (λ s. IsAt s self.new.judge (step (progress texts) text.now)) }
        ensures kept { (texts : List (List ℕ)) → Took self.old texts → OnErr result (Took self.new texts) }
        ensures same { self.new.stage ≡ self.old.stage }
        ensures known { IfOk result HasVersion }
    {
        match self.stage {
            Stage::Fresh => {
                if text == HEADING.as_slice() {
                    return Ok(Stage::Going {
                        version: VERSION,
                        count: 0,
                    });
                }
                line(alloc, &mut self.audit, FIRST_VERSION, 0, text)
            }
            Stage::Going { version, count } => line(alloc, &mut self.audit, version, count, text),
            Stage::Closed { count } => Ok(Stage::Found {
                number: next(next(count)),
                name: "Form",
            }),
            Stage::Found { number, name } => Ok(Stage::Found { number, name }),
        }
    }
}

/// The audit takes the lines of a journal's text one after another. After a bad entry it takes no further line.
impl Taker for AuditTaker {
    ghost use Rattle.std.specs.Prelude.{refl};
    ghost use Rattle.kcl_audit.specs.Stages.{Broke, IsOver, Took, texts_report};

    ghost took = { Took };

    ghost broke = { Broke };

    ghost refuses = { IsOver };

    ghost output = { texts_report };

    ghost nothing = { refl };

    fn take(&mut self, alloc: Global, text: &[u8], to: &mut Octets) -> Result<bool, Memory> {
        if is_found(&self.stage) {
            return Ok(false);
        }
        let after = self.stage_after(alloc, text)?;
        self.stage = after;
        report_stage(alloc, &self.stage, to)?;
        Ok(true)
    }
}
