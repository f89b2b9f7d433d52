//! Audits the text of a journal (event log) that is read from a source, and writes the result to a sink. A journal is
//! legal if some sequence of accepted commands leads to exactly its lines.
ghost use Rattle.std.specs.Prelude.{◌≡◌, ◌⊎◌, ◌≤◌, ℕ, List, IfSome};
ghost use Rattle.std.specs.declared.option.Option.{Option};
ghost use Rattle.kds_ends.specs.Causes.{Rose};
ghost use Rattle.kds_lines.specs.Telling.{Told};
ghost use Rattle.kcl_audit.specs.Progress.{finish, progress};
ghost use Rattle.kcl_audit.specs.Text.{report};
ghost use Rattle.kcl_audit.specs.Stages.{Broke, IsOver, Took, end_by, texts_report};
ghost use Rattle.kcl_audit.specs.Audited.{AuditsAs, IsAuditStatus, IsNoJournal, IsSafely, TellsAudit, TellsEnd};

use crate::laws::{complete, legal};
use crate::lines::AuditTaker;
use kds_base::Octets;
use kds_ends::{Sink, Source, Status, write_all};
use kds_lines::{Outcome, read_lines};
use std::alloc::Global;

/// Writes the final report at the end of the text, and returns the status of the audit. `unfinished` is true if the
/// text doesn't end with a line feed.
fn tell_end<K: Sink>(alloc: Global, taker: &AuditTaker, unfinished: bool, out: &mut K) -> Status
    ensures told { (texts : List (List ℕ)) → Took taker.now texts
        → TellsEnd result (finish (progress texts) (end_by unfinished)) (report (progress texts)) (K.held out.old)
        (K.held out.new) }
    ensures later { K.faults out.old ≤ K.faults out.new }
    ensures write { result ≡ Status.Write → Rose (K.faults out.old) (K.faults out.new) }
    ensures read { result ≡ Status.Read → ⊥ }
    ensures kinds { IsAuditStatus result }
{
    let mut text = Octets::new(alloc);
    match taker.finish(alloc, unfinished, &mut text) {
        Ok(is_sound) => match write_all(out, text.as_slice()) {
            Ok(()) => if is_sound {
                Status::Done
            } else {
                Status::Unsound
            },
            Err(_) => Status::Write,
        },
        Err(_) => Status::Memory,
    }
}

/// Ends the audit, and returns its status. `outcome` says how reading the input ended. If a bad entry was found before
/// the source failed or the text became too long, the status is still `Unsound`.
fn end_audit<K: Sink>(alloc: Global, taker: &AuditTaker, outcome: Outcome, out: &mut K) -> Status
    ensures told { (bytes : List ℕ) (left start : Option (List ℕ))
        → Told outcome (Took taker.now) (Broke taker.now) IsOver texts_report bytes left start (K.held out.old)
        → TellsAudit result bytes start (K.held out.new) }
    ensures later { K.faults out.old ≤ K.faults out.new }
    ensures write { result ≡ Status.Write → (outcome ≡ Outcome.Write) ⊎ Rose (K.faults out.old) (K.faults out.new) }
    ensures read { result ≡ Status.Read → outcome ≡ Outcome.Read }
    ensures kinds { IsAuditStatus result }
{
    match outcome {
        Outcome::Write => return Status::Write,
        Outcome::Memory => return Status::Memory,
        _ => {}
    }
    if taker.is_over() {
        return Status::Unsound;
    }
    match outcome {
        Outcome::Whole => tell_end(alloc, taker, false, out),
        Outcome::Unfinished(_) => tell_end(alloc, taker, true, out),
        Outcome::TooLong => Status::TooLong,
        Outcome::Read => Status::Read,
        // The audit stops reading before the end of the input only after a bad entry.
        Outcome::Stopped(_) => Status::Unsound,
        Outcome::Write => Status::Write,
        Outcome::Memory => Status::Memory,
    }
}

/// Audits the text of a journal, and writes the result: `sound N` with the number of entries, or `entry N RULE` for the
/// first bad entry. Returns `Done` if all entries are good, `Unsound` if an entry is bad, and `TooLong` if a line or
/// the input is longer than the limits and no earlier entry is bad. Returns `Read` if the source fails before one of
/// these results is known, `Write` if the sink fails, and `Memory` if memory runs out before that. If nothing fails and
/// memory doesn't run out, the bytes alone decide which of the first three statuses is returned.
pub fn run_audit<S: Source, K: Sink>(alloc: Global, input: &mut S, out: &mut K) -> Status
    ensures told { IfSome (S.left input.old) (λ bytes. TellsAudit result bytes (K.held out.old) (K.held out.new)) }

    // If the audit finds a text sound, the text is that of a legal journal, and the state after this journal is safe
    // (`IsSafe`) at the clock of the last line. The audit never finds the text of a legal journal unsound.
    ensures safe { result ≡ Status.Done → IfSome (S.left input.old) IsSafely }
    ensures legal { result ≡ Status.Unsound → IfSome (S.left input.old) IsNoJournal }

    // If the source and the sink don't fail and memory doesn't run out, the bytes alone decide the status.
    ensures complete { (Rose (S.faults input.old) (S.faults input.new) → ⊥)
        → (Rose (K.faults out.old) (K.faults out.new) → ⊥)
        → IfSome (S.left input.old) (λ bytes. AuditsAs bytes result) }
    ensures read { result ≡ Status.Read → Rose (S.faults input.old) (S.faults input.new) }
    ensures write { result ≡ Status.Write → Rose (K.faults out.old) (K.faults out.new) }
    ensures kinds { IsAuditStatus result }
{
    legal();
    complete();
    kcl_laws::step();
    let mut taker = AuditTaker::new(alloc);
    let outcome = read_lines(alloc, &mut taker, input, out);
    end_audit(alloc, &taker, outcome, out)
}
