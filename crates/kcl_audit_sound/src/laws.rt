//! A turn is a command with its sender and its time. A turn is lawful if the arguments of its command are within the
//! ranges of the API. A history is a list of lawful turns. The journal of a history is the event log of its turns, and
//! an audit verifies journals. A law is a theorem about definitions. The law in this file says that the journal of
//! every history is sound: an audit accepts it.
ghost use Rattle.std.specs.Prelude.{◌≡◌, ◌≢◌, List};
ghost use Rattle.std.specs.List.{AllByRecursion};
ghost use Rattle.kds_defs.specs.declared.command.Turn.{Turn};
ghost use Rattle.kds_defs.specs.Lawful.{IsHistory};
ghost use Rattle.kcl_journal.specs.declared.line.TheConstants.{VERSION};
ghost use Rattle.kcl_journal.specs.Ranges.{IsEntryLine};
ghost use Rattle.kcl_sim_scribe.specs.Added.{history_entries, journal_text};
ghost use Rattle.kcl_audit.specs.Progress.{audit_of, over, sound};
ghost use Rattle.kcl_audit.specs.Text.{IsJournal, counted};
ghost use Rattle.kcl_audit_sound.specs.Bits.{HaveBits};

/// Consider a history in which every number of a turn fits its machine type (`HaveBits`). Then every line of the
/// history's journal can be written as text, and the text of the whole journal is that of a legal journal. A journal is
/// legal if some sequence of accepted commands leaves it. So an audit finds this text sound, unless a line or the whole
/// text is longer than the limits.
pub fn sound_histories()
    ensures lines { (h : List Turn) → IsHistory h → HaveBits h
        → AllByRecursion (IsEntryLine VERSION) (history_entries h) }
    ensures legal { (h : List Turn) → IsHistory h → HaveBits h
        → IsJournal (journal_text h) (counted 0 (history_entries h)) }
    ensures sound { (h : List Turn) → IsHistory h → HaveBits h → audit_of (journal_text h) ≢ over
        → audit_of (journal_text h) ≡ sound (counted 0 (history_entries h)) }
{
    kcl_laws::step();
    kcl_laws::shown();
    kcl_laws::shard_records();
    kcl_audit::complete();
}
