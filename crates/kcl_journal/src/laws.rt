//! Laws about the text of every journal. A journal is the event log of a schedule, which is a recorded workload. A law
//! is a theorem, stated as the contract of a function that has no parameters and does nothing.
ghost use Rattle.std.specs.Prelude.{◌≡◌, ◌<◌, ◌^◌, List, ℕ, Some, None};
ghost use Rattle.kcl_script_fields.specs.Fields.{Lacks};
ghost use Rattle.kcl_journal.specs.declared.line.EntryLine.{EntryLine};
ghost use Rattle.kcl_journal.specs.declared.line.TheConstants.{FIRST_RECORD_BYTES, FIRST_VERSION, KEY_BYTES, VERSION};
ghost use Rattle.kcl_journal.specs.Entries.{end_of, end_spelling, entry_of, entry_spelling, heading};
ghost use Rattle.kcl_journal.specs.Ranges.{IsEntryLine};

/// For each version and each possible line of a journal (`IsEntryLine`), exactly one text is read as this line. For
/// each clock, exactly one text is read as the last line, `end CLOCK`. No text is read both as an entry and as the last
/// line. The heading isn't read as an entry, and isn't read as the last line. The text of a line contains no line feed.
pub fn one_entry()
    ensures reads { (v : ℕ) (text : List ℕ) (line : EntryLine) → entry_of v text ≡ Some line → IsEntryLine v line
        × (text ≡ entry_spelling v line) }
    ensures again { (v : ℕ) (line : EntryLine) → IsEntryLine v line → entry_of v (entry_spelling v line) ≡ Some line }
    ensures end_reads { (text : List ℕ) (clock : ℕ) → end_of text ≡ Some clock → (clock < 2 ^ 62)
        × (text ≡ end_spelling clock) }
    ensures end_again { (clock : ℕ) → clock < 2 ^ 62 → end_of (end_spelling clock) ≡ Some clock }
    ensures apart { (v : ℕ) (text : List ℕ) (clock : ℕ) → end_of text ≡ Some clock → entry_of v text ≡ None }
    ensures heading { (v : ℕ) → (entry_of v heading ≡ None) × (end_of heading ≡ None) }
    ensures one_line { (v : ℕ) (line : EntryLine) → IsEntryLine v line → Lacks 10 (entry_spelling v line) }
    ensures end_line { (clock : ℕ) → clock < 2 ^ 62 → Lacks 10 (end_spelling clock) }
{}

/// States the version numbers and the size limits of a journal's text as plain numbers, because the definitions in
/// contracts use only the names of the code's constants.
pub fn journal_limits()
    ensures first { FIRST_VERSION ≡ 1 }
    ensures second { VERSION ≡ 2 }
    ensures record { FIRST_RECORD_BYTES ≡ 1048576 }
    ensures key { KEY_BYTES ≡ 1024 }
{}
