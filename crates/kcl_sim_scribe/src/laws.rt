//! A law (theorem) about journals, stated as the contract of a function without parameters. A turn is a command with
//! its sender and its time. A history is a list of turns, the newest first. The journal of a history is its event log.
ghost use Rattle.std.specs.Prelude.{◌≡◌, ◌∷◌, ◌++◌, List};
ghost use Rattle.kds_defs.specs.declared.command.Turn.{Turn};
ghost use Rattle.kcl_journal.specs.declared.line.EntryLine.{EntryLine};
ghost use Rattle.kcl_sim_scribe.specs.Added.{added_entries, entries_text, history_entries};

/// Each turn only appends lines to the journal of the earlier turns. The text of these lines is appended to the text of
/// that journal.
pub fn turn_by_turn()
    ensures lines { (h : List Turn) (turn : Turn) → history_entries (turn ∷ h) ≡ history_entries h
        ++ added_entries h turn }
    ensures text { (xs ys : List EntryLine) → entries_text (xs ++ ys) ≡ entries_text xs ++ entries_text ys }
{}
