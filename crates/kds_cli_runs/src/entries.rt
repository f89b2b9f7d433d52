//! Collects the journal entries of a schedule's turns, as text. A schedule is a recorded workload. A turn is one
//! command with its sender and its time. A journal is an event log: it has an entry for each change that a turn makes.
//! A scribe computes these entries, and an audit checks whether a journal is valid.
ghost use Rattle.std.specs.Prelude.{◌≡◌, ◌∷◌, ◌++◌, [], List, ℕ, refl, true, false, IfOk, OnOk, OnErr};
ghost use Rattle.kds_defs.specs.declared.command.Turn.{Turn};
ghost use Rattle.kds_defs.specs.Histories.{answer as answer_after};
ghost use Rattle.kds_defs.specs.Lawful.{IsLawful};
ghost use Rattle.kcl_audit_sound.specs.Bits.{HaveBits};
ghost use Rattle.kcl_sim_scribe.specs.Added.{entries_text};
ghost use Rattle.kcl_sim_scribe.specs.Known.{StandsFor};
ghost use Rattle.kds_cli_runs.specs.Entries.{IsNoted, entries_text_of};

use kcl_audit_sound::fits_types;
use kcl_journal::{EntryLine, print_entry};
use kcl_sim::Keep;
use kcl_sim_scribe::{Scribe, turn_by_turn};
use kds_base::{Memory, Octets};
use kds_defs::{Answer, Machine, Turn};
use std::alloc::Global;

/// Collects the text of the entries that a run's turns add to the journal. The contract of this type also states that
/// the numbers in all turns fit their machine types. The proof that an audit accepts the journal needs this fact. If
/// memory for the text runs out in a turn that the machine has made, the result is the answer all the same, since an
/// error would state that the machine hasn't made the turn. From then on there is no text, and `append_text` returns an
/// error.
#[derive(Drop)]
pub struct Journal {
    scribe: Scribe,
    /// The text of the entries that were added since the text was last emptied. `None` once memory for the text has run
    /// out.
    text: Option<Octets>,
}

impl Journal {
    /// Returns the journal before the first turn, with an empty text.
    pub fn new(alloc: Global) -> Journal
        ensures text { IsNoted result.scribe result.text [] [] }
    {
        Journal {
            scribe: Scribe::new(alloc),
            text: Some(Octets::new(alloc)),
        }
    }
}

/// Appends the entries `lines` to `text`, each followed by a line feed, and returns the text.
fn print_entries(alloc: Global, lines: &[EntryLine], text: Octets) -> Result<Octets, Memory>
    ensures { IfOk result (λ output. output ≡ text ++ entries_text lines.now) }
{
    let mut text = text;
    for line in lines {
        print_entry(alloc, line, &mut text)?;
        text.extend(b"\n".as_slice())?;
    }
    Ok(text)
}

/// Appends the journal entries of `turn`, whose answer is `answer`, to `text`. The result is `None` if memory for the
/// entries runs out. Preconditions: the arguments of the turn are within their ranges (`IsLawful`), and `answer` is the
/// answer that the specification gives to this turn after all turns that the scribe noted before.
fn note_turn(
    alloc: Global,
    scribe: &mut Scribe,
    text: Octets,
    turn: &Turn,
    answer: &Answer,
) -> Option<Octets>
    requires lawful { IsLawful turn.now }
    requires answered { (h : List Turn) × (StandsFor scribe.old h × (answer.now ≡ answer_after h turn.now)) }
    ensures { (cleared_at h : List Turn) → StandsFor scribe.old h → entries_text_of h ≡ entries_text_of cleared_at
        ++ text
        → answer.now ≡ answer_after h turn.now
        → IsNoted scribe.new result cleared_at (turn.now ∷ h) }
{
    turn_by_turn();
    match scribe.note(alloc, turn, answer) {
        Ok(lines) => match print_entries(alloc, lines.as_slice(), text) {
            Ok(text) => Some(text),
            Err(_) => None,
        },
        Err(_) => None,
    }
}

/// Does what `note_turn` does if there is a text. If `text` is `None`, because memory for the text ran out in an
/// earlier turn, the result is `None` too.
fn note(
    alloc: Global,
    scribe: &mut Scribe,
    text: Option<Octets>,
    turn: &Turn,
    answer: &Answer,
) -> Option<Octets>
    requires lawful { IsLawful turn.now }
    requires answered { (cleared_at : List Turn)
        × ((h : List Turn) × (IsNoted scribe.old text cleared_at h × (answer.now ≡ answer_after h turn.now))) }
    ensures { (cleared_at h : List Turn) → IsNoted scribe.old text cleared_at h → answer.now ≡ answer_after h turn.now
        → IsNoted scribe.new result cleared_at (turn.now ∷ h) }
{
    match text {
        Some(text) => note_turn(alloc, scribe, text, turn, answer),
        None => None,
    }
}

impl Keep for Journal {
    ghost keeps = { λ j cleared_at h. HaveBits h × IsNoted j.scribe j.text cleared_at h };

    ghost wanted = { false };

    ghost text = { entries_text_of };

    ghost nothing = { refl };

    fn wants_answers() -> bool {
        false
    }

    fn grows() {
        turn_by_turn();
    }

    fn apply<M: Machine>(
        &mut self,
        alloc: Global,
        machine: &mut M,
        turn: Turn,
    ) -> Result<Answer, Memory> {
        fits_types(&turn);
        let copy = turn.copy(alloc)?;
        let answer = machine.apply(turn)?;
        let text = self.text.take();
        self.text = note(alloc, &mut self.scribe, text, &copy, &answer);
        Ok(answer)
    }

    fn clear_text(&mut self) {
        if let Some(text) = &mut self.text {
            text.clear();
        }
    }

    fn append_text(&self, to: &mut Octets) -> Result<(), Memory> {
        match &self.text {
            Some(text) => to.extend(text.as_slice()),
            None => Err(Memory),
        }
    }
}
