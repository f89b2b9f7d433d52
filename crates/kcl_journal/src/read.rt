//! Reads lines of a journal, which is the event log of a schedule (a recorded workload).
ghost use Rattle.std.specs.Prelude.{◌≡◌, IfOk};
ghost use Rattle.kcl_journal.specs.Entries.{IsVersion, end_of, entry_by, entry_of};

use crate::leases::lease_entry;
use crate::line::EntryLine;
use crate::numbers::within32;
use crate::streams::{
    parse_enforced, parse_gone, parse_kept, parse_made, parse_merged, parse_put, parse_split,
};
use kcl_script_fields::field;
use kds_base::{Memory, Moment};
use kds_defs::Entry;
use std::alloc::Global;

/// Reads the entry whose first word is `word`. `text` is the rest of the entry, after the word and a space. `version`
/// is the version of the journal's text.
fn entry(alloc: Global, version: u8, word: &[u8], text: &[u8]) -> Result<Option<Entry>, Memory>
    ensures { IfOk result (λ o. o ≡ entry_by version word.now text.now) }
{
    if word == b"made".as_slice() {
        parse_made(alloc, text)
    } else if word == b"gone".as_slice() {
        Ok(parse_gone(text))
    } else if word == b"put".as_slice() {
        Ok(parse_put(version, text))
    } else if word == b"split".as_slice() {
        Ok(parse_split(text))
    } else if word == b"merged".as_slice() {
        Ok(parse_merged(text))
    } else if word == b"kept".as_slice() {
        Ok(parse_kept(text))
    } else if word == b"enforced".as_slice() {
        Ok(parse_enforced(text))
    } else {
        lease_entry(alloc, word, text)
    }
}

/// Reads the line of an entry from a text without a line feed. `version` is the version of the journal's text. `None`
/// means that the text isn't the line of an entry. A `put` entry of version 1 doesn't state the size of the partition
/// key. The size is then returned as 0. Precondition: the version is 1 or 2.
#[tactic(auto, unfolding(crate::specs::Entries::entry_of))]
pub fn read_entry(alloc: Global, text: &[u8], version: u8) -> Result<Option<EntryLine>, Memory>
    requires { IsVersion version }
    ensures { IfOk result (λ o. o ≡ entry_of version text.now) }
{
    let Some((first, rest)) = field(text) else {
        return Ok(None);
    };
    let Some(clock) = Moment::read(first) else {
        return Ok(None);
    };
    let Some((second, rest)) = field(rest) else {
        return Ok(None);
    };
    let Some(by) = within32(second, 0, u32::MAX) else {
        return Ok(None);
    };
    let Some((word, rest)) = field(rest) else {
        return Ok(None);
    };
    let Some(what) = entry(alloc, version, word, rest)? else {
        return Ok(None);
    };
    Ok(Some(EntryLine { clock, by, what }))
}

/// Reads the last line of a journal, `end CLOCK`, from a text without a line feed, and returns its clock. `None` means
/// that the text isn't a last line.
#[tactic(auto, unfolding(crate::specs::Entries::end_of))]
pub fn read_end(text: &[u8]) -> Option<Moment>
    ensures { result ≡ end_of text.now }
{
    let (word, rest) = field(text)?;
    if word == b"end".as_slice() {
        Moment::read(rest)
    } else {
        None
    }
}
