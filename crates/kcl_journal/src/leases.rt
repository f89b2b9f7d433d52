//! Reads the entries about leases in a journal, which is an event log. Each entry begins with a word, such as `taken`.
//! The argument `text` of each function is the rest of the entry, after this word and a space.
ghost use Rattle.std.specs.Prelude.{◌≡◌, IfOk};
ghost use Rattle.kcl_script_fields.specs.Fields.{two, number};
ghost use Rattle.kcl_journal.specs.Entries.{counter_of, cut_of, freed_of, given_of, lease_by, lease_of, marked_of};
ghost use Rattle.kcl_journal.specs.Entries.{opened_of, read_of, renewed_of, taken_of};

use crate::numbers::{batch, counter_of, within32};
use kcl_script_fields::{field, key_of, row, target, worker};
use kds_base::{Memory, TenureNo, read_u64};
use kds_defs::Entry;
use kds_defs::limits::MOST;
use std::alloc::Global;

fn parse_lease(text: &[u8]) -> Option<Entry>
    ensures { result ≡ lease_of text.now }
{
    let (key, from) = row(text)?;
    Some(Entry::LeaseMade { key, from })
}

#[tactic(auto, unfolding(kcl_script_fields::specs::Fields::two))]
fn parse_taken(text: &[u8]) -> Option<Entry>
    ensures { result ≡ taken_of text.now }
{
    let (first, rest) = field(text)?;
    let key = key_of(first)?;
    let (second, rest) = field(rest)?;
    let tenure = read_u64(second)?;
    let (third, fourth) = field(rest)?;
    let counter = counter_of(third)?;
    let owner = worker(fourth)?;
    Some(Entry::Taken {
        key,
        tenure: TenureNo(tenure),
        counter,
        owner,
    })
}

/// Reads the number of a tenure (one worker's hold on a lease), and a counter. The counter is the one that the lease's
/// row in the lease table has after the change that the entry records.
#[tactic(auto, unfolding(kcl_script_fields::specs::Fields::two))]
fn parse_written(text: &[u8]) -> Option<(TenureNo, u64)>
    ensures { result ≡ two 32 number counter_of text.now }
{
    let (first, second) = field(text)?;
    let tenure = read_u64(first)?;
    let counter = counter_of(second)?;
    Some((TenureNo(tenure), counter))
}

fn parse_renewed(text: &[u8]) -> Option<Entry>
    ensures { result ≡ renewed_of text.now }
{
    let (tenure, counter) = parse_written(text)?;
    Some(Entry::Renewed { tenure, counter })
}

fn parse_freed(text: &[u8]) -> Option<Entry>
    ensures { result ≡ freed_of text.now }
{
    let (tenure, counter) = parse_written(text)?;
    Some(Entry::Freed { tenure, counter })
}

fn parse_opened(text: &[u8]) -> Option<Entry>
    ensures { result ≡ opened_of text.now }
{
    let tenure = read_u64(text)?;
    Some(Entry::Opened {
        tenure: TenureNo(tenure),
    })
}

#[tactic(auto, unfolding(kcl_script_fields::specs::Fields::two))]
fn parse_read(alloc: Global, text: &[u8]) -> Result<Option<Entry>, Memory>
    ensures { IfOk result (λ o. o ≡ read_of text.now) }
{
    let Some((first, rest)) = field(text) else {
        return Ok(None);
    };
    let Some(tenure) = read_u64(first) else {
        return Ok(None);
    };
    let Some((second, third)) = field(rest) else {
        return Ok(None);
    };
    let Some(limit) = within32(second, 1, MOST) else {
        return Ok(None);
    };
    let Some((end, numbers)) = batch(alloc, third)? else {
        return Ok(None);
    };
    Ok(Some(Entry::Read {
        tenure: TenureNo(tenure),
        limit,
        end,
        numbers,
    }))
}

fn parse_given(text: &[u8]) -> Option<Entry>
    ensures { result ≡ given_of text.now }
{
    let tenure = read_u64(text)?;
    Some(Entry::Given {
        tenure: TenureNo(tenure),
    })
}

#[tactic(auto, unfolding(kcl_script_fields::specs::Fields::two))]
fn parse_marked(text: &[u8]) -> Option<Entry>
    ensures { result ≡ marked_of text.now }
{
    let (first, rest) = field(text)?;
    let tenure = read_u64(first)?;
    let (second, third) = field(rest)?;
    let counter = counter_of(second)?;
    let to = target(third)?;
    Some(Entry::Marked {
        tenure: TenureNo(tenure),
        counter,
        to,
    })
}

#[tactic(auto, unfolding(kcl_script_fields::specs::Fields::two))]
fn parse_cut(text: &[u8]) -> Option<Entry>
    ensures { result ≡ cut_of text.now }
{
    let (first, second) = field(text)?;
    let key = key_of(first)?;
    let counter = read_u64(second)?;
    Some(Entry::LeaseCut { key, counter })
}

/// Reads an entry about a lease. `word` is the first word of the entry. `text` is the rest of the entry, after this
/// word and a space.
pub fn lease_entry(alloc: Global, word: &[u8], text: &[u8]) -> Result<Option<Entry>, Memory>
    ensures { IfOk result (λ o. o ≡ lease_by word.now text.now) }
{
    if word == b"lease".as_slice() {
        Ok(parse_lease(text))
    } else if word == b"taken".as_slice() {
        Ok(parse_taken(text))
    } else if word == b"renewed".as_slice() {
        Ok(parse_renewed(text))
    } else if word == b"freed".as_slice() {
        Ok(parse_freed(text))
    } else if word == b"opened".as_slice() {
        Ok(parse_opened(text))
    } else if word == b"read".as_slice() {
        parse_read(alloc, text)
    } else if word == b"given".as_slice() {
        Ok(parse_given(text))
    } else if word == b"marked".as_slice() {
        Ok(parse_marked(text))
    } else if word == b"cut".as_slice() {
        Ok(parse_cut(text))
    } else {
        Ok(None)
    }
}
