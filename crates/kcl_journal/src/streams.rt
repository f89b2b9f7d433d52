//! Reads the entries about streams in a journal, which is an event log. Each entry begins with a word, such as `made`.
//! The argument `text` of each function is the rest of the entry, after this word and a space.
ghost use Rattle.std.specs.Prelude.{◌≡◌, IfOk};
ghost use Rattle.kcl_journal.specs.Entries.{enforced_of, gone_of, kept_of, made_of, merged_of, put_of, split_of};

use crate::numbers::{sizes, switch, within32};
use kcl_script_fields::field;
use kds_base::{Memory, Name, Seq, ShardNo, StreamNo, read_u64, read_u128};
use kds_defs::Entry;
use kds_defs::limits::{LEAST_HOURS, LEAST_SHARDS, MOST_HOURS, MOST_SHARDS};
use std::alloc::Global;

/// Reads the entry `made STREAM NAME SHARDS` from the text after the word `made`. The error means that memory for the
/// name ran out.
#[tactic(auto, unfolding(kcl_script_fields::specs::Fields::two))]
pub fn parse_made(alloc: Global, text: &[u8]) -> Result<Option<Entry>, Memory>
    ensures { IfOk result (λ o. o ≡ made_of text.now) }
{
    let Some((first, rest)) = field(text) else {
        return Ok(None);
    };
    let Some(stream) = read_u64(first) else {
        return Ok(None);
    };
    let Some((second, third)) = field(rest) else {
        return Ok(None);
    };
    let Some(name) = Name::read(alloc, second)? else {
        return Ok(None);
    };
    let Some(shards) = within32(third, LEAST_SHARDS, MOST_SHARDS) else {
        return Ok(None);
    };
    Ok(Some(Entry::Made {
        stream: StreamNo(stream),
        name,
        shards,
    }))
}

/// Reads the entry `gone STREAM` from the text after the word `gone`.
pub fn parse_gone(text: &[u8]) -> Option<Entry>
    ensures { result ≡ gone_of text.now }
{
    let stream = read_u64(text)?;
    Some(Entry::Gone {
        stream: StreamNo(stream),
    })
}

/// Reads the entry `put STREAM SHARD SEQ HASH BYTES KEYBYTES` from the text after the word `put`. In the first version
/// of a journal's text there is no KEYBYTES.
#[tactic(auto, unfolding(kcl_script_fields::specs::Fields::two))]
pub fn parse_put(version: u8, text: &[u8]) -> Option<Entry>
    ensures { result ≡ put_of version text.now }
{
    let (first, rest) = field(text)?;
    let stream = read_u64(first)?;
    let (second, rest) = field(rest)?;
    let shard = read_u64(second)?;
    let (third, rest) = field(rest)?;
    let seq = read_u64(third)?;
    let (fourth, rest) = field(rest)?;
    let hash = read_u128(fourth)?;
    let (bytes, key_bytes) = sizes(version, rest)?;
    Some(Entry::Put {
        stream: StreamNo(stream),
        shard: ShardNo(shard),
        seq: Seq(seq),
        hash,
        bytes,
        key_bytes,
    })
}

/// Reads the entry `split STREAM SHARD AT SEQ LOW HIGH` from the text after the word `split`.
#[tactic(auto, unfolding(kcl_script_fields::specs::Fields::two))]
pub fn parse_split(text: &[u8]) -> Option<Entry>
    ensures { result ≡ split_of text.now }
{
    let (first, rest) = field(text)?;
    let stream = read_u64(first)?;
    let (second, rest) = field(rest)?;
    let shard = read_u64(second)?;
    let (third, rest) = field(rest)?;
    let at = read_u128(third)?;
    let (fourth, rest) = field(rest)?;
    let seq = read_u64(fourth)?;
    let (fifth, sixth) = field(rest)?;
    let low = read_u64(fifth)?;
    let high = read_u64(sixth)?;
    Some(Entry::Split {
        stream: StreamNo(stream),
        shard: ShardNo(shard),
        at,
        seq: Seq(seq),
        low: ShardNo(low),
        high: ShardNo(high),
    })
}

/// Reads the entry `merged STREAM SHARD OTHER SEQ CHILD` from the text after the word `merged`.
#[tactic(auto, unfolding(kcl_script_fields::specs::Fields::two))]
pub fn parse_merged(text: &[u8]) -> Option<Entry>
    ensures { result ≡ merged_of text.now }
{
    let (first, rest) = field(text)?;
    let stream = read_u64(first)?;
    let (second, rest) = field(rest)?;
    let shard = read_u64(second)?;
    let (third, rest) = field(rest)?;
    let other = read_u64(third)?;
    let (fourth, fifth) = field(rest)?;
    let seq = read_u64(fourth)?;
    let child = read_u64(fifth)?;
    Some(Entry::Merged {
        stream: StreamNo(stream),
        shard: ShardNo(shard),
        other: ShardNo(other),
        seq: Seq(seq),
        child: ShardNo(child),
    })
}

/// Reads the entry `kept STREAM HOURS` from the text after the word `kept`.
#[tactic(auto, unfolding(kcl_script_fields::specs::Fields::two))]
pub fn parse_kept(text: &[u8]) -> Option<Entry>
    ensures { result ≡ kept_of text.now }
{
    let (first, second) = field(text)?;
    let stream = read_u64(first)?;
    let hours = within32(second, LEAST_HOURS, MOST_HOURS)?;
    Some(Entry::Kept {
        stream: StreamNo(stream),
        hours,
    })
}

/// Reads the entry `enforced STREAM on` or `enforced STREAM off` from the text after the word `enforced`.
#[tactic(auto, unfolding(kcl_script_fields::specs::Fields::two))]
pub fn parse_enforced(text: &[u8]) -> Option<Entry>
    ensures { result ≡ enforced_of text.now }
{
    let (first, second) = field(text)?;
    let stream = read_u64(first)?;
    let on = switch(second)?;
    Some(Entry::Enforced {
        stream: StreamNo(stream),
        on,
    })
}
