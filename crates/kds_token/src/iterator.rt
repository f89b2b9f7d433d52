//! Writes and parses the tokens of shard iterators. Such a token is the ShardIterator text that a client receives.
ghost use Rattle.std.specs.Prelude.{◌≡◌, IfOk};
ghost use Rattle.kds_token.specs.Tokens.{iter_text, iter_token, iter_from, iter_in, iter_of, ReadsAsIter};

use crate::code::{bytes_of, encoded};
use crate::fields::{put_number, split_at_colon};
use arrayvec::ArrayString;
use kds_base::{Memory, Moment, Octets, ShardNo, StreamNo, read_u64};
use kds_defs::Iter;
use std::alloc::Global;

/// A token is a text of several fields, encoded in base64. This is the first field in the token of a shard iterator.
const KIND: &[u8] = b"KI1";

fn text_of(iter: &Iter) -> ArrayString<96>
    ensures { result.bytes ≡ iter_text iter.now }
{
    let mut text = ArrayString::new();
    text.push_str("KI1:");
    put_number(&mut text, iter.stream.0);
    text.push_str(":");
    put_number(&mut text, iter.shard.0);
    text.push_str(":");
    put_number(&mut text, iter.position);
    text.push_str(":");
    put_number(&mut text, iter.issued.ms());
    text
}

/// Returns the token of a shard iterator (Kinesis API Reference, GetShardIterator, ShardIterator).
pub fn write_iter(alloc: Global, iter: &Iter) -> Result<Octets, Memory>
    ensures { IfOk result (λ t. t ≡ iter_token iter.now) }
{
    encoded(alloc, text_of(iter).as_bytes())
}

#[tactic(auto, unfolding(crate::specs::Tokens::iter_from))]
fn from_fields(stream: &[u8], shard: &[u8], position: &[u8], issued: &[u8]) -> Option<Iter>
    ensures { result ≡ iter_from stream.now shard.now position.now issued.now }
{
    let stream = StreamNo(read_u64(stream)?);
    let shard = ShardNo(read_u64(shard)?);
    let position = read_u64(position)?;
    let issued = Moment::read(issued)?;
    Some(Iter {
        stream,
        shard,
        position,
        issued,
    })
}

#[tactic(auto, unfolding(crate::specs::Tokens::iter_in))]
fn in_text(text: &[u8]) -> Option<Iter>
    ensures { result ≡ iter_in text.now }
{
    let (kind, rest) = split_at_colon(text)?;
    let (stream, rest) = split_at_colon(rest)?;
    let (shard, rest) = split_at_colon(rest)?;
    let (position, issued) = split_at_colon(rest)?;
    if kind == KIND {
        from_fields(stream, shard, position, issued)
    } else {
        None
    }
}

/// Parses the token of a shard iterator. Returns `None` if and only if `text` isn't the token of a shard iterator.
pub fn read_iter(alloc: Global, text: &[u8]) -> Result<Option<Iter>, Memory>
    ensures exact { IfOk result (λ o. ReadsAsIter text.now o) }
    ensures value { IfOk result (λ o. o ≡ iter_of text.now) }
{
    match bytes_of(alloc, text)? {
        Some(bytes) => Ok(in_text(bytes.as_slice())),
        None => Ok(None),
    }
}
