//! The text of the tokens that the service issues: shard iterators, and NextTokens of listings.
ghost use Rattle.std.specs.Prelude.{◌≡◌, ◌<◌, ◌^◌, IfOk, IsUtf8, string_bytes};
ghost use Rattle.json.specs.Print.{escape};
ghost use Rattle.serde_json.specs.Written.{compact_text};
ghost use Rattle.kds_token.specs.Tokens.{IsIter, iter_token, page_token};
ghost use Rattle.kds_reply_texts.specs.Bodies.{iterator_data};

use crate::writing::{begin_object, end_object, new_writer, put_text, written};
use kds_base::{Memory, Octets};
use kds_defs::{Iter, Page};
use kds_token::{write_iter, write_page};
use std::alloc::Global;

/// How many bytes to reserve for an iterator's token and the text around it.
pub const ITERATOR_BYTES: usize = 160;

/// Returns `bytes` as a string. Precondition: `bytes` are valid UTF-8.
pub fn text_of(bytes: &[u8]) -> &str
    requires { IsUtf8 bytes.now }
    ensures { result.now ≡ bytes.now }
{
    match str::from_utf8(bytes) {
        Ok(text) => text,
        Err(_) => unreachable!(),
    }
}

/// Returns the NextToken for the next page of a listing. The token is ASCII, so no character is replaced when it
/// becomes a string.
pub fn listing_token(alloc: Global, page: &Page) -> Result<String, Memory>
    ensures { IfOk result (λ s. string_bytes s ≡ page_token page.now) }
{
    let token = write_page(alloc, page)?;
    Ok(String::from_utf8_lossy(alloc, token.as_slice())?)
}

/// States that an iterator with these numbers is valid if `issued` is below 2^62. The other numbers may have any value
/// of their types.
fn numbers_fit(stream: u64, shard: u64, position: u64, issued: u64)
    requires { issued < 2 ^ 62 }
    ensures { IsIter (record { stream = stream; shard = shard; position = position; issued = issued }) }
{}

/// Returns the token of a shard iterator as a part of a JSON string, in which no character of the token needs escaping.
pub fn escaped_iter(alloc: Global, iter: &Iter) -> Result<Octets, Memory>
    ensures { IfOk result (λ o. o ≡ escape (iter_token iter.now)) }
{
    numbers_fit(iter.stream.0, iter.shard.0, iter.position, iter.issued.ms());
    let token = write_iter(alloc, iter)?;
    Ok(token)
}

/// Returns the body of the reply to GetShardIterator (Kinesis API Reference, GetShardIterator, Response Elements).
pub fn iterator_body(alloc: Global, iter: &Iter) -> Result<Octets, Memory>
    ensures { IfOk result (λ o. o ≡ compact_text (iterator_data iter.now)) }
{
    let token = write_iter(alloc, iter)?;
    let mut out = new_writer(alloc, ITERATOR_BYTES)?;
    begin_object(&mut out)?;
    put_text(&mut out, "ShardIterator", text_of(token.as_slice()))?;
    end_object(&mut out)?;
    Ok(written(out))
}
