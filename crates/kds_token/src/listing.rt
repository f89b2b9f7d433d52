//! Writes and parses the tokens of positions in a listing of shards. Such a token is the NextToken text of ListShards.
ghost use Rattle.std.specs.Prelude.{◌≡◌, IfOk};
ghost use Rattle.kds_token.specs.Tokens.{page_text, page_token, page_from, page_in, page_of, ReadsAsPage};

use crate::code::{bytes_of, encoded};
use crate::fields::{put_number, split_at_colon};
use arrayvec::ArrayString;
use kds_base::{Memory, Moment, Octets, ShardNo, StreamNo, read_u64};
use kds_defs::Page;
use std::alloc::Global;

/// A token is a text of several fields, encoded in base64. This is the first field in the token of a position in a
/// listing.
const KIND: &[u8] = b"KT1";

fn text_of(page: &Page) -> ArrayString<96>
    ensures { result.bytes ≡ page_text page.now }
{
    let mut text = ArrayString::new();
    text.push_str("KT1:");
    put_number(&mut text, page.stream.0);
    text.push_str(":");
    put_number(&mut text, page.after.0);
    text.push_str(":");
    put_number(&mut text, page.issued.ms());
    text
}

/// Returns the token of a position in a listing of shards (Kinesis API Reference, ListShards, NextToken).
pub fn write_page(alloc: Global, page: &Page) -> Result<Octets, Memory>
    ensures { IfOk result (λ t. t ≡ page_token page.now) }
{
    encoded(alloc, text_of(page).as_bytes())
}

#[tactic(auto, unfolding(crate::specs::Tokens::page_from))]
fn from_fields(stream: &[u8], after: &[u8], issued: &[u8]) -> Option<Page>
    ensures { result ≡ page_from stream.now after.now issued.now }
{
    let stream = StreamNo(read_u64(stream)?);
    let after = ShardNo(read_u64(after)?);
    let issued = Moment::read(issued)?;
    Some(Page {
        stream,
        after,
        issued,
    })
}

#[tactic(auto, unfolding(crate::specs::Tokens::page_in))]
fn in_text(text: &[u8]) -> Option<Page>
    ensures { result ≡ page_in text.now }
{
    let (kind, rest) = split_at_colon(text)?;
    let (stream, rest) = split_at_colon(rest)?;
    let (after, issued) = split_at_colon(rest)?;
    if kind == KIND {
        from_fields(stream, after, issued)
    } else {
        None
    }
}

/// Parses the token of a position in a listing of shards. Returns `None` if and only if `text` isn't the token of such
/// a position.
pub fn read_page(alloc: Global, text: &[u8]) -> Result<Option<Page>, Memory>
    ensures exact { IfOk result (λ o. ReadsAsPage text.now o) }
    ensures value { IfOk result (λ o. o ≡ page_of text.now) }
{
    match bytes_of(alloc, text)? {
        Some(bytes) => Ok(in_text(bytes.as_slice())),
        None => Ok(None),
    }
}
