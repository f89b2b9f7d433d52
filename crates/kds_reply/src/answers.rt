//! Turns an answer of the stream service into an HTTP status and a body.
ghost use Rattle.std.specs.Prelude.{◌≡◌, ◌++◌, take, vec_len, IfOk, OnOk, false, true};
ghost use Rattle.serde_json.specs.View.{view};
ghost use Rattle.serde_json.specs.Written.{compact_text, has_float};
ghost use Rattle.kds_defs.specs.Kinds.{is_service_answer, is_service_reply};
ghost use Rattle.kds_reply.specs.Replies.{reply_text, reply_of};
ghost use Rattle.kds_reply.specs.Shards.{shards_data};
ghost use Rattle.kds_reply.specs.Streams.{described_data, scaled_data, streams_data, summary_data};

use crate::shards::shards_value;
use crate::streams::{described_value, scaled_value, streams_value, summary_value};
use kds_base::{Memory, Name, Octets};
use kds_defs::{About, Answer, Page, Reply, Shard};
use kds_reply_texts::{
    BAD_REQUEST, add_batch, add_outcomes, add_place, iterator_body, push_piece, refusal_body,
};
use serde_json::Value;
use std::alloc::Global;

/// The HTTP status of every reply to an accepted command.
const DONE: u16 = 200;

/// Appends a JSON value as compact text, that is, with no spaces between its parts. Precondition: the value has no
/// floating-point numbers. If `to` is empty, the text is moved into `to` and not copied.
fn add_value(to: &mut Vec<u8>, alloc: Global, value: &Value) -> Result<(), Memory>
    requires { has_float (view value.now) ≡ false }
    ensures front { take (vec_len to.old) to.new.items ≡ to.old.items }
    ensures ok { OnOk result (to.new.items ≡ to.old.items ++ compact_text (view value.now)) }
{
    let text = value.to_vec(alloc)?;
    if to.is_empty() {
        *to = text;
        return Ok(());
    }
    push_piece(to, text.as_slice())
}

/// Appends the body of the reply to ListStreams.
fn add_streams(to: &mut Vec<u8>, alloc: Global, names: &[Name], more: bool) -> Result<(), Memory>
    ensures front { take (vec_len to.old) to.new.items ≡ to.old.items }
    ensures ok { OnOk result (to.new.items ≡ to.old.items ++ compact_text (streams_data names.now more)) }
{
    let value = streams_value(alloc, names, more)?;
    add_value(to, alloc, &value)
}

/// Appends the body of the reply to DescribeStream.
fn add_described(
    to: &mut Vec<u8>,
    alloc: Global,
    about: &About,
    shards: &[Shard],
    more: bool,
) -> Result<(), Memory>
    ensures front { take (vec_len to.old) to.new.items ≡ to.old.items }
    ensures ok { OnOk result (to.new.items ≡ to.old.items ++ compact_text (described_data about.now shards.now more)) }
{
    let value = described_value(alloc, about, shards, more)?;
    add_value(to, alloc, &value)
}

/// Appends the body of the reply to DescribeStreamSummary.
fn add_summary(
    to: &mut Vec<u8>,
    alloc: Global,
    about: &About,
    open_shards: u32,
) -> Result<(), Memory>
    ensures front { take (vec_len to.old) to.new.items ≡ to.old.items }
    ensures ok { OnOk result (to.new.items ≡ to.old.items ++ compact_text (summary_data about.now open_shards)) }
{
    let value = summary_value(alloc, about, open_shards)?;
    add_value(to, alloc, &value)
}

/// Appends the body of the reply to UpdateShardCount.
fn add_scaled(
    to: &mut Vec<u8>,
    alloc: Global,
    name: &Name,
    before: u32,
    target: u32,
) -> Result<(), Memory>
    ensures front { take (vec_len to.old) to.new.items ≡ to.old.items }
    ensures ok { OnOk result (to.new.items ≡ to.old.items ++ compact_text (scaled_data name.now before target)) }
{
    let value = scaled_value(alloc, name, before, target)?;
    add_value(to, alloc, &value)
}

/// Appends the body of the reply to ListShards.
fn add_shards(
    to: &mut Vec<u8>,
    alloc: Global,
    shards: &[Shard],
    next: &Option<Page>,
) -> Result<(), Memory>
    ensures front { take (vec_len to.old) to.new.items ≡ to.old.items }
    ensures ok { OnOk result (to.new.items ≡ to.old.items ++ compact_text (shards_data shards.now next.now)) }
{
    let value = shards_value(alloc, shards, next)?;
    add_value(to, alloc, &value)
}

/// Appends the body of the reply to an accepted command. The body of `Reply::Done` is empty.
fn add_body(to: &mut Vec<u8>, alloc: Global, reply: &Reply) -> Result<(), Memory>
    requires { is_service_reply reply.now ≡ true }
    ensures front { take (vec_len to.old) to.new.items ≡ to.old.items }
    ensures ok { OnOk result (to.new.items ≡ to.old.items ++ reply_text reply.now) }
{
    match reply {
        Reply::Done => Ok(()),
        Reply::Streams { names, more } => add_streams(to, alloc, names.as_slice(), *more),
        Reply::Described {
            about,
            shards,
            more,
        } => add_described(to, alloc, about, shards.as_slice(), *more),
        Reply::Summary { about, open_shards } => add_summary(to, alloc, about, *open_shards),
        Reply::Put(place) => add_place(to, alloc, place),
        Reply::PutMany(outcomes) => add_outcomes(to, alloc, outcomes.as_slice()),
        Reply::Scaled {
            name,
            before,
            target,
            ..
        } => add_scaled(to, alloc, name, *before, *target),
        Reply::Iterator(iter) => push_piece(to, iterator_body(alloc, iter)?.as_slice()),
        Reply::Records {
            batch,
            next,
            behind,
            children,
        } => add_batch(
            to,
            alloc,
            batch.as_slice(),
            next,
            *behind,
            children.as_slice(),
        ),
        Reply::Shards { shards, next } => add_shards(to, alloc, shards.as_slice(), next),
        _ => unreachable!(),
    }
}

/// Appends the body of an answer, and returns its HTTP status: 200, or 400 for a refusal (Kinesis API Reference,
/// Response Elements and Errors of each action). Precondition: the answer is one of the stream service, not an answer
/// to a command on leases. If memory runs out, the error is `Memory`, and a part of the body may have been appended. In
/// either case the bytes that `to` had before are unchanged.
pub fn add_reply(alloc: Global, answer: &Answer, to: &mut Vec<u8>) -> Result<u16, Memory>
    requires { is_service_answer answer.now ≡ true }
    ensures status { IfOk result (λ status. status ≡ (reply_of answer.now).0) }
    ensures front { take (vec_len to.old) to.new.items ≡ to.old.items }
    ensures body { OnOk result (to.new.items ≡ to.old.items ++ (reply_of answer.now).1) }
{
    match answer {
        Ok(reply) => {
            add_body(to, alloc, reply)?;
            Ok(DONE)
        }
        Err(refusal) => {
            push_piece(to, refusal_body(alloc, refusal)?.as_slice())?;
            Ok(BAD_REQUEST)
        }
    }
}

/// Returns the HTTP status and the body of an answer. The precondition, the status and the body are as in `add_reply`.
/// The error `Memory` means that memory ran out.
pub fn reply(alloc: Global, answer: &Answer) -> Result<(u16, Octets), Memory>
    requires { is_service_answer answer.now ≡ true }
    ensures { IfOk result (λ r. r ≡ reply_of answer.now) }
{
    let mut body = Vec::new(alloc);
    let status = add_reply(alloc, answer, &mut body)?;
    Ok((status, Octets::unshared(body)))
}
