//! The error names, error messages and bodies of the responses to refused commands.
ghost use Rattle.std.specs.Prelude.{◌≡◌, IfOk, true};
ghost use Rattle.kds_defs.specs.Kinds.{is_service_refusal};
ghost use Rattle.kds_reply_texts.specs.Errors.{refusal_name as name_of, refusal_message as message_of, refusal_text};

use crate::errors::error_body;
use kds_base::{Memory, Octets};
use kds_defs::Refusal;
use std::alloc::Global;

/// Returns the error name for a refusal of the stream service (Kinesis API Reference, Errors of each action).
pub fn refusal_name(refusal: &Refusal) -> &'static str
    requires { is_service_refusal refusal.now ≡ true }
    ensures { result.now ≡ name_of refusal.now }
{
    match refusal {
        Refusal::NoStream => "ResourceNotFoundException",
        Refusal::StreamThere => "ResourceInUseException",
        Refusal::NoShard => "ResourceNotFoundException",
        Refusal::ShardClosed => "InvalidArgumentException",
        Refusal::NotAdjacent => "InvalidArgumentException",
        Refusal::BadSplit => "InvalidArgumentException",
        Refusal::BadNumber => "InvalidArgumentException",
        Refusal::BadRetention => "InvalidArgumentException",
        Refusal::Expired => "ExpiredIteratorException",
        Refusal::PageExpired => "ExpiredNextTokenException",
        Refusal::Full => "LimitExceededException",
        Refusal::Spent => "LimitExceededException",
        Refusal::Throttled(_) => "ProvisionedThroughputExceededException",
        _ => unreachable!(),
    }
}

/// Returns the error message for a refusal of the stream service.
pub fn refusal_message(refusal: &Refusal) -> &'static str
    requires { is_service_refusal refusal.now ≡ true }
    ensures { result.now ≡ message_of refusal.now }
{
    match refusal {
        Refusal::NoStream => "stream not found",
        Refusal::StreamThere => "stream exists",
        Refusal::NoShard => "shard not found",
        Refusal::ShardClosed => "shard is closed",
        Refusal::NotAdjacent => "shards are not adjacent",
        Refusal::BadSplit => "split key out of range",
        Refusal::BadNumber => "sequence number out of range",
        Refusal::BadRetention => "retention period does not fit",
        Refusal::Expired => "iterator expired",
        Refusal::PageExpired => "next token expired",
        Refusal::Full => "limit reached",
        Refusal::Spent => "numbers are used up",
        Refusal::Throttled(_) => "rate exceeded",
        _ => unreachable!(),
    }
}

/// Returns the body of the error response for a refusal of the stream service.
pub fn refusal_body(alloc: Global, refusal: &Refusal) -> Result<Octets, Memory>
    requires { is_service_refusal refusal.now ≡ true }
    ensures { IfOk result (λ o. o ≡ refusal_text refusal.now) }
{
    error_body(alloc, refusal_name(refusal), refusal_message(refusal))
}
