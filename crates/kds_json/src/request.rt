//! Reads the command of a request from the name of the request's operation and from the request's body.
ghost use Rattle.std.specs.Prelude.{◌≡◌, ℕ, List, Ok, IsUtf8, IfOk, IfErr, option_map};
ghost use Rattle.kds_defs.specs.declared.command.Command.{Command};
ghost use Rattle.serde_json.specs.View.{view};
ghost use Rattle.kds_json_members.specs.Member.{object_view};
ghost use Rattle.kds_json_members.specs.Results.{Gives};
ghost use Rattle.kds_json.specs.Asked.{object_of, read_body, members_of, asked, IsRequest};

use crate::many::put_records;
use crate::operation::{Operation, operation_named};
use crate::records::{get_records, get_shard_iterator, put_record};
use crate::shards::{list_shards, merge_shards, split_shard};
use crate::streams::{
    create_stream, delete_stream, describe_stream, describe_summary, enforce_limits, keep,
    list_streams, update_shard_count,
};
use kds_base::Memory;
use kds_defs::Command;
use kds_json_members::{Fault, FaultKind, Stop, object_members, stop_at};
use serde_json::{Map, Value};
use std::alloc::Global;

/// Parses a body as JSON. Returns `None` if the body isn't JSON in UTF-8, or if its values are nested deeper than 127
/// levels.
fn parsed(alloc: Global, body: &[u8]) -> Result<Option<Value>, Memory>
    ensures { IfOk result (λ o. option_map view o ≡ read_body body.now) }
{
    match Value::from_slice(alloc, body) {
        Ok(value) => Ok(Some(value)),
        Err(e) => { if e.is_memory() { Err(Memory) } else { Ok(None) } }
    }
}

/// Parses a body that must be a JSON object, and returns the object's members.
#[tactic(auto, using(crate::proofs::Objects::objects))]
fn parse_object(alloc: Global, body: &[u8]) -> Result<Map<String, Value>, Stop>
    ensures { Gives object_view result (object_of body.now) }
{
    let Some(value) = parsed(alloc, body)? else {
        return Err(stop_at(alloc, FaultKind::Serialization, ""));
    };
    match object_members(value) {
        Some(object) => Ok(object),
        None => Err(stop_at(alloc, FaultKind::Serialization, "")),
    }
}

/// Reads the command of the operation `operation` from the members of the request's body.
fn members(
    alloc: Global,
    operation: Operation,
    object: &Map<String, Value>,
) -> Result<Command, Stop>
    ensures { Gives (λ c. c) result (members_of operation (object_view object.now)) }
{
    match operation {
        Operation::CreateStream => create_stream(alloc, object),
        Operation::DeleteStream => delete_stream(alloc, object),
        Operation::ListStreams => list_streams(alloc, object),
        Operation::DescribeStream => describe_stream(alloc, object),
        Operation::DescribeStreamSummary => describe_summary(alloc, object),
        Operation::ListShards => list_shards(alloc, object),
        Operation::GetShardIterator => get_shard_iterator(alloc, object),
        Operation::GetRecords => get_records(alloc, object),
        Operation::PutRecord => put_record(alloc, object),
        Operation::PutRecords => put_records(alloc, object),
        Operation::SplitShard => split_shard(alloc, object),
        Operation::MergeShards => merge_shards(alloc, object),
        Operation::IncreaseRetention => keep(alloc, object, true),
        Operation::DecreaseRetention => keep(alloc, object, false),
        Operation::UpdateShardCount => update_shard_count(alloc, object),
        Operation::EnforceLimits => enforce_limits(alloc, object),
    }
}

/// Reads the command of a request from the name of its operation and from its body. An unknown operation is refused
/// before the body is parsed.
#[tactic(auto, unfolding(crate::specs::Asked::asked))]
fn command(alloc: Global, operation: &[u8], body: &[u8]) -> Result<Command, Stop>
    ensures { Gives (λ c. c) result (asked operation.now body.now) }
{
    match operation_named(operation) {
        Some(operation) => {
            let object = parse_object(alloc, body)?;
            members(alloc, operation, &object)
        }
        None => Err(stop_at(alloc, FaultKind::Unknown, "")),
    }
}

/// Reads the command of a request from the name of its operation and from its body, or returns the first fault of the
/// request (Kinesis API Reference, Actions and Common Errors). A body that is nested deeper than 127 levels isn't
/// parsed: its fault is `Serialization`. The outer error `Memory` means that memory ran out.
pub fn ask(alloc: Global, operation: &[u8], body: &[u8]) -> Result<Result<Command, Fault>, Memory>
    ensures value { IfOk result (λ r. r ≡ asked operation.now body.now) }

    // A returned command can be applied as a turn (a command with a sender and a time), because its arguments meet the
    // preconditions of a turn. The command is for the stream service, not for the lease table. The member name in a
    // returned fault is valid UTF-8, so that it can be printed.
    ensures lawful { IfOk result (λ r. IfOk r IsRequest) }
    ensures text { IfOk result (λ r. IfErr r (λ fault. IsUtf8 fault.member)) }
{
    match command(alloc, operation, body) {
        Ok(what) => Ok(Ok(what)),
        Err(Stop::Fault(fault)) => Ok(Err(fault)),
        Err(Stop::Memory) => Err(Memory),
    }
}

/// States that the command of any request can be applied as a turn (a command with a sender and a time), because its
/// arguments meet the preconditions of a turn. The command is for the stream service, not for the lease table.
pub fn asks_lawfully()
    ensures { (operation body : List ℕ) (command : Command) → asked operation body ≡ Ok command → IsRequest command }
{}
