//! Reads members that are strings, names, modes, booleans, partition keys or payloads. The fault is `Missing` if a
//! required member is absent or null, and `Invalid` if the value of a member isn't of the described kind.
ghost use Rattle.std.specs.Prelude.{◌≡◌, ◌+◌, length, chars, nat_le, None, IfOk};
ghost use Rattle.serde_json.specs.Find.{as_str, as_bool};
ghost use Rattle.serde_json.specs.View.{view};
ghost use Rattle.kds_defs.specs.declared.limits.TheConstants.{RECORD_BYTES as most_bytes};
ghost use Rattle.kds_json_members.specs.Results.{Gives};
ghost use Rattle.kds_json_members.specs.Member.{object_view, required_at, optional_at};
ghost use Rattle.kds_json_members.specs.Kinds.{name_in, some_name_in, mode_in, scaling_in, is_partition_key as is_key};
ghost use Rattle.kds_json_members.specs.Kinds.{key_in, blob_in};

use crate::member::{member, required_member, stop_at, value_at};
use crate::problem::{FaultKind, Stop};
use kds_base::{Memory, Name, Octets};
use kds_defs::limits::{KEY_CHARACTERS, RECORD_BYTES};
use kds_token::decoded;
use serde_json::{Map, Value};
use std::alloc::Global;

/// Reads the required member `name` as a string.
#[tactic(auto, unfolding(crate::specs::Member::required_at))]
pub fn text_member<'a>(
    alloc: Global,
    object: &'a Map<String, Value>,
    name: &str,
) -> Result<&'a str, Stop>
    ensures { Gives (λ s. s.now) result (required_at as_str name.now (object_view object.now)) }
{
    let value = required_member(alloc, object, name)?;
    match value.as_str() {
        Some(text) => Ok(text),
        None => Err(stop_at(alloc, FaultKind::Invalid, name)),
    }
}

fn name_value(alloc: Global, value: &Value) -> Result<Option<Name>, Memory>
    ensures { IfOk result (λ o. o ≡ name_in (view value.now)) }
{
    match value.as_str() {
        Some(text) => Name::read(alloc, text.as_bytes()),
        None => Ok(None),
    }
}

/// Reads the required member `name` as the name of a stream.
#[tactic(auto, unfolding(crate::specs::Member::required_at))]
pub fn name_member(alloc: Global, object: &Map<String, Value>, name: &str) -> Result<Name, Stop>
    ensures { Gives (λ x. x) result (required_at name_in name.now (object_view object.now)) }
{
    let value = required_member(alloc, object, name)?;
    let stream = name_value(alloc, value)?;
    value_at(alloc, FaultKind::Invalid, name, stream)
}

/// Reads the optional member `name` as the name of a stream. Returns `None` if the member is absent or null.
#[tactic(auto, unfolding(crate::specs::Member::optional_at))]
pub fn optional_name(
    alloc: Global,
    object: &Map<String, Value>,
    name: &str,
) -> Result<Option<Name>, Stop>
    ensures { Gives (λ x. x) result (optional_at None some_name_in name.now (object_view object.now)) }
{
    let Some(value) = member(object, name) else {
        return Ok(None);
    };
    match name_value(alloc, value)? {
        Some(stream) => Ok(Some(stream)),
        None => Err(stop_at(alloc, FaultKind::Invalid, name)),
    }
}

#[tactic(auto, using(crate::proofs::Nulls::text_unless_null))]
fn mode_value(value: &Value) -> Option<()>
    ensures { result ≡ mode_in (view value.now) }
{
    match value.get("StreamMode")?.as_str() {
        Some("PROVISIONED") => Some(()),
        _ => None,
    }
}

/// Checks the stream mode in the optional member `name`. Only provisioned streams exist, so the fault is `Invalid` if
/// the mode isn't PROVISIONED (Kinesis API Reference, StreamModeDetails).
#[tactic(auto, unfolding(crate::specs::Member::optional_at))]
pub fn mode_member(alloc: Global, object: &Map<String, Value>, name: &str) -> Result<(), Stop>
    ensures { Gives (λ u. u) result (optional_at tt mode_in name.now (object_view object.now)) }
{
    match member(object, name) {
        Some(value) => value_at(alloc, FaultKind::Invalid, name, mode_value(value)),
        None => Ok(()),
    }
}

fn scaling_value(value: &Value) -> Option<()>
    ensures { result ≡ scaling_in (view value.now) }
{
    match value.as_str() {
        Some("UNIFORM_SCALING") => Some(()),
        _ => None,
    }
}

/// Checks the kind of scaling in the required member `name`. The only valid kind is UNIFORM_SCALING. For any other
/// kind, the fault is `Invalid` (Kinesis API Reference, UpdateShardCount, ScalingType).
#[tactic(auto, unfolding(crate::specs::Member::required_at))]
pub fn scaling_member(alloc: Global, object: &Map<String, Value>, name: &str) -> Result<(), Stop>
    ensures { Gives (λ u. u) result (required_at scaling_in name.now (object_view object.now)) }
{
    let value = required_member(alloc, object, name)?;
    value_at(alloc, FaultKind::Invalid, name, scaling_value(value))
}

/// Reads the required member `name` as a boolean.
#[tactic(auto, unfolding(crate::specs::Member::required_at))]
pub fn truth_member(alloc: Global, object: &Map<String, Value>, name: &str) -> Result<bool, Stop>
    ensures { Gives (λ b. b) result (required_at as_bool name.now (object_view object.now)) }
{
    let value = required_member(alloc, object, name)?;
    value_at(alloc, FaultKind::Invalid, name, value.as_bool())
}

fn character_count(text: &str) -> usize
    ensures { result ≡ length (chars text.now) }
{
    text.chars().count()
}

/// Whether `text` is a valid partition key, which has 1 to 256 characters (Kinesis API Reference, PutRecord,
/// PartitionKey).
fn is_partition_key(text: &str) -> bool
    ensures { result ≡ is_key text.now }
{
    let count = character_count(text) as u64;
    1 <= count && count <= KEY_CHARACTERS
}

fn key_value(alloc: Global, value: &Value) -> Result<Option<Octets>, Memory>
    ensures { IfOk result (λ o. o ≡ key_in (view value.now)) }
{
    let Some(text) = value.as_str() else {
        return Ok(None);
    };
    if is_partition_key(text) {
        Ok(Some(Octets::of(alloc, text.as_bytes())?))
    } else {
        Ok(None)
    }
}

/// Reads the required member `name` as a partition key, and returns the key in UTF-8.
#[tactic(auto, unfolding(crate::specs::Member::required_at))]
pub fn key_member(alloc: Global, object: &Map<String, Value>, name: &str) -> Result<Octets, Stop>
    ensures { Gives (λ x. x) result (required_at key_in name.now (object_view object.now)) }
{
    let value = required_member(alloc, object, name)?;
    let key = key_value(alloc, value)?;
    value_at(alloc, FaultKind::Invalid, name, key)
}

/// Whether a payload of `payload_bytes` bytes and a partition key of `key_bytes` bytes are together within the limit on
/// the bytes of a record (Kinesis API Reference, PutRecord, Data).
fn fits(payload_bytes: usize, key_bytes: usize) -> bool
    ensures { result ≡ nat_le (payload_bytes + key_bytes) most_bytes }
{
    let key_bytes = key_bytes as u64;
    key_bytes <= RECORD_BYTES && payload_bytes as u64 <= RECORD_BYTES - key_bytes
}

fn blob_value(alloc: Global, value: &Value, key_bytes: usize) -> Result<Option<Octets>, Memory>
    ensures { IfOk result (λ o. o ≡ blob_in key_bytes (view value.now)) }
{
    let Some(text) = value.as_str() else {
        return Ok(None);
    };
    match decoded(alloc, text.as_bytes())? {
        Some(bytes) => {
            if fits(bytes.as_slice().len(), key_bytes) {
                Ok(Some(bytes))
            } else {
                Ok(None)
            }
        }
        None => Ok(None),
    }
}

/// Reads the required member `name`, a base64 string, as the payload of a record. The payload and the record's
/// partition key, which has `key_bytes` bytes, must together be within the limit on the bytes of a record.
#[tactic(auto, unfolding(crate::specs::Member::required_at))]
pub fn blob_member(
    alloc: Global,
    object: &Map<String, Value>,
    name: &str,
    key_bytes: usize,
) -> Result<Octets, Stop>
    ensures { Gives (λ x. x) result (required_at (blob_in key_bytes) name.now (object_view object.now)) }
{
    let value = required_member(alloc, object, name)?;
    let payload = blob_value(alloc, value, key_bytes)?;
    value_at(alloc, FaultKind::Invalid, name, payload)
}
