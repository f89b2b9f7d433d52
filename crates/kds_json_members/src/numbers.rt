//! Reads members that are numbers, moments, hash keys, sequence numbers or shard IDs. The fault is `Missing` if a
//! required member is absent or null, and `Invalid` if the value of a member isn't of the described kind.
ghost use Rattle.std.specs.Prelude.{◌≡◌, None};
ghost use Rattle.serde_json.specs.View.{view};
ghost use Rattle.kds_json_members.specs.Results.{Gives};
ghost use Rattle.kds_json_members.specs.Member.{object_view, required_at, optional_at};
ghost use Rattle.kds_json_members.specs.Kinds.{number_in, moment_in, hash_in, hash_at, sequence_in, id_in, some_id_in};

use crate::member::{member, required_member, stop_at, value_at};
use crate::problem::{FaultKind, Stop};
use kds_base::{Moment, Octets, Seq, ShardNo, hash_of, read_u64, read_u128};
use kds_defs::limits::MOST_SECONDS;
use kds_token::read_shard_id;
use serde_json::{Map, Value};
use std::alloc::Global;

fn number_value(value: &Value, low: u32, high: u32) -> Option<u32>
    ensures { result ≡ number_in low high (view value.now) }
{
    match value.as_u64() {
        Some(n) if n >= low as u64 && n <= high as u64 => Some(n as u32),
        _ => None,
    }
}

/// Reads the required member `name` as a whole number from `low` to `high`.
#[tactic(auto, unfolding(crate::specs::Member::required_at))]
pub fn number_member(
    alloc: Global,
    object: &Map<String, Value>,
    name: &str,
    low: u32,
    high: u32,
) -> Result<u32, Stop>
    ensures { Gives (λ x. x) result (required_at (number_in low high) name.now (object_view object.now)) }
{
    let value = required_member(alloc, object, name)?;
    let number = number_value(value, low, high);
    value_at(alloc, FaultKind::Invalid, name, number)
}

/// Reads the optional member `name` as a whole number from 1 to `high`. Returns `default` if the member is absent or
/// null.
#[tactic(auto, unfolding(crate::specs::Member::optional_at))]
pub fn optional_limit(
    alloc: Global,
    object: &Map<String, Value>,
    name: &str,
    high: u32,
    default: u32,
) -> Result<u32, Stop>
    ensures { Gives (λ x. x) result (optional_at default (number_in 1 high) name.now (object_view object.now)) }
{
    match member(object, name) {
        Some(value) => value_at(
            alloc,
            FaultKind::Invalid,
            name,
            number_value(value, 1, high),
        ),
        None => Ok(default),
    }
}

fn moment_value(value: &Value) -> Option<Moment>
    ensures { result ≡ moment_in (view value.now) }
{
    match value.as_u64() {
        Some(seconds) if seconds <= MOST_SECONDS => Moment::new(seconds * 1000),
        _ => None,
    }
}

/// Reads the required member `name` as a moment. The member's value is a whole number of seconds, at most
/// `MOST_SECONDS` (Kinesis API Reference, GetShardIterator, Timestamp).
#[tactic(auto, unfolding(crate::specs::Member::required_at))]
pub fn moment_member(alloc: Global, object: &Map<String, Value>, name: &str) -> Result<Moment, Stop>
    ensures { Gives (λ x. x) result (required_at moment_in name.now (object_view object.now)) }
{
    let value = required_member(alloc, object, name)?;
    value_at(alloc, FaultKind::Invalid, name, moment_value(value))
}

fn hash_value(value: &Value) -> Option<u128>
    ensures { result ≡ hash_in (view value.now) }
{
    match value.as_str() {
        Some(text) => read_u128(text.as_bytes()),
        None => None,
    }
}

/// Reads the required member `name` as a hash key, which is a decimal number in a string.
#[tactic(auto, unfolding(crate::specs::Member::required_at))]
pub fn hash_member(alloc: Global, object: &Map<String, Value>, name: &str) -> Result<u128, Stop>
    ensures { Gives (λ x. x) result (required_at hash_in name.now (object_view object.now)) }
{
    let value = required_member(alloc, object, name)?;
    value_at(alloc, FaultKind::Invalid, name, hash_value(value))
}

/// Returns the hash key of a record. If the member `name` is present and not null, it is the explicit hash key in this
/// member. Otherwise it is the hash of the partition key `key` (Kinesis API Reference, PutRecord, ExplicitHashKey).
#[tactic(auto, unfolding(crate::specs::Kinds::hash_at, crate::specs::Member::optional_at))]
pub fn record_hash(
    alloc: Global,
    object: &Map<String, Value>,
    name: &str,
    key: &Octets,
) -> Result<u128, Stop>
    ensures { Gives (λ x. x) result (hash_at key.now name.now (object_view object.now)) }
{
    match member(object, name) {
        Some(value) => value_at(alloc, FaultKind::Invalid, name, hash_value(value)),
        None => Ok(hash_of(key)),
    }
}

fn sequence_value(value: &Value) -> Option<Seq>
    ensures { result ≡ sequence_in (view value.now) }
{
    match value.as_str() {
        Some(text) => match read_u64(text.as_bytes()) {
            Some(number) => Some(Seq(number)),
            None => None,
        },
        None => None,
    }
}

/// Reads the required member `name` as a sequence number, which is a decimal number in a string.
#[tactic(auto, unfolding(crate::specs::Member::required_at))]
pub fn sequence_member(alloc: Global, object: &Map<String, Value>, name: &str) -> Result<Seq, Stop>
    ensures { Gives (λ x. x) result (required_at sequence_in name.now (object_view object.now)) }
{
    let value = required_member(alloc, object, name)?;
    value_at(alloc, FaultKind::Invalid, name, sequence_value(value))
}

fn id_value(value: &Value) -> Option<ShardNo>
    ensures { result ≡ id_in (view value.now) }
{
    match value.as_str() {
        Some(text) => read_shard_id(text.as_bytes()),
        None => None,
    }
}

/// Reads the required member `name` as a shard ID, and returns the shard's number.
#[tactic(auto, unfolding(crate::specs::Member::required_at))]
pub fn shard_member(alloc: Global, object: &Map<String, Value>, name: &str) -> Result<ShardNo, Stop>
    ensures { Gives (λ x. x) result (required_at id_in name.now (object_view object.now)) }
{
    let value = required_member(alloc, object, name)?;
    value_at(alloc, FaultKind::Invalid, name, id_value(value))
}

/// Reads the optional member `name` as a shard ID, and returns the shard's number. Returns `None` if the member is
/// absent or null.
#[tactic(auto, unfolding(crate::specs::Member::optional_at))]
pub fn optional_id(
    alloc: Global,
    object: &Map<String, Value>,
    name: &str,
) -> Result<Option<ShardNo>, Stop>
    ensures { Gives (λ x. x) result (optional_at None some_id_in name.now (object_view object.now)) }
{
    let Some(value) = member(object, name) else {
        return Ok(None);
    };
    match id_value(value) {
        Some(shard) => Ok(Some(shard)),
        None => Err(stop_at(alloc, FaultKind::Invalid, name)),
    }
}
