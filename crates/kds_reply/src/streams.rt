//! Descriptions of streams and lists of stream names as JSON values.
ghost use Rattle.std.specs.Prelude.{◌≡◌, ◌++◌, codes, map, IfOk, string_bytes};
ghost use Rattle.serde_json.specs.Data.{string};
ghost use Rattle.serde_json.specs.View.{view, members_view};
ghost use Rattle.kds_reply.specs.Streams.{streams_data, monitoring_data, about_members, description_data};
ghost use Rattle.kds_reply.specs.Streams.{description_summary_data, described_data, summary_data, scaled_data};

use crate::shards::shard_values;
use kds_base::{Memory, Name};
use kds_defs::{About, Shard};
use kds_reply_texts::seconds;
use serde_json::{Map, Value, json, push, put};
use std::alloc::Global;

/// Returns a stream's name as a string. The name is ASCII, so the conversion to UTF-8 replaces no character.
fn name_text(alloc: Global, name: &Name) -> Result<String, Memory>
    ensures { IfOk result (λ s. string_bytes s ≡ name.now) }
{
    Ok(String::from_utf8_lossy(alloc, name.bytes())?)
}

fn name_values(alloc: Global, names: &[Name]) -> Result<Vec<Value>, Memory>
    ensures { IfOk result (λ vs. map view vs.items ≡ map string names.now) }
{
    let mut values = Vec::new(alloc);
    for name in names {
        let text = name_text(alloc, name)?;
        push(&mut values, Value::from(text))?;
    }
    Ok(values)
}

/// Returns the names of streams, and whether more names follow, as a JSON object (Kinesis API Reference, ListStreams,
/// Response Elements).
#[tactic(auto, unfolding(crate::specs::Streams::streams_data))]
pub fn streams_value(alloc: Global, names: &[Name], more: bool) -> Result<Value, Memory>
    ensures { IfOk result (λ v. view v ≡ streams_data names.now more) }
{
    let names = name_values(alloc, names)?;
    Ok(json!(in alloc; {"HasMoreStreams": more, "StreamNames": names})?)
}

/// Returns the value of the member EnhancedMonitoring. The service keeps no shard-level metrics, so the list of metrics
/// is empty (Kinesis API Reference, EnhancedMetrics).
fn monitoring_value(alloc: Global) -> Result<Value, Memory>
    ensures { IfOk result (λ v. view v ≡ monitoring_data) }
{
    Ok(json!(in alloc; [{"ShardLevelMetrics": []}])?)
}

/// Returns the ARN of the stream called `name` (Kinesis API Reference, StreamDescription, StreamARN).
fn arn_text(alloc: Global, name: &str) -> Result<String, Memory>
    ensures { IfOk result (λ s. string_bytes s ≡ codes "arn:aws:kinesis:local:000000000000:stream/" ++ name.now) }
{
    Ok(format!(in alloc; "arn:aws:kinesis:local:000000000000:stream/{name}")?)
}

/// Returns the members that a stream's description and its summary have in common (Kinesis API Reference,
/// StreamDescription and StreamDescriptionSummary).
fn common_members(alloc: Global, about: &About) -> Result<Map<String, Value>, Memory>
    ensures { IfOk result (λ m. members_view m.entries ≡ about_members about.now) }
{
    let name = name_text(alloc, &about.name)?;
    let arn = arn_text(alloc, name.as_str())?;
    let monitoring = monitoring_value(alloc)?;
    let status = String::from_str(alloc, "ACTIVE")?;
    let made = Value::from(seconds(about.made));
    let mut members = Map::new(alloc);
    put(&mut members, alloc, "EnhancedMonitoring", monitoring)?;
    put(
        &mut members,
        alloc,
        "RetentionPeriodHours",
        Value::from(about.hours),
    )?;
    put(&mut members, alloc, "StreamARN", Value::from(arn))?;
    put(&mut members, alloc, "StreamCreationTimestamp", made)?;
    put(&mut members, alloc, "StreamName", Value::from(name))?;
    put(&mut members, alloc, "StreamStatus", Value::from(status))?;
    Ok(members)
}

/// Returns the description of a stream as a JSON object. The object has the shards in `shards`, and says whether more
/// shards follow (Kinesis API Reference, StreamDescription).
#[tactic(auto, unfolding(crate::specs::Streams::description_data))]
fn description_value(
    alloc: Global,
    about: &About,
    shards: &[Shard],
    more: bool,
) -> Result<Value, Memory>
    ensures { IfOk result (λ v. view v ≡ description_data about.now shards.now more) }
{
    let shards = shard_values(alloc, shards)?;
    let mut members = common_members(alloc, about)?;
    put(&mut members, alloc, "HasMoreShards", Value::from(more))?;
    put(&mut members, alloc, "Shards", Value::Array(shards))?;
    Ok(Value::Object(members))
}

/// Returns the summary of a stream as a JSON object, with the number of its open shards (Kinesis API Reference,
/// StreamDescriptionSummary).
#[tactic(auto, unfolding(crate::specs::Streams::description_summary_data))]
fn description_summary_value(
    alloc: Global,
    about: &About,
    open_shards: u32,
) -> Result<Value, Memory>
    ensures { IfOk result (λ v. view v ≡ description_summary_data about.now open_shards) }
{
    let mut members = common_members(alloc, about)?;
    put(
        &mut members,
        alloc,
        "OpenShardCount",
        Value::from(open_shards),
    )?;
    Ok(Value::Object(members))
}

/// Returns the body of the reply to DescribeStream (Kinesis API Reference, DescribeStream, Response Elements).
#[tactic(auto, unfolding(crate::specs::Streams::described_data))]
pub fn described_value(
    alloc: Global,
    about: &About,
    shards: &[Shard],
    more: bool,
) -> Result<Value, Memory>
    ensures { IfOk result (λ v. view v ≡ described_data about.now shards.now more) }
{
    let description = description_value(alloc, about, shards, more)?;
    Ok(json!(in alloc; {"StreamDescription": description})?)
}

/// Returns the body of the reply to DescribeStreamSummary (Kinesis API Reference, DescribeStreamSummary, Response
/// Elements).
#[tactic(auto, unfolding(crate::specs::Streams::summary_data))]
pub fn summary_value(alloc: Global, about: &About, open_shards: u32) -> Result<Value, Memory>
    ensures { IfOk result (λ v. view v ≡ summary_data about.now open_shards) }
{
    let summary = description_summary_value(alloc, about, open_shards)?;
    Ok(json!(in alloc; {"StreamDescriptionSummary": summary})?)
}

/// Returns the body of the reply to UpdateShardCount as a JSON object: the stream's name, its number of open shards
/// before the scaling, and the target number (Kinesis API Reference, UpdateShardCount, Response Elements).
#[tactic(auto, unfolding(crate::specs::Streams::scaled_data))]
pub fn scaled_value(alloc: Global, name: &Name, before: u32, target: u32) -> Result<Value, Memory>
    ensures { IfOk result (λ v. view v ≡ scaled_data name.now before target) }
{
    let name = name_text(alloc, name)?;
    Ok(
        json!(in alloc; {"CurrentShardCount": before, "StreamName": name, "TargetShardCount": target})?,
    )
}
