//! The operations of the service and their names.
ghost use Rattle.std.specs.Prelude.{◌≡◌};
ghost use Rattle.kds_json.specs.Asked.{operation_named as named, last_twelve_named as reads};
ghost use Rattle.kds_json.specs.Asked.{last_eight_named as writes};
ghost use Rattle.kds_json.specs.Asked.{last_four_named as sets};

/// An operation of the service (Kinesis API Reference, Actions).
#[derive(Clone, Copy)]
pub enum Operation {
    CreateStream,
    DeleteStream,
    ListStreams,
    DescribeStream,
    DescribeStreamSummary,
    ListShards,
    GetShardIterator,
    GetRecords,
    PutRecord,
    PutRecords,
    SplitShard,
    MergeShards,
    IncreaseRetention,
    DecreaseRetention,
    UpdateShardCount,
    /// The operation LocalEnforceLimits, which only this project has.
    EnforceLimits,
}

// The sixteen names are compared in four functions with four comparisons each, because the prover takes far longer for
// a single function with sixteen comparisons.

/// Returns the operation called `name`, or `None` if there is no such operation.
pub fn operation_named(name: &[u8]) -> Option<Operation>
    ensures { result ≡ named name.now }
{
    if name == b"CreateStream".as_slice() {
        Some(Operation::CreateStream)
    } else if name == b"DeleteStream".as_slice() {
        Some(Operation::DeleteStream)
    } else if name == b"ListStreams".as_slice() {
        Some(Operation::ListStreams)
    } else if name == b"DescribeStream".as_slice() {
        Some(Operation::DescribeStream)
    } else {
        last_twelve_named(name)
    }
}

/// Returns the operation called `name` if it is one of twelve operations. This function itself finds the four
/// operations that read streams, shards and records. The two functions below find the other eight.
fn last_twelve_named(name: &[u8]) -> Option<Operation>
    ensures { result ≡ reads name.now }
{
    if name == b"DescribeStreamSummary".as_slice() {
        Some(Operation::DescribeStreamSummary)
    } else if name == b"ListShards".as_slice() {
        Some(Operation::ListShards)
    } else if name == b"GetShardIterator".as_slice() {
        Some(Operation::GetShardIterator)
    } else if name == b"GetRecords".as_slice() {
        Some(Operation::GetRecords)
    } else {
        last_eight_named(name)
    }
}

/// Returns the operation called `name` if it is one of eight operations. This function itself finds the four operations
/// that write records or change shards. The function below finds the other four.
fn last_eight_named(name: &[u8]) -> Option<Operation>
    ensures { result ≡ writes name.now }
{
    if name == b"PutRecord".as_slice() {
        Some(Operation::PutRecord)
    } else if name == b"PutRecords".as_slice() {
        Some(Operation::PutRecords)
    } else if name == b"SplitShard".as_slice() {
        Some(Operation::SplitShard)
    } else if name == b"MergeShards".as_slice() {
        Some(Operation::MergeShards)
    } else {
        last_four_named(name)
    }
}

/// Returns the operation called `name` if it is one of the four operations that change the settings of a stream.
fn last_four_named(name: &[u8]) -> Option<Operation>
    ensures { result ≡ sets name.now }
{
    if name == b"IncreaseStreamRetentionPeriod".as_slice() {
        Some(Operation::IncreaseRetention)
    } else if name == b"DecreaseStreamRetentionPeriod".as_slice() {
        Some(Operation::DecreaseRetention)
    } else if name == b"UpdateShardCount".as_slice() {
        Some(Operation::UpdateShardCount)
    } else if name == b"LocalEnforceLimits".as_slice() {
        Some(Operation::EnforceLimits)
    } else {
        None
    }
}
