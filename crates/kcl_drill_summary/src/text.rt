//! Writes the text of a drill's summary. A drill is a self-test whose input is generated from a number.
ghost use Rattle.std.specs.Prelude.{◌≡◌, ◌+◌, ◌<◌, ◌^◌, ◌++◌, flat_map, IfOk, OnOk};
ghost use Rattle.kcl_script_fields.specs.Answers.{checkpoint_text};
ghost use Rattle.kcl_drill.specs.Summed.{line_text, sum_of, text_of as told_text};
ghost use Rattle.kcl_drill_summary.specs.Counting.{AreFew};

use crate::summing::ShardSum;
use kds_base::{Checkpoint, Memory, Octets, write_u64, write_u128};
use kds_token::shard_id;
use std::alloc::Global;

/// Adds the text of the checkpoint `at` to `to`.
fn write_checkpoint(alloc: Global, at: Checkpoint, to: &mut Octets) -> Result<(), Memory>
    ensures { OnOk result (to.new ≡ to.old ++ checkpoint_text at) }
{
    match at {
        Checkpoint::TrimHorizon => to.extend(b"TRIM_HORIZON".as_slice()),
        Checkpoint::At(q) => write_u64(alloc, q.0, to),
        Checkpoint::ShardEnd => to.extend(b"SHARD_END".as_slice()),
    }
}

/// Adds the summary's line for one shard to `to`: the shard ID, the number of records, and the checkpoint.
fn write_line(alloc: Global, x: &ShardSum, to: &mut Octets) -> Result<(), Memory>
    ensures { OnOk result (to.new ≡ to.old ++ line_text x.now) }
{
    to.extend(shard_id(x.no).as_bytes())?;
    to.extend(b" ".as_slice())?;
    write_u64(alloc, x.count, to)?;
    to.extend(b" ".as_slice())?;
    write_checkpoint(alloc, x.checkpoint, to)?;
    to.extend(b"\n".as_slice())
}

/// Returns the total number of records over all these shards.
fn records_of(sums: &[ShardSum]) -> u128
    ensures { sum_of (λ x. x.count) sums.now < 2 ^ 128 → result ≡ sum_of (λ x. x.count) sums.now }
{
    let mut all: u128 = 0;
    for x in sums {
        all = all.saturating_add(u128::from(x.count));
    }
    all
}

/// Returns the total number of payload bytes over all these shards.
fn bytes_of(sums: &[ShardSum]) -> u128
    ensures { sum_of (λ x. x.bytes) sums.now < 2 ^ 128 → result ≡ sum_of (λ x. x.bytes) sums.now }
{
    let mut all: u128 = 0;
    for x in sums {
        all = all.saturating_add(x.bytes);
    }
    all
}

/// Returns the summary's lines for these shards, one line for each shard.
fn lines_of(alloc: Global, sums: &[ShardSum]) -> Result<Octets, Memory>
    ensures { IfOk result (λ t. t ≡ flat_map line_text sums.now) }
{
    let mut to = Octets::new(alloc);
    for x in sums {
        write_line(alloc, x, &mut to)?;
    }
    Ok(to)
}

/// Returns the summary's lines for these shards, followed by the line with the totals over all these shards.
pub fn text_of(alloc: Global, sums: &[ShardSum]) -> Result<Octets, Memory>
    ensures { AreFew sums.now → IfOk result (λ t. t ≡ told_text sums.now) }
{
    let mut to = lines_of(alloc, sums)?;
    to.extend(b"total ".as_slice())?;
    write_u128(alloc, records_of(sums), &mut to)?;
    to.extend(b" ".as_slice())?;
    write_u128(alloc, bytes_of(sums), &mut to)?;
    to.extend(b"\n".as_slice())?;
    Ok(to)
}
