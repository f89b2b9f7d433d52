//! Checks that a machine has the records that the passes put. A turn is one command to the machine, and a pass is the
//! right of one thread to make turns. Each pass puts one record in each round.

use crate::commands::{SHARDS, put, read};
use kds_base::{Items, Memory, Moment, read_u64};
use kds_defs::{Answer, Command, Machine, Reply, Stored, Turn};
use std::alloc::Global;

/// The maximum number of records that one read returns.
const MOST: u32 = 10_000;

/// Which record of each pass is expected next: `rounds[n]` is the round in which the pass `n` put this record.
#[derive(Drop)]
struct Next {
    rounds: Vec<u32>,
}

/// Whether `record` has the partition key and the payload of the record that the pass `by` put in the round `round`.
fn is_put(alloc: Global, record: &Stored, by: u32, round: u32) -> Result<bool, Memory> {
    match put(alloc, by, round)? {
        Command::Put { name: _, item } => {
            Ok(
                record.key.as_slice() == item.key.as_slice()
                    && record.payload.as_slice() == item.payload.as_slice(),
            )
        }
        _ => Ok(false),
    }
}

/// Returns the number of the pass that put `record`. This number is the record's partition key. The result is `None` if
/// the key isn't a number below 2^32.
fn pass_of(record: &Stored) -> Option<u32> {
    let by = read_u64(record.key.as_slice())?;
    u32::try_from(by).ok()
}

impl Next {
    /// Counts `record` as read, and returns whether it was the expected next record of its pass.
    fn go_past(&mut self, alloc: Global, record: &Stored) -> Result<bool, Memory> {
        let Some(by) = pass_of(record) else {
            return Ok(false);
        };
        let Some(next) = self.rounds.as_mut_slice().get_mut(by as usize) else {
            return Ok(false);
        };
        let round = *next;
        *next = round.saturating_add(1);
        is_put(alloc, record, by, round)
    }
}

/// Returns the records in the answer to a read, and the position at which the next read begins. The result is `None` if
/// the answer isn't a list of records, or if it says that the shard has ended.
pub fn records_of(answer: Answer) -> Option<(Items<Stored>, u64)> {
    match answer {
        Ok(
            Reply::Records {
                batch,
                next,
                behind: _,
                children: _,
            },
        ) => match next {
            Some(after) => Some((batch, after.position)),
            None => None,
        },
        _ => None,
    }
}

/// Reads a shard from its beginning to its end, and returns whether each record was the expected next record of its
/// pass. Reading stops at the first unexpected record.
fn read_shard<M: Machine>(
    alloc: Global,
    machine: &mut M,
    shard: u64,
    next: &mut Next,
) -> Result<bool, Memory> {
    let now = Moment::new(1_000_000).unwrap();
    let mut position = 0u64;
    for _ in 0..u32::MAX {
        let turn = Turn {
            by: 0,
            at: now,
            what: read(shard, position, MOST, now),
        };
        let Some((batch, position_after)) = records_of(machine.apply(turn)?) else {
            return Ok(false);
        };
        if batch.as_slice().is_empty() {
            return Ok(true);
        }
        for record in batch.as_slice() {
            if !next.go_past(alloc, record)? {
                return Ok(false);
            }
        }
        position = position_after;
    }
    Ok(false)
}

/// Whether, for each pass from 1 to `last`, the machine has the record of each round exactly once and in order. Rounds
/// are counted from 0 to `rounds` - 1.
pub fn is_sound<M: Machine>(
    alloc: Global,
    machine: &mut M,
    last: u32,
    rounds: u32,
) -> Result<bool, Memory> {
    let mut next = Next {
        rounds: vec![in alloc; 0u32; last as usize + 1]?,
    };
    for shard in 0..SHARDS {
        if !read_shard(alloc, machine, shard, &mut next)? {
            return Ok(false);
        }
    }
    Ok(next.rounds.iter().skip(1).all(|n| *n == rounds))
}
