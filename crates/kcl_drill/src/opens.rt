//! The open shards of a drill's stream, computed from the drill's own commands. A drill is a self-test whose input is
//! generated from a number.
ghost use Rattle.std.specs.Prelude.{◌≡◌, ◌+◌, ◌-◌, true, ◌==◌, ◌<◌, IfOk, OnOk, OnErr, [], ◌^◌, Some};
ghost use Rattle.kds_base.specs.Span.{is_followed_by, is_inside};
ghost use Rattle.kcl_drill.specs.Generated.{first_open, is_lowest, lowest, next_to, all_but, after_split, after_merge};

use crate::limits::FIRST_SHARDS;
use kds_base::{Memory, Range};
use std::alloc::Global;
use std::marker::Model;

/// An open shard: its number and its range of hash keys.
#[derive(Clone, Copy)]
pub struct OpenShard {
    pub no: u64,
    pub range: Range,
}

/// The open shards in the order of their numbers, and the number that the next new shard gets.
#[derive(Drop)]
pub struct OpenShards {
    all: Vec<OpenShard>,
    next: u64,
}

impl Model for OpenShards {
    ghost use Rattle.kcl_drill.specs.Generated.{Opens};

    ghost Value = { Opens };

    ghost view = { λ o. record { all = o.all.items; next = o.next } };
}

/// Whether the range of `x` starts first: no shard in `all` has a range that starts earlier.
fn is_lowest_of(all: &[OpenShard], x: &OpenShard) -> bool
    ensures { result ≡ is_lowest all.now x.now }
{
    all.iter().all(|y| x.range.start <= y.range.start)
}

/// Whether the range `s` starts right after the range `r` ends.
fn is_followed_by(r: &Range, s: &Range) -> bool
    ensures { result ≡ is_followed_by r.now s.now }
{
    r.end < s.start && s.start - r.end == 1
}

/// Returns the shards in `all` whose number isn't `no`.
fn all_but(alloc: Global, all: &[OpenShard], no: u64) -> Result<Vec<OpenShard>, Memory>
    ensures { IfOk result (λ others. others.items ≡ all_but no all.now) }
{
    let mut others = Vec::new(alloc);
    for x in all {
        if x.no != no {
            others.push(*x)?;
        }
    }
    Ok(others)
}

impl OpenShards {
    /// Returns an empty list of open shards. The next new shard gets the number 0.
    pub fn none(alloc: Global) -> OpenShards
        ensures none { result.all ≡ [] }
        ensures next { result.next ≡ 0 }
    {
        OpenShards {
            all: Vec::new(alloc),
            next: 0,
        }
    }

    /// Returns the open shards of a drill's stream that has just been created.
    pub fn first(alloc: Global) -> Result<OpenShards, Memory>
        ensures { IfOk result (λ o. o ≡ first_open) }
    {
        let ranges = Range::uniform(alloc, FIRST_SHARDS)?;
        let mut all = Vec::new(alloc);
        let mut next = 0;
        for range in ranges.as_slice() {
            all.push(OpenShard {
                no: next,
                range: *range,
            })?;
            next += 1;
        }
        Ok(OpenShards { all, next })
    }

    /// Returns the open shards in the order in which they were made.
    pub fn as_slice(&self) -> &[OpenShard]
        ensures { result.now ≡ self.now.all }
    {
        self.all.as_slice()
    }

    /// Returns the open shard whose range starts first, or `None` if no shard is open.
    pub fn lowest(&self) -> Option<OpenShard>
        ensures { result ≡ lowest self.now.all }
    {
        let all = self.all.as_slice();
        all.iter().copied().find(|x| is_lowest_of(all, x))
    }

    /// Returns the open shard whose range starts right after `range` ends, or `None` if there is no such shard.
    pub fn next_to(&self, range: &Range) -> Option<OpenShard>
        ensures { result ≡ next_to range.now self.now.all }
    {
        self.all
            .iter()
            .copied()
            .find(|y| is_followed_by(range, &y.range))
    }
}

impl OpenShards {
    /// Splits the open shard `x` at the hash key `at`: `x` closes, and two new shards open, one for each part of the
    /// range of `x`. Preconditions: neither part is empty, and two more shard numbers fit into 64 bits. If memory runs
    /// out, nothing changes.
    pub fn split(&mut self, alloc: Global, x: OpenShard, at: u128) -> Result<(), Memory>
        requires inside { is_inside x.range at ≡ true }
        requires unspent { self.old.next + 1 < 2 ^ 64 - 1 }
        ensures ok { OnOk result (self.new ≡ after_split self.old x at) }
        ensures err { OnErr result (self.new ≡ self.old) }
    {
        let Some((lower, upper)) = x.range.split(at) else {
            unreachable!()
        };
        let lower = OpenShard {
            no: self.next,
            range: lower,
        };
        let upper = OpenShard {
            no: self.next + 1,
            range: upper,
        };
        let mut all = all_but(alloc, self.all.as_slice(), x.no)?;
        all.extend_from_slice(&[lower, upper])?;
        self.all = all;
        self.next += 2;
        Ok(())
    }

    /// Merges the open shards `x` and `y`: both close, and a new shard opens, whose range joins both ranges.
    /// Preconditions: the range of `y` starts right after that of `x` ends, and another shard number fits into 64 bits.
    /// If memory runs out, nothing changes.
    pub fn merge(&mut self, alloc: Global, x: OpenShard, y: OpenShard) -> Result<(), Memory>
        requires adjacent { is_followed_by x.range y.range ≡ true }
        requires unspent { self.old.next < 2 ^ 64 - 1 }
        ensures ok { OnOk result (self.new ≡ after_merge self.old x y) }
        ensures err { OnErr result (self.new ≡ self.old) }
    {
        let Some(range) = x.range.join(&y.range) else {
            unreachable!()
        };
        let others = all_but(alloc, self.all.as_slice(), x.no)?;
        let mut all = all_but(alloc, others.as_slice(), y.no)?;
        all.push(OpenShard {
            no: self.next,
            range,
        })?;
        self.all = all;
        self.next += 1;
        Ok(())
    }
}
