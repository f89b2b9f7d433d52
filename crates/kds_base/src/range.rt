//! Ranges of hash keys.
ghost use Rattle.std.specs.Prelude.{◌≡◌, ◌==◌, ◌+◌, ◌-◌, ◌*◌, ◌/◌, ◌^◌, ◌<◌, ◌≤◌, ◌↔◌, IsTrue, SomeIff, IfOk};
ghost use Rattle.std.specs.Prelude.{if◌then◌else◌};
ghost use Rattle.kds_base.specs.Span.{Covers, is_followed_by, last_key, parts, union, uniform};

use crate::items::Items;
use crate::memory::Memory;
use std::alloc::Global;
use std::marker::Model;

/// The greatest hash key, 2^128 - 1.
const LAST_KEY: u128 = u128::MAX;

/// A range of hash keys from `start` to `end`, both included (Kinesis API Reference, HashKeyRange). In contracts, its
/// value has the same two ends, and `start` is at most `end`.
#[derive(Clone, Copy, Debug, PartialEq, Eq)]
pub struct Range {
    pub start: u128,
    pub end: u128,
}

impl Model for Range {
    ghost use Rattle.std.specs.Prelude.{◌≤◌};
    ghost use Rattle.kds_base.specs.Span.{Span};

    ghost Value = { Span };

    ghost view = { λ r. record { start = r.start; end = r.end } };

    ghost invariant = { λ r. r.start ≤ r.end };

    ghost inverse = { λ s. record { start = s.start; end = s.end } };
}

impl Range {
    /// Returns the range from `start` to `end`, or `None` if `start > end`.
    pub fn new(start: u128, end: u128) -> Option<Range>
        ensures { SomeIff result (start ≤ end) (record { start = start; end = end }) }
    {
        if start <= end {
            Some(Range { start, end })
        } else {
            None
        }
    }

    /// Whether the range contains the key.
    pub fn contains(&self, key: u128) -> bool
        ensures { IsTrue result ↔ Covers self.now key }
    {
        self.start <= key && key <= self.end
    }

    /// Splits the range into two parts: the keys below `at`, and the keys from `at` on. Both parts must be non-empty:
    /// returns `Some` if `start < at <= end`, and otherwise `None` (Kinesis API Reference, SplitShard,
    /// NewStartingHashKey).
    pub fn split(&self, at: u128) -> Option<(Range, Range)>
        ensures { result ≡ parts self.now at }
    {
        if self.start < at && at <= self.end {
            let lower = Range {
                start: self.start,
                end: at - 1,
            };
            let upper = Range {
                start: at,
                end: self.end,
            };
            Some((lower, upper))
        } else {
            None
        }
    }

    /// Whether `other` starts right after this range ends.
    fn is_followed_by(&self, other: &Range) -> bool
        ensures { result ≡ is_followed_by self.now other.now }
    {
        self.end < other.start && other.start - self.end == 1
    }

    /// Returns the union of the two ranges if they are adjacent, that is, if one of them starts right after the other
    /// ends. Otherwise returns `None` (Kinesis API Reference, MergeShards).
    pub fn join(&self, other: &Range) -> Option<Range>
        ensures { result ≡ union self.now other.now }
    {
        if self.is_followed_by(other) {
            Some(Range {
                start: self.start,
                end: other.end,
            })
        } else if other.is_followed_by(self) {
            Some(Range {
                start: other.start,
                end: self.end,
            })
        } else {
            None
        }
    }

    /// Returns the ranges of hash keys for the `n` shards of a new stream. The range with index `i`, counted from 0,
    /// starts at `i * floor(2^128 / n)`. The last range ends at the greatest key, and each other range ends right
    /// before the next one starts.
    pub fn uniform(alloc: Global, n: u32) -> Result<Items<Range>, Memory>
        requires { 1 ≤ n }
        ensures { IfOk result (λ ranges. ranges ≡ uniform n) }
    {
        let mut ranges = Items::new(alloc);
        for i in 0..n {
            let start = uniform_start(i, n);
            let end = uniform_end(i, n);
            ranges.push(Range { start, end })?;
        }
        Ok(ranges)
    }
}

/// Returns the first key of the range with index `i`, counted from 0, among `n` uniform ranges.
fn uniform_start(i: u32, n: u32) -> u128
    requires { i < n }
    ensures { result ≡ i * (2 ^ 128 / n) }
{
    let (i, n) = (u128::from(i), u128::from(n));
    // The width of a range is `2^128 / n`, rounded down. Since 2^128 doesn't fit in a u128, the quotient below is one
    // less than this width. The final `+ i` makes up for this difference.
    i * ((u128::MAX - (n - 1)) / n) + i
}

/// Returns the last key of the range with index `i`, counted from 0, among `n` uniform ranges.
fn uniform_end(i: u32, n: u32) -> u128
    requires { i < n }
    ensures { result ≡ (if i + 1 == n then last_key else (i + 1) * (2 ^ 128 / n) - 1) }
{
    if i + 1 < n {
        uniform_start(i + 1, n) - 1
    } else {
        LAST_KEY
    }
}
