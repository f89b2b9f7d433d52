//! The order of lease keys.
ghost use Rattle.std.specs.Prelude.{◌≡◌};
ghost use Rattle.kds_defs.specs.Keys.{is_before};

use kds_base::ShardRef;

/// Whether the key `a` comes before the key `b`. Keys are ordered by stream number, and within a stream by shard
/// number.
pub fn is_before(a: &ShardRef, b: &ShardRef) -> bool
    ensures { result ≡ is_before a.now b.now }
{
    if a.stream == b.stream {
        a.shard < b.shard
    } else {
        a.stream < b.stream
    }
}
